//! A module with the places of its entries.
ghost use Rattle.std.specs.Prelude.{◌≡◌, ◌<◌, ◌≤◌, ◌^◌, IfOk, OnOk, IfErr, length, Some, None, slice_get};
ghost use Rattle.oc_base.specs.declared.limits.TheConstants.{MOST_INPUT};
ghost use Rattle.oc_linking.specs.FirstFault.{stage_fault};
ghost use Rattle.oc_omf_records.specs.NextEntry.{entry_of, end_of_entry, is_whole};
ghost use Rattle.oc_omf.specs.Entries as specs;
ghost use Rattle.oc_omf.specs.HeaderFaults.{header_stage};

use crate::constants::MODEND;
use oc_base::{NoMemory, View};
use oc_omf_records::Entry;
use std::alloc::Global;

/// Whether a type is the odd one of the two that its record has. Constant time.
pub fn is_wide(kind: u8) -> bool
    ensures { result ≡ specs.is_wide kind }
{
    kind % 2 == 1
}

/// Whether a type is one of the two of a record, which is named by the even one. Constant time.
pub fn is_kind(even: u8, kind: u8) -> bool
    ensures { result ≡ specs.is_kind even kind }
{
    kind - kind % 2 == even
}

// where the entry after the one at `at` is looked for; none after the last
fn next_place(file: &View<'_>, at: u32) -> Option<u32>
    requires small { length file.now ≤ MOST_INPUT }
    requires inside { at ≤ length file.now }
    ensures { result ≡ specs.next_place file.now at }
{
    let at = u64::from(at);
    let (Ok(kind), Ok(length)) = (file.u8_at(at), file.u16_at(at + 1)) else {
        return None;
    };
    let end = at + 3 + u64::from(length);
    if length == 0 || end > file.len() || is_kind(MODEND, kind) {
        return None;
    }
    Some(end as u32)
}

/// The places at which an entry is looked for, in bytes from the start of the file; the last is that
/// of MODEND, or of what is no entry. `NoMemory` where memory ran out. Linear in the entries.
pub fn places_of(alloc: Global, file: &View<'_>) -> Result<Vec<u32>, NoMemory>
    requires { length file.now ≤ MOST_INPUT }
    ensures { IfOk result (λ places. places.items ≡ specs.places_in file.now) }
{
    let mut places = Vec::new(alloc);
    let mut next = Some(0);
    while let Some(at) = next {
        places.push(at)?;
        next = next_place(file, at);
    }
    Ok(places)
}
