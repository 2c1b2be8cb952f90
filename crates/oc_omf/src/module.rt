//! A module whose entries have no fault by themselves, with their places.
ghost use Rattle.std.specs.Prelude.{◌≡◌, ◌+◌, ◌<◌, ◌≤◌, length, true, Some, slice_get, OnOk, IfOk, IfErr, None};
ghost use Rattle.oc_base.specs.declared.limits.TheConstants.{MOST_INPUT};
ghost use Rattle.oc_base.specs.Stops.{IsStop};
ghost use Rattle.oc_linking.specs.FirstFault.{stage_fault};
ghost use Rattle.oc_omf_records.specs.NextEntry.{entry_of, is_whole};
ghost use Rattle.oc_omf.specs.Entries.{places_in};
ghost use Rattle.oc_omf.specs.HeaderFaults.{header_stage, IsModule};

use crate::entries::places_of;
use crate::header_stage::check_entries;
use oc_base::{Stop, View, u8_in, u16_in};
use oc_omf_records::Entry;
use std::alloc::Global;
use std::marker::Model;

/// A module with the places of its entries. Contracts see the bytes of its file.
#[derive(Drop)]
pub struct Module<'a> {
    file: &'a [u8],
    places: Vec<u32>,
}

impl<'a> Model for Module<'a> {
    ghost use Rattle.std.specs.Prelude.{◌≡◌, ℕ, List};
    ghost use Rattle.oc_omf.specs.Entries.{places_in};
    ghost use Rattle.oc_omf.specs.HeaderFaults.{IsModule};

    ghost Value = { List ℕ };

    ghost view = { λ m. m.file.now };

    ghost invariant = { λ m. (m.places.items ≡ places_in m.file.now) × IsModule m.file.now };
}

impl<'a> Module<'a> {
    /// How many entries there are. Constant time.
    pub fn count(&self) -> u32
        ensures { result ≡ length (places_in self.now) }
    {
        self.places.len() as u32
    }

    /// Entry `i`. Constant time.
    pub fn entry(&self, i: u32) -> Entry<'a>
        requires { i < length (places_in self.now) }
        ensures place { slice_get (places_in self.now) i ≡ Some result.place }
        ensures entry { result ≡ entry_of self.now result.place }
        ensures small { result.place + length result.contents ≤ MOST_INPUT }
    {
        let at = self.places[i as usize];
        entry_in(self.file, at as usize)
    }

    /// What is known of it, for callers to cite. It does nothing.
    pub fn is_module(&self)
        ensures { IsModule self.now }
    {
        let _ = &self.places;
    }
}

// the entry at a place, where a whole one lies there
fn entry_in(file: &[u8], at: usize) -> Entry<'_>
    requires { is_whole file.now at ≡ true }
    ensures { result ≡ entry_of file.now at }
{
    let length = usize::from(u16_in(file, at + 1));
    Entry {
        kind: u8_in(file, at),
        place: at as u64,
        contents: View::new(&file[at + 3..at + 2 + length]),
    }
}

/// The module in a file.
///
/// Stops exactly where an entry has a fault by itself, with the first; or where memory ran out, of
/// which it takes four bytes an entry. Linear in the file.
pub fn read_module<'a>(alloc: Global, file: &'a [u8]) -> Result<Module<'a>, Stop>
    requires { length file.now ≤ MOST_INPUT }
    ensures module { IfOk result (λ m. m ≡ file.now) }
    ensures clean { OnOk result (stage_fault (header_stage file.now) ≡ None) }
    ensures stop { IfErr result (IsStop (stage_fault (header_stage file.now))) }
{
    let view = View::new(file);
    let places = places_of(alloc, &view)?;
    match check_entries(&view, places.as_slice()) {
        Ok(()) => Ok(Module { file, places }),
        Err(stop) => Err(stop),
    }
}
