//! The stage of entries, before their contents are looked at.
ghost use Rattle.std.specs.Prelude.{◌≡◌, ℕ, ◌<◌, ◌≤◌, length, get_or, ◌||◌, OnOk, IfOk, IfErr, Some, None};
ghost use Rattle.std.specs.Option.{option_map};
ghost use Rattle.oc_base.specs.declared.limits.TheConstants.{MOST_INPUT};
ghost use Rattle.oc_base.specs.Stops.{IsStop};
ghost use Rattle.oc_linking.specs.FirstFault.{first_broken, stage_fault};
ghost use Rattle.oc_omf_records.specs.NextEntry.{entry_of};
ghost use Rattle.oc_omf.specs.declared.constants.TheConstants.{THEADR};
ghost use Rattle.oc_omf.specs.Entries.{is_kind, places_in};
ghost use Rattle.oc_omf.specs.HeaderFaults as rules;
ghost use Rattle.oc_omf.specs.HeaderFaults.{entry_conditions, entry_fault};

use crate::constants::{
    COMDEF, COMENT, COMENT_LZEXT, COMENT_WKEXT, EXTDEF, FIXUPP, GRPDEF, LEDATA, LEXTDEF, LIDATA,
    LINNUM, LNAMES, LPUBDEF, MODEND, PUBDEF, SEGDEF, THEADR,
};
use crate::entries::is_kind;
use oc_base::{Code, Fault, Phase, Stop, View};
use oc_omf_records::{Entry, RecordFault, entry_at};

// whether a type is of a record of our profile
fn is_known(kind: u8) -> bool
    ensures { result ≡ rules.is_known kind }
{
    matches!(
        kind - kind % 2,
        THEADR
            | COMENT
            | MODEND
            | EXTDEF
            | PUBDEF
            | LINNUM
            | LNAMES
            | SEGDEF
            | GRPDEF
            | FIXUPP
            | LEDATA
            | LIDATA
            | COMDEF
            | LEXTDEF
            | LPUBDEF
    )
}

// byte `i` of the contents of an entry, 0 past their end
fn byte_of(entry: &Entry<'_>, i: usize) -> u8
    ensures { result ≡ get_or entry.now.contents i 0 }
{
    match entry.contents.bytes().get(i) {
        Some(byte) => *byte,
        None => 0,
    }
}

// whether an entry ends before a byte of it that counts
fn is_cut(entry: &Entry<'_>) -> bool
    ensures { result ≡ rules.is_cut entry.now }
{
    let length = entry.contents.len();
    is_kind(COMENT, entry.kind) && length < 2 || is_kind(MODEND, entry.kind) && length < 1
}

// whether an entry is a comment of a class that is refused
fn is_refused(entry: &Entry<'_>) -> bool
    ensures { result ≡ rules.is_refused entry.now }
{
    let class = byte_of(entry, 1);
    is_kind(COMENT, entry.kind) && (class == COMENT_WKEXT || class == COMENT_LZEXT)
}

// whether an entry is an end with a start address
fn has_start(entry: &Entry<'_>) -> bool
    ensures { result ≡ rules.has_start entry.now }
{
    is_kind(MODEND, entry.kind) && byte_of(entry, 0) / 0x40 % 2 == 1
}

// the code for an entry, where `begun` is whether an earlier one is a header
fn record_code(begun: bool, entry: &Entry<'_>) -> Option<Code>
    ensures { (x : ℕ × ℕ) → first_broken (rules.record_conditions begun x entry.now) ≡ option_map (entry_fault x) result }
{
    if is_cut(entry) {
        return Some(Code::BadTable);
    }
    let begins = is_kind(THEADR, entry.kind);
    if !is_known(entry.kind) || begins && begun || is_refused(entry) || has_start(entry) {
        return Some(Code::RecordKind);
    }
    None
}

// judges what lies at `at`, the place of an entry: gives its type, or the code of its fault
fn judge_entry(file: &View<'_>, begun: bool, at: u32) -> Result<u8, Code>
    ensures clean { OnOk result ((i : ℕ) → first_broken (entry_conditions file.now begun (i, at)) ≡ None) }
    ensures kind { IfOk result (λ kind. kind ≡ (entry_of file.now at).kind) }
    ensures fault { IfErr result (λ code. (i : ℕ) → first_broken (entry_conditions file.now begun (i, at)) ≡ Some (entry_fault (i, at) code)) }
{
    let entry = match entry_at(file, u64::from(at)) {
        Err(RecordFault::Truncated) => return Err(Code::Short),
        Err(RecordFault::BadChecksum) => return Err(Code::BadChecksum),
        Ok(entry) => entry,
    };
    match record_code(begun, &entry) {
        Some(code) => Err(code),
        None => Ok(entry.kind),
    }
}

// whether an entry of a type is a header, or one before it is
fn is_begun(begun: bool, kind: u8) -> bool
    ensures { result ≡ (begun || is_kind THEADR kind) }
{
    begun || is_kind(THEADR, kind)
}

/// Judges the entries at these places, before their contents are looked at.
///
/// Stops exactly where one has a fault, with the first. Linear in the file.
pub(crate) fn check_entries(file: &View<'_>, places: &[u32]) -> Result<(), Stop>
    requires places { places.now ≡ places_in file.now }
    requires small { length file.now ≤ MOST_INPUT }
    ensures clean { OnOk result (stage_fault (rules.header_stage file.now) ≡ None) }
    ensures stop { IfErr result (IsStop (stage_fault (rules.header_stage file.now))) }
{
    let mut begun = false;
    for i in 0..places.len() {
        let at = places[i];
        match judge_entry(file, begun, at) {
            Ok(kind) => begun = is_begun(begun, kind),
            Err(code) => {
                return Err(Stop::Refused(Fault {
                    phase: Phase::Header,
                    index: i as u32,
                    code,
                    place: u64::from(at),
                }));
            }
        }
    }
    Ok(())
}
