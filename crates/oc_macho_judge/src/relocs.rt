//! Relocation entries of a section, and the conditions on each field.
ghost use Rattle.std.specs.Prelude.{◌≡◌, ◌+◌, ◌<◌, true, false, length, slice_get, None, Some, IfErr, IfOk, OnOk};
ghost use Rattle.oc_linking.specs.FirstFault.{first_broken, stage_fault};
ghost use Rattle.oc_macho_judge.specs.Judged as judged;
ghost use Rattle.oc_macho.specs.Entries as entries;
ghost use Rattle.oc_macho.specs.Framed as framed;
ghost use Rattle.oc_macho.specs.Framed.{IsTable};
ghost use Rattle.oc_macho_judge.specs.Holders.{AreHolders};
ghost use Rattle.oc_macho.specs.Referents as referents;
ghost use Rattle.oc_macho.specs.RelocationFaults as rules;
ghost use Rattle.std.specs.Option.{option_map, option_map_or};
ghost use Rattle.oc_base.specs.Stops.{IsStop};

use crate::differences::is_too_wide;
use crate::holders::Holders;
use crate::referents::referent_of;
use oc_base::{Code, Fault, NoMemory, Phase, Stop, Word};
use oc_macho::{
    Frame, Item, RELOCATION_INFO_SIZE, Referent, RelocationInfo, SectionHeader, is_first,
    is_zerofill, meaning_of,
};
use oc_neutral::Base;
use oc_shelf::Bitmap;
use std::alloc::Global;

// the entry after entry `k`, where there is one
fn next_entry(frame: &Frame, i: u32, h: &SectionHeader, k: u32) -> Option<RelocationInfo>
    requires table { IsTable frame.now i h.now }
    requires there { k < h.now.nreloc }
    ensures { result ≡ slice_get (framed.table_at frame.now i).relocs (k + 1) }
{
    let count = h.nreloc;
    if count - k < 2 {
        return None;
    }
    Some(frame.entry(i, h, k + 1))
}

/// The entries of the field that begins with entry `k`. Constant time.
pub fn item_of(frame: &Frame, i: u32, h: &SectionHeader, k: u32) -> Item
    requires table { IsTable frame.now i h.now }
    requires there { k < h.now.nreloc }
    requires begins { entries.begins frame.now.word (framed.table_at frame.now i).relocs k ≡ true }
    ensures item { entries.item_at frame.now.word (framed.table_at frame.now i).relocs k ≡ Some result }
    ensures length { result.first.r_length < 4 }
{
    let first = frame.entry(i, h, k);
    let second = if is_first(frame.word(), &first) {
        next_entry(frame, i, h, k)
    } else {
        None
    };
    Item { first, second }
}

// a fault of the field of section `i` that begins with entry `k`
fn entry_fault(frame: &Frame, i: u32, h: &SectionHeader, k: u32, code: Code) -> Fault
    requires table { IsTable frame.now i h.now }
    requires there { k < h.now.nreloc }
    ensures { result ≡ rules.relocation_fault i (framed.table_at frame.now i) k code }
{
    Fault {
        phase: Phase::Relocation,
        index: frame.number(i),
        code,
        place: u64::from(h.reloff) + RELOCATION_INFO_SIZE as u64 * u64::from(k),
    }
}

// where a field begins and ends in its section
fn span_of(item: &Item) -> (u64, u64)
    requires { item.now.first.r_length < 4 }
    ensures begin { result.0 ≡ item.now.first.r_address }
    ensures end { result.1 ≡ (rules.span_of item.now).1 }
{
    let begin = u64::from(item.first.r_address);
    (begin, begin + (1 << item.first.r_length))
}

// how many bytes of the file are the section's
fn stored_size(h: &SectionHeader) -> u64
    ensures { result ≡ rules.stored_size h.now }
{
    if is_zerofill(h) { 0 } else { h.size }
}

// whether a field lies not in bytes of the file that are the section's
fn is_outside(h: &SectionHeader, item: &Item) -> bool
    requires { item.now.first.r_length < 4 }
    ensures { result ≡ rules.is_outside h.now item.now }
{
    is_zerofill(h) || h.size < span_of(item).1
}

// the fault of the conditions on a field by the types of its entries and by its place
#[tactic(auto, unfolding(oc_macho::specs::RelocationFaults::form_conditions))]
fn form_fault(frame: &Frame, i: u32, h: &SectionHeader, k: u32, item: &Item) -> Option<Fault>
    requires table { IsTable frame.now i h.now }
    requires there { k < h.now.nreloc }
    requires length { item.now.first.r_length < 4 }
    ensures { result ≡ first_broken (rules.form_conditions frame.now i (framed.table_at frame.now i) k item.now) }
{
    if item.is_unknown(frame.word()) {
        return Some(entry_fault(frame, i, h, k, Code::RelocKind));
    }
    if item.is_no_pair(frame.word()) {
        return Some(entry_fault(frame, i, h, k, Code::BadPair));
    }
    if is_outside(h, item) {
        return Some(entry_fault(frame, i, h, k, Code::BadOffset));
    }
    None
}

// whether the type of an entry reads a slot
fn reads_slot(word: Word, e: &RelocationInfo) -> bool
    ensures { result ≡ referents.reads_slot (entries.row_for word e.now) }
{
    match meaning_of(word, e) {
        Some(meaning) => meaning.form.base == Base::Slot,
        None => false,
    }
}

// what a pair takes is, where the entries are a pair
fn taken_of(
    alloc: Global,
    frame: &Frame,
    holders: &Holders,
    item: &Item,
) -> Result<Option<Referent>, NoMemory>
    requires { AreHolders frame.now holders.now }
    ensures { IfOk result (λ x. x ≡ option_map (referents.referent_in frame.now) (entries.taken_reference frame.now.word item.now)) }
{
    match item.taken(frame.word()) {
        Some(r) => {
            let taken = referent_of(alloc, frame, holders, r)?;
            Ok(Some(taken))
        }
        None => Ok(None),
    }
}

// whether what is taken is nothing
fn is_absent(taken: Option<Referent>) -> bool
    ensures { result ≡ option_map_or referents.is_nothing taken false }
{
    match taken {
        Some(referent) => referent.is_nothing(),
        None => false,
    }
}

// whether what is taken cannot be
fn is_untakeable(taken: Option<Referent>) -> bool
    ensures { result ≡ option_map_or referents.cannot_be_taken taken false }
{
    match taken {
        Some(referent) => referent.cannot_be_taken(),
        None => false,
    }
}

// the fault of the conditions on a field by what it refers to
#[tactic(auto, unfolding(oc_macho::specs::RelocationFaults::target_conditions, oc_macho::specs::RelocationFaults::refers_to_nothing, oc_macho::specs::RelocationFaults::refers_wrongly))]
fn target_fault(
    alloc: Global,
    frame: &Frame,
    holders: &Holders,
    i: u32,
    h: &SectionHeader,
    k: u32,
    item: &Item,
) -> Result<Option<Fault>, NoMemory>
    requires holders { AreHolders frame.now holders.now }
    requires table { IsTable frame.now i h.now }
    requires there { k < h.now.nreloc }
    ensures { IfOk result (λ fault. fault ≡ first_broken (rules.target_conditions frame.now i (framed.table_at frame.now i) k item.now)) }
{
    let word = frame.word();
    let target = referent_of(alloc, frame, holders, item.target(word))?;
    let taken = taken_of(alloc, frame, holders, item)?;
    if target.is_nothing() || is_absent(taken) {
        return Ok(Some(entry_fault(frame, i, h, k, Code::BadTarget)));
    }
    if target.cannot_be_target(reads_slot(word, &item.first)) || is_untakeable(taken) {
        return Ok(Some(entry_fault(frame, i, h, k, Code::TargetKind)));
    }
    Ok(None)
}

/// Whether a field begins with the entry after entry `k`, given whether one begins with entry `k`.
/// Constant time.
pub fn begins_behind(frame: &Frame, i: u32, h: &SectionHeader, k: u32, begins: bool) -> bool
    requires table { IsTable frame.now i h.now }
    requires there { k < h.now.nreloc }
    requires begins { begins ≡ entries.begins frame.now.word (framed.table_at frame.now i).relocs k }
    ensures { result ≡ entries.begins frame.now.word (framed.table_at frame.now i).relocs (k + 1) }
{
    !(begins && is_first(frame.word(), &frame.entry(i, h, k)))
}

// judges the field that begins with entry `k`, where the bytes of those before are taken, and takes its own
fn judge_item(
    alloc: Global,
    frame: &Frame,
    holders: &Holders,
    i: u32,
    h: &SectionHeader,
    bytes: &mut Bitmap,
    k: u32,
) -> Result<(), Stop>
    requires holders { AreHolders frame.now holders.now }
    requires table { IsTable frame.now i h.now }
    requires there { k < h.now.nreloc }
    requires begins { entries.begins frame.now.word (framed.table_at frame.now i).relocs k ≡ true }
    requires taken { judged.AreTaken frame.now (framed.table_at frame.now i) k bytes.old }
    ensures clean { OnOk result (judged.entry_fault frame.now i (framed.table_at frame.now i) k ≡ None) }
    ensures taken { OnOk result (judged.AreTaken frame.now (framed.table_at frame.now i) (k + 1) bytes.new) }
    ensures stop { IfErr result (IsStop (judged.entry_fault frame.now i (framed.table_at frame.now i) k)) }
{
    let item = item_of(frame, i, h, k);
    match form_fault(frame, i, h, k, &item) {
        Some(fault) => return Err(Stop::Refused(fault)),
        None => (),
    }
    let fault = target_fault(alloc, frame, holders, i, h, k, &item)?;
    match fault {
        Some(fault) => return Err(Stop::Refused(fault)),
        None => (),
    }
    let (begin, end) = span_of(&item);
    if bytes.is_met(begin, end) {
        return Err(Stop::Refused(entry_fault(frame, i, h, k, Code::Overlap)));
    }
    let wide = is_too_wide(alloc, frame, holders, i, h, &item)?;
    if wide {
        return Err(Stop::Refused(entry_fault(frame, i, h, k, Code::FoldTooWide)));
    }
    bytes.take(begin, end);
    Ok(())
}

// judges entry `k` the same way, given whether a field begins with it
fn judge_entry(
    alloc: Global,
    frame: &Frame,
    holders: &Holders,
    i: u32,
    h: &SectionHeader,
    bytes: &mut Bitmap,
    k: u32,
    begins: bool,
) -> Result<(), Stop>
    requires holders { AreHolders frame.now holders.now }
    requires table { IsTable frame.now i h.now }
    requires there { k < h.now.nreloc }
    requires begins { begins ≡ entries.begins frame.now.word (framed.table_at frame.now i).relocs k }
    requires taken { judged.AreTaken frame.now (framed.table_at frame.now i) k bytes.old }
    ensures clean { OnOk result (judged.entry_fault frame.now i (framed.table_at frame.now i) k ≡ None) }
    ensures taken { OnOk result (judged.AreTaken frame.now (framed.table_at frame.now i) (k + 1) bytes.new) }
    ensures stop { IfErr result (IsStop (judged.entry_fault frame.now i (framed.table_at frame.now i) k)) }
{
    if !begins {
        return Ok(());
    }
    match judge_item(alloc, frame, holders, i, h, bytes, k) {
        Ok(()) => Ok(()),
        Err(stop) => Err(stop),
    }
}

/// Judges the relocation entries of section `i`, counted from 0, which has that header.
///
/// Stops exactly where a field has a fault, with the first; or where memory ran out. The time is
/// linear in the entries, in any order of offsets, and in the section's bytes where there are entries,
/// and for each entry that is scattered the logarithm of the number of sections; the memory is a bit for
/// each of these bytes.
pub(crate) fn check_table(
    alloc: Global,
    frame: &Frame,
    holders: &Holders,
    i: u32,
    h: &SectionHeader,
) -> Result<(), Stop>
    requires holders { AreHolders frame.now holders.now }
    requires table { IsTable frame.now i h.now }
    ensures clean { OnOk result (stage_fault (rules.entry_stage frame.now i (framed.table_at frame.now i)) ≡ None) }
    ensures stop { IfErr result (IsStop (stage_fault (rules.entry_stage frame.now i (framed.table_at frame.now i)))) }
{
    if h.nreloc == 0 {
        return Ok(());
    }
    let mut bytes = Bitmap::new(alloc, stored_size(h))?;
    let mut begins = true;
    for k in 0..h.nreloc {
        match judge_entry(alloc, frame, holders, i, h, &mut bytes, k, begins) {
            Err(stop) => return Err(stop),
            Ok(()) => (),
        }
        begins = begins_behind(frame, i, h, k, begins);
    }
    Ok(())
}
