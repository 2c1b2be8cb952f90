//! Fixups.
ghost use Rattle.std.specs.Prelude.{◌≡◌, Ok, OnOk, IfErr};
ghost use Rattle.oc_omf.specs.Tables.{Tables};
ghost use Rattle.oc_omf.specs.declared.structures.Subrecord.TheVariants as subrecord;
ghost use Rattle.oc_omf_judge.specs.Counts.{AreCounts};
ghost use Rattle.oc_omf_judge.specs.Fixups as fixups;
ghost use Rattle.oc_omf_judge.specs.Reached as specs;
ghost use Rattle.oc_omf_judge.specs.Whole.{IsWhole};

use crate::counts::{Counts, is_datum_there};
use crate::reached::Reached;
use crate::rows::has_row;
use crate::section_stage::EntryPlace;
use crate::threads::{method_of, relocation_fault};
use crate::whole::{Whole, is_judged};
use oc_base::{Code, Fault, Stop};
use oc_omf::{Fixup, Method, OFFSET_32};
use oc_omf_records::CopyFault;
use std::alloc::Global;

// the fault of what a fixup in data of a segment names
fn names_fault(
    whole: &Whole<'_>,
    counts: Counts,
    segment: Option<u16>,
    here: EntryPlace,
    fixup: Fixup,
    target: Option<Method>,
    frame: Option<Method>,
) -> Option<Fault>
    ensures { (t : Tables) → AreCounts t counts → result ≡ fixups.names_fault whole.now t segment (here.index, here.place) fixup target frame }
{
    if !is_datum_there(counts, fixup.target, target) {
        return Some(relocation_fault(here, Code::BadTarget));
    }
    if !is_datum_there(counts, fixup.frame, frame) {
        return Some(relocation_fault(here, Code::BadTarget));
    }
    if !has_row(whole, segment, fixup.segment_relative, target, frame) {
        return Some(relocation_fault(here, Code::TargetKind));
    }
    None
}

// records the fields of a fixup in the data before it, where none of them meets another
fn take_fields(reached: &mut Reached<'_>, here: EntryPlace, places: &[u32]) -> Result<(), Stop>
    ensures taken { OnOk result (fixups.AreFieldsTaken reached.old places.now reached.new) }
    ensures stop { IfErr result (fixups.AreFieldsStopped reached.old (here.index, here.place) places.now) }
{
    let base = reached.base();
    if reached.starts.are_met(base, places) {
        return Err(Stop::Refused(relocation_fault(here, Code::Overlap)));
    }
    reached.starts.take_up(base, places)?;
    Ok(())
}

// judges a fixup of a section that is kept, and records it
fn judge_fixup(
    alloc: Global,
    whole: &Whole<'_>,
    reached: &mut Reached<'_>,
    here: EntryPlace,
    fixup: Fixup,
) -> Result<(), Stop>
    requires { IsWhole whole.now }
    ensures taken { OnOk result (fixups.IsFixupTaken whole.now reached.old (here.index, here.place) fixup reached.new) }
    ensures stop { IfErr result (fixups.IsFixupStopped whole.now reached.old (here.index, here.place) fixup) }
{
    if fixup.location != OFFSET_32 {
        return Err(Stop::Refused(relocation_fault(here, Code::RelocKind)));
    }
    let places = match reached.copies(alloc, fixup.offset) {
        Ok(places) => places,
        Err(CopyFault::NotContent) => {
            return Err(Stop::Refused(relocation_fault(here, Code::BadOffset)));
        }
        Err(CopyFault::NoMemory) => return Err(Stop::NoMemory),
    };
    let segment = reached.segment();
    let target = method_of(&reached.threads, false, fixup.target);
    let frame = method_of(&reached.threads, true, fixup.frame);
    match names_fault(whole, reached.counts, segment, here, fixup, target, frame) {
        Some(fault) => return Err(Stop::Refused(fault)),
        None => (),
    }
    match take_fields(reached, here, places.as_slice()) {
        Ok(()) => Ok(()),
        Err(stop) => Err(stop),
    }
}

/// Judges a fixup, if its section is kept, and records it.
///
/// Stops exactly where it has a fault, with the first; or where memory ran out. The time is that of
/// finding its copies, of about log2(n) comparisons of names, and for each copy the logarithm of
/// the number of fields.
pub(crate) fn take_fixup(
    alloc: Global,
    whole: &Whole<'_>,
    reached: &mut Reached<'_>,
    here: EntryPlace,
    fixup: Fixup,
) -> Result<(), Stop>
    requires { IsWhole whole.now }
    ensures taken { OnOk result (specs.IsPartTaken whole.now reached.old (here.index, here.place) (Ok (subrecord.Fixup fixup)) reached.new) }
    ensures stop { IfErr result (specs.IsPartStopped whole.now reached.old (here.index, here.place) (Ok (subrecord.Fixup fixup))) }
{
    if !is_judged(whole, reached.segment()) {
        return Ok(());
    }
    match judge_fixup(alloc, whole, reached, here, fixup) {
        Ok(()) => Ok(()),
        Err(stop) => Err(stop),
    }
}
