//! The data that entries have for segments.
ghost use Rattle.std.specs.Prelude.{◌≡◌, ◌≤◌, ◌-◌, ◌^◌, true, Err, OnOk, IfErr, length, slice_set};
ghost use Rattle.oc_base.specs.declared.stop.Stop.TheVariants as stop;
ghost use Rattle.oc_omf_records.specs.declared.faults.BlockFault.TheVariants as block;
ghost use Rattle.oc_omf_judge.specs.Defined as specs;
ghost use Rattle.oc_omf.specs.declared.topics.Topic.TheVariants as topic;

use crate::defined::{Defined, segment_at};
use crate::section_stage::{EntryPlace, own_fault, segment_size};
use oc_base::{Code, Fault, Stop, View};
use oc_omf::{DataHead, read_data, read_head};
use oc_omf_records::BlockFault;
use std::alloc::Global;

// the place of an offset of a segment, such that those of two segments are far apart
fn place_in(segment: u16, offset: u32) -> u64
    ensures { result ≡ specs.place_in segment offset }
{
    u64::from(segment) * 4_294_967_296 + u64::from(offset)
}

// records that some byte of a segment is covered
fn cover(covered: &mut [bool], segment: u16)
    requires some { 1 ≤ segment }
    requires there { segment ≤ length covered.old }
    ensures { covered.new ≡ slice_set covered.old (segment - 1) true }
{
    covered[usize::from(segment) - 1] = true;
}

// judges data of so many bytes, or of 2^32 where they have more, and takes them up
fn take_piece(
    defined: &mut Defined<'_>,
    spot: EntryPlace,
    head: DataHead,
    size: u64,
) -> Result<(), Stop>
    requires long { length defined.old.covered.items ≡ length defined.old.segments.items }
    requires small { size ≤ 2 ^ 32 }
    ensures taken { OnOk result (specs.IsDataTaken defined.old (spot.index, spot.place) head size defined.new) }
    ensures stop { IfErr result (specs.IsDataStopped defined.old (spot.index, spot.place) head size) }
{
    let Some(segment) = segment_at(defined.segments.as_slice(), head.segment) else {
        return Err(Stop::Refused(own_fault(spot, Code::BadIndex)));
    };
    if u64::from(head.offset) + size > segment_size(&segment) {
        return Err(Stop::Refused(own_fault(spot, Code::DataPastEnd)));
    }
    if size == 0 {
        return Ok(());
    }
    let begin = place_in(head.segment, head.offset);
    if defined.spans.is_met(begin, begin + size) {
        return Err(Stop::Refused(own_fault(spot, Code::DataOverlap)));
    }
    defined.spans.take(begin, begin + size)?;
    cover(defined.covered.as_mut_slice(), head.segment);
    Ok(())
}

// the fault of data that are nested too deep
fn deep_fault(defined: &Defined<'_>, spot: EntryPlace, head: DataHead) -> Fault
    ensures { specs.IsPieceStopped defined.now (spot.index, spot.place) (specs.piece_with head (Err block.TooDeep)) (stop.Refused result) }
{
    match segment_at(defined.segments.as_slice(), head.segment) {
        Some(_segment) => own_fault(spot, Code::TooDeep),
        None => own_fault(spot, Code::BadIndex),
    }
}

/// Judges the data in the contents of an entry, of the odd type where `wide`, and takes them up.
///
/// Stops exactly where they have a fault, with the first; or where memory ran out. Linear in the
/// contents, and the logarithm of the number of data before.
pub(crate) fn take_data(
    alloc: Global,
    defined: &mut Defined<'_>,
    spot: EntryPlace,
    wide: bool,
    iterated: bool,
    contents: &View<'_>,
) -> Result<(), Stop>
    requires { length defined.old.covered.items ≡ length defined.old.segments.items }
    ensures taken { OnOk result (specs.IsTakenOn defined.old spot (topic.Data iterated) wide contents.now defined.new) }
    ensures stop { IfErr result (specs.IsStoppedOn defined.old spot (topic.Data iterated) wide contents.now) }
{
    let Ok((head, at)) = read_head(contents, wide) else {
        return Err(Stop::Refused(own_fault(spot, Code::BadTable)));
    };
    match read_data(alloc, contents, wide, iterated, at) {
        Ok(data) => take_piece(defined, spot, head, data.size()),
        Err(BlockFault::BadBlock) => Err(Stop::Refused(own_fault(spot, Code::BadTable))),
        Err(BlockFault::TooDeep) => Err(Stop::Refused(deep_fault(defined, spot, head))),
        Err(BlockFault::NoMemory) => Err(Stop::NoMemory),
    }
}
