//! The segments that entries define.
ghost use Rattle.std.specs.Prelude.{◌≡◌, ◌≤◌, Some, None, IfOk, OnOk, IfErr};
ghost use Rattle.oc_omf_judge.specs.Defined.{IsStoppedOn, IsTakenOn, part_of, segment_fault_by};
ghost use Rattle.oc_omf.specs.Structures.{segment_read};
ghost use Rattle.oc_omf.specs.declared.topics.Topic.TheVariants as topic;

use crate::defined::Defined;
use crate::section_stage::{EntryPlace, own_fault, segment_fault, segment_size};
use oc_base::{Code, Fault, Stop, View};
use oc_omf::{Segment, read_segment};

// the segment in the contents of an entry, of the odd type where `wide`, after so many names and
// segments of so many bytes
fn judge_segment(
    names: u64,
    sizes: u64,
    spot: EntryPlace,
    wide: bool,
    contents: &View<'_>,
) -> Result<Segment, Fault>
    requires { sizes ≤ 2147483648 }
    ensures read { IfOk result (λ s. part_of (segment_read wide contents.now 0) ≡ Some s) }
    ensures clean { OnOk result (segment_fault_by names sizes (spot.index, spot.place) (segment_read wide contents.now 0) ≡ None) }
    ensures fault { IfErr result (λ fault. segment_fault_by names sizes (spot.index, spot.place) (segment_read wide contents.now 0) ≡ Some fault) }
{
    let Ok((segment, _at)) = read_segment(contents, wide) else {
        return Err(own_fault(spot, Code::BadTable));
    };
    match segment_fault(names, sizes, spot, &segment) {
        Some(fault) => Err(fault),
        None => Ok(segment),
    }
}

/// Judges the segment in the contents of an entry, of the odd type where `wide`, and records it.
///
/// Stops exactly where it has a fault, with the first; or where memory ran out. Amortized constant
/// time.
pub(crate) fn take_segment(
    defined: &mut Defined<'_>,
    spot: EntryPlace,
    wide: bool,
    contents: &View<'_>,
) -> Result<(), Stop>
    requires { defined.old.sizes ≤ 2147483648 }
    ensures taken { OnOk result (IsTakenOn defined.old spot topic.Segment wide contents.now defined.new) }
    ensures stop { IfErr result (IsStoppedOn defined.old spot topic.Segment wide contents.now) }
{
    let names = defined.names.len() as u64;
    let segment = match judge_segment(names, defined.sizes, spot, wide, contents) {
        Ok(segment) => segment,
        Err(fault) => return Err(Stop::Refused(fault)),
    };
    defined.sizes += segment_size(&segment);
    defined.segments.push(segment)?;
    defined.covered.push(false)?;
    Ok(())
}
