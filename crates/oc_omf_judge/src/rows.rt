//! Whether a fixup can be written: by its frame and its target.
ghost use Rattle.std.specs.Prelude.{◌≡◌};
ghost use Rattle.oc_omf_judge.specs.Rows as specs;

use crate::named::{Referent, named_of, same, section_at};
use crate::whole::{Whole, is_flat};
use oc_omf::Method;

// what a frame names, of a fixup in data of a segment: that segment, or what its method names
fn named_frame<'a>(whole: &Whole<'a>, segment: Option<u16>, frame: Method) -> Option<Referent<'a>>
    ensures { result ≡ specs.named_frame whole.now segment frame }
{
    if frame.number != 4 {
        return named_of(whole, frame);
    }
    match segment {
        Some(segment) => Some(section_at(u32::from(segment))),
        None => None,
    }
}

// whether a frame names what the target does
fn is_named_by(whole: &Whole<'_>, segment: Option<u16>, frame: Method, target: Referent<'_>) -> bool
    ensures { result ≡ specs.is_named_by whole.now segment frame target.entry }
{
    match named_frame(whole, segment, frame) {
        Some(named) => same(target, named),
        None => false,
    }
}

// whether a segment-relative fixup has a row by its frame
fn is_framed(whole: &Whole<'_>, segment: Option<u16>, frame: Method, target: Referent<'_>) -> bool
    ensures { result ≡ specs.is_framed whole.now segment frame target.entry }
{
    if is_flat(whole, frame) || frame.number == 5 {
        return true;
    }
    is_named_by(whole, segment, frame, target)
}

// the same, where it has a frame
fn is_framed_by(
    whole: &Whole<'_>,
    segment: Option<u16>,
    frame: Option<Method>,
    target: Referent<'_>,
) -> bool
    ensures { result ≡ specs.is_framed_by whole.now segment frame target.entry }
{
    match frame {
        Some(frame) => is_framed(whole, segment, frame, target),
        None => false,
    }
}

// whether a fixup has a row by its frame; of a self-relative one that does not count
fn is_written(
    whole: &Whole<'_>,
    segment: Option<u16>,
    segment_relative: bool,
    frame: Option<Method>,
    target: Referent<'_>,
) -> bool
    ensures { result ≡ specs.is_written whole.now segment segment_relative frame target.entry }
{
    if !segment_relative {
        return true;
    }
    is_framed_by(whole, segment, frame, target)
}

// what a target names, if there is one
fn named_target<'a>(whole: &Whole<'a>, target: Option<Method>) -> Option<Referent<'a>>
    ensures { result ≡ specs.named_target whole.now target }
{
    match target {
        Some(target) => named_of(whole, target),
        None => None,
    }
}

/// Whether a fixup in data of a segment can be written: its target is a segment or an external, and
/// where it is segment-relative, its frame is the group `FLAT`, or that of the target. The time is
/// that of about log2(n) comparisons of names.
pub(crate) fn has_row(
    whole: &Whole<'_>,
    segment: Option<u16>,
    segment_relative: bool,
    target: Option<Method>,
    frame: Option<Method>,
) -> bool
    ensures { result ≡ specs.has_row whole.now segment segment_relative target frame }
{
    match named_target(whole, target) {
        Some(target) => is_written(whole, segment, segment_relative, frame, target),
        None => false,
    }
}
