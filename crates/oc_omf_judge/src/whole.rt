//! What indexes mean in a module, and what of it is kept.
ghost use Rattle.std.specs.Prelude.{◌≡◌};
ghost use Rattle.oc_omf_judge.specs.Whole as specs;

use crate::defined::name_at;
use crate::front::Front;
use crate::sections::kind_at;
use oc_neutral::Keep;
use oc_omf::Method;
use std::collections::BTreeMap;

/// A module whose entries, sections and symbols have no fault, and what of it is kept.
#[derive(Drop)]
pub(crate) struct Whole<'a> {
    /// What is read of it.
    pub(crate) front: Front<'a>,
    /// The names of the symbols that it alone sees, each with the index of its segment.
    pub(crate) locals: BTreeMap<&'a [u8], u32>,
    /// Which kinds of sections are kept.
    pub(crate) keep: Keep,
}

// whether the segment of an index is kept, or not there
fn is_kept_at(whole: &Whole<'_>, segment: u16) -> bool
    requires { specs.IsWhole whole.now }
    ensures { result ≡ specs.is_kept_at whole.now segment }
{
    let index = usize::from(segment);
    if index == 0 || index > whole.front.defined.segments.len() {
        return true;
    }
    whole.keep.keeps(kind_at(&whole.front.defined, index - 1))
}

/// Whether a fixup in data of a segment is judged: one of a segment that exists and is not kept is
/// not. Constant time.
pub(crate) fn is_judged(whole: &Whole<'_>, segment: Option<u16>) -> bool
    requires { specs.IsWhole whole.now }
    ensures { result ≡ specs.is_judged_in whole.now segment }
{
    match segment {
        Some(segment) => is_kept_at(whole, segment),
        None => true,
    }
}

/// Whether a frame is the group `FLAT`. Constant time.
pub(crate) fn is_flat(whole: &Whole<'_>, frame: Method) -> bool
    ensures { result ≡ specs.is_flat_group whole.now frame }
{
    if frame.number != 1 || frame.index == 0 {
        return false;
    }
    match whole.front.defined.groups.get(usize::from(frame.index) - 1) {
        Some(name) => name_at(whole.front.defined.names.as_slice(), *name) == b"FLAT".as_slice(),
        None => false,
    }
}
