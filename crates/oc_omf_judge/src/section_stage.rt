//! The stage of names, segments, groups and data.
ghost use Rattle.std.specs.Prelude.{◌≡◌, ◌<◌, ◌≤◌, ◌^◌, ◌+◌};
ghost use Rattle.oc_linking.specs.FirstFault.{first_broken};
ghost use Rattle.oc_omf.specs.Sections as sections;
ghost use Rattle.oc_omf.specs.SectionFaults as rules;

use oc_base::{Code, Fault, Phase};
use oc_omf::Segment;
use oc_shelf::earlier;

/// The most bytes that a section may have.
const MOST_SIZE: u64 = 2_147_483_647;
/// The most bytes that all sections may have together.
const MOST_SIZES: u64 = 2_147_483_648;

/// An entry, by its number and its place.
#[derive(Clone, Copy)]
pub(crate) struct EntryPlace {
    /// Its number among the entries.
    pub index: u32,
    /// Where it begins, in bytes from the start of the file.
    pub place: u64,
}

// a fault of an entry
pub(crate) fn own_fault(spot: EntryPlace, code: Code) -> Fault
    ensures { result ≡ rules.own_fault (spot.index, spot.place) code }
{
    limit_fault(spot, spot.place, code)
}

// a fault of an entry whose place is a number that passes a limit
pub(crate) fn limit_fault(spot: EntryPlace, worth: u64, code: Code) -> Fault
    ensures { result ≡ rules.limit_fault (spot.index, spot.place) worth code }
{
    Fault {
        phase: Phase::Section,
        index: spot.index,
        code,
        place: worth,
    }
}

// the code of a segment's alignment
fn align_code(s: &Segment) -> u8
    ensures { result ≡ sections.align_code s.now }
{
    s.attributes / 32 % 8
}

/// How many bytes a segment has. Constant time.
pub fn segment_size(s: &Segment) -> u64
    ensures size { result ≡ sections.segment_size s.now }
    ensures small { result ≤ 2 ^ 32 }
{
    if s.attributes / 2 % 2 != 1 {
        return u64::from(s.length);
    }
    if s.wide { 1 << 32 } else { 1 << 16 }
}

// whether a segment is private, or public by one of three codes
fn is_combined(s: &Segment) -> bool
    ensures { result ≡ rules.is_combination (sections.combination s.now) }
{
    matches!(s.attributes / 4 % 8, 0 | 2 | 4 | 7)
}

// whether the name, class and overlay of a segment are among so many names
fn is_named(names: u64, s: &Segment) -> bool
    ensures { result ≡ rules.is_named names s.now }
{
    u64::from(s.name) <= names && u64::from(s.class) <= names && u64::from(s.overlay) <= names
}

// the fault of what the definition of a segment gives, after so many names
#[tactic(auto, unfolding(oc_omf::specs::SectionFaults::form_conditions))]
fn form_fault(names: u64, spot: EntryPlace, s: &Segment) -> Option<Fault>
    ensures { result ≡ first_broken (rules.form_conditions names (spot.index, spot.place) s.now) }
{
    let code = align_code(s);
    if s.attributes % 2 != 1 || !is_combined(s) || code == 0 {
        return Some(own_fault(spot, Code::SectionKind));
    }
    if code > 5 {
        return Some(own_fault(spot, Code::BadAlign));
    }
    if !is_named(names, s) {
        return Some(own_fault(spot, Code::BadIndex));
    }
    None
}

// the fault of its size, after segments of so many bytes
#[tactic(auto, unfolding(oc_omf::specs::SectionFaults::size_conditions))]
fn size_fault(sizes: u64, spot: EntryPlace, s: &Segment) -> Option<Fault>
    requires { sizes ≤ 2147483648 }
    ensures { result ≡ first_broken (rules.size_conditions sizes (spot.index, spot.place) s.now) }
{
    let size = segment_size(s);
    if size > MOST_SIZE {
        return Some(limit_fault(spot, size, Code::LimitSection));
    }
    if sizes + size > MOST_SIZES {
        return Some(limit_fault(spot, sizes + size, Code::LimitSum));
    }
    None
}

/// The fault of a segment after so many names, and segments of so many bytes. Constant time.
pub(crate) fn segment_fault(names: u64, sizes: u64, spot: EntryPlace, s: &Segment) -> Option<Fault>
    requires { sizes ≤ 2147483648 }
    ensures { result ≡ first_broken (rules.segment_conditions_by names sizes (spot.index, spot.place) s.now) }
{
    earlier(form_fault(names, spot, s), size_fault(sizes, spot, s))
}
