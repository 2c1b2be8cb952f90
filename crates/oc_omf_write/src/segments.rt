//! The segments of sections (TIS OMF 1.1, "SEGDEF: Segment Definition Record").
ghost use Rattle.std.specs.Prelude.{◌≡◌, ◌-◌, ◌^◌, ◌<◌, List, IfOk, length, map, nat_eq, true};
ghost use Rattle.std.specs.List.{AllByRecursion, list_any};
ghost use Rattle.oc_neutral.specs.Omf.Family.{omf_aligns};
ghost use Rattle.oc_neutral.specs.declared.section.Section.{Section as HeldSection};
ghost use Rattle.oc_omf_file.specs.Canonical.{code_by};
ghost use Rattle.oc_omf_file.specs.Names as classes;
ghost use Rattle.oc_omf_write.specs.Names.{AreNames, IsIndexed, IsSegment, names_for, segment_in};

use crate::names::{Names, class_of};
use oc_base::NoMemory;
use oc_neutral::Section;
use oc_omf::{COMBINE_PUBLIC, Segment};
use std::alloc::Global;

// the code of an alignment that segments can have
fn code_by(align: u32) -> u8
    requires { list_any (nat_eq align) omf_aligns ≡ true }
    ensures code { result ≡ code_by align }
    ensures low { result < 7 }
{
    match align {
        1 => 1,
        2 => 2,
        16 => 3,
        256 => 4,
        4 => 5,
        _ => unreachable!(),
    }
}

// the segment of a section with these names
fn segment_of(names: &Names<'_>, section: &Section) -> Segment
    requires name { IsIndexed names.now section.now.name }
    requires class { IsIndexed names.now (classes.class_of section.now) }
    requires segment { IsSegment section.now }
    ensures { (sections : List HeldSection) → AreNames sections (names_for sections) names.now → result ≡ segment_in sections section.now }
{
    Segment {
        wide: true,
        attributes: (code_by(section.align) << 5) + (COMBINE_PUBLIC << 2) + 1,
        length: section.size,
        name: names.index(section.name.as_slice()),
        class: names.index(class_of(section.kind)),
        overlay: 1,
    }
}

/// The segments of sections with these names. `NoMemory` where memory ran out. Linear in them, but for
/// looking up their names.
pub(crate) fn segments_of(
    alloc: Global,
    names: &Names<'_>,
    sections: &[Section],
) -> Result<Vec<Segment>, NoMemory>
    requires few { length (names_for sections.now) < 2 ^ 15 - 1 }
    requires names { AreNames sections.now (names_for sections.now) names.now }
    requires segments { AllByRecursion IsSegment sections.now }
    ensures { IfOk result (λ segments. segments.items ≡ map (segment_in sections.now) sections.now) }
{
    let mut segments = Vec::with_capacity(alloc, sections.len())?;
    for section in sections {
        segments.push(segment_of(names, section))?;
    }
    Ok(segments)
}
