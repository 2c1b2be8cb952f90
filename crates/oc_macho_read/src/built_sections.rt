//! The sections of the object.
ghost use Rattle.std.specs.Prelude.{◌≡◌, ◌+◌, ◌<◌, ◌≤◌, ◌^◌, ◌++◌, [], ◌∷◌, length, replicate, if◌then◌else◌, None, IfOk, OnOk};
ghost use Rattle.oc_base.specs.declared.limits.TheConstants.{MOST_INPUT};
ghost use Rattle.oc_linking.specs.FirstFault.{stage_fault};
ghost use Rattle.oc_neutral.specs.Building.{is_zero};
ghost use Rattle.oc_neutral.specs.Mach.Kinds as kinds;
ghost use Rattle.oc_shows.specs.Started.{stored_section};
ghost use Rattle.oc_macho.specs.Framed.{IsTable, table_at};
ghost use Rattle.oc_macho.specs.SectionFaults.{section_stage};
ghost use Rattle.oc_macho.specs.Sections as sections;
ghost use Rattle.oc_macho_read.specs.Built.{AreRead, sectioned};

use oc_base::{Bytes, NoMemory};
use oc_macho::{Frame, SectionHeader, is_zerofill, kind_of, until_nul};
use oc_neutral::mach::S_ATTR_LOC_RELOC;
use oc_neutral::{Builder, Kind, Section};
use std::alloc::Global;

// the name of a section: the segment, a comma and the section
fn name_of(alloc: Global, h: &SectionHeader) -> Result<Bytes, NoMemory>
    ensures { IfOk result (λ name. name ≡ kinds.mach_name (sections.segment_name h.now) (sections.section_name h.now)) }
{
    let mut name = Vec::new(alloc);
    name.extend_from_slice(until_nul(&h.segname))?;
    name.push(b',')?;
    name.extend_from_slice(until_nul(&h.sectname))?;
    Ok(Bytes::from_vec(name))
}

// what is kept of a section's flags: all but the two that say that there are relocations
#[tactic(auto, unfolding(oc_neutral::specs::Mach::Kinds::mach_tag))]
fn tag_of(flags: u32) -> u64
    ensures { result ≡ kinds.mach_tag flags }
{
    let unit = u64::from(S_ATTR_LOC_RELOC);
    u64::from(flags) / (unit * 4) * (unit * 4) + u64::from(flags) % unit
}

// zeros
fn zeros(alloc: Global, count: u32) -> Result<Bytes, NoMemory>
    ensures { IfOk result (λ b. b ≡ replicate count 0) }
{
    Ok(Bytes::from_vec(vec![in alloc; 0; count as usize]?))
}

// the bytes that section `i` has in the object
#[tactic(auto, unfolding(oc_macho::specs::Sections::contents_of))]
fn bytes_of(alloc: Global, frame: &Frame, i: u32, h: &SectionHeader) -> Result<Bytes, NoMemory>
    requires { IsTable frame.now i h.now }
    ensures { IfOk result (λ b. b ≡ (if is_zero (sections.kind_of h.now) then [] else sections.contents_of (table_at frame.now i))) }
{
    if kind_of(h) == Kind::Zero {
        return Bytes::from_slice(alloc, &[]);
    }
    if is_zerofill(h) {
        return zeros(alloc, h.size as u32);
    }
    Bytes::from_slice(alloc, frame.raw(i, h))
}

// section `i` of the object
#[tactic(auto, unfolding(oc_macho::specs::Sections::section_of))]
fn section_of(alloc: Global, frame: &Frame, i: u32, h: &SectionHeader) -> Result<Section, NoMemory>
    requires table { IsTable frame.now i h.now }
    requires align { h.now.align ≤ 15 }
    ensures { IfOk result (λ x. x ≡ stored_section [] (sections.section_of (i + 1, table_at frame.now i))) }
{
    Ok(Section {
        name: name_of(alloc, h)?,
        kind: kind_of(h),
        align: 1 << h.align,
        size: h.size as u32,
        bytes: bytes_of(alloc, frame, i, h)?,
        tag: tag_of(h.flags),
        number: frame.number(i),
        group: None,
    })
}

// adds section `i`
fn add_section(alloc: Global, frame: &Frame, builder: &mut Builder, i: u32) -> Result<(), NoMemory>
    requires tables { AreRead frame.now }
    requires clean { stage_fault (section_stage frame.now) ≡ None }
    requires there { i < length frame.now.sections }
    requires few { length frame.now.sections ≤ MOST_INPUT }
    requires before { builder.old ≡ sectioned frame.now i }
    ensures { OnOk result (builder.new ≡ sectioned frame.now (i + 1)) }
{
    let h = frame.section(i);
    frame.has_entries(i, &h);
    let section = section_of(alloc, frame, i, &h)?;
    builder.add_clean_section(section)?;
    Ok(())
}

/// Adds the sections. `NoMemory` where memory ran out. Linear in the sections and their bytes.
pub(crate) fn add_sections(
    alloc: Global,
    frame: &Frame,
    builder: &mut Builder,
) -> Result<(), NoMemory>
    requires tables { AreRead frame.now }
    requires clean { stage_fault (section_stage frame.now) ≡ None }
    requires before { builder.old ≡ sectioned frame.now 0 }
    ensures { OnOk result (builder.new ≡ sectioned frame.now (length frame.now.sections)) }
{
    let count = frame.section_count();
    for i in 0..count {
        add_section(alloc, frame, builder, i)?;
    }
    Ok(())
}
