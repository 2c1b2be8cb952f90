//! The parts of the file, in their order (our profile).
ghost use Rattle.std.specs.Prelude.{◌≡◌, ◌++◌, [], ◌∷◌, if◌then◌else◌, map, IfOk, OnOk};
ghost use Rattle.std.specs.List.{enumerate_from};
ghost use Rattle.oc_macho_file.specs.Addresses.{stored_sections};
ghost use Rattle.oc_macho_file.specs.Layout as layout;
ghost use Rattle.oc_macho_write.specs.Parts.{AreAdded, AreParts};

use crate::addresses::is_blank;
use oc_base::NoMemory;
use oc_neutral::Neutral;
use std::alloc::Global;

/// A part of the file; sections by their positions in the object.
#[derive(Clone, Copy, Debug)]
pub(crate) enum Part {
    /// The file header.
    FileHead,
    /// The command for the segment, without the section headers after it.
    SegmentHead,
    /// The section headers.
    SectionHeads,
    /// The command that places symbols and strings.
    SymtabHead,
    /// The command that lists the groups of symbols.
    DysymtabHead,
    /// The bytes of a section.
    Raw(u32),
    /// Its relocation entries.
    Relocs(u32),
    /// The symbols.
    SymbolTable,
    /// The strings.
    StringTable,
}

// adds a part that is wanted
fn give_part(parts: &mut Vec<Part>, part: Part, wanted: bool) -> Result<(), NoMemory>
    ensures { OnOk result (parts.new.items ≡ parts.old.items ++ (if wanted then part ∷ [] else [])) }
{
    if wanted {
        parts.push(part)?;
    }
    Ok(())
}

// adds the parts with the bytes of sections
fn add_raws(parts: &mut Vec<Part>, neutral: &Neutral) -> Result<(), NoMemory>
    ensures { OnOk result (AreAdded neutral.now (map layout.raw_part (stored_sections neutral.now)) parts.old.items parts.new.items) }
{
    for k in 0..neutral.section_count() {
        let stored = !is_blank(neutral.section(k));
        give_part(parts, Part::Raw(k), stored)?;
    }
    Ok(())
}

// adds those with their relocation entries
fn add_relocs(parts: &mut Vec<Part>, neutral: &Neutral) -> Result<(), NoMemory>
    ensures { OnOk result (AreAdded neutral.now (map layout.relocs_part (enumerate_from 0 neutral.now.sections)) parts.old.items parts.new.items) }
{
    for k in 0..neutral.section_count() {
        parts.push(Part::Relocs(k))?;
    }
    Ok(())
}

/// The parts of an object's file, in their order. `NoMemory` where memory ran out. Linear in the
/// sections.
pub(crate) fn parts_of(alloc: Global, neutral: &Neutral) -> Result<Vec<Part>, NoMemory>
    ensures { IfOk result (λ parts. AreParts neutral.now parts.items) }
{
    let mut parts = Vec::new(alloc);
    parts.push(Part::FileHead)?;
    parts.push(Part::SegmentHead)?;
    parts.push(Part::SectionHeads)?;
    parts.push(Part::SymtabHead)?;
    parts.push(Part::DysymtabHead)?;
    add_raws(&mut parts, neutral)?;
    add_relocs(&mut parts, neutral)?;
    parts.push(Part::SymbolTable)?;
    parts.push(Part::StringTable)?;
    Ok(parts)
}
