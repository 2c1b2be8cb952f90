//! Where the parts of the file begin.
ghost use Rattle.std.specs.Prelude.{◌≡◌, ◌+◌, ◌*◌, ◌<◌, ◌≤◌, ◌^◌, ◌++◌, [], ◌∷◌, ℕ, IfOk, IsSome, Some, List, OnOk, length};
ghost use Rattle.oc_base.specs.declared.format.Word.{Word as Width};
ghost use Rattle.oc_target.specs.Fitted.{IsFitted};
ghost use Rattle.oc_neutral.specs.Objects.{Object};
ghost use Rattle.oc_macho.specs.MachHeader.{mach_format};
ghost use Rattle.oc_macho_file.specs.Layout as file;
ghost use Rattle.oc_macho_write.specs.Bodies.{AreBodies};
ghost use Rattle.oc_macho_write.specs.LaidParts.{AreLaid};
ghost use Rattle.oc_macho_write.specs.Parts.{AreParts, part_in};

use crate::bodies::{Bodies, part_size};
use crate::parts::Part;
use oc_base::{NoMemory, Word};
use oc_macho::{
    DYSYMTAB_COMMAND_SIZE, SYMTAB_COMMAND_SIZE, mach_header_size, section_header_size,
    segment_command_size, word_bytes,
};
use oc_neutral::Neutral;
use oc_shelf::{Layout, aligned_place};
use std::alloc::Global;

/// The size of the command for the segment, with the section headers after it. Constant time.
pub(crate) fn segment_length(word: Word, sections: usize) -> u64
    requires { sections < 2 ^ 32 }
    ensures length { (n : Object) → length n.sections ≡ sections → result ≡ file.segment_length word n }
    ensures low { result ≤ 80 * sections + 72 }
{
    segment_command_size(word) + section_header_size(word) * sections as u64
}

/// The size of all commands. Constant time.
pub(crate) fn commands_length(word: Word, sections: usize) -> u64
    requires { sections < 2 ^ 32 }
    ensures length { (n : Object) → length n.sections ≡ sections → result ≡ file.commands_length word n }
    ensures low { result ≤ 80 * sections + 176 }
{
    segment_length(word, sections) + SYMTAB_COMMAND_SIZE as u64 + u64::from(DYSYMTAB_COMMAND_SIZE)
}

/// Where the bytes of the sections begin: address 0 lies there. Constant time.
pub(crate) fn contents_begin(word: Word, sections: usize) -> u64
    requires { sections < 2 ^ 32 }
    ensures place { (n : Object) → length n.sections ≡ sections → result ≡ file.contents_begin word n }
    ensures low { result ≤ 80 * sections + 208 }
{
    mach_header_size(word) + commands_length(word, sections)
}

// entries lie at a multiple of an address's bytes, if there are any
fn entries_align(word: Word, count: usize) -> u64
    ensures align { result ≡ file.entries_align word count }
    ensures some { 1 ≤ result }
    ensures low { result ≤ 8 }
{
    if count == 0 { 1 } else { word_bytes(word) }
}

// where a part begins, after a place: the bytes of a section as far after the first as its address
// is
fn part_begin(word: Word, neutral: &Neutral, bodies: &Bodies, at: u64, part: Part) -> u64
    requires fitted { IsFitted (mach_format word) neutral.now }
    requires bodies { AreBodies word neutral.now bodies.now }
    requires there { IsSome (part_in neutral.now part) }
    requires near { at < 2 ^ 60 }
    ensures { (is : file.Part) → part_in neutral.now part ≡ Some is → result ≡ file.part_begin word neutral.now at is }
{
    match part {
        Part::FileHead
        | Part::SegmentHead
        | Part::SectionHeads
        | Part::SymtabHead
        | Part::DysymtabHead
        | Part::SymbolTable
        | Part::StringTable => at,
        Part::Raw(k) => {
            let begin = contents_begin(word, neutral.section_count() as usize);
            let align = u64::from(neutral.section(k).align);
            begin + aligned_place(align, at.saturating_sub(begin))
        }
        Part::Relocs(k) => {
            let count = bodies.relocs[k as usize].len();
            aligned_place(entries_align(word, count), at)
        }
    }
}

// lays a part that begins there and has so many bytes
fn lay(layout: &mut Layout, begin: u64, size: u64) -> Result<(), NoMemory>
    requires { begin + size < 2 ^ 64 }
    ensures { OnOk result ((w : Width) (n : Object) (xs : List file.Part) (x : file.Part) → AreLaid w n layout.old xs
        → file.part_begin w n layout.old.end x ≡ begin → file.part_size w n x ≡ size → AreLaid w n layout.new (xs ++ x ∷ [])) }
{
    layout.places.push(begin)?;
    layout.end = begin + size;
    Ok(())
}

/// Where these parts of the file lie. `NoMemory` where memory ran out. Linear in the parts.
pub(crate) fn layout_of(
    alloc: Global,
    word: Word,
    neutral: &Neutral,
    bodies: &Bodies,
    parts: &[Part],
) -> Result<Layout, NoMemory>
    requires fitted { IsFitted (mach_format word) neutral.now }
    requires bodies { AreBodies word neutral.now bodies.now }
    requires parts { AreParts neutral.now parts.now }
    ensures { IfOk result (λ layout. AreLaid word neutral.now layout (file.parts_of neutral.now)) }
{
    let mut layout = Layout::new(alloc);
    for part in parts {
        let begin = part_begin(word, neutral, bodies, layout.end, *part);
        lay(
            &mut layout,
            begin,
            part_size(word, neutral.sections(), bodies, *part),
        )?;
    }
    Ok(layout)
}
