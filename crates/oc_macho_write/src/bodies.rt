//! What parts hold: their sizes, and windows of them.
ghost use Rattle.std.specs.Prelude.{◌≡◌, ◌+◌, ◌^◌, ◌<◌, ◌++◌, [], IfOk, length, map, replicate, slice_index_or};
ghost use Rattle.oc_target.specs.Fitted.{IsFitted};
ghost use Rattle.oc_outside.specs.Windows.{IsFilled};
ghost use Rattle.oc_shelf.specs.Writing.Parts.{HaveSize};
ghost use Rattle.oc_macho.specs.MachHeader.{mach_format};
ghost use Rattle.oc_macho.specs.SectionHeader as section_headers;
ghost use Rattle.oc_macho_write.specs.Addresses.{AreAllAddresses};
ghost use Rattle.oc_macho_write.specs.Bodies.{AreBodies, body_by, HasBody, IsHeaded, IsSmall, size_by};
ghost use Rattle.oc_macho_write.specs.Lines.{AreLines};
ghost use Rattle.oc_macho.specs.Structures.{dysymtab_front, section_bytes, segment_back, segment_front};

use crate::addresses::Addresses;
use crate::forms::FieldContext;
use crate::heads::Heads;
use crate::lines::Line;
use crate::numbers::Numbers;
use crate::parts::Part;
use crate::relocations::all_entries;
use crate::strings::{strings_of, strings_size};
use crate::symbols::nlists_of;
use crate::tables::{headers_window, nlists_window, relocations_window, strings_window};
use crate::windows::{filled_window, pair_window};
use oc_base::{NoMemory, Word};
use oc_macho::{
    DYSYMTAB_COMMAND_SIZE, Nlist, RELOCATION_INFO_SIZE, RelocationInfo, SYMTAB_COMMAND_SIZE,
    mach_header_size, nlist_size, pack_dysymtab_front, pack_mach_header, pack_segment_back,
    pack_segment_front, pack_symtab, section_header_size, segment_command_size,
};
use oc_neutral::{Neutral, Section};
use oc_shelf::copy_window;
use oc_strings::Table;
use std::alloc::Global;

/// What a file contains besides headers and the bytes of sections.
#[derive(Debug, Drop)]
pub(crate) struct Bodies {
    /// The relocation entries of each section.
    pub(crate) relocs: Vec<Vec<RelocationInfo>>,
    /// The entries of the symbol table.
    pub(crate) nlists: Vec<Nlist>,
    /// The names of symbols.
    pub(crate) strings: Table,
}

/// The tables of an object with these addresses and lines. `NoMemory` where memory ran out. Linear in
/// the object, but for the string table.
pub(crate) fn bodies_of(
    alloc: Global,
    word: Word,
    neutral: &Neutral,
    addresses: &Addresses,
    lines: &[Line],
) -> Result<Bodies, NoMemory>
    requires fitted { IsFitted (mach_format word) neutral.now }
    requires addresses { AreAllAddresses neutral.now addresses.now }
    requires lines { AreLines word neutral.now lines.now }
    ensures { IfOk result (λ bodies. AreBodies word neutral.now bodies) }
{
    let numbers = Numbers::of(alloc, neutral, lines)?;
    let strings = strings_of(alloc, neutral, lines)?;
    let nlists = nlists_of(alloc, neutral, &strings, &addresses.sections, lines)?;
    let context = FieldContext {
        word,
        addresses: &addresses.sections,
        symbols: neutral.symbols(),
    };
    let relocs = all_entries(alloc, neutral, context, &numbers)?;
    Ok(Bodies {
        relocs,
        nlists,
        strings,
    })
}

/// How many zeros end the command that lists the groups of symbols.
const DYSYMTAB_ZEROS: u64 = 48;

/// How many bytes a part has. Constant time.
pub(crate) fn part_size(word: Word, sections: &[Section], bodies: &Bodies, part: Part) -> u64
    requires there { HasBody sections.now bodies.now part }
    requires few { length sections.now < 2 ^ 32 }
    requires small { IsSmall word sections.now bodies.now part }
    ensures { result ≡ size_by word sections.now bodies.now part }
{
    match part {
        Part::FileHead => mach_header_size(word),
        Part::SegmentHead => segment_command_size(word),
        Part::SectionHeads => section_header_size(word) * sections.len() as u64,
        Part::SymtabHead => SYMTAB_COMMAND_SIZE as u64,
        Part::DysymtabHead => u64::from(DYSYMTAB_COMMAND_SIZE),
        Part::Raw(k) => sections[k as usize].bytes.as_slice().len() as u64,
        Part::Relocs(k) => (RELOCATION_INFO_SIZE * bodies.relocs[k as usize].len()) as u64,
        Part::SymbolTable => nlist_size(word) * bodies.nlists.len() as u64,
        Part::StringTable => strings_size(word, &bodies.strings),
    }
}

// a window of the command for the segment
fn segment_window(word: Word, heads: &Heads, from: u64, out: &mut [u8]) -> usize
    ensures { IsFilled (segment_front word heads.now.cmdsize heads.now.segment ++ segment_back word heads.now.segment) from out.old out.new result }
{
    let cmdsize = heads.cmdsize;
    let front = pack_segment_front(word, cmdsize, &heads.segment);
    let back = pack_segment_back(word, &heads.segment);
    pair_window(front.as_slice(), back.as_slice(), from, out)
}

// a window of the bytes of the section at a position
fn raw_window(sections: &[Section], k: u32, from: u64, out: &mut [u8]) -> usize
    requires { k < length sections.now }
    ensures { IsFilled (slice_index_or (map (λ s. s.bytes) sections.now) k []) from out.old out.new result }
{
    copy_window(sections[k as usize].bytes.as_slice(), from, out)
}

// a window of the command that lists the groups of symbols
fn dysymtab_window(heads: &Heads, from: u64, out: &mut [u8]) -> usize
    requires { heads.now.dysymtab.nlocalsym + heads.now.dysymtab.nextdefsym < 2 ^ 32 }
    ensures { IsFilled (dysymtab_front heads.now.dysymtab ++ replicate DYSYMTAB_ZEROS 0) from out.old out.new result }
{
    let front = pack_dysymtab_front(&heads.dysymtab);
    filled_window(front.as_slice(), DYSYMTAB_ZEROS, from, out)
}

/// A window of a part, as `copy_window` gives it. The time is that of the entries that meet the window.
pub(crate) fn body_window(
    word: Word,
    heads: &Heads,
    sections: &[Section],
    bodies: &Bodies,
    part: Part,
    from: u64,
    out: &mut [u8],
) -> usize
    requires there { HasBody sections.now bodies.now part }
    requires headed { IsHeaded word heads.now }
    requires small { length (body_by word heads.now sections.now bodies.now part) < 2 ^ 63 }
    ensures { IsFilled (body_by word heads.now sections.now bodies.now part) from out.old out.new result }
{
    match part {
        Part::FileHead => copy_window(pack_mach_header(word, &heads.file).as_slice(), from, out),
        Part::SegmentHead => segment_window(word, heads, from, out),
        Part::SectionHeads => headers_window(word, &heads.sections, from, out),
        Part::SymtabHead => copy_window(pack_symtab(&heads.symtab).as_slice(), from, out),
        Part::DysymtabHead => dysymtab_window(heads, from, out),
        Part::Raw(k) => raw_window(sections, k, from, out),
        Part::Relocs(k) => relocations_window(&bodies.relocs[k as usize], from, out),
        Part::SymbolTable => nlists_window(word, &bodies.nlists, from, out),
        Part::StringTable => strings_window(word, &bodies.strings, from, out),
    }
}
