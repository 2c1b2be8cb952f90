//! The file header, the commands and the section headers (Mach-O reference, "mach_header",
//! "segment_command", "section" and "symtab_command").
ghost use Rattle.std.specs.Prelude.{◌≡◌, ◌<◌, ◌^◌, ℕ, length, slice_get, Some, IfOk, if◌then◌else◌, nat_eq};
ghost use Rattle.oc_neutral.specs.Objects.{Object};
ghost use Rattle.oc_neutral.specs.declared.section.Section.{Section as HeldSection};
ghost use Rattle.oc_macho_file.specs.Canonical as canonical;
ghost use Rattle.oc_macho_write.specs.Addresses.{AreAllAddresses};
ghost use Rattle.oc_macho_write.specs.Heads as heads;

use crate::addresses::Addresses;
use crate::bodies::Bodies;
use crate::layout::{commands_length, contents_begin};
use crate::names::{section_of, segment_of};
use crate::places::Places;
use crate::strings::strings_size;
use crate::values::exponent_of;
use oc_base::{NoMemory, Word};
use oc_macho::{
    COMMAND_COUNT, CPU_SUBTYPE_ALL, MH_OBJECT, MachHeader, NAME_SIZE, SectionHeader,
    SegmentCommand, SymtabCommand, VM_PROT_ALL, cpu_type, magic_of, padded,
};
use oc_neutral::Neutral;
use std::alloc::Global;

/// An object that is written, and what was made of it before its headers.
#[derive(Clone, Copy)]
pub(crate) struct Output<'a> {
    /// The word of the file.
    pub(crate) word: Word,
    /// The object.
    pub(crate) neutral: &'a Neutral,
    /// The addresses of its sections.
    pub(crate) addresses: &'a Addresses,
    /// What the file contains besides headers and the bytes of sections.
    pub(crate) bodies: &'a Bodies,
    /// Where headers point to.
    pub(crate) places: &'a Places,
}

/// The header of a file with so many sections, without flags. Constant time.
pub(crate) fn file_header(word: Word, sections: usize) -> MachHeader
    requires { sections < 2 ^ 8 }
    ensures { (n : Object) → length n.sections ≡ sections → result ≡ canonical.file_header word n }
{
    MachHeader {
        magic: magic_of(word),
        cputype: cpu_type(word),
        cpusubtype: CPU_SUBTYPE_ALL,
        filetype: MH_OBJECT,
        ncmds: COMMAND_COUNT,
        sizeofcmds: commands_length(word, sections) as u32,
        flags: 0,
    }
}

/// The command for the segment, which has no name and begins at address 0. Constant time.
pub(crate) fn segment_of_file(word: Word, sections: usize, addresses: &Addresses) -> SegmentCommand
    requires { sections < 2 ^ 8 }
    ensures { (n : Object) → length n.sections ≡ sections → AreAllAddresses n addresses.now → result ≡ heads.segment_of word n }
{
    SegmentCommand {
        segname: [0; NAME_SIZE],
        vmaddr: 0,
        vmsize: addresses.memory_end,
        fileoff: contents_begin(word, sections),
        filesize: addresses.stored_end,
        maxprot: VM_PROT_ALL,
        initprot: VM_PROT_ALL,
        nsects: sections as u32,
        flags: 0,
    }
}

// a pointer to entries: 0 where there are none
fn pointer_to(place: u64, count: usize) -> u32
    requires { place < 2 ^ 32 }
    ensures { result ≡ canonical.pointer_to place count }
{
    if count == 0 { 0 } else { place as u32 }
}

// the header of the section at a position
fn section_header(output: &Output, position: u32) -> SectionHeader
    requires made { heads.IsOutput output.now }
    requires there { position < length output.now.neutral.now.sections }
    ensures { (s : HeldSection) → slice_get output.now.neutral.now.sections position ≡ Some s
        → result ≡ canonical.section_header output.now.word output.now.neutral.now (position, s) }
{
    let section = output.neutral.section(position);
    let name = section.name.as_slice();
    let k = position as usize;
    let count = output.bodies.relocs[k].len();
    SectionHeader {
        sectname: padded(section_of(name)),
        segname: padded(segment_of(name)),
        addr: output.addresses.sections[k],
        size: u64::from(section.size),
        offset: output.places.raws[k] as u32,
        align: exponent_of(section.align),
        reloff: pointer_to(output.places.relocs[k], count),
        nreloc: count as u32,
        flags: section.tag as u32,
    }
}

/// The section headers of a file. `NoMemory` where memory ran out. Linear in the sections.
pub(crate) fn section_headers(
    alloc: Global,
    output: &Output,
) -> Result<Vec<SectionHeader>, NoMemory>
    requires { heads.IsOutput output.now }
    ensures { IfOk result (λ headers. headers.items ≡ canonical.section_headers output.now.word output.now.neutral.now) }
{
    let count = output.neutral.section_count();
    let mut headers = Vec::with_capacity(alloc, count as usize)?;
    for k in 0..count {
        headers.push(section_header(output, k))?;
    }
    Ok(headers)
}

/// The command that places symbols and strings. Constant time.
pub(crate) fn symtab_command(output: &Output) -> SymtabCommand
    requires { heads.IsOutput output.now }
    ensures { result ≡ canonical.symtab_command output.now.word output.now.neutral.now }
{
    let bodies = output.bodies;
    SymtabCommand {
        symoff: output.places.symbols as u32,
        nsyms: bodies.nlists.len() as u32,
        stroff: output.places.strings as u32,
        strsize: strings_size(output.word, &bodies.strings) as u32,
    }
}
