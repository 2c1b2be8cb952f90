//! The headers and commands of a file together.
ghost use Rattle.std.specs.Prelude.{◌≡◌, ◌+◌, ◌-◌, ◌^◌, ◌<◌, ◌≤◌, length, IfOk};
ghost use Rattle.oc_macho_file.specs.Lines as mach_lines;
ghost use Rattle.oc_macho_write.specs.Heads.{AreHeads, IsOutput};
ghost use Rattle.oc_macho_write.specs.Lines.{AreLines};

use crate::headers::{Output, file_header, section_headers, segment_of_file, symtab_command};
use crate::layout::segment_length;
use crate::lines::Lines;
use oc_base::NoMemory;
use oc_macho::{Dysymtab, MachHeader, SectionHeader, SegmentCommand, SymtabCommand};
use std::alloc::Global;

/// The headers and commands of a file.
#[derive(Debug, Drop)]
pub(crate) struct Heads {
    /// The file header.
    pub(crate) file: MachHeader,
    /// How many bytes the command for the segment has, with the section headers after it.
    pub(crate) cmdsize: u32,
    /// The command for the segment.
    pub(crate) segment: SegmentCommand,
    /// The section headers.
    pub(crate) sections: Vec<SectionHeader>,
    /// The command that places symbols and strings.
    pub(crate) symtab: SymtabCommand,
    /// The command that lists the groups of symbols.
    pub(crate) dysymtab: Dysymtab,
}

// how many lines are in each group
fn dysymtab_of(lines: &Lines) -> Dysymtab
    requires order { lines.now.inner ≤ lines.now.defined }
    requires within { lines.now.defined ≤ length lines.now.all.items }
    requires few { length lines.now.all.items < 2 ^ 32 }
    ensures inner { result.nlocalsym ≡ lines.now.inner }
    ensures defined { result.nextdefsym ≡ lines.now.defined - lines.now.inner }
    ensures undefined { result.nundefsym ≡ length lines.now.all.items - lines.now.defined }
{
    Dysymtab {
        nlocalsym: lines.inner as u32,
        nextdefsym: (lines.defined - lines.inner) as u32,
        nundefsym: (lines.all.len() - lines.defined) as u32,
    }
}

/// The headers and commands of the file of an object with these lines. `NoMemory` where memory ran
/// out. Linear in the sections.
pub(crate) fn heads_of(alloc: Global, output: &Output, lines: &Lines) -> Result<Heads, NoMemory>
    requires made { IsOutput output.now }
    requires lines { AreLines output.now.word output.now.neutral.now lines.now.all.items }
    requires inner { lines.now.inner ≡ length (mach_lines.inner_lines output.now.word output.now.neutral.now) }
    requires defined { lines.now.defined ≡ lines.now.inner + length (mach_lines.defined_lines output.now.neutral.now) }
    ensures { IfOk result (λ heads. AreHeads output.now.word output.now.neutral.now heads) }
{
    let word = output.word;
    let count = output.neutral.section_count() as usize;
    Ok(Heads {
        file: file_header(word, count),
        cmdsize: segment_length(word, count) as u32,
        segment: segment_of_file(word, count, output.addresses),
        sections: section_headers(alloc, output)?,
        symtab: symtab_command(output),
        dysymtab: dysymtab_of(lines),
    })
}
