//! Section headers.
ghost use Rattle.oc_coff.specs.declared.section_header.TheConstants.{SECTION_HEADER_SIZE};
ghost use Rattle.std.specs.Prelude.{◌≡◌, ◌+◌, ◌≤◌, length};
ghost use Rattle.oc_coff.specs.SectionHeader.{section_header_at};

use crate::name::name_at;
use oc_base::{u16_in, u32_in};

/// The size of a section header, in bytes (PE/COFF, "Section Table").
pub const SECTION_HEADER_SIZE: usize = 40;

/// A section header (PE/COFF, "Section Table").
#[derive(Clone, Copy, Debug, PartialEq, Eq)]
pub struct SectionHeader {
    /// The name, or `/` and a decimal offset in the string table; NULs follow it.
    pub Name: [u8; 8],
    /// The size in memory; 0 in an object.
    pub VirtualSize: u32,
    /// The address; 0 in an object.
    pub VirtualAddress: u32,
    /// The size of the contents, in bytes.
    pub SizeOfRawData: u32,
    /// Where the contents begin, in bytes from the start of the file, or 0.
    pub PointerToRawData: u32,
    /// Where the relocations begin, in bytes from the start of the file, or 0.
    pub PointerToRelocations: u32,
    /// Where the line numbers begin, in bytes from the start of the file, or 0.
    pub PointerToLinenumbers: u32,
    /// How many relocation entries there are.
    pub NumberOfRelocations: u16,
    /// How many line numbers there are.
    pub NumberOfLinenumbers: u16,
    /// A sum of the constants `IMAGE_SCN_*`, with the alignment.
    pub Characteristics: u32,
}

/// The section header at `at`, an offset in the file. Constant time.
#[tactic(auto, unfolding(crate::specs::SectionHeader::section_header_at))]
pub fn section_header_at(file: &[u8], at: usize) -> SectionHeader
    requires { at + SECTION_HEADER_SIZE ≤ length file.now }
    ensures { result ≡ section_header_at file.now at }
{
    SectionHeader {
        Name: name_at(file, at),
        VirtualSize: u32_in(file, at + 8),
        VirtualAddress: u32_in(file, at + 12),
        SizeOfRawData: u32_in(file, at + 16),
        PointerToRawData: u32_in(file, at + 20),
        PointerToRelocations: u32_in(file, at + 24),
        PointerToLinenumbers: u32_in(file, at + 28),
        NumberOfRelocations: u16_in(file, at + 32),
        NumberOfLinenumbers: u16_in(file, at + 34),
        Characteristics: u32_in(file, at + 36),
    }
}
