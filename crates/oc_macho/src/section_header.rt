//! Section headers.
ghost use Rattle.std.specs.Prelude.{◌≡◌, ◌+◌, ◌≤◌, length};
ghost use Rattle.oc_macho.specs.SectionHeader as section;

use crate::names::name_at;
use oc_base::{Word, u32_in, u64_in};

/// A section header of either word, without the reserved fields; addresses as wide as in 64 bits
/// (Mach-O reference, "section").
#[derive(Clone, Copy, Debug, PartialEq, Eq)]
pub struct SectionHeader {
    /// The name, padded with NULs.
    pub sectname: [u8; 16],
    /// The name of the segment in which a linker puts the section, padded with NULs.
    pub segname: [u8; 16],
    /// The address that the file gives to the section.
    pub addr: u64,
    /// The size, in bytes.
    pub size: u64,
    /// Where the contents begin, in bytes from the start of the file.
    pub offset: u32,
    /// The alignment, as the exponent of 2.
    pub align: u32,
    /// Where the relocation entries begin, in bytes from the start of the file.
    pub reloff: u32,
    /// How many there are.
    pub nreloc: u32,
    /// The type, one of the constants `S_*`, and attributes, a sum of the constants `S_ATTR_*`.
    pub flags: u32,
}

/// The size of a section header, in bytes. Constant time.
pub fn section_header_size(word: Word) -> u64
    ensures { result ≡ section.section_header_size word }
{
    match word {
        Word::W32 => 68,
        Word::W64 => 80,
    }
}

/// The section header at `at`, an offset in the file. Constant time.
#[tactic(auto, unfolding(crate::specs::SectionHeader::section_header_at))]
pub fn section_header_at(word: Word, file: &[u8], at: usize) -> SectionHeader
    requires { at + section.section_header_size word ≤ length file.now }
    ensures { result ≡ section.section_header_at word file.now at }
{
    let sectname = name_at(file, at);
    let segname = name_at(file, at + 16);
    match word {
        Word::W32 => SectionHeader {
            sectname,
            segname,
            addr: u32_in(file, at + 32).into(),
            size: u32_in(file, at + 36).into(),
            offset: u32_in(file, at + 40),
            align: u32_in(file, at + 44),
            reloff: u32_in(file, at + 48),
            nreloc: u32_in(file, at + 52),
            flags: u32_in(file, at + 56),
        },
        Word::W64 => SectionHeader {
            sectname,
            segname,
            addr: u64_in(file, at + 32),
            size: u64_in(file, at + 40),
            offset: u32_in(file, at + 48),
            align: u32_in(file, at + 52),
            reloff: u32_in(file, at + 56),
            nreloc: u32_in(file, at + 60),
            flags: u32_in(file, at + 64),
        },
    }
}
