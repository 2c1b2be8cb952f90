//! The file header.
ghost use Rattle.std.specs.Prelude.{◌≡◌, ◌≤◌, length};
ghost use Rattle.oc_macho.specs.MachHeader as header;
ghost use Rattle.oc_macho.specs.declared.mach_header.TheConstants.{MACH_HEADER_SIZE};

use oc_base::{Word, u32_in};

/// The size of the file header of 32 bits, in bytes; in 64 bits a reserved word follows (Mach-O
/// reference, "mach_header").
pub const MACH_HEADER_SIZE: usize = 28;

/// The file header of either word, without the reserved word (Mach-O reference, "mach_header").
#[derive(Clone, Copy, Debug, PartialEq, Eq)]
pub struct MachHeader {
    /// `MH_MAGIC` or `MH_MAGIC_64`.
    pub magic: u32,
    /// One of the constants `CPU_TYPE_*`.
    pub cputype: u32,
    /// The variant of the processor.
    pub cpusubtype: u32,
    /// `MH_OBJECT`, or another type.
    pub filetype: u32,
    /// How many load commands follow this header.
    pub ncmds: u32,
    /// How many bytes they have together.
    pub sizeofcmds: u32,
    /// Flags of the file.
    pub flags: u32,
}

/// The size of the file header with its reserved word, in bytes. Constant time.
pub fn mach_header_size(word: Word) -> u64
    ensures { result ≡ header.mach_header_size word }
{
    match word {
        Word::W32 => 28,
        Word::W64 => 32,
    }
}

/// The file header of a file of at least `MACH_HEADER_SIZE` bytes. Constant time.
#[tactic(auto, unfolding(crate::specs::MachHeader::mach_header_of))]
pub fn mach_header_of(file: &[u8]) -> MachHeader
    requires { MACH_HEADER_SIZE ≤ length file.now }
    ensures { result ≡ header.mach_header_of file.now }
{
    MachHeader {
        magic: u32_in(file, 0),
        cputype: u32_in(file, 4),
        cpusubtype: u32_in(file, 8),
        filetype: u32_in(file, 12),
        ncmds: u32_in(file, 16),
        sizeofcmds: u32_in(file, 20),
        flags: u32_in(file, 24),
    }
}
