//! The command for a segment, which the headers of its sections follow.
ghost use Rattle.std.specs.Prelude.{◌≡◌, ◌+◌, ◌≤◌, length};
ghost use Rattle.oc_macho.specs.SegmentCommand as segment;

use crate::names::name_at;
use oc_base::{Word, u32_in, u64_in};

/// The command for a segment, without what all commands begin with; of either word, fields as wide
/// as in 64 bits (Mach-O reference, "segment_command").
#[derive(Clone, Copy, Debug, PartialEq, Eq)]
pub struct SegmentCommand {
    /// The name, padded with NULs; in an object it is empty.
    pub segname: [u8; 16],
    /// The address.
    pub vmaddr: u64,
    /// The size in memory, in bytes.
    pub vmsize: u64,
    /// Where the contents begin, in bytes from the start of the file.
    pub fileoff: u64,
    /// How many bytes of the file they have.
    pub filesize: u64,
    /// What may be done with the memory at most.
    pub maxprot: u32,
    /// What may be done with it at first.
    pub initprot: u32,
    /// How many section headers follow.
    pub nsects: u32,
    /// Flags of the segment.
    pub flags: u32,
}

/// The size of the command without its section headers, in bytes. Constant time.
pub fn segment_command_size(word: Word) -> u64
    ensures { result ≡ segment.segment_command_size word }
{
    match word {
        Word::W32 => 56,
        Word::W64 => 72,
    }
}

/// The command for a segment at `at`, an offset in the file. Constant time.
#[tactic(auto, unfolding(crate::specs::SegmentCommand::segment_command_at))]
pub fn segment_command_at(word: Word, file: &[u8], at: usize) -> SegmentCommand
    requires { at + segment.segment_command_size word ≤ length file.now }
    ensures { result ≡ segment.segment_command_at word file.now at }
{
    let segname = name_at(file, at + 8);
    match word {
        Word::W32 => SegmentCommand {
            segname,
            vmaddr: u32_in(file, at + 24).into(),
            vmsize: u32_in(file, at + 28).into(),
            fileoff: u32_in(file, at + 32).into(),
            filesize: u32_in(file, at + 36).into(),
            maxprot: u32_in(file, at + 40),
            initprot: u32_in(file, at + 44),
            nsects: u32_in(file, at + 48),
            flags: u32_in(file, at + 52),
        },
        Word::W64 => SegmentCommand {
            segname,
            vmaddr: u64_in(file, at + 24),
            vmsize: u64_in(file, at + 32),
            fileoff: u64_in(file, at + 40),
            filesize: u64_in(file, at + 48),
            maxprot: u32_in(file, at + 56),
            initprot: u32_in(file, at + 60),
            nsects: u32_in(file, at + 64),
            flags: u32_in(file, at + 68),
        },
    }
}
