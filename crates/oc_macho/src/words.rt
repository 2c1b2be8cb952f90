//! What differs by the word of a file, beside the sizes of its structures.
ghost use Rattle.std.specs.Prelude.{◌≡◌};
ghost use Rattle.oc_macho.specs.MachHeader as header;
ghost use Rattle.oc_macho.specs.SegmentCommand as segment;
ghost use Rattle.oc_macho.specs.Structures as structures;

use crate::constants::{
    CPU_TYPE_X86, CPU_TYPE_X86_64, LC_SEGMENT, LC_SEGMENT_64, MH_MAGIC, MH_MAGIC_64,
};
use oc_base::{Format, Word};

/// The format of a word. Constant time.
pub fn format_of(word: Word) -> Format
    ensures { result ≡ header.mach_format word }
{
    match word {
        Word::W32 => Format::Mac32,
        Word::W64 => Format::Mac64,
    }
}

/// The first bytes of a file of a word, as a number. Constant time.
pub fn magic_of(word: Word) -> u32
    ensures { result ≡ structures.magic_of word }
{
    match word {
        Word::W32 => MH_MAGIC,
        Word::W64 => MH_MAGIC_64,
    }
}

/// The processor for which the files of a word are. Constant time.
pub fn cpu_type(word: Word) -> u32
    ensures { result ≡ header.cpu_type word }
{
    match word {
        Word::W32 => CPU_TYPE_X86,
        Word::W64 => CPU_TYPE_X86_64,
    }
}

/// The number of the command for a segment. Constant time.
pub(crate) fn segment_number(word: Word) -> u32
    ensures { result ≡ segment.segment_number word }
{
    match word {
        Word::W32 => LC_SEGMENT,
        Word::W64 => LC_SEGMENT_64,
    }
}

/// That of the other word. Constant time.
pub(crate) fn foreign_number(word: Word) -> u32
    ensures { result ≡ segment.foreign_number word }
{
    match word {
        Word::W32 => LC_SEGMENT_64,
        Word::W64 => LC_SEGMENT,
    }
}
