//! The classes of ELF files.
ghost use Rattle.std.specs.Prelude.{◌≡◌};
ghost use Rattle.oc_elf.specs.Classes as classes;

use crate::constants::{EM_386, EM_X86_64, SHT_REL, SHT_RELA};
use oc_base::{Format, Word};

/// The class of a file (gABI, "ELF Identification"), and whether it may have many sections. Functions
/// of what the word alone decides take the word.
#[derive(Clone, Copy, Debug, PartialEq, Eq)]
pub enum ElfClass {
    /// Objects of 32 bits, for i386.
    Class32,
    /// Objects of 64 bits, for x86-64.
    Class64,
    /// Those of 32 bits with many sections.
    Big32,
    /// Those of 64 bits with many sections.
    Big64,
}

impl ElfClass {
    /// The size of an address. Constant time.
    pub fn word(self) -> Word
        ensures { result ≡ classes.word_of self }
    {
        match self {
            ElfClass::Class32 | ElfClass::Big32 => Word::W32,
            ElfClass::Class64 | ElfClass::Big64 => Word::W64,
        }
    }

    /// The format. Constant time.
    pub fn format(self) -> Format
        ensures { result ≡ classes.format_of self }
    {
        match self {
            ElfClass::Class32 => Format::Elf32,
            ElfClass::Class64 => Format::Elf64,
            ElfClass::Big32 => Format::BigElf32,
            ElfClass::Big64 => Format::BigElf64,
        }
    }

    /// Whether sections are numbered in header 0 where the file header has no room. Constant time.
    pub fn is_big(self) -> bool
        ensures { result ≡ classes.is_big self }
    {
        match self {
            ElfClass::Class32 | ElfClass::Class64 => false,
            ElfClass::Big32 | ElfClass::Big64 => true,
        }
    }
}

/// The machine of files of a word, one of the constants `EM_*`. Constant time.
pub fn machine_of(word: Word) -> u16
    ensures { result ≡ classes.machine_of word }
{
    match word {
        Word::W32 => EM_386,
        Word::W64 => EM_X86_64,
    }
}

/// The type of their relocation tables, one of the constants `SHT_*`. Constant time.
pub fn reloc_type(word: Word) -> u32
    ensures { result ≡ classes.reloc_type word }
{
    match word {
        Word::W32 => SHT_REL,
        Word::W64 => SHT_RELA,
    }
}

/// The type of the relocation tables of the other word. Constant time.
pub fn foreign_type(word: Word) -> u32
    ensures { result ≡ classes.foreign_type word }
{
    match word {
        Word::W32 => SHT_RELA,
        Word::W64 => SHT_REL,
    }
}
