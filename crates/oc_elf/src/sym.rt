//! Symbol table entries.
ghost use Rattle.std.specs.Prelude.{◌≡◌, ◌+◌, ◌≤◌, length};
ghost use Rattle.oc_elf.specs.Sym.{signed_index, sym_in, sym_size, bind_of, type_of};

use oc_base::{Word, u8_in, u16_in, u32_in, u64_in};
use oc_neutral::elf;

/// A symbol table entry (gABI, "Symbol Table"). Fields are as wide as in ELF64.
#[derive(Clone, Copy, Debug, PartialEq, Eq)]
pub struct Sym {
    /// Where the name lies in the string table, in bytes.
    pub st_name: u32,
    /// An offset in the section `st_shndx`, an absolute number or an alignment.
    pub st_value: u64,
    /// The size of what the symbol names, in bytes.
    pub st_size: u64,
    /// The binding and the type.
    pub st_info: u8,
    /// The visibility.
    pub st_other: u8,
    /// The section header that the symbol is defined by, or one of the constants `SHN_*`.
    pub st_shndx: u32,
}

/// The size of a symbol table entry, in bytes. Constant time.
pub fn sym_size(word: Word) -> u64
    ensures { result ≡ sym_size word }
{
    match word {
        Word::W32 => 16,
        Word::W64 => 24,
    }
}

// a section number of 16 bits with its sign in 32 bits: those that are reserved are below 0
fn signed_index(number: u16) -> u32
    ensures { result ≡ signed_index number }
{
    if number < elf::SHN_LORESERVE {
        return number.into();
    }
    u32::from(number) + 0xFFFF_0000
}

/// The symbol table entry at `at`, an offset in the file. Constant time.
#[tactic(auto, unfolding(crate::specs::Sym::sym_in))]
pub fn sym_at(word: Word, file: &[u8], at: usize) -> Sym
    requires { at + sym_size word ≤ length file.now }
    ensures { result ≡ sym_in word file.now at }
{
    let st_name = u32_in(file, at);
    match word {
        Word::W32 => Sym {
            st_name,
            st_value: u32_in(file, at + 4).into(),
            st_size: u32_in(file, at + 8).into(),
            st_info: u8_in(file, at + 12),
            st_other: u8_in(file, at + 13),
            st_shndx: signed_index(u16_in(file, at + 14)),
        },
        Word::W64 => Sym {
            st_name,
            st_value: u64_in(file, at + 8),
            st_size: u64_in(file, at + 16),
            st_info: u8_in(file, at + 4),
            st_other: u8_in(file, at + 5),
            st_shndx: signed_index(u16_in(file, at + 6)),
        },
    }
}

impl Sym {
    /// The binding, one of the constants `STB_*`. Constant time.
    pub fn st_bind(self) -> u8
        ensures { result ≡ bind_of self }
    {
        self.st_info / 16
    }

    /// The type, one of the constants `STT_*`. Constant time.
    pub fn st_type(self) -> u8
        ensures { result ≡ type_of self }
    {
        self.st_info % 16
    }
}
