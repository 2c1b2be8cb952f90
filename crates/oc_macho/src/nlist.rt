//! Symbol table entries.
ghost use Rattle.std.specs.Prelude.{◌≡◌, ◌+◌, ◌≤◌, length};
ghost use Rattle.oc_macho.specs.Nlist as nlist;

use oc_base::{Word, u8_in, u16_in, u32_in, u64_in};

/// A symbol table entry of either word; the value as wide as in 64 bits (Mach-O reference, "nlist").
#[derive(Clone, Copy, Debug, PartialEq, Eq)]
pub struct Nlist {
    /// Where the name lies among the strings, in bytes.
    pub n_strx: u32,
    /// The type, one of the constants `N_UNDF`, `N_ABS`, `N_SECT`, with `N_EXT` and `N_PEXT`; with a
    /// bit of `N_STAB` it is an entry for debuggers.
    pub n_type: u8,
    /// The number of the section, from 1, or 0.
    pub n_sect: u8,
    /// Flags, as `N_WEAK_REF` and `N_WEAK_DEF`; of a common, bits 8 to 11 are the exponent of its
    /// alignment.
    pub n_desc: u16,
    /// An address, a number, or the size of a common in bytes.
    pub n_value: u64,
}

/// The size of a symbol table entry, in bytes. Constant time.
pub fn nlist_size(word: Word) -> u64
    ensures { result ≡ nlist.nlist_size word }
{
    match word {
        Word::W32 => 12,
        Word::W64 => 16,
    }
}

/// The symbol table entry at `at`, an offset in the file. Constant time.
#[tactic(auto, unfolding(crate::specs::Nlist::nlist_at))]
pub fn nlist_at(word: Word, file: &[u8], at: usize) -> Nlist
    requires { at + nlist.nlist_size word ≤ length file.now }
    ensures { result ≡ nlist.nlist_at word file.now at }
{
    Nlist {
        n_strx: u32_in(file, at),
        n_type: u8_in(file, at + 4),
        n_sect: u8_in(file, at + 5),
        n_desc: u16_in(file, at + 6),
        n_value: match word {
            Word::W32 => u32_in(file, at + 8).into(),
            Word::W64 => u64_in(file, at + 8),
        },
    }
}
