//! Symbol table entries.
ghost use Rattle.std.specs.Prelude.{◌≡◌, ◌+◌, ◌≤◌, length};
ghost use Rattle.oc_coff.specs.Forms.{symbol_size};
ghost use Rattle.oc_coff.specs.SymbolEntry as entry;

use crate::form::Shape;
use crate::name::name_at;
use oc_base::{u8_in, u16_in, u32_in};

/// The size of a symbol table entry, in bytes (PE/COFF, "COFF Symbol Table").
pub const SYMBOL_SIZE: usize = 18;
/// That of an object of many sections (winnt.h, "IMAGE_SYMBOL_EX").
pub const BIG_SYMBOL_SIZE: usize = 20;

/// A symbol table entry (PE/COFF, "COFF Symbol Table"; winnt.h, "IMAGE_SYMBOL_EX").
#[derive(Clone, Copy, Debug, PartialEq, Eq)]
pub struct SymbolEntry {
    /// The name, padded with NULs, or four zeros and an offset in the string table.
    pub Name: [u8; 8],
    /// An offset in the section, a size or a number, by the section number and the class.
    pub Value: u32,
    /// The number of the section, from 1, with the sign in 32 bits; 0 is undefined, -1 absolute, -2 for
    /// debuggers.
    pub SectionNumber: u32,
    /// `IMAGE_SYM_TYPE_FUNCTION`, or another type.
    pub Type: u16,
    /// One of the constants `IMAGE_SYM_CLASS_*`.
    pub StorageClass: u8,
    /// How many auxiliary entries follow this one.
    pub NumberOfAuxSymbols: u8,
}

/// The first of the section numbers of 16 bits that are below 0 (PE/COFF, "Section Number Values").
pub const NEGATIVE_SECTION: u16 = 0xFF00;
/// What such a number has more in 32 bits.
pub const SIGN_BITS: u32 = 0xFFFF_0000;

// a section number of 16 bits with its sign in 32 bits: those from 0xFF00 up are below 0
fn signed_number(number: u16) -> u32
    ensures { result ≡ entry.signed_number number }
{
    if number < NEGATIVE_SECTION {
        return number.into();
    }
    u32::from(number) + SIGN_BITS
}

/// The symbol table entry at `at`, an offset in a file of that shape. Constant time.
#[tactic(auto, unfolding(crate::specs::SymbolEntry::symbol_at))]
pub fn symbol_at(shape: Shape, file: &[u8], at: usize) -> SymbolEntry
    requires { at + symbol_size shape ≤ length file.now }
    ensures { result ≡ entry.symbol_at shape file.now at }
{
    match shape {
        Shape::Usual => SymbolEntry {
            Name: name_at(file, at),
            Value: u32_in(file, at + 8),
            SectionNumber: signed_number(u16_in(file, at + 12)),
            Type: u16_in(file, at + 14),
            StorageClass: u8_in(file, at + 16),
            NumberOfAuxSymbols: u8_in(file, at + 17),
        },
        Shape::Big => SymbolEntry {
            Name: name_at(file, at),
            Value: u32_in(file, at + 8),
            SectionNumber: u32_in(file, at + 12),
            Type: u16_in(file, at + 16),
            StorageClass: u8_in(file, at + 18),
            NumberOfAuxSymbols: u8_in(file, at + 19),
        },
    }
}
