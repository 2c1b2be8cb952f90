//! The auxiliary entry after a section's own symbol.
ghost use Rattle.std.specs.Prelude.{◌≡◌, ◌+◌, ◌≤◌, length};
ghost use Rattle.oc_coff.specs.Forms.{symbol_size};
ghost use Rattle.oc_coff.specs.SectionAux.{section_aux_at};

use crate::form::Shape;
use oc_base::{u8_in, u16_in, u32_in};

/// How many section numbers one of `HighNumber` stands for (winnt.h, "IMAGE_AUX_SYMBOL_EX").
pub const HIGH_NUMBER: u32 = 1 << 16;

/// The auxiliary entry after a section's own symbol (PE/COFF, "Auxiliary Format 5: Section
/// Definitions"; winnt.h, "IMAGE_AUX_SYMBOL_EX"). It has the size of a symbol table entry; what is
/// left of it is unused.
#[derive(Clone, Copy, Debug, PartialEq, Eq)]
pub struct SectionAux {
    /// The size of the contents, in bytes.
    pub Length: u32,
    /// How many relocation entries the section has.
    pub NumberOfRelocations: u16,
    /// How many line numbers the section has.
    pub NumberOfLinenumbers: u16,
    /// A checksum of the contents, or 0.
    pub CheckSum: u32,
    /// The number of another section, on which this one depends, or 0. In an object of many
    /// sections its high 16 bits are in `HighNumber`.
    pub Number: u32,
    /// Which of many copies a linker keeps, or 0.
    pub Selection: u8,
}

/// The auxiliary entry at `at`, an offset in a file of that shape. Constant time.
#[tactic(auto, unfolding(crate::specs::SectionAux::section_aux_at))]
pub fn section_aux_at(shape: Shape, file: &[u8], at: usize) -> SectionAux
    requires { at + symbol_size shape ≤ length file.now }
    ensures { result ≡ section_aux_at shape file.now at }
{
    match shape {
        Shape::Usual => SectionAux {
            Length: u32_in(file, at),
            NumberOfRelocations: u16_in(file, at + 4),
            NumberOfLinenumbers: u16_in(file, at + 6),
            CheckSum: u32_in(file, at + 8),
            Number: u16_in(file, at + 12).into(),
            Selection: u8_in(file, at + 14),
        },
        Shape::Big => SectionAux {
            Length: u32_in(file, at),
            NumberOfRelocations: u16_in(file, at + 4),
            NumberOfLinenumbers: u16_in(file, at + 6),
            CheckSum: u32_in(file, at + 8),
            Number: u32::from(u16_in(file, at + 12))
                + HIGH_NUMBER * u32::from(u16_in(file, at + 16)),
            Selection: u8_in(file, at + 14),
        },
    }
}
