//! The file header.
ghost use Rattle.std.specs.Prelude.{◌≡◌, ◌≤◌, length};
ghost use Rattle.oc_coff.specs.FileHeader.{file_header_of};
ghost use Rattle.oc_coff.specs.Forms.{header_size};

use crate::form::Shape;
use oc_base::{u16_in, u32_in};

/// The size of the file header, in bytes (PE/COFF, "COFF File Header").
pub const FILE_HEADER_SIZE: usize = 20;
/// That of an object of many sections (winnt.h, "ANON_OBJECT_HEADER_BIGOBJ").
pub const BIG_HEADER_SIZE: usize = 56;

/// What the file header says (PE/COFF, "COFF File Header"; winnt.h, "ANON_OBJECT_HEADER_BIGOBJ"). What a
/// shape has no room for is 0.
#[derive(Clone, Copy, Debug, PartialEq, Eq)]
pub struct FileHeader {
    /// The machine that the file is for, one of the constants `IMAGE_FILE_MACHINE_*`.
    pub Machine: u16,
    /// How many section headers follow this header.
    pub NumberOfSections: u32,
    /// When the file was made, in seconds since 1970, or 0.
    pub TimeDateStamp: u32,
    /// Where the symbols begin, in bytes from the start of the file, or 0.
    pub PointerToSymbolTable: u32,
    /// How many entries the symbol table has, auxiliary ones too.
    pub NumberOfSymbols: u32,
    /// The size of the optional header, in bytes; 0 in an object.
    pub SizeOfOptionalHeader: u16,
    /// Flags of the file.
    pub Characteristics: u16,
    /// The version of an object of many sections.
    pub Version: u16,
}

/// The file header of a file of that shape, which has at least so many bytes. Constant time.
#[tactic(auto, unfolding(crate::specs::FileHeader::file_header_of))]
pub fn file_header_of(shape: Shape, file: &[u8]) -> FileHeader
    requires { header_size shape ≤ length file.now }
    ensures { result ≡ file_header_of shape file.now }
{
    match shape {
        Shape::Usual => FileHeader {
            Machine: u16_in(file, 0),
            NumberOfSections: u16_in(file, 2).into(),
            TimeDateStamp: u32_in(file, 4),
            PointerToSymbolTable: u32_in(file, 8),
            NumberOfSymbols: u32_in(file, 12),
            SizeOfOptionalHeader: u16_in(file, 16),
            Characteristics: u16_in(file, 18),
            Version: 0,
        },
        Shape::Big => FileHeader {
            Machine: u16_in(file, 6),
            NumberOfSections: u32_in(file, 44),
            TimeDateStamp: u32_in(file, 8),
            PointerToSymbolTable: u32_in(file, 48),
            NumberOfSymbols: u32_in(file, 52),
            SizeOfOptionalHeader: 0,
            Characteristics: 0,
            Version: u16_in(file, 4),
        },
    }
}
