//! The objects that the cases change, and where their fields lie.

/// How many bytes of an object are present: all.
pub(super) const ALL: usize = 172;

// ... the file header of `CALL`

/// NumberOfSections.
pub(super) const SECTIONS: usize = 2;
/// PointerToSymbolTable.
pub(super) const SYMBOL_TABLE: usize = 8;
/// SizeOfOptionalHeader.
pub(super) const OPTIONAL_SIZE: usize = 16;

// ... its section header, in which a number is that of a byte after its place

/// Name.
pub(super) const NAME: usize = 20;
/// VirtualAddress.
pub(super) const ADDRESS: usize = 32;
/// SizeOfRawData.
pub(super) const SIZE: usize = 36;
/// PointerToRawData.
pub(super) const RAW: usize = 40;
/// PointerToRelocations.
pub(super) const RELOCS: usize = 44;
/// NumberOfRelocations.
pub(super) const COUNT: usize = 52;
/// Characteristics.
pub(super) const FLAGS: usize = 56;

// ... its relocation entry

/// VirtualAddress.
pub(super) const R_ADDRESS: usize = 66;
/// SymbolTableIndex.
pub(super) const R_SYMBOL: usize = 70;
/// Type.
pub(super) const R_TYPE: usize = 74;

// ... its symbols

/// The section's own symbol.
pub(super) const OWN: usize = 76;
/// Number of its auxiliary entry.
pub(super) const NUMBER: usize = 106;
/// Selection.
pub(super) const SELECTION: usize = 108;
/// The function.
pub(super) const MAIN: usize = 112;
/// What it calls, the last entry.
pub(super) const FOO: usize = 130;
/// Value of a symbol.
pub(super) const VALUE: usize = 8;
/// SectionNumber.
pub(super) const SECTION: usize = 12;
/// StorageClass.
pub(super) const CLASS: usize = 16;
/// NumberOfAuxSymbols.
pub(super) const AUXILIARIES: usize = 17;

// ... after them

/// The size of the string table.
pub(super) const STRINGS: usize = 148;
/// SymbolTableIndex of the second of the two entries at 152 (0x98), of which no header speaks.
pub(super) const SECOND_SYMBOL: usize = 166;

/// `main` in `.text`, with a call to `foo`; and after the string table two relocation entries that
/// no header names: the same call, and one that meets it.
pub(super) const CALL: [u8; 172] = [
    0x4C, 1, 1, 0, 0, 0, 0, 0, 0x4C, 0, 0, 0, 4, 0, 0, 0, 0, 0, 0, 0, 0x2E, 0x74, 0x65, 0x78, 0x74,
    0, 0, 0, 0, 0, 0, 0, 0, 0, 0, 0, 6, 0, 0, 0, 0x3C, 0, 0, 0, 0x42, 0, 0, 0, 0, 0, 0, 0, 1, 0, 0,
    0, 0x20, 0, 0x50, 0x60, 0xE8, 0, 0, 0, 0, 0xC3, 1, 0, 0, 0, 3, 0, 0, 0, 0x14, 0, 0x2E, 0x74,
    0x65, 0x78, 0x74, 0, 0, 0, 0, 0, 0, 0, 1, 0, 0, 0, 3, 1, 6, 0, 0, 0, 1, 0, 0, 0, 0, 0, 0, 0, 0,
    0, 0, 0, 0, 0, 0x6D, 0x61, 0x69, 0x6E, 0, 0, 0, 0, 0, 0, 0, 0, 1, 0, 0x20, 0, 2, 0, 0x66, 0x6F,
    0x6F, 0, 0, 0, 0, 0, 0, 0, 0, 0, 0, 0, 0, 0, 2, 0, 4, 0, 0, 0, 1, 0, 0, 0, 3, 0, 0, 0, 0x14, 0,
    2, 0, 0, 0, 3, 0, 0, 0, 0x14, 0,
];

/// The object of a compiler for x64: five sections, one of them left out, and an absolute symbol.
pub(super) const COMPILED: [u8; 568] = [
    0x64, 0x86, 5, 0, 0, 0, 0, 0, 0x2E, 1, 0, 0, 0xE, 0, 0, 0, 0, 0, 0, 0, 0x2E, 0x64, 0x72, 0x65,
    0x63, 0x74, 0x76, 0x65, 0, 0, 0, 0, 0, 0, 0, 0, 0xB, 0, 0, 0, 0xDC, 0, 0, 0, 0, 0, 0, 0, 0, 0,
    0, 0, 0, 0, 0, 0, 0, 0xA, 0x10, 0, 0x2E, 0x64, 0x65, 0x62, 0x75, 0x67, 0x24, 0x53, 0, 0, 0, 0,
    0, 0, 0, 0, 0x10, 0, 0, 0, 0xE7, 0, 0, 0, 0, 0, 0, 0, 0, 0, 0, 0, 0, 0, 0, 0, 0x40, 0, 0x10,
    0x42, 0x2E, 0x74, 0x65, 0x78, 0x74, 0x24, 0x6D, 0x6E, 0, 0, 0, 0, 0, 0, 0, 0, 5, 0, 0, 0, 0xF7,
    0, 0, 0, 0, 0, 0, 0, 0, 0, 0, 0, 0, 0, 0, 0, 0x20, 0, 0x50, 0x60, 0x2E, 0x78, 0x64, 0x61, 0x74,
    0x61, 0, 0, 0, 0, 0, 0, 0, 0, 0, 0, 8, 0, 0, 0, 0xFC, 0, 0, 0, 0, 0, 0, 0, 0, 0, 0, 0, 0, 0, 0,
    0, 0x40, 0, 0x30, 0x40, 0x2E, 0x70, 0x64, 0x61, 0x74, 0x61, 0, 0, 0, 0, 0, 0, 0, 0, 0, 0, 0xC,
    0, 0, 0, 4, 1, 0, 0, 0x10, 1, 0, 0, 0, 0, 0, 0, 3, 0, 0, 0, 0x40, 0, 0x30, 0x40, 0x2D, 0x64,
    0x65, 0x66, 0x61, 0x75, 0x6C, 0x74, 0x6C, 0x69, 0x62, 0, 0, 0, 0, 0, 0, 0, 0, 0, 0, 0, 0, 0, 0,
    0, 0, 0x48, 0x83, 0xEC, 0x28, 0xC3, 0, 0, 0, 0, 0, 0, 0, 0, 0, 0, 0, 0, 5, 0, 0, 0, 0, 0, 0, 0,
    0, 0, 0, 0, 4, 0, 0, 0, 3, 0, 4, 0, 0, 0, 4, 0, 0, 0, 3, 0, 8, 0, 0, 0, 6, 0, 0, 0, 3, 0, 0x2E,
    0x64, 0x72, 0x65, 0x63, 0x74, 0x76, 0x65, 0, 0, 0, 0, 1, 0, 0, 0, 3, 1, 0xB, 0, 0, 0, 0, 0, 0,
    0, 0, 0, 0, 0, 0, 0, 0, 0, 0, 0, 0x2E, 0x64, 0x65, 0x62, 0x75, 0x67, 0x24, 0x53, 0, 0, 0, 0, 2,
    0, 0, 0, 3, 1, 0x10, 0, 0, 0, 0, 0, 0, 0, 0, 0, 0, 0, 0, 0, 0, 0, 0, 0, 0x2E, 0x74, 0x65, 0x78,
    0x74, 0x24, 0x6D, 0x6E, 0, 0, 0, 0, 3, 0, 0, 0, 3, 1, 5, 0, 0, 0, 0, 0, 0, 0, 0, 0, 0, 0, 0, 0,
    0, 0, 0, 0, 0x2E, 0x78, 0x64, 0x61, 0x74, 0x61, 0, 0, 0, 0, 0, 0, 4, 0, 0, 0, 3, 1, 8, 0, 0, 0,
    0, 0, 0, 0, 0, 0, 0, 0, 0, 0, 0, 0, 0, 0, 0x2E, 0x70, 0x64, 0x61, 0x74, 0x61, 0, 0, 0, 0, 0, 0,
    5, 0, 0, 0, 3, 1, 0xC, 0, 0, 0, 3, 0, 0, 0, 0, 0, 0, 0, 0, 0, 0, 0, 0, 0, 0x40, 0x63, 0x6F,
    0x6D, 0x70, 0x2E, 0x69, 0x64, 0x56, 0x75, 5, 1, 0xFF, 0xFF, 0, 0, 3, 0, 0, 0, 0, 0, 4, 0, 0, 0,
    0, 0, 0, 0, 4, 0, 0, 0, 3, 0, 0x24, 0x70, 0x64, 0x61, 0x74, 0x61, 0x24, 0x66, 0, 0, 0, 0, 5, 0,
    0, 0, 3, 0, 0x66, 0, 0, 0, 0, 0, 0, 0, 0, 0, 0, 0, 3, 0, 0x20, 0, 2, 0, 0xE, 0, 0, 0, 0x24,
    0x75, 0x6E, 0x77, 0x69, 0x6E, 0x64, 0x24, 0x66, 0,
];
