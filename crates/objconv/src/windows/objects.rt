//! The objects that are converted, the files that they become, and where parts of these lie.

/// Where `.text` lies in `CALL_COFF`.
pub(super) const TEXT: u64 = 0x3C;
/// Where `CALL_COFF` ends.
pub(super) const END: u64 = 0x98;

/// `call foo` in the function `main`, as ELF for i386.
pub(super) const CALL: &[u8] = &[
    // 0x00 file header
    0x7F, 0x45, 0x4C, 0x46, 1, 1, 1, 0, 0, 0, 0, 0, 0, 0, 0, 0, 1, 0, 3, 0, 1, 0, 0, 0, 0, 0, 0, 0,
    0, 0, 0, 0, 0xC0, 0, 0, 0, 0, 0, 0, 0, 0x34, 0, 0, 0, 0, 0, 0x28, 0, 6, 0, 5, 0,
    // 0x34 padding
    0, 0, 0, 0, 0, 0, 0, 0, 0, 0, 0, 0,
    // 0x40 .text
    0xE8, 0xFC, 0xFF, 0xFF, 0xFF, 0xC3,
    // 0x46 padding
    0, 0,
    // 0x48 .rel.text: entry 0, "foo"
    1, 0, 0, 0, 2, 3, 0, 0,
    // 0x50 .symtab: entry 0
    0, 0, 0, 0, 0, 0, 0, 0, 0, 0, 0, 0, 0, 0, 0, 0,
    // 0x60 .symtab: entry 1, the section ".text"
    0, 0, 0, 0, 0, 0, 0, 0, 0, 0, 0, 0, 3, 0, 1, 0,
    // 0x70 .symtab: entry 2, "main"
    1, 0, 0, 0, 0, 0, 0, 0, 0, 0, 0, 0, 0x12, 0, 1, 0,
    // 0x80 .symtab: entry 3, "foo"
    6, 0, 0, 0, 0, 0, 0, 0, 0, 0, 0, 0, 0x10, 0, 0, 0,
    // 0x90 .strtab
    0, 0x6D, 0x61, 0x69, 0x6E, 0, 0x66, 0x6F, 0x6F, 0,
    // 0x9A .shstrtab
    0, 0x2E, 0x72, 0x65, 0x6C, 0x2E, 0x74, 0x65, 0x78, 0x74, 0, 0x2E, 0x73, 0x79, 0x6D, 0x74, 0x61,
    0x62, 0, 0x2E, 0x73, 0x74, 0x72, 0x74, 0x61, 0x62, 0, 0x2E, 0x73, 0x68, 0x73, 0x74, 0x72, 0x74,
    0x61, 0x62, 0,
    // 0xBF padding
    0,
    // 0xC0 section header 0
    0, 0, 0, 0, 0, 0, 0, 0, 0, 0, 0, 0, 0, 0, 0, 0, 0, 0, 0, 0, 0, 0, 0, 0, 0, 0, 0, 0, 0, 0, 0, 0,
    0, 0, 0, 0, 0, 0, 0, 0,
    // 0xE8 section header 1, ".text"
    5, 0, 0, 0, 1, 0, 0, 0, 6, 0, 0, 0, 0, 0, 0, 0, 0x40, 0, 0, 0, 6, 0, 0, 0, 0, 0, 0, 0, 0, 0, 0,
    0, 0x10, 0, 0, 0, 0, 0, 0, 0,
    // 0x110 section header 2, ".rel.text"
    1, 0, 0, 0, 9, 0, 0, 0, 0x40, 0, 0, 0, 0, 0, 0, 0, 0x48, 0, 0, 0, 8, 0, 0, 0, 3, 0, 0, 0, 1, 0,
    0, 0, 4, 0, 0, 0, 8, 0, 0, 0,
    // 0x138 section header 3, ".symtab"
    0x0B, 0, 0, 0, 2, 0, 0, 0, 0, 0, 0, 0, 0, 0, 0, 0, 0x50, 0, 0, 0, 0x40, 0, 0, 0, 4, 0, 0, 0, 2,
    0, 0, 0, 4, 0, 0, 0, 0x10, 0, 0, 0,
    // 0x160 section header 4, ".strtab"
    0x13, 0, 0, 0, 3, 0, 0, 0, 0, 0, 0, 0, 0, 0, 0, 0, 0x90, 0, 0, 0, 0x0A, 0, 0, 0, 0, 0, 0, 0, 0,
    0, 0, 0, 1, 0, 0, 0, 0, 0, 0, 0,
    // 0x188 section header 5, ".shstrtab"
    0x1B, 0, 0, 0, 3, 0, 0, 0, 0, 0, 0, 0, 0, 0, 0, 0, 0x9A, 0, 0, 0, 0x25, 0, 0, 0, 0, 0, 0, 0, 0,
    0, 0, 0, 1, 0, 0, 0, 0, 0, 0, 0,
];

/// The same as COFF.
pub(super) const CALL_COFF: &[u8] = &[
    // 0x00 file header
    0x4C, 1, 1, 0, 0, 0, 0, 0, 0x4C, 0, 0, 0, 4, 0, 0, 0, 0, 0, 0, 0,
    // 0x14 section header 1, ".text"
    0x2E, 0x74, 0x65, 0x78, 0x74, 0, 0, 0, 0, 0, 0, 0, 0, 0, 0, 0, 6, 0, 0, 0, 0x3C, 0, 0, 0, 0x42,
    0, 0, 0, 0, 0, 0, 0, 1, 0, 0, 0, 0x20, 0, 0x50, 0x60,
    // 0x3C .text
    0xE8, 0, 0, 0, 0, 0xC3,
    // 0x42 relocations of .text: entry 0, "foo"
    1, 0, 0, 0, 3, 0, 0, 0, 0x14, 0,
    // 0x4C symbol table: entry 0, the section ".text"
    0x2E, 0x74, 0x65, 0x78, 0x74, 0, 0, 0, 0, 0, 0, 0, 1, 0, 0, 0, 3, 1,
    // 0x5E symbol table: entry 1, the section's auxiliary entry
    6, 0, 0, 0, 1, 0, 0, 0, 0, 0, 0, 0, 0, 0, 0, 0, 0, 0,
    // 0x70 symbol table: entry 2, "main"
    0x6D, 0x61, 0x69, 0x6E, 0, 0, 0, 0, 0, 0, 0, 0, 1, 0, 0x20, 0, 2, 0,
    // 0x82 symbol table: entry 3, "foo"
    0x66, 0x6F, 0x6F, 0, 0, 0, 0, 0, 0, 0, 0, 0, 0, 0, 0, 0, 2, 0,
    // 0x94 string table
    4, 0, 0, 0,
];

/// A function `main`, which calls `t`, and `t` in a group of its own, as ELF for i386.
pub(super) const GROUP: &[u8] = &[
    // 0x00 file header
    0x7F, 0x45, 0x4C, 0x46, 1, 1, 1, 0, 0, 0, 0, 0, 0, 0, 0, 0, 1, 0, 3, 0, 1, 0, 0, 0, 0, 0, 0, 0,
    0, 0, 0, 0, 0xE8, 0, 0, 0, 0, 0, 0, 0, 0x34, 0, 0, 0, 0, 0, 0x28, 0, 8, 0, 7, 0,
    // 0x34 .group: its flags, and section 3
    1, 0, 0, 0, 3, 0, 0, 0,
    // 0x3C padding
    0, 0, 0, 0,
    // 0x40 .text
    0xE8, 0xFC, 0xFF, 0xFF, 0xFF, 0xC3,
    // 0x46 padding
    0, 0, 0, 0, 0, 0, 0, 0, 0, 0,
    // 0x50 .text.t
    0x8B, 4, 0x24, 0xC3,
    // 0x54 .rel.text: entry 0, "t"
    1, 0, 0, 0, 2, 3, 0, 0,
    // 0x5C .symtab: entry 0
    0, 0, 0, 0, 0, 0, 0, 0, 0, 0, 0, 0, 0, 0, 0, 0,
    // 0x6C .symtab: entry 1, the section ".text"
    0, 0, 0, 0, 0, 0, 0, 0, 0, 0, 0, 0, 3, 0, 2, 0,
    // 0x7C .symtab: entry 2, the section ".text.t"
    0, 0, 0, 0, 0, 0, 0, 0, 0, 0, 0, 0, 3, 0, 3, 0,
    // 0x8C .symtab: entry 3, "t"
    1, 0, 0, 0, 0, 0, 0, 0, 0, 0, 0, 0, 0x12, 2, 3, 0,
    // 0x9C .symtab: entry 4, "main"
    3, 0, 0, 0, 0, 0, 0, 0, 0, 0, 0, 0, 0x12, 0, 2, 0,
    // 0xAC .strtab
    0, 0x74, 0, 0x6D, 0x61, 0x69, 0x6E, 0,
    // 0xB4 .shstrtab
    0, 0x2E, 0x67, 0x72, 0x6F, 0x75, 0x70, 0, 0x2E, 0x74, 0x65, 0x78, 0x74, 0x2E, 0x74, 0, 0x2E,
    0x72, 0x65, 0x6C, 0x2E, 0x74, 0x65, 0x78, 0x74, 0, 0x2E, 0x73, 0x79, 0x6D, 0x74, 0x61, 0x62, 0,
    0x2E, 0x73, 0x74, 0x72, 0x74, 0x61, 0x62, 0, 0x2E, 0x73, 0x68, 0x73, 0x74, 0x72, 0x74, 0x61,
    0x62, 0,
    // 0xE8 section header 0
    0, 0, 0, 0, 0, 0, 0, 0, 0, 0, 0, 0, 0, 0, 0, 0, 0, 0, 0, 0, 0, 0, 0, 0, 0, 0, 0, 0, 0, 0, 0, 0,
    0, 0, 0, 0, 0, 0, 0, 0,
    // 0x110 section header 1, ".group"
    1, 0, 0, 0, 0x11, 0, 0, 0, 0, 0, 0, 0, 0, 0, 0, 0, 0x34, 0, 0, 0, 8, 0, 0, 0, 5, 0, 0, 0, 3, 0,
    0, 0, 4, 0, 0, 0, 4, 0, 0, 0,
    // 0x138 section header 2, ".text"
    0x14, 0, 0, 0, 1, 0, 0, 0, 6, 0, 0, 0, 0, 0, 0, 0, 0x40, 0, 0, 0, 6, 0, 0, 0, 0, 0, 0, 0, 0, 0,
    0, 0, 0x10, 0, 0, 0, 0, 0, 0, 0,
    // 0x160 section header 3, ".text.t"
    8, 0, 0, 0, 1, 0, 0, 0, 6, 2, 0, 0, 0, 0, 0, 0, 0x50, 0, 0, 0, 4, 0, 0, 0, 0, 0, 0, 0, 0, 0, 0,
    0, 0x10, 0, 0, 0, 0, 0, 0, 0,
    // 0x188 section header 4, ".rel.text"
    0x10, 0, 0, 0, 9, 0, 0, 0, 0x40, 0, 0, 0, 0, 0, 0, 0, 0x54, 0, 0, 0, 8, 0, 0, 0, 5, 0, 0, 0, 2,
    0, 0, 0, 4, 0, 0, 0, 8, 0, 0, 0,
    // 0x1B0 section header 5, ".symtab"
    0x1A, 0, 0, 0, 2, 0, 0, 0, 0, 0, 0, 0, 0, 0, 0, 0, 0x5C, 0, 0, 0, 0x50, 0, 0, 0, 6, 0, 0, 0, 3,
    0, 0, 0, 4, 0, 0, 0, 0x10, 0, 0, 0,
    // 0x1D8 section header 6, ".strtab"
    0x22, 0, 0, 0, 3, 0, 0, 0, 0, 0, 0, 0, 0, 0, 0, 0, 0xAC, 0, 0, 0, 8, 0, 0, 0, 0, 0, 0, 0, 0, 0,
    0, 0, 1, 0, 0, 0, 0, 0, 0, 0,
    // 0x200 section header 7, ".shstrtab"
    0x2A, 0, 0, 0, 3, 0, 0, 0, 0, 0, 0, 0, 0, 0, 0, 0, 0xB4, 0, 0, 0, 0x34, 0, 0, 0, 0, 0, 0, 0, 0,
    0, 0, 0, 1, 0, 0, 0, 0, 0, 0, 0,
];

/// The same as COFF.
pub(super) const GROUP_COFF: &[u8] = &[
    // 0x00 file header
    0x4C, 1, 2, 0, 0, 0, 0, 0, 0x78, 0, 0, 0, 6, 0, 0, 0, 0, 0, 0, 0,
    // 0x14 section header 1, the ".text" of "main"
    0x2E, 0x74, 0x65, 0x78, 0x74, 0, 0, 0, 0, 0, 0, 0, 0, 0, 0, 0, 6, 0, 0, 0, 0x64, 0, 0, 0, 0x6A,
    0, 0, 0, 0, 0, 0, 0, 1, 0, 0, 0, 0x20, 0, 0x50, 0x60,
    // 0x3C section header 2, the ".text" of "t"
    0x2E, 0x74, 0x65, 0x78, 0x74, 0, 0, 0, 0, 0, 0, 0, 0, 0, 0, 0, 4, 0, 0, 0, 0x74, 0, 0, 0, 0, 0,
    0, 0, 0, 0, 0, 0, 0, 0, 0, 0, 0x20, 0x10, 0x50, 0x60,
    // 0x64 .text of "main"
    0xE8, 0, 0, 0, 0, 0xC3,
    // 0x6A its relocations: entry 0, "t"
    1, 0, 0, 0, 4, 0, 0, 0, 0x14, 0,
    // 0x74 .text of "t"
    0x8B, 4, 0x24, 0xC3,
    // 0x78 symbol table: entry 0, the section of "main"
    0x2E, 0x74, 0x65, 0x78, 0x74, 0, 0, 0, 0, 0, 0, 0, 1, 0, 0, 0, 3, 1,
    // 0x8A symbol table: entry 1, its auxiliary entry
    6, 0, 0, 0, 1, 0, 0, 0, 0, 0, 0, 0, 0, 0, 0, 0, 0, 0,
    // 0x9C symbol table: entry 2, the section of "t"
    0x2E, 0x74, 0x65, 0x78, 0x74, 0, 0, 0, 0, 0, 0, 0, 2, 0, 0, 0, 3, 1,
    // 0xAE symbol table: entry 3, its auxiliary entry
    4, 0, 0, 0, 0, 0, 0, 0, 0, 0, 0, 0, 0, 0, 2, 0, 0, 0,
    // 0xC0 symbol table: entry 4, "t"
    0x74, 0, 0, 0, 0, 0, 0, 0, 0, 0, 0, 0, 2, 0, 0x20, 0, 2, 0,
    // 0xD2 symbol table: entry 5, "main"
    0x6D, 0x61, 0x69, 0x6E, 0, 0, 0, 0, 0, 0, 0, 0, 1, 0, 0x20, 0, 2, 0,
    // 0xE4 string table
    4, 0, 0, 0,
];
