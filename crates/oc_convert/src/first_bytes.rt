//! The first bytes of a file of each format.

/// EI_MAG0 to EI_MAG3, and EI_CLASS with ELFCLASS32 (gABI, "ELF Identification").
pub const ELF32: [u8; 5] = [0x7F, b'E', b'L', b'F', 1];
/// The same with ELFCLASS64.
pub const ELF64: [u8; 5] = [0x7F, b'E', b'L', b'F', 2];
/// The bytes of an Elf32_Ehdr (gABI, "ELF Header").
pub const EHDR32_SIZE: usize = 52;
/// Where its e_shoff lies, in bytes.
pub const E_SHOFF32: usize = 32;
/// Where its e_shnum lies.
pub const E_SHNUM32: usize = 48;
/// Where its e_shstrndx lies.
pub const E_SHSTRNDX32: usize = 50;
/// The bytes of an Elf64_Ehdr.
pub const EHDR64_SIZE: usize = 64;
/// Where its e_shoff lies, in bytes.
pub const E_SHOFF64: usize = 40;
/// Where its e_shnum lies.
pub const E_SHNUM64: usize = 60;
/// Where its e_shstrndx lies.
pub const E_SHSTRNDX64: usize = 62;
/// SHN_XINDEX: the number is in section header 0 (gABI, "Special Section Indexes").
pub const SHN_XINDEX: u16 = 0xFFFF;
/// Machine with IMAGE_FILE_MACHINE_I386 (PE/COFF, "COFF File Header").
pub const COFF32: [u8; 2] = [0x4C, 0x01];
/// The same with IMAGE_FILE_MACHINE_AMD64.
pub const COFF64: [u8; 2] = [0x64, 0x86];
/// Sig1 and Sig2 of an object of COFF with many sections (winnt.h, "ANON_OBJECT_HEADER_BIGOBJ").
pub const BIG_COFF: [u8; 4] = [0, 0, 0xFF, 0xFF];
/// Its ClassID, which lies at byte 12; its Machine lies at byte 6.
pub const BIG_CLASS: [u8; 16] = [
    0xC7, 0xA1, 0xBA, 0xD1, 0xEE, 0xBA, 0xA9, 0x4B, 0xAF, 0x20, 0xFA, 0xF6, 0x6A, 0xA4, 0xDC, 0xB8,
];
/// MH_MAGIC in little endian (Mach-O file format reference, "mach_header").
pub const MAC32: [u8; 4] = [0xCE, 0xFA, 0xED, 0xFE];
/// MH_MAGIC_64 in little endian (the same, "mach_header_64").
pub const MAC64: [u8; 4] = [0xCF, 0xFA, 0xED, 0xFE];
/// The type of a THEADR record (TIS OMF 1.1, "THEADR").
pub const OMF: [u8; 1] = [0x80];
