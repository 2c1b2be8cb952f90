//! Numbers of PE/COFF that only the structures need, under their names.

/// Intel 386 and later (PE/COFF, "Machine Types").
pub const IMAGE_FILE_MACHINE_I386: u16 = 0x14C;
/// x64 (PE/COFF, "Machine Types").
pub const IMAGE_FILE_MACHINE_AMD64: u16 = 0x8664;

/// The section number of a symbol that is defined elsewhere (PE/COFF, "Section Number Values").
pub const IMAGE_SYM_UNDEFINED: u32 = 0;
/// The section number -1 of a symbol that is a number (PE/COFF, "Section Number Values").
pub const IMAGE_SYM_ABSOLUTE: u32 = 0xFFFF_FFFF;
/// The section number -2 of a symbol for debuggers (PE/COFF, "Section Number Values").
pub const IMAGE_SYM_DEBUG: u32 = 0xFFFF_FFFE;
/// The greatest section number, of 32 bits with a sign (winnt.h, "IMAGE_SYM_SECTION_MAX_EX").
pub const IMAGE_SYM_SECTION_MAX_EX: u32 = 0x7FFF_FFFF;
/// What an object of many sections begins with, in the place of a machine: Sig1 (PE/COFF, "Machine Types";
/// winnt.h, "ANON_OBJECT_HEADER_BIGOBJ").
pub const IMAGE_FILE_MACHINE_UNKNOWN: u16 = 0;
/// What follows it, in the place of a number of sections: Sig2 (winnt.h, "ANON_OBJECT_HEADER_BIGOBJ").
pub const BIG_SIGNATURE: u16 = 0xFFFF;
/// The least Version of an object of many sections (winnt.h, "ANON_OBJECT_HEADER_BIGOBJ").
pub const BIG_VERSION: u16 = 2;
/// The type of a function (PE/COFF, "Type Representation").
pub const IMAGE_SYM_TYPE_FUNCTION: u16 = 0x20;
/// A symbol that is seen by all files (PE/COFF, "Storage Class").
pub const IMAGE_SYM_CLASS_EXTERNAL: u8 = 2;
/// A symbol of this file alone, or a section's own symbol (PE/COFF, "Storage Class").
pub const IMAGE_SYM_CLASS_STATIC: u8 = 3;
/// A label of this file alone (PE/COFF, "Storage Class").
pub const IMAGE_SYM_CLASS_LABEL: u8 = 6;
/// The begin or the end of a function (PE/COFF, "Storage Class").
pub const IMAGE_SYM_CLASS_FUNCTION: u8 = 101;
/// The name of a source file (PE/COFF, "Storage Class").
pub const IMAGE_SYM_CLASS_FILE: u8 = 103;
/// A symbol with a default for where no other file defines it (PE/COFF, "Storage Class").
pub const IMAGE_SYM_CLASS_WEAK_EXTERNAL: u8 = 105;

/// A second definition is a fault of the linker (PE/COFF, "COMDAT Sections").
pub const IMAGE_COMDAT_SELECT_NODUPLICATES: u8 = 1;
/// A linker keeps any one of the copies (PE/COFF, "COMDAT Sections").
pub const IMAGE_COMDAT_SELECT_ANY: u8 = 2;
/// The section is kept exactly where another section is (PE/COFF, "COMDAT Sections").
pub const IMAGE_COMDAT_SELECT_ASSOCIATIVE: u8 = 5;

/// The default of a weak external stands for it (PE/COFF, "Auxiliary Format 3: Weak Externals").
pub const IMAGE_WEAK_EXTERN_SEARCH_ALIAS: u32 = 3;

/// An entry that has no effect; on x64, `IMAGE_REL_AMD64_ABSOLUTE` is the same number (PE/COFF,
/// "Type Indicators").
pub const IMAGE_REL_I386_ABSOLUTE: u16 = 0;

/// The count of relocations in the header of a section that has more (PE/COFF, "Section Flags").
pub const OVERFLOWED_COUNT: u16 = 0xFFFF;
