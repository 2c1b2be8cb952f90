//! Numbers of the gABI and of the psABIs under their names, and limits of our profile.

/// A file of 32 bits (gABI, "ELF Identification").
pub const ELFCLASS32: u8 = 1;
/// A file of 64 bits (gABI, "ELF Identification").
pub const ELFCLASS64: u8 = 2;
/// Little-endian data (gABI, "ELF Identification").
pub const ELFDATA2LSB: u8 = 1;
/// The version of the file and of its header (gABI, "ELF Header").
pub const EV_CURRENT: u8 = 1;
/// A relocatable object (gABI, "ELF Header").
pub const ET_REL: u16 = 1;
/// Intel 80386 (gABI, "ELF Header").
pub const EM_386: u16 = 3;
/// AMD x86-64 (gABI, "ELF Header").
pub const EM_X86_64: u16 = 62;

/// No section: the other fields mean nothing (gABI, "Section Header").
pub const SHT_NULL: u32 = 0;
/// A symbol table (gABI, "Section Header").
pub const SHT_SYMTAB: u32 = 2;
/// A string table (gABI, "Section Header").
pub const SHT_STRTAB: u32 = 3;
/// A relocation table with the addends in the entries (gABI, "Section Header").
pub const SHT_RELA: u32 = 4;
/// A relocation table with the addends in the fields (gABI, "Section Header").
pub const SHT_REL: u32 = 9;
/// A group of sections (gABI, "Section Header").
pub const SHT_GROUP: u32 = 17;
/// Section numbers that symbol entries are too narrow for (gABI, "Section Header").
pub const SHT_SYMTAB_SHNDX: u32 = 18;

/// `sh_info` has the number of a section header (gABI, "Section Header").
pub const SHF_INFO_LINK: u64 = 0x40;
/// The section is ordered as another one is (gABI, "Section Header").
pub const SHF_LINK_ORDER: u64 = 0x80;
/// The section is a member of a group (gABI, "Section Groups").
pub const SHF_GROUP: u64 = 0x200;
/// Each thread has its own (gABI, "Section Header").
pub const SHF_TLS: u64 = 0x400;
/// Its bytes are compressed (gABI, "Section Header").
pub const SHF_COMPRESSED: u64 = 0x800;

/// A linker keeps one group of a key over all its files (gABI, "Section Groups").
pub const GRP_COMDAT: u32 = 1;
/// The size of an entry of a group, in bytes (gABI, "Section Groups").
pub const GRP_ENTRY_SIZE: u64 = 4;

/// No section (gABI, "Special Section Indexes").
pub const SHN_UNDEF: u32 = 0;
/// The first of the numbers that are no section's; those of 16 bits are sign-extended to 32 (gABI,
/// "Special Section Indexes").
pub const SHN_LORESERVE: u32 = 0xFFFF_FF00;
/// The value is absolute (gABI, "Special Section Indexes").
pub const SHN_ABS: u32 = 0xFFFF_FFF1;
/// The symbol is a common (gABI, "Special Section Indexes").
pub const SHN_COMMON: u32 = 0xFFFF_FFF2;
/// The number is stored elsewhere (gABI, "Special Section Indexes").
pub const SHN_XINDEX: u16 = 0xFFFF;

/// The first section number that is a reserved one in 16 bits, so that a section's number is stored
/// elsewhere from it on (gABI, "Special Section Indexes").
pub const FIRST_EXTENDED: u32 = oc_neutral::elf::SHN_LORESERVE as u32;
/// `SHN_XINDEX` with its sign in 32 bits.
pub const SIGNED_XINDEX: u32 = 0xFFFF_FFFF;
/// The number of no section header, for a number that is stored elsewhere and that no header can
/// have.
pub const NO_INDEX: u32 = 0xFFFF_FEFF;
/// The number for header 0, where that number is stored elsewhere.
pub const EXTENDED_ZERO: u32 = 0xFFFF_FEFE;
/// The size of an entry of the table of section numbers, in bytes (gABI, "Sections").
pub const SHNDX_SIZE: u64 = 4;

/// A symbol that is not seen outside its file (gABI, "Symbol Table").
pub const STB_LOCAL: u8 = 0;
/// A symbol that all files see (gABI, "Symbol Table").
pub const STB_GLOBAL: u8 = 1;
/// A symbol that others may define instead (gABI, "Symbol Table").
pub const STB_WEAK: u8 = 2;

/// A symbol of no type (gABI, "Symbol Table").
pub const STT_NOTYPE: u8 = 0;
/// An object of data (gABI, "Symbol Table").
pub const STT_OBJECT: u8 = 1;
/// A function (gABI, "Symbol Table").
pub const STT_FUNC: u8 = 2;
/// A section's own symbol (gABI, "Symbol Table").
pub const STT_SECTION: u8 = 3;
/// The source file (gABI, "Symbol Table").
pub const STT_FILE: u8 = 4;
/// A common (gABI, "Symbol Table").
pub const STT_COMMON: u8 = 5;

/// A symbol that all modules see (gABI, "Symbol Visibility").
pub const STV_DEFAULT: u8 = 0;
/// A symbol that no other module sees, with what the processor's supplement adds (gABI, "Symbol
/// Visibility").
pub const STV_INTERNAL: u8 = 1;
/// A symbol that no other module sees (gABI, "Symbol Visibility").
pub const STV_HIDDEN: u8 = 2;
/// A symbol that other modules see, and do not define instead (gABI, "Symbol Visibility").
pub const STV_PROTECTED: u8 = 3;

/// A relocation that has no effect: R_386_NONE and R_X86_64_NONE (i386 and x86-64 psABI,
/// "Relocation Types").
pub const R_NONE: u32 = 0;

/// The most bytes that a section has when it is placed (our profile).
pub const MOST_SIZE: u64 = 2_147_483_647;
/// The most bytes that all sections have when they are placed (our profile).
pub const MOST_SIZES: u64 = 2_147_483_648;
/// The contents of a section lie at a multiple of its alignment, but of no more than this (our
/// profile).
pub const MOST_FILE_ALIGN: u32 = 16;
