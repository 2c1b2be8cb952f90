//! Numbers of the Mach-O reference, under their names; those of sections and relocations are in
//! `oc_neutral::mach`.

/// The first bytes of a file of 32 bits (Mach-O reference, "mach_header").
pub const MH_MAGIC: u32 = 0xFEED_FACE;
/// The first bytes of a file of 64 bits (Mach-O reference, "mach_header_64").
pub const MH_MAGIC_64: u32 = 0xFEED_FACF;
/// i386 (Mach-O reference, "mach_header").
pub const CPU_TYPE_X86: u32 = 7;
/// x86-64 (Mach-O reference, "mach_header").
pub const CPU_TYPE_X86_64: u32 = 0x0100_0007;
/// Every processor of i386, and every one of x86-64 (Mach-O reference, "mach_header").
pub const CPU_SUBTYPE_ALL: u32 = 3;
/// An object (Mach-O reference, "mach_header").
pub const MH_OBJECT: u32 = 1;

/// A segment of a file of 32 bits (Mach-O reference, "segment_command").
pub const LC_SEGMENT: u32 = 0x1;
/// Where symbols and strings are (Mach-O reference, "symtab_command").
pub const LC_SYMTAB: u32 = 0x2;
/// Which symbols are local, defined and undefined (Mach-O reference, "dysymtab_command").
pub const LC_DYSYMTAB: u32 = 0xB;
/// A segment of a file of 64 bits (Mach-O reference, "segment_command_64").
pub const LC_SEGMENT_64: u32 = 0x19;

/// How many load commands an output has: a segment, and the two on symbols (our profile).
pub const COMMAND_COUNT: u32 = 3;
/// A segment that is read, written and executed (Mach-O reference, "segment_command").
pub const VM_PROT_ALL: u32 = 7;

/// The greatest exponent of a section's alignment that is read (our profile).
pub const MOST_ALIGN_EXPONENT: u32 = 15;

/// A symbol without a section: undefined or common (Mach-O reference, "nlist").
pub const N_UNDF: u8 = 0x0;
/// A symbol that is a number (Mach-O reference, "nlist").
pub const N_ABS: u8 = 0x2;
/// A symbol in a section (Mach-O reference, "nlist").
pub const N_SECT: u8 = 0xE;
/// The symbol is seen by all files (Mach-O reference, "nlist").
pub const N_EXT: u8 = 0x01;
/// It is seen within one program or library alone (Mach-O reference, "nlist").
pub const N_PEXT: u8 = 0x10;
/// An undefined symbol that may stay without a definition (Mach-O reference, "nlist").
pub const N_WEAK_REF: u16 = 0x40;
/// A definition that gives way to another (Mach-O reference, "nlist").
pub const N_WEAK_DEF: u16 = 0x80;

/// The bit that marks a scattered entry (Mach-O reference, "scattered_relocation_info").
pub const R_SCATTERED: u32 = 0x8000_0000;
