//! Mach-O objects for i386 and x86-64: the numbers of the Mach-O reference, the structures both ways,
//! the view of a file, and the rules by which it is read.
#![tactic(auto)]

mod commands;
mod constants;
mod entries;
mod frame;
mod headers;
mod kind;
mod load_command;
mod mach_header;
mod meaning;
mod names;
mod nlist;
mod referent;
mod relocation_info;
mod section_header;
mod segment_command;
mod structures;
mod symtab_command;
mod texts;
mod words;

pub use commands::passes_end;
pub use constants::{
    COMMAND_COUNT, CPU_SUBTYPE_ALL, CPU_TYPE_X86, CPU_TYPE_X86_64, LC_DYSYMTAB, LC_SEGMENT,
    LC_SEGMENT_64, LC_SYMTAB, MH_MAGIC, MH_MAGIC_64, MH_OBJECT, MOST_ALIGN_EXPONENT, N_ABS, N_EXT,
    N_PEXT, N_SECT, N_UNDF, N_WEAK_DEF, N_WEAK_REF, R_SCATTERED, VM_PROT_ALL,
};
pub use entries::{Item, is_first};
pub use frame::Frame;
pub use headers::read_frame;
pub use kind::{has, is_odd, is_zerofill, kind_of, until_nul};
pub use load_command::{DYSYMTAB_COMMAND_SIZE, LOAD_COMMAND_SIZE, LoadCommand, load_command_at};
pub use mach_header::{MACH_HEADER_SIZE, MachHeader, mach_header_of, mach_header_size};
pub use meaning::{Meaning, meaning_of};
pub use names::{NAME_SIZE, padded};
pub use nlist::{Nlist, nlist_at, nlist_size};
pub use referent::Referent;
pub use relocation_info::{
    RELOCATION_INFO_SIZE, Reference, RelocationInfo, relocation_info_at, relocation_info_of,
};
pub use section_header::{SectionHeader, section_header_at, section_header_size};
pub use segment_command::{SegmentCommand, segment_command_at, segment_command_size};
pub use structures::{
    Dysymtab, pack_dysymtab_front, pack_mach_header, pack_nlist, pack_relocation,
    pack_section_names, pack_section_numbers, pack_segment_back, pack_segment_front, pack_symtab,
    word_bytes,
};
pub use symtab_command::{SYMTAB_COMMAND_SIZE, SymtabCommand, symtab_command_at};
pub use words::{cpu_type, format_of, magic_of};
