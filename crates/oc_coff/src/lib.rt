//! COFF objects for i386 and x64, plain and big: the numbers of PE/COFF, the structures both ways, the
//! view of a file, and the rules by which it is read.
#![tactic(auto)]

mod alignment;
mod constants;
mod counts;
mod file_header;
mod flags;
mod form;
mod frame;
mod headers;
mod kind;
mod meaning;
mod name;
mod names;
mod relocation;
mod section_aux;
mod section_header;
mod strings;
mod structures;
mod symbol;
mod values;
mod weak_aux;

pub use constants::{
    BIG_SIGNATURE, BIG_VERSION, IMAGE_COMDAT_SELECT_ANY, IMAGE_COMDAT_SELECT_ASSOCIATIVE,
    IMAGE_COMDAT_SELECT_NODUPLICATES, IMAGE_FILE_MACHINE_AMD64, IMAGE_FILE_MACHINE_I386,
    IMAGE_FILE_MACHINE_UNKNOWN, IMAGE_REL_I386_ABSOLUTE, IMAGE_SYM_ABSOLUTE,
    IMAGE_SYM_CLASS_EXTERNAL, IMAGE_SYM_CLASS_FILE, IMAGE_SYM_CLASS_FUNCTION,
    IMAGE_SYM_CLASS_LABEL, IMAGE_SYM_CLASS_STATIC, IMAGE_SYM_CLASS_WEAK_EXTERNAL, IMAGE_SYM_DEBUG,
    IMAGE_SYM_SECTION_MAX_EX, IMAGE_SYM_TYPE_FUNCTION, IMAGE_SYM_UNDEFINED,
    IMAGE_WEAK_EXTERN_SEARCH_ALIAS, OVERFLOWED_COUNT,
};
pub use counts::{count_entry, entry_count, header_count, is_crowded};
pub use file_header::{BIG_HEADER_SIZE, FILE_HEADER_SIZE, FileHeader, file_header_of};
pub use flags::{machine_of, pointer_to, section_flags, version_of};
pub use form::{CoffForm, Shape, format_of, header_size, shape_of, symbol_size, word_of};
pub use frame::{Coff, read_coff};
pub use headers::passes_end;
pub use kind::{align_bits, has, is_comdat, is_overflowed, is_stored, kind_by};
pub use meaning::{Meaning, meaning_of};
pub use name::NAME_SIZE;
pub use names::{section_name, symbol_name};
pub use relocation::{RELOCATION_SIZE, Relocation, relocation_at};
pub use section_aux::{HIGH_NUMBER, SectionAux, section_aux_at};
pub use section_header::{SECTION_HEADER_SIZE, SectionHeader, section_header_at};
pub use strings::Strings;
pub use structures::{
    pack_file_header, pack_relocation, pack_section_aux, pack_section_header, pack_symbol,
    pack_weak_aux,
};
pub use symbol::{BIG_SYMBOL_SIZE, SYMBOL_SIZE, SymbolEntry, symbol_at};
pub use values::{Numbers, aux_by, class_by, of_binding, of_default, type_by};
pub use weak_aux::{WeakAux, weak_aux_at};
