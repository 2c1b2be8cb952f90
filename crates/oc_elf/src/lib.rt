//! ELF objects of both words, with few sections and with many: the numbers of the gABI, the structures
//! both ways, the view of a file, and the rules by which it is read.
#![tactic(auto)]

mod class;
mod constants;
mod ehdr;
mod frame;
mod headers;
mod kind;
mod meaning;
mod names;
mod rel;
mod shdr;
mod structures;
mod sym;

pub use class::{ElfClass, foreign_type, machine_of, reloc_type};
pub use constants::{
    ELFCLASS32, ELFCLASS64, ELFDATA2LSB, ET_REL, EV_CURRENT, EXTENDED_ZERO, FIRST_EXTENDED,
    GRP_COMDAT, GRP_ENTRY_SIZE, MOST_FILE_ALIGN, MOST_SIZE, MOST_SIZES, NO_INDEX, R_NONE,
    SHF_COMPRESSED, SHF_GROUP, SHF_INFO_LINK, SHF_LINK_ORDER, SHF_TLS, SHN_ABS, SHN_COMMON,
    SHN_LORESERVE, SHN_UNDEF, SHN_XINDEX, SHNDX_SIZE, SHT_GROUP, SHT_NULL, SHT_REL, SHT_RELA,
    SHT_STRTAB, SHT_SYMTAB, SHT_SYMTAB_SHNDX, SIGNED_XINDEX, STB_GLOBAL, STB_LOCAL, STB_WEAK,
    STT_COMMON, STT_FILE, STT_FUNC, STT_NOTYPE, STT_OBJECT, STT_SECTION, STV_DEFAULT, STV_HIDDEN,
    STV_INTERNAL, STV_PROTECTED,
};
pub use ehdr::{Ehdr, ehdr_of, ehdr_size};
pub use frame::{Frame, first_of, read_frame};
pub use kind::{has, is_carried_type, kind_by};
pub use meaning::{Meaning, meaning_of};
pub use names::{name_cost, name_in};
pub use rel::{Rel, rel_at, rel_size};
pub use shdr::{Shdr, null_shdr, shdr_at, shdr_size};
pub use structures::{
    has_room, pack_ehdr, pack_index, pack_rel, pack_shdr, pack_sym, pack_word, word_bytes,
};
pub use sym::{Sym, sym_at, sym_size};
