//! Reading ELF objects that were judged, and the readers of those with few sections.
#![tactic(auto)]

mod added_relocs;
mod built_groups;
mod built_relocs;
mod built_sections;
mod built_symbols;
mod laws;
mod reader;
mod started;

pub use laws::clean_is_shown;
pub use reader::{ElfReader32, ElfReader64, read_elf};
