//! The readers of Mach-O objects for both words.
#![tactic(auto)]

mod added_relocs;
mod aims;
mod bindings;
mod built_relocs;
mod built_sections;
mod built_symbols;
mod laws;
mod pins;
mod reader;

pub use laws::clean_is_shown;
pub use reader::{MachReader32, MachReader64};
