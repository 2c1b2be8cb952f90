//! Reading COFF objects that were judged, in each form, and the readers of the two forms for few
//! sections.
#![tactic(auto)]

mod added_relocs;
mod built_groups;
mod built_relocs;
mod built_sections;
mod built_symbols;
mod laws;
mod reader;
mod started;

pub use laws::clean_is_shown;
pub use reader::{CoffReader32, CoffReader64, read_object};
