//! Judging an ELF object: the first of its faults, or what was found in it on the way.
#![tactic(auto)]

mod bindings;
mod groups;
mod homes;
mod judging;
mod positions;
mod relocs;
mod section_stage;
mod sections;
mod signatures;
mod stood;
mod symbol_stage;
mod symbols;
mod weight;

pub use bindings::is_passed;
pub use homes::home_of;
pub use judging::{Found, check_rest, is_kept, judge};
pub use relocs::{Aims, is_idle, reloc_count, reloc_of};
pub use section_stage::{FoundTables, table_header};
pub use sections::{is_zero, kind_of, section_name};
pub use signatures::{comdat_key, is_comdat};
pub use symbols::{entry_of, is_local, is_section_symbol, name_of, symbol_count};
