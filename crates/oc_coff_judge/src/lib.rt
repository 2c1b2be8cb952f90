//! Judging a COFF object: the first of its faults, or what was found in it on the way.
#![tactic(auto)]

mod aims;
mod bindings;
mod copies;
mod found;
mod judging;
mod keys;
mod numbers;
mod owners;
mod positions;
mod relocs;
mod section_stage;
mod sections;
mod symbol_stage;
mod symbols;
mod tagged;
mod weight;

pub use bindings::{binding_of, mark_of, value_of};
pub use found::Found;
pub use judging::{check_rest, table_of};
pub use keys::{leader_of, led_symbol};
pub use owners::{OwnerTables, Owners};
pub use positions::symbol_positions;
pub use relocs::{RelocTable, reloc_of, says_nothing};
pub use sections::{is_carried, kind_in};
pub use symbols::name_by;
