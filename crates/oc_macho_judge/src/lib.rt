//! Judging a Mach-O object: the first of its faults, or what was found in it on the way.
#![tactic(auto)]

mod anchors;
mod differences;
mod holders;
mod judging;
mod referents;
mod relocs;
mod section_stage;
mod symbol_stage;
mod symbols;
mod weight;

pub use anchors::address_of;
pub use holders::Holders;
pub use judging::{Found, judged};
pub use referents::is_own;
pub use relocs::{begins_behind, item_of};
pub use symbols::{header_numbered, is_external, is_stab, is_type, name_of};
