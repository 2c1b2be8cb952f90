//! What the plans of all formats are built on, with nothing of any one format: sections with the
//! numbers of their relocations in their fields, files of parts, and a smallest object to try a
//! plan on.
#![tactic(auto)]

mod alone;
mod numbered;
mod plan;

pub use alone::object_of_data;
pub use numbered::{FieldNumbers, with_numbers};
pub use plan::Plan;
