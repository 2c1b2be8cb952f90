//! What a file may ask for. Names that share bytes, and tables that do, weigh as if each had its own;
//! and what shows an object has room.
#![tactic(auto)]

mod weight;

pub use weight::{with_entries, with_fields, with_name, with_text};
