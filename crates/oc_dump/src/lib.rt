//! The symbols of an object as lines of text.
#![tactic(auto)]

mod line;
mod lines;
mod shown;

pub use lines::symbol_lines;
pub use shown::{put_hex, put_name};
