//! The text of hints: a line each, with the key, what it is said of, and one sentence on the tool.
#![tactic(auto)]

mod lines;
mod words;

pub use lines::hint_lines;
