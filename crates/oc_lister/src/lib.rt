//! The command that lists an object file, from its words to the text shown, over any reader of files.
#![tactic(auto)]

mod lister;
mod words;

pub use lister::run_list_by;
