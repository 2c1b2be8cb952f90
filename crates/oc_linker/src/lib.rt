//! The command that links one object where it is placed, from its words to the text shown, over what
//! reads files of any format.
#![tactic(auto)]

mod linking;
mod message;
mod report;
mod running;

pub use running::run_link_by;
