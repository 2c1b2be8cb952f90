//! The writer of OMF: the entries of an object module, their contents, and the plan, which gives any
//! window of the file.
#![tactic(auto)]

mod entries;
mod fixups;
mod forms;
mod layout;
mod names;
mod numbers;
mod pieces;
mod plan;
mod planning;
mod raw;
mod segments;
mod symbols;
mod tables;
mod windows;
mod writer;

pub use plan::Plan;
pub use writer::OmfWriter;
