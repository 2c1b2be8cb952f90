//! The writers of Mach-O: the addresses of sections, the symbol table and the string table of an
//! object, the layout of its file, and the plan, which gives any window of the file.
#![tactic(auto)]

mod addresses;
mod bodies;
mod forms;
mod headers;
mod heads;
mod layout;
mod lines;
mod names;
mod numbers;
mod parts;
mod places;
mod plan;
mod planning;
mod raw;
mod relocations;
mod strings;
mod symbols;
mod tables;
mod values;
mod windows;
mod writer;

pub use plan::Plan;
pub use writer::{MachWriter32, MachWriter64};
