//! Writing ELF: the symbol table and the string tables of an object, the layout of its file, and the
//! plan, which gives any window of the file; and the writers of objects with few sections.
#![tactic(auto)]

mod bodies;
mod forms;
mod groups;
mod headers;
mod heads;
mod keys;
mod layout;
mod lines;
mod names;
mod numbers;
mod plan;
mod planning;
mod raw;
mod relocations;
mod strings;
mod symbols;
mod tables;
mod values;
mod writer;

pub use plan::Plan;
pub use planning::plan_object;
pub use writer::{ElfWriter32, ElfWriter64};
