//! Writing in each form of COFF, and the writers of the two forms for few sections: the symbol table and the
//! string table of an object, the layout of its file, and the plan, which gives any window of the file.
#![tactic(auto)]

mod entries;
mod forms;
mod headers;
mod keys;
mod layout;
mod lines;
mod name_cursor;
mod names;
mod numbers;
mod plan;
mod planning;
mod raw;
mod relocations;
mod section_names;
mod strings;
mod symbols;
mod tables;
mod writer;

pub use plan::Plan;
pub use planning::plan_object;
pub use writer::{CoffWriter32, CoffWriter64};
