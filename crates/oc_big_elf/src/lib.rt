//! ELF objects with many sections, which are numbered where a plain object has no room (gABI, "Sections"):
//! their readers and writers. What they do is one text with the readers and writers of `oc_elf_read` and
//! `oc_elf_write`, over two more classes.
#![tactic(auto)]

mod reader;
mod writer;

pub use reader::{BigElfReader32, BigElfReader64};
pub use writer::{BigElfWriter32, BigElfWriter64};
