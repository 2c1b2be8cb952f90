//! The object that is made to try tools on: so many functions, each with two calls, as a neutral object
//! and as its canonical ELF file.
#![tactic(auto)]

mod calls;
mod code;
mod file;
mod object;
mod symbols;

pub use file::made_file;
pub use object::made;
