//! The canonical Mach-O file of each object that is ready for Mach-O, for both words: the addresses
//! of its sections, its symbols in their order, where its parts lie, and that reading shows the
//! object again.
#![tactic(auto)]

mod laws;

pub use laws::mach_file_is_written;
