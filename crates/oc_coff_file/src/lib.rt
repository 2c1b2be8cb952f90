//! The canonical COFF file of each object that is ready for COFF, as definitions: that it has no fault,
//! and shows its object.
#![tactic(auto)]

mod laws;

pub use laws::coff_file_is_written;
