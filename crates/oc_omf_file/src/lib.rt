//! The canonical object module of each object that is ready for OMF: its entries in their order, and
//! that reading shows the object again.
#![tactic(auto)]

mod laws;

pub use laws::omf_file_is_written;
