//! Entries, indexes and iterated data of OMF object modules (TIS OMF 1.1).
#![tactic(auto)]

mod block;
mod expanding;
mod faults;
mod indexes;
mod iterated;
mod laws;
mod places;
mod reading;
mod records;
mod seeking;

pub use block::Block;
pub use faults::{BlockFault, CopyFault};
pub use indexes::{BadIndex, index};
pub use laws::{copies_are_copies, reading_is_written, sizes_are_lengths, written_is_read};
pub use places::Places;
pub use records::{Entry, RecordFault, Records, entry_at};
