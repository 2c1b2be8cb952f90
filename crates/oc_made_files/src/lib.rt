//! What a reader shows of a file that was made for an object, whatever the container.
#![tactic(auto)]

mod laws;

pub use laws::made_file_shows;
