//! Sections that are not kept are dropped from an object, with the Locals in them, or the reason
//! why they cannot be is returned.
#![tactic(auto)]

mod dropping;
mod fault;
mod judging;
mod laws;

pub use dropping::dropped;
pub use fault::{edit_fault, unless};
pub use judging::is_local;
pub use laws::{dropped_shows_kept, nothing_is_dropped, positions_are_new};
