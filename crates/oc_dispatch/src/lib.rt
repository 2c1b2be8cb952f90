//! The readers and writers of all formats, behind one call each: a file's format is found by its
//! first bytes, and the target's by its name.
#![tactic(auto)]

mod any_plan;
mod any_reader;
mod dispatching;
mod header;
mod reading;

pub use any_plan::AnyPlan;
pub use any_reader::{AnyReader, ReadsAny};
pub use dispatching::dispatch;
pub use reading::read_any;
