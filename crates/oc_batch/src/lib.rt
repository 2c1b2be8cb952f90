//! Batches: the jobs of a list, run in order, each as if alone on the files that the one before left.
//! How one job is run is left open.
#![tactic(auto)]

mod batching;
mod fault;
mod job;
mod job_line;
mod list;
mod reading;
mod running;
mod texts;

pub use batching::run_batch_by;
pub use job::RunsJob;
