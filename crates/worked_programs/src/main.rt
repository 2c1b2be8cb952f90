//! Runs `objlink`, `objlist` and batches over files and consoles in memory, a line a run: its
//! status, the text on standard error, and what was shown. What must be printed comes from the
//! descriptions of the programs, and, where an object is linked, from arithmetic that is written
//! beside the row.
#![tactic(auto)]

mod batches;
mod data;
mod endless;
mod link_rows;
mod link_runs;
mod links;
mod list_runs;
mod lists;
mod outcomes;
mod placement_rows;

use crate::batches::show_batches;
use crate::links::show_links;
use crate::lists::show_lists;
use anyhow::Result;

fn main(rt: HostRuntime) -> Result<()> {
    let alloc = rt.alloc();
    show_links(&rt, alloc)?;
    show_lists(&rt, alloc)?;
    show_batches(&rt, alloc)
}
