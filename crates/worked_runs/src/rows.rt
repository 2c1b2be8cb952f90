//! Rows of a table: a run of the command over a stored file, and the stored output that it is to give.
use crate::data::stored;
use crate::runs::{Outcome, Run, words_of};
use anyhow::Result;
use std::alloc::Global;

/// A run over a file, and what it is to give.
#[derive(Clone, Copy)]
pub struct Row {
    /// What the row shows.
    pub name: &'static str,
    pub words: &'static [&'static str],
    /// The file of IN; an empty name for a file without bytes.
    pub input: &'static str,
    /// The file that OUT is to be; an empty name where there is none.
    pub want: &'static str,
}

impl Row {
    /// A row without an output.
    pub fn without_output(
        name: &'static str,
        words: &'static [&'static str],
        input: &'static str,
    ) -> Row {
        Row {
            name,
            words,
            input,
            want: "",
        }
    }

    /// Runs the row.
    pub fn outcome(&self, rt: &HostRuntime, alloc: Global) -> Result<Outcome> {
        let words = words_of(alloc, self.words)?;
        let input = stored(rt, self.input)?;
        let want = stored(rt, self.want)?;
        let run = Run {
            words: &words,
            input: input.as_slice(),
            failing: None,
            want: want.as_slice(),
        };
        run.outcome(alloc)
    }
}

/// Prints what came of a run.
pub fn show(rt: &impl Print, name: &str, outcome: &Outcome) -> Result<()> {
    println!(rt; "{name}: {outcome}")?;
    Ok(())
}

/// Runs each row, and prints a line for it.
pub fn show_rows(rt: &HostRuntime, alloc: Global, rows: &[Row]) -> Result<()> {
    for row in rows {
        show(rt, row.name, &row.outcome(rt, alloc)?)?;
    }
    Ok(())
}
