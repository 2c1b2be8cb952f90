//! Runs the command over files and a console in memory: with each option, between every two formats
//! of one word, with every refusal, `--make` in each format, with a device call that fails, with
//! inputs that are cut to each of their lengths, with inputs whose numbers lie or that are big, and
//! with many sections.
//!
//! A line for each run gives the status, the text on standard error, what OUT holds, and what was
//! shown. What must be printed comes from the command's description, the outputs from an
//! independent model of the conversion and, for the options, `--make` and the sums (FNV-1a), from
//! the layouts of canonical files (`data/layouts.py`, `data/made.py`, `data/big.py`); the inputs of
//! refusals are made by `data/refusals.py`.
#![tactic(auto)]

mod big;
mod big_coff;
mod coff32;
mod conversions;
mod crowds;
mod cuts;
mod data;
mod elf32;
mod hostile;
mod making;
mod numbers;
mod options;
mod pairs;
mod refusals;
mod rows;
mod runs;
mod targets;

use crate::big::big;
use crate::conversions::conversions;
use crate::crowds::crowds;
use crate::cuts::cuts;
use crate::data::bytes_of;
use crate::making::making;
use crate::options::options;
use crate::pairs::pairs;
use crate::refusals::refusals;
use crate::rows::{show, show_rows};
use crate::runs::{Call, Run, words_of};
use crate::targets::{LISTED, TO_COFF32};
use anyhow::Result;
use std::alloc::Global;

/// An object of `call foo`.
const CALL: &str = "elf32_call_to_coff32.o";

/// The same as COFF.
const CALL_COFF: &str = "elf32_call_to_coff32.obj";

/// Calls that fail, each in a run of its own: the two reads, the create and the append that a
/// conversion of `CALL` makes, one more, which it does not make, and the write of a listing.
const CALLS: [(&str, &[&str], Call); 6] = [
    ("the first read fails", TO_COFF32, Call::File(1)),
    (
        "the read that finds the end fails",
        TO_COFF32,
        Call::File(2),
    ),
    ("the create fails", TO_COFF32, Call::File(3)),
    ("the append fails", TO_COFF32, Call::File(4)),
    ("a fifth call would fail", TO_COFF32, Call::File(5)),
    ("the listing fails", LISTED, Call::Console(1)),
];

// each call fails
fn failing_calls(rt: &HostRuntime, alloc: Global) -> Result<()> {
    let (input, want) = (bytes_of(rt, CALL)?, bytes_of(rt, CALL_COFF)?);
    for (name, words, call) in CALLS {
        let words = words_of(alloc, words)?;
        let run = Run {
            words: &words,
            input: input.as_slice(),
            failing: Some(call),
            want: want.as_slice(),
        };
        show(rt, name, &run.outcome(alloc)?)?;
    }
    Ok(())
}

fn main(rt: HostRuntime) -> Result<()> {
    let alloc = rt.alloc();
    show_rows(&rt, alloc, options())?;
    pairs(&rt, alloc)?;
    show_rows(&rt, alloc, conversions())?;
    making(&rt, alloc)?;
    failing_calls(&rt, alloc)?;
    refusals(&rt, alloc)?;
    cuts(&rt, alloc)?;
    crowds(&rt, alloc)?;
    big(&rt, alloc)
}
