//! `--make`: of two functions the whole output in each format, of more its length and its sum (`data/made.py`).
use crate::data::stored;
use crate::rows::show;
use crate::runs::{Run, words_of};
use anyhow::Result;
use std::alloc::Global;

/// The first word, the target, and the output where it is stored.
type Made = (&'static str, &'static str, &'static str);

static MADE: [Made; 15] = [
    ("--make=2", "elf32", "two.elf32"),
    ("--make=2", "elf64", "two.elf64"),
    ("--make=2", "coff32", "two.coff32"),
    ("--make=2", "coff64", "two.coff64"),
    ("--make=2", "mac32", "two.mac32"),
    ("--make=2", "mac64", "two.mac64"),
    ("--make=2", "omf", "two.omf"),
    ("--make=1000", "elf32", ""),
    ("--make=1000", "elf64", ""),
    ("--make=1000", "coff32", ""),
    ("--make=1000", "coff64", ""),
    ("--make=1000", "mac32", ""),
    ("--make=1000", "mac64", ""),
    ("--make=1000", "omf", ""),
    ("--make=100000", "coff32", ""),
];

fn show_made(rt: &HostRuntime, alloc: Global, made: Made) -> Result<()> {
    let (word, target, want) = made;
    let words = words_of(alloc, &[word, target, "b"])?;
    let want = stored(rt, want)?;
    let run = Run {
        want: want.as_slice(),
        ..Run::of(&words, &[])
    };
    let name = format!(in alloc; "{word} {target}")?;
    show(rt, name.as_str(), &run.outcome(alloc)?)
}

/// Runs each, and prints what came of it.
pub fn making(rt: &HostRuntime, alloc: Global) -> Result<()> {
    for made in &MADE {
        show_made(rt, alloc, *made)?;
    }
    Ok(())
}
