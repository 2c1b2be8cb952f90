//! Conversions of inputs that are big for what they say.
use crate::coff32::{far_names, many_sections, overflowing_relocations};
use crate::data::bytes_of;
use crate::hostile::{aliases, functions, many_relocations, outside_names, tails};
use crate::rows::show;
use crate::runs::{Call, Run, words_of};
use anyhow::Result;
use std::alloc::Global;

/// What is shown of 65,280 sections, and the target.
const SECTIONS: [(&str, &str); 4] = [
    ("65,280 sections in coff32", "-fcoff32"),
    ("65,280 sections in elf32", "-felf32"),
    ("65,280 sections in mac32", "-fmac32"),
    ("65,280 sections in omf", "-fomf"),
];

// converts these bytes, and prints what came of it
fn convert(rt: &HostRuntime, alloc: Global, name: &str, target: &str, input: &[u8]) -> Result<()> {
    let words = words_of(alloc, &[target, "a", "b"])?;
    show(rt, name, &Run::of(&words, input).outcome(alloc)?)
}

// more sections than the targets number
fn sections(rt: &HostRuntime, alloc: Global) -> Result<()> {
    let input = many_sections(alloc, 65_280)?;
    for (name, target) in SECTIONS {
        convert(rt, alloc, name, target, input.as_slice())?;
    }
    Ok(())
}

// more relocations than a section header of COFF counts, written and read
fn relocations(rt: &HostRuntime, alloc: Global) -> Result<()> {
    let input = many_relocations(alloc)?;
    let want = bytes_of(rt, "fifth_append_fails.obj")?;
    let words = words_of(alloc, &["-fcoff32", "a", "b"])?;
    let run = Run {
        words: &words,
        input: input.as_slice(),
        failing: Some(Call::File(20)),
        want: want.as_slice(),
    };
    show(rt, "the fifth append fails", &run.outcome(alloc)?)?;
    let (name, target) = ("70,000 relocations are written", "-fcoff32");
    convert(rt, alloc, name, target, input.as_slice())?;
    let input = overflowing_relocations(alloc)?;
    let (name, target) = ("65,536 relocations are read", "-felf32");
    convert(rt, alloc, name, target, input.as_slice())
}

// many names, long names, and a name far from the start of the strings
fn names(rt: &HostRuntime, alloc: Global) -> Result<()> {
    let input = outside_names(alloc, 32_768)?;
    let name = "32,768 undefined names in omf";
    convert(rt, alloc, name, "-fomf", input.as_slice())?;
    let input = far_names(alloc)?;
    let name = "a section's name at 10,000,000 in coff32";
    convert(rt, alloc, name, "-fcoff32", input.as_slice())?;
    let input = tails(alloc, 300, 1_000_000)?;
    let name = "300 names in one text";
    convert(rt, alloc, name, "-fcoff32", input.as_slice())?;
    let input = tails(alloc, 4_000, 8_000_000)?;
    let name = "4,000 names in one text of 8,000,000 letters";
    convert(rt, alloc, name, "-felf32", input.as_slice())
}

/// Runs each, and prints what came of it.
pub fn crowds(rt: &HostRuntime, alloc: Global) -> Result<()> {
    sections(rt, alloc)?;
    relocations(rt, alloc)?;
    names(rt, alloc)?;
    let words = aliases(alloc)?;
    let input = functions(alloc)?;
    let run = Run::of(&words, input.as_slice());
    show(rt, "167 aliases of 100,000 names", &run.outcome(alloc)?)
}
