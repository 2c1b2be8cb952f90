//! Objects that are cut to each of their lengths.
use crate::data::bytes_of;
use crate::runs::{Run, words_of};
use crate::targets::{TO_COFF32, TO_ELF32, TO_ELF64};
use anyhow::Result;
use std::alloc::Global;

/// An object, the words of its conversion, and the output where it is whole.
struct CutInput {
    input: &'static str,
    words: &'static [&'static str],
    want: &'static str,
}

/// COFF without the four bytes that count its strings is whole, too.
static CUTS: [CutInput; 5] = [
    CutInput {
        input: "elf32_call_to_coff32.o",
        words: TO_COFF32,
        want: "elf32_call_to_coff32.obj",
    },
    CutInput {
        input: "elf32_call_to_coff32.obj",
        words: TO_ELF32,
        want: "elf32_call_to_coff32.o",
    },
    CutInput {
        input: "empty.obj",
        words: TO_ELF32,
        want: "empty.o",
    },
    CutInput {
        input: "big_call.o",
        words: TO_ELF64,
        want: "call_in_elf64.o",
    },
    CutInput {
        input: "big_call.obj",
        words: TO_ELF64,
        want: "call_in_elf64.o",
    },
];

// a line for each stretch of lengths with one outcome
fn show_cut(rt: &HostRuntime, alloc: Global, cut: &CutInput) -> Result<()> {
    let (input, want) = (bytes_of(rt, cut.input)?, bytes_of(rt, cut.want)?);
    let words = words_of(alloc, cut.words)?;
    println!(rt; "{}:", cut.input)?;
    let (mut first, mut end) = (0, 0);
    let mut before = Run::of(&words, &[]).outcome(alloc)?;
    for len in 0..input.len() + 1 {
        let run = Run {
            want: want.as_slice(),
            ..Run::of(&words, &input.as_slice()[..len])
        };
        let this = run.outcome(alloc)?;
        if this != before {
            println!(rt; "cut to {first} to {end} bytes: {before}")?;
            (first, before) = (len, this);
        }
        end = len;
    }
    println!(rt; "cut to {first} to {end} bytes: {before}")?;
    Ok(())
}

/// Cuts each object, and prints what came of it.
pub fn cuts(rt: &HostRuntime, alloc: Global) -> Result<()> {
    for one in &CUTS {
        show_cut(rt, alloc, one)?;
    }
    Ok(())
}
