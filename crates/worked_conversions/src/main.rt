//! Converts worked objects, and compares each output with stored bytes: what an independent model
//! of the conversion gives, or, for objects of real tools, what other tools confirmed
//! (`data/README`).
//!
//! `worked_conversions TARGET IN WANT ..` prints a line for each three words: TARGET is an option,
//! as `-fcoff32`, IN and WANT are files. The output is written to `out.obj`.
#![tactic(auto)]

use anyhow::{Result, anyhow};
use objconv::{Words, run};
use oc_base::NoMemory;
use oc_outside::{LIMIT, RealConsole, RealFiles, read_file};
use std::alloc::Global;
use std::env;

/// The file that holds an output.
const OUT: &str = "out.obj";

// the words of a conversion
fn conversion(alloc: Global, target: &str, input: &str) -> Result<Words, NoMemory> {
    let mut words = Words::new(alloc);
    words.push(target)?;
    words.push(input)?;
    words.push(OUT)?;
    Ok(words)
}

// the status of a conversion
fn status_of(rt: &HostRuntime, target: &str, input: &str) -> Result<u8, NoMemory> {
    let alloc = rt.alloc();
    let words = conversion(alloc, target, input)?;
    let mut files = RealFiles::new(alloc, rt);
    let mut console = RealConsole::new(rt.stdout(), rt.stderr());
    Ok(run(alloc, &words, &mut files, &mut console))
}

// whether the output has the wanted bytes
fn is_wanted(rt: &HostRuntime, want: &str) -> Result<bool> {
    let alloc = rt.alloc();
    let mut files = RealFiles::new(alloc, rt);
    let Ok(out) = read_file(alloc, &mut files, OUT, LIMIT) else {
        return Err(anyhow!("no output"));
    };
    let Ok(want) = read_file(alloc, &mut files, want, LIMIT) else {
        return Err(anyhow!("nothing to compare with"));
    };
    Ok(out.as_slice() == want.as_slice())
}

fn main(rt: HostRuntime) -> Result<()> {
    let mut words = env::args(&rt)?;
    let _program = words.next();
    for _ in 0..u64::MAX {
        let Some(target) = words.next() else {
            break;
        };
        let (Some(input), Some(want)) = (words.next(), words.next()) else {
            return Err(anyhow!("three words a conversion"));
        };
        let status = status_of(&rt, target.as_str(), input.as_str())?;
        let wanted = is_wanted(&rt, want.as_str())?;
        println!(&rt; "{}: status {status}, as wanted: {wanted}", input.as_str())?;
    }
    Ok(())
}
