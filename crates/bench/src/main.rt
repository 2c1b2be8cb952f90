//! Times parts of the converter on objects that are made in memory.
//!
//! `bench PART KIND COUNT MORE`, where the numbers can be left out from the last one on. What was
//! made goes to the standard output, times to standard error.
//!
//! | PART | What is timed |
//! |---|---|
//! | `coff`, `elf` | the reading of an object of i386 with COUNT relocations or symbols |
//! | `fit` | the fitting of COUNT symbols and MORE relocations to the target KIND |
//! | `express` | the same, with planning |
//! | `names` | MORE edits of COUNT symbols, or the dropping of a section before COUNT others |
//! | `neutral` | the building of an object of COUNT relocations or symbols |
//! | `strings` | the string table of COUNT names of MORE bytes |
//! | `all` | a small case of each |
//!
//! The module of each part lists its kinds.
#![tactic(auto)]

ghost use Rattle.std.specs.Prelude.{◌≡◌, ◌≤◌, IfOk};

mod coff;
mod elf;
mod express;
mod files;
mod many_sections;
mod names;
mod neutral;
mod objects;
mod strings;
mod timing;

use anyhow::{Result, anyhow};
use std::alloc::Global;
use std::env;
use std::rt::{Clock, Env};

/// The most symbols, relocations, names or edits: a section has at most 64 MiB.
pub(crate) const MOST: u32 = 16_000_000;

// times one part
fn measure<R: Clock + Print + Eprint>(
    rt: &R,
    alloc: Global,
    part: &str,
    kind: &str,
    count: u32,
    more: u32,
) -> Result<()>
    requires count { count ≤ 16000000 }
    requires more { more ≤ 16000000 }
{
    match part {
        "coff" => coff::measure(rt, alloc, kind, count),
        "elf" => elf::measure(rt, alloc, kind, count),
        "express" => express::measure(rt, alloc, kind, count, more, true),
        "fit" => express::measure(rt, alloc, kind, count, more, false),
        "names" => names::measure(rt, alloc, kind, count, more),
        "neutral" => neutral::measure(rt, alloc, kind, count),
        "strings" => strings::measure(rt, alloc, kind, count, more),
        _ => Err(anyhow!("PART is coff, elf, express, fit, names, neutral, strings or all")),
    }
}

// times a small case of each part
fn measure_each<R: Clock + Print + Eprint>(rt: &R, alloc: Global) -> Result<()> {
    measure(rt, alloc, "coff", "down", 300, 0)?;
    measure(rt, alloc, "elf", "down", 300, 0)?;
    measure(rt, alloc, "express", "coff64", 300, 900)?;
    measure(rt, alloc, "names", "rename", 300, 30)?;
    measure(rt, alloc, "names", "drop", 9, 0)?;
    measure(rt, alloc, "neutral", "long", 300, 0)?;
    measure(rt, alloc, "strings", "tails", 300, 30)
}

// the word, or `all` where there is none
fn word_or_all(alloc: Global, word: Option<String>) -> Result<String> {
    match word {
        Some(word) => Ok(word),
        None => Ok(String::from_str(alloc, "all")?),
    }
}

// the number in the word, or the default where there is none
fn number(word: Option<String>, default: u32) -> Result<u32>
    requires { default ≤ 16000000 }
    ensures { IfOk result (λ n. n ≤ 16000000) }
{
    let number = match word {
        Some(word) => word.parse()?,
        None => default,
    };
    if number > MOST {
        return Err(anyhow!("a number is at most {MOST}"));
    }
    Ok(number)
}

fn main(rt: HostRuntime) -> Result<()> {
    let alloc = rt.alloc();
    let mut words = env::args(&rt)?;
    let _program = words.next();
    let part = word_or_all(alloc, words.next())?;
    if part.as_str() == "all" {
        return measure_each(&rt, alloc);
    }
    let kind = word_or_all(alloc, words.next())?;
    let count = number(words.next(), 300)?;
    let more = number(words.next(), 30)?;
    measure(&rt, alloc, part.as_str(), kind.as_str(), count, more)
}
