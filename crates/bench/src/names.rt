//! Times the edits of an object of many symbols, compared with a walk over the same symbols, and
//! the dropping of a section.
//!
//! KIND says what each edit does: `rename`, `weaken`, `local` or `alias` (to one symbol, which it
//! names), `absent` (a new name for a symbol that does not exist), `prefix` (a new name for each
//! symbol with a prefix that none has) or `all` (an alias of each symbol, by how its name begins).
//! `drop` drops the first section, before COUNT others with 1,000 relocations each; `keep` is the
//! same with nothing dropped.
ghost use Rattle.std.specs.Prelude.{◌≤◌};

use crate::many_sections::sectioned;
use crate::objects::{BEGIN, name, object, timed_walk};
use crate::timing::micros;
use anyhow::{Result, anyhow};
use oc_base::{Bytes, Format, NoMemory, Stop, Word};
use oc_names::{Choice, Edit, Edits, apply};
use oc_neutral::Neutral;
use std::alloc::Global;
use std::rt::Clock;
use std::time::Instant;

/// What each edit does.
#[derive(Clone, Copy, Debug, PartialEq, Eq)]
enum EditKind {
    Rename,
    Weaken,
    Local,
    Alias,
    Absent,
    Prefix,
    All,
}

// what the word asks for
fn asked(kind: &str) -> Result<EditKind> {
    match kind {
        "rename" => Ok(EditKind::Rename),
        "weaken" => Ok(EditKind::Weaken),
        "local" => Ok(EditKind::Local),
        "alias" => Ok(EditKind::Alias),
        "absent" => Ok(EditKind::Absent),
        "prefix" => Ok(EditKind::Prefix),
        "all" => Ok(EditKind::All),
        _ => Err(anyhow!(
            "KIND is rename, weaken, local, alias, absent, prefix, all, drop or keep"
        )),
    }
}

// an edit, the one of that number, that names the symbol of another number
fn edit(alloc: Global, what: EditKind, number: u32, of: u32) -> Result<Edit, NoMemory> {
    let from = name(alloc, BEGIN, of)?;
    let to = name(alloc, b"edited__", number)?;
    Ok(match what {
        EditKind::Rename => Edit::Rename { from, to },
        EditKind::Weaken => Edit::Weaken { name: from },
        EditKind::Local => Edit::MakeLocal { name: from },
        EditKind::Alias => Edit::Alias { from, to },
        EditKind::Absent => Edit::Rename {
            from: name(alloc, b"absent__", of)?,
            to,
        },
        EditKind::Prefix => Edit::Prefix {
            from: name(alloc, b"absent__", of)?,
            to,
        },
        EditKind::All => Edit::AliasPrefix {
            from: Bytes::from_slice(alloc, BEGIN)?,
            to,
        },
    })
}

// so many edits, which name symbols at equal distances
fn edits(alloc: Global, what: EditKind, symbols: u32, count: u32) -> Result<Edits, NoMemory> {
    let mut edits = Edits::new(alloc);
    let step = symbols / count.max(1);
    for k in 0..count {
        edits.push(edit(alloc, what, k, k.wrapping_mul(step))?)?;
    }
    Ok(edits)
}

// edits an object, and prints how long that took
fn timed_apply<R: Clock + Eprint>(
    rt: &R,
    alloc: Global,
    neutral: Neutral,
    edits: &Edits,
) -> Result<Result<Neutral, Stop>> {
    let format = neutral.format();
    let start = Instant::now(rt)?;
    let made = apply(alloc, neutral, edits, format);
    let edited = micros(rt, start)?;
    eprintln!(rt; "edited in {edited} us")?;
    Ok(made)
}

// edits an object, and prints how long that took, compared with a walk
fn measure_edits<R: Clock + Print + Eprint>(
    rt: &R,
    alloc: Global,
    what: EditKind,
    symbols: u32,
    count: u32,
) -> Result<()> {
    let neutral = object(alloc, Word::W64, symbols, 0)?;
    let edits = edits(alloc, what, symbols, count)?;
    timed_walk(rt, &neutral)?;
    match timed_apply(rt, alloc, neutral, &edits)? {
        Ok(made) => println!(rt;
            "{what:?}: {symbols} symbols, {count} edits, then {} symbols",
            made.symbol_count()
        )?,
        Err(fault) => println!(rt; "{what:?}: {symbols} symbols, {count} edits, {fault:?}")?,
    }
    Ok(())
}

// drops a section or none, and prints how long that took
fn measure_dropping<R: Clock + Print + Eprint>(
    rt: &R,
    alloc: Global,
    kind: &str,
    count: u32,
) -> Result<()> {
    let neutral = sectioned(alloc, count)?;
    let mut edits = Edits::new(alloc);
    if kind == "drop" {
        edits.set_debug(Choice::Strip);
    }
    let before = neutral.section_count();
    match timed_apply(rt, alloc, neutral, &edits)? {
        Ok(made) => println!(rt; "{kind}: {before} sections, then {}", made.section_count())?,
        Err(fault) => println!(rt; "{kind}: {before} sections, {fault:?}")?,
    }
    Ok(())
}

/// Edits an object of so many symbols, or of so many sections with relocations, and prints how long
/// that took.
pub(crate) fn measure<R: Clock + Print + Eprint>(
    rt: &R,
    alloc: Global,
    kind: &str,
    count: u32,
    more: u32,
) -> Result<()> {
    if kind == "drop" || kind == "keep" {
        return measure_dropping(rt, alloc, kind, count);
    }
    measure_edits(rt, alloc, asked(kind)?, count, more)
}
