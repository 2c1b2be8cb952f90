//! Runs of `objlist`: all listings of objects of every format, each status, and each call of a device that
//! fails.
//!
//! The lines of the objects come from an independent model of a listing, but for the calls in `elf64` and
//! `coff64`, and in all forms for many sections. Of those `objdump -h -t -r` shows one section of 6 bytes,
//! two symbols, and a distance from the end of the four bytes at 1 to `foo`: where both lie at 0 it is
//! 0 - (1 + 4) = -5. The headers of the difference that is a constant say sections of 32 and 4 bytes at
//! multiples of 2^4, no symbol, and one pair that takes one section from itself: nothing is left of it. The
//! texts of the statuses are those of the command's description.
use crate::data::stored;
use crate::list_runs::{HEADER, ListRun, RELOCATIONS, SECTIONS};
use crate::outcomes::{Call, show};
use anyhow::Result;
use std::alloc::Global;

/// What is listed, and the file of it.
const OBJECTS: [(&str, &str); 21] = [
    ("a call in elf32", "call.elf32"),
    ("a call in elf64", "call.elf64"),
    ("a call in coff32", "call.coff32"),
    ("a call in coff64", "call.coff64"),
    ("a call in mac32", "call.mac32"),
    ("a call in mac64", "call.mac64"),
    ("a call in omf", "call.omf"),
    ("a group", "group.elf32"),
    ("a common", "common.elf32"),
    ("a weak symbol", "weak.elf64"),
    ("an object of cl", "msvc.coff64"),
    ("fields of five kinds", "fields.coff64"),
    ("a call after a constant", "after_constant.mac32"),
    ("differences", "differences.mac64"),
    ("threads", "threads.omf"),
    ("segments of five classes", "classes.omf"),
    ("a call in bigelf64", "call.bigelf64"),
    ("a call in bigcoff64", "call.bigcoff64"),
    ("a call in bigelf32", "call.bigelf32"),
    ("a call in bigcoff32", "call.bigcoff32"),
    ("a difference that is a constant", "folded.mac32"),
];

/// Words that ask for no listing, and what is wrong with them.
const WORDS: [(&str, &[&str]); 6] = [
    ("no word", &[]),
    ("no name", &["-dr"]),
    ("no listing", &["a"]),
    ("another word", &["-dx", "a"]),
    ("a name before the listing", &["a", "-dr"]),
    ("a further name", &["-dr", "a", "b"]),
];

/// Objects that are refused, and their files; no name for a file without bytes.
const REFUSED: [(&str, &str); 4] = [
    ("a file without bytes", ""),
    ("a field past its section", "field_past_its_section.elf32"),
    ("fields that meet", "fields_that_meet.elf32"),
    ("a section of 2 GiB", "too_big.elf32"),
];

/// Calls that fail, each in a run of its own: the two reads and the write of a listing, and one more of
/// each device, which is not made.
const CALLS: [(&str, Call); 5] = [
    ("the first read fails", Call::File(1)),
    ("the read that finds the end fails", Call::File(2)),
    ("a third call of the files would fail", Call::File(3)),
    ("the listing fails", Call::Console(1)),
    ("a second call of the console would fail", Call::Console(2)),
];

// all listings of each object
fn listings(rt: &HostRuntime, alloc: Global) -> Result<()> {
    for (name, file) in OBJECTS {
        let object = stored(rt, file)?;
        let bytes = object.as_slice();
        show(rt, name, &ListRun::of(HEADER, bytes).outcome(alloc)?)?;
        show(
            rt,
            "its sections",
            &ListRun::of(SECTIONS, bytes).outcome(alloc)?,
        )?;
        show(
            rt,
            "its relocations",
            &ListRun::of(RELOCATIONS, bytes).outcome(alloc)?,
        )?;
    }
    Ok(())
}

// words that ask for nothing
fn wordless(rt: &HostRuntime, alloc: Global, object: &[u8]) -> Result<()> {
    for (name, words) in WORDS {
        show(rt, name, &ListRun::of(words, object).outcome(alloc)?)?;
    }
    Ok(())
}

// objects that are refused
fn refusals(rt: &HostRuntime, alloc: Global) -> Result<()> {
    for (name, file) in REFUSED {
        let object = stored(rt, file)?;
        show(
            rt,
            name,
            &ListRun::of(RELOCATIONS, object.as_slice()).outcome(alloc)?,
        )?;
    }
    Ok(())
}

// calls of the devices that fail
fn failing_calls(rt: &HostRuntime, alloc: Global, object: &[u8]) -> Result<()> {
    for (name, call) in CALLS {
        let run = ListRun {
            words: RELOCATIONS,
            object: Some(object),
            failing: Some(call),
        };
        show(rt, name, &run.outcome(alloc)?)?;
    }
    Ok(())
}

// runs where there is no object, and where a text is not written
fn without_object(rt: &HostRuntime, alloc: Global) -> Result<()> {
    let absent = ListRun {
        words: RELOCATIONS,
        object: None,
        failing: None,
    };
    let untold = ListRun {
        failing: Some(Call::Console(1)),
        ..absent
    };
    let wordless = ListRun {
        words: &["-dx"],
        ..untold
    };
    show(rt, "no such file", &absent.outcome(alloc)?)?;
    show(rt, "and standard error fails", &untold.outcome(alloc)?)?;
    show(
        rt,
        "another word, and standard error fails",
        &wordless.outcome(alloc)?,
    )
}

/// Runs all of these, and prints what came of each.
pub fn show_lists(rt: &HostRuntime, alloc: Global) -> Result<()> {
    let object = stored(rt, "call.elf32")?;
    listings(rt, alloc)?;
    wordless(rt, alloc, object.as_slice())?;
    refusals(rt, alloc)?;
    failing_calls(rt, alloc, object.as_slice())?;
    without_object(rt, alloc)
}
