//! Runs of `objlink`: each status, each device call that fails, each format, each kind of field, and each
//! fault of a placement.
use crate::data::stored;
use crate::link_rows::{CALL, LinkRow, calls, rows};
use crate::link_runs::{LinkRun, endless_outcome};
use crate::outcomes::{Call, show};
use crate::placement_rows;
use anyhow::Result;
use std::alloc::Global;

/// The object of most runs.
const OBJECT: &str = "call.elf32";

/// Words that are not two names.
const WORDS: [(&str, &[&str]); 3] = [
    ("no word", &[]),
    ("one word", &["o"]),
    ("three words", &["o", "p", "q"]),
];

/// Objects that are refused: one of no format, an executable, and one with a section of 2^31 bytes.
const REFUSED: [(&str, &str); 3] = [
    ("an object of no format", ""),
    ("an executable", "executable.elf32"),
    ("a section of 2^31 bytes", "too_big.elf32"),
];

/// Calls that fail, each in a run of its own: the two reads of each file, one more read, which is not made,
/// and the write of the text.
const CALLS: [(&str, Call); 6] = [
    ("the first read of the object fails", Call::File(1)),
    ("its second read fails", Call::File(2)),
    ("the first read of the placement fails", Call::File(3)),
    ("its second read fails", Call::File(4)),
    ("a fifth read would fail", Call::File(5)),
    ("the write of the text fails", Call::Console(1)),
];

/// A text of more than one piece: a section of 2,000 bytes.
const LONG: &str = "long.elf32";

/// Its placement.
const LONG_PLACED: &[u8] = b"section 1 0 0 1\nsection 2 2000 2000 2\nsection 3 3000 3000 3\n";

// words that are not two names; where the text for that is not written, the status stays
fn wordless(rt: &HostRuntime, alloc: Global, object: &[u8]) -> Result<()> {
    let run = LinkRun::of(object, CALL.as_bytes());
    for (name, words) in WORDS {
        show(rt, name, &LinkRun { words, ..run }.outcome(alloc)?)?;
    }
    let untold = LinkRun {
        words: &[],
        failing: Some(Call::Console(1)),
        ..run
    };
    show(rt, "the write of a message fails", &untold.outcome(alloc)?)
}

// files that are not there
fn absent_files(rt: &HostRuntime, alloc: Global, object: &[u8]) -> Result<()> {
    let run = LinkRun::of(object, CALL.as_bytes());
    let no_object = LinkRun {
        object: None,
        ..run
    };
    show(rt, "no object", &no_object.outcome(alloc)?)?;
    let no_placement = LinkRun {
        placement: None,
        ..run
    };
    show(rt, "no placement", &no_placement.outcome(alloc)?)
}

// objects that are refused, where there is no placement
fn refused_objects(rt: &HostRuntime, alloc: Global) -> Result<()> {
    for (name, object) in REFUSED {
        let object = stored(rt, object)?;
        let run = LinkRun {
            placement: None,
            ..LinkRun::of(object.as_slice(), &[])
        };
        show(rt, name, &run.outcome(alloc)?)?;
    }
    Ok(())
}

// calls that fail
fn failing_calls(rt: &HostRuntime, alloc: Global, object: &[u8]) -> Result<()> {
    for (name, call) in CALLS {
        let run = LinkRun {
            failing: Some(call),
            ..LinkRun::of(object, CALL.as_bytes())
        };
        show(rt, name, &run.outcome(alloc)?)?;
    }
    let long = stored(rt, LONG)?;
    let run = LinkRun::of(long.as_slice(), LONG_PLACED);
    show(rt, "a text of two pieces", &run.outcome(alloc)?)?;
    let cut = LinkRun {
        failing: Some(Call::Console(2)),
        ..run
    };
    show(rt, "its second piece fails", &cut.outcome(alloc)?)
}

// objects at placements
fn placed_objects(rt: &HostRuntime, alloc: Global, rows: &[LinkRow]) -> Result<()> {
    for row in rows {
        let object = stored(rt, row.object)?;
        let run = LinkRun::of(object.as_slice(), row.placement.as_bytes());
        show(rt, row.name, &run.outcome(alloc)?)?;
    }
    Ok(())
}

// placements at fault
fn bad_placements(rt: &HostRuntime, alloc: Global, object: &[u8]) -> Result<()> {
    for (name, placement) in placement_rows::faults() {
        let run = LinkRun::of(object, placement.as_bytes());
        show(rt, name, &run.outcome(alloc)?)?;
    }
    placed_objects(rt, alloc, placement_rows::rows())
}

// a placement of more than 67,108,864 bytes
fn long_placement(rt: &HostRuntime, alloc: Global, object: &[u8]) -> Result<()> {
    show(
        rt,
        "a placement past the limit",
        &endless_outcome(alloc, object)?,
    )
}

/// Runs all of them, and prints what came of each.
pub fn show_links(rt: &HostRuntime, alloc: Global) -> Result<()> {
    let object = stored(rt, OBJECT)?;
    let object = object.as_slice();
    placed_objects(rt, alloc, calls())?;
    placed_objects(rt, alloc, rows())?;
    wordless(rt, alloc, object)?;
    absent_files(rt, alloc, object)?;
    refused_objects(rt, alloc)?;
    failing_calls(rt, alloc, object)?;
    bad_placements(rt, alloc, object)?;
    long_placement(rt, alloc, object)
}
