//! One run of `objlink` over an object `o` and a placement `p` in memory.
use crate::endless::Endless;
use crate::outcomes::{Call, Outcome, words_of};
use anyhow::Result;
use oc_dispatch::AnyReader;
use oc_linker::run_link_by;
use oc_outside::{MemConsole, MemFiles};
use std::alloc::Global;

/// The name of the object.
const OBJECT: &str = "o";

/// The name of the placement.
const PLACEMENT: &str = "p";

/// How many bytes each text on the console may grow to.
const TEXT_ROOM: u64 = 100_000;

/// The words of a run.
const BOTH: &[&str] = &[OBJECT, PLACEMENT];

/// What is run.
#[derive(Clone, Copy)]
pub struct LinkRun<'a> {
    pub words: &'a [&'a str],
    /// The bytes of the object, where it is held.
    pub object: Option<&'a [u8]>,
    /// The bytes of the placement, where it is held.
    pub placement: Option<&'a [u8]>,
    /// The call that fails.
    pub failing: Option<Call>,
}

impl<'a> LinkRun<'a> {
    /// A run over both files where no call fails.
    pub fn of(object: &'a [u8], placement: &'a [u8]) -> LinkRun<'a> {
        LinkRun {
            words: BOTH,
            object: Some(object),
            placement: Some(placement),
            failing: None,
        }
    }

    /// Runs the command, and gives what came of it.
    pub fn outcome(&self, alloc: Global) -> Result<Outcome> {
        let mut files = MemFiles::new(alloc);
        if let Some(object) = self.object {
            files.set(OBJECT, object)?;
        }
        if let Some(placement) = self.placement {
            files.set(PLACEMENT, placement)?;
        }
        let mut console = MemConsole::new(alloc);
        console.room(TEXT_ROOM, TEXT_ROOM)?;
        match self.failing {
            Some(Call::File(call)) => files.fail_at(call)?,
            Some(Call::Console(call)) => console.fail_at(call)?,
            None => {}
        }
        let words = words_of(alloc, self.words)?;
        let status = run_link_by(alloc, &AnyReader, &words, &mut files, &mut console);
        let calm = files.file(OBJECT) == self.object && files.file(PLACEMENT) == self.placement;
        Outcome::of(alloc, status, &console, calm)
    }
}

/// What comes of a run over an object and a placement that has no end.
pub fn endless_outcome(alloc: Global, object: &[u8]) -> Result<Outcome> {
    let mut files = Endless {
        name: OBJECT,
        object,
    };
    let mut console = MemConsole::new(alloc);
    console.room(TEXT_ROOM, TEXT_ROOM)?;
    let words = words_of(alloc, BOTH)?;
    let status = run_link_by(alloc, &AnyReader, &words, &mut files, &mut console);
    Outcome::of(alloc, status, &console, true)
}
