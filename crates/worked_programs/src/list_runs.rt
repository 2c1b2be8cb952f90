//! One run of `objlist` over an object `a` in memory.
use crate::outcomes::{Call, Outcome, words_of};
use anyhow::Result;
use oc_dispatch::AnyReader;
use oc_lister::run_list_by;
use oc_outside::{MemConsole, MemFiles};
use std::alloc::Global;

/// The name of the object.
const OBJECT: &str = "a";

/// How many bytes each text on the console may grow to.
const TEXT_ROOM: u64 = 100_000;

/// The words of a listing of the header.
pub const HEADER: &[&str] = &["-dh", OBJECT];

/// The words of a listing of the sections.
pub const SECTIONS: &[&str] = &["-dn", OBJECT];

/// The words of a listing of the relocations.
pub const RELOCATIONS: &[&str] = &["-dr", OBJECT];

/// What is run.
#[derive(Clone, Copy)]
pub struct ListRun<'a> {
    pub words: &'a [&'a str],
    /// The bytes of the object, where it is held.
    pub object: Option<&'a [u8]>,
    /// The call that fails.
    pub failing: Option<Call>,
}

impl<'a> ListRun<'a> {
    /// A run over an object where no call fails.
    pub fn of(words: &'a [&'a str], object: &'a [u8]) -> ListRun<'a> {
        ListRun {
            words,
            object: Some(object),
            failing: None,
        }
    }

    /// Runs the command, and gives what came of it.
    pub fn outcome(&self, alloc: Global) -> Result<Outcome> {
        let mut files = MemFiles::new(alloc);
        if let Some(object) = self.object {
            files.set(OBJECT, object)?;
        }
        let mut console = MemConsole::new(alloc);
        console.room(TEXT_ROOM, TEXT_ROOM)?;
        match self.failing {
            Some(Call::File(call)) => files.fail_at(call)?,
            Some(Call::Console(call)) => console.fail_at(call)?,
            None => {}
        }
        let words = words_of(alloc, self.words)?;
        let status = run_list_by(alloc, &AnyReader, &words, &mut files, &mut console);
        let calm = files.file(OBJECT) == self.object;
        Outcome::of(alloc, status, &console, calm)
    }
}
