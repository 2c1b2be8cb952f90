ghost use Rattle.std.specs.Prelude.{◌≡◌, ◌≤◌, ◌+◌, ◌-◌, ◌^◌, None, length, IfOk, min};

use crate::failed::Failed;
use crate::files::Files;
use std::alloc::Global;
use std::fs::{self, OpenOptions};
use std::io::{self, Read, Seek, SeekFrom, Write};
use std::rt;

// a file that stays open for the next call
#[derive(Drop)]
struct OpenFile<T> {
    // the name that it was opened by, or nothing where no memory was found for the name
    name: Option<String>,
    file: T,
}

impl<T> OpenFile<T> {
    // the file as one to keep
    fn new(alloc: Global, name: &str, file: T) -> OpenFile<T> {
        OpenFile {
            name: String::from_str(alloc, name).ok(),
            file,
        }
    }

    // whether it was opened by this name
    fn is_of(&self, name: &str) -> bool {
        match &self.name {
            Some(kept) => kept.as_str() == name,
            None => false,
        }
    }
}

/// The files of the operating system. Contracts do not see what they hold.
///
/// The file that was read last stays open until its end is read, and so does the one that was
/// appended to last. A call by the same name goes on with it, even if the name stands for another
/// file by then: what is read or appended call by call is one file. `create`, a call that fails and
/// one by another name close it. The next call opens the file that has its name at that moment.
///
/// A file that does not exist is a fault of the call that opens it. Names are paths. What cannot be
/// read from a given place, such as a pipe, is not read. Takes memory for two names; where there is
/// none, each call opens its file.
#[derive(Drop)]
pub struct RealFiles<'r, R: rt::Files> {
    alloc: Global,
    rt: &'r R,
    reading: Option<OpenFile<R::File>>,
    appending: Option<OpenFile<R::File>>,
    read_faults: u64,
    write_faults: u64,
}

impl<'r, R: rt::Files> RealFiles<'r, R> {
    /// The files that `rt` reaches, none of them open, with no fault counted so far.
    pub fn new(alloc: Global, rt: &'r R) -> RealFiles<'r, R>
        ensures read_faults { result.read_faults ≡ 0 }
        ensures write_faults { result.write_faults ≡ 0 }
    {
        RealFiles {
            alloc,
            rt,
            reading: None,
            appending: None,
            read_faults: 0,
            write_faults: 0,
        }
    }

    // the file for reads of this name: the one that is kept, or else one that is opened now
    fn reader(&mut self, name: &str) -> io::Result<OpenFile<R::File>>
        ensures read_faults { self.new.read_faults ≡ self.old.read_faults }
        ensures write_faults { self.new.write_faults ≡ self.old.write_faults }
    {
        match self.reading.take() {
            Some(kept) if kept.is_of(name) => Ok(kept),
            _ => {
                let file = fs::open(self.rt, name)?;
                Ok(OpenFile::new(self.alloc, name, file))
            }
        }
    }

    // the file for appends to this name: the one that is kept, or else one that is opened now
    fn appender(&mut self, name: &str) -> io::Result<OpenFile<R::File>>
        ensures read_faults { self.new.read_faults ≡ self.old.read_faults }
        ensures write_faults { self.new.write_faults ≡ self.old.write_faults }
    {
        match self.appending.take() {
            Some(kept) if kept.is_of(name) => Ok(kept),
            _ => {
                let file = OpenOptions::new().append(true).open(self.rt, name)?;
                Ok(OpenFile::new(self.alloc, name, file))
            }
        }
    }

    // one call of the system's read, from a place of the file on; where it reads anything, the file
    // is kept
    fn read_once(&mut self, name: &str, at: u64, to: &mut [u8]) -> io::Result<usize>
        ensures count { IfOk result (λ n. n ≤ length to.new) }
        ensures read_faults { self.new.read_faults ≡ self.old.read_faults }
        ensures write_faults { self.new.write_faults ≡ self.old.write_faults }
    {
        let mut kept = self.reader(name)?;
        kept.file.seek(SeekFrom::Start(at))?;
        let count = kept.file.read(to)?;
        if count > 0 {
            self.reading = Some(kept);
        }
        Ok(count)
    }

    // one call of the system's write, at the end of the file, which is kept if it succeeds
    fn append_once(&mut self, name: &str, piece: &[u8]) -> io::Result<usize>
        ensures count { IfOk result (λ n. n ≤ length piece.now) }
        ensures read_faults { self.new.read_faults ≡ self.old.read_faults }
        ensures write_faults { self.new.write_faults ≡ self.old.write_faults }
    {
        let mut kept = self.appender(name)?;
        let count = kept.file.write(piece)?;
        self.appending = Some(kept);
        Ok(count)
    }
}

impl<R: rt::Files> Files for RealFiles<'_, R> {
    ghost held = { λ _. None };

    ghost read_faults = { λ s. s.read_faults };

    ghost write_faults = { λ s. s.write_faults };

    fn read_at(&mut self, name: &str, at: u64, to: &mut [u8]) -> Result<usize, Failed> {
        match self.read_once(name, at, to) {
            Ok(count) => Ok(count),
            Err(_) => {
                self.read_faults = self.read_faults.saturating_add(1);
                Err(Failed)
            }
        }
    }

    fn create(&mut self, name: &str) -> Result<(), Failed> {
        self.reading = None;
        self.appending = None;
        match fs::create(self.rt, name) {
            Ok(_) => Ok(()),
            Err(_) => {
                self.write_faults = self.write_faults.saturating_add(1);
                Err(Failed)
            }
        }
    }

    fn append(&mut self, name: &str, piece: &[u8]) -> Result<usize, Failed> {
        match self.append_once(name, piece) {
            Ok(count) if count > 0 => Ok(count),
            _ => {
                self.write_faults = self.write_faults.saturating_add(1);
                Err(Failed)
            }
        }
    }
}
