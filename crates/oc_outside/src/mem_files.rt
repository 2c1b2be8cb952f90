ghost use Rattle.std.specs.Prelude.{◌≡◌, ◌++◌, ◌∷◌, [], if◌then◌else◌, ℕ, ◌<◌, length, is_err, IfOk, OnOk, OnErr, IsSome, IsSomeAnd, None, Some, MatchOption};
ghost use Rattle.oc_outside.specs.Calls.{count_after, next_call};
ghost use Rattle.oc_outside.specs.Causes.{Counts};
ghost use Rattle.oc_outside.specs.Held.{file_of, with_file, emptied, extended};
ghost use Rattle.oc_outside.specs.Slots.{with_room};
ghost use Rattle.oc_outside.specs.MemFiles.{no_files, called, read_failed, write_failed, fails_next, refuses_read, refuses_create, refuses_append, ReadsAll};

use crate::calls::{is_due, next_call, risen};
use crate::failed::Failed;
use crate::files::Files;
use crate::slot::Slot;
use crate::slots::{append_in, create_in, file_in, raise_in, set_in};
use oc_base::NoMemory;
use std::alloc::Global;
use std::marker::Model;

/// Files in memory, for tests: each file may grow to the room of its name, and calls can be set to
/// fail.
///
/// The room of a name is reserved by `set` and `room`, so that the calls of the trait take no
/// memory. They are numbered together from 1 on. The number stops at 2^64 - 1: the call that
/// reaches it and every later one fail.
#[derive(Debug, Drop)]
pub struct MemFiles {
    alloc: Global,
    slots: Vec<Slot>,
    calls: u64,
    failing: Vec<u64>,
    read_faults: u64,
    write_faults: u64,
}

impl Model for MemFiles {
    ghost use Rattle.oc_outside.specs.MemFiles.{FilesState, files_code};
    ghost use Rattle.oc_outside.specs.Slots.{held_of, rooms_of};

    ghost Value = { FilesState };

    ghost coded = { files_code };

    ghost view = { λ f. record {
      held = held_of f.slots.items;
      rooms = rooms_of f.slots.items;
      calls = f.calls;
      failing = f.failing.items;
      read_faults = f.read_faults;
      write_faults = f.write_faults;
    } };
}

impl MemFiles {
    /// No files, no room, and all counts 0. Takes no memory.
    pub fn new(alloc: Global) -> MemFiles
        ensures { result ≡ no_files }
    {
        MemFiles {
            alloc,
            slots: Vec::new(alloc),
            calls: 0,
            failing: Vec::new(alloc),
            read_faults: 0,
            write_faults: 0,
        }
    }

    /// The file `name` holds `bytes`, and the room of the name is raised to their number where it
    /// is lower.
    ///
    /// After an error nothing changed. Linear in the number of names, the length of `name` and that
    /// of `bytes`.
    pub fn set(&mut self, name: &str, bytes: &[u8]) -> Result<(), NoMemory>
        ensures ok { OnOk result
            (self.new
            ≡ record self.old {
              held = with_file name.now bytes.now self.old.held;
              rooms = with_room name.now (length bytes.now) self.old.rooms;
            }) }
        ensures err { OnErr result (self.new ≡ self.old) }
    {
        set_in(self.alloc, &mut self.slots, name, bytes)
    }

    /// The room of `name`, whether that file is held or not, is raised to `bytes` bytes where it is
    /// lower.
    ///
    /// After an error nothing changed. Linear in the number of names, the length of `name` and that
    /// of the file.
    pub fn room(&mut self, name: &str, bytes: u64) -> Result<(), NoMemory>
        ensures ok { OnOk result
            (self.new ≡ record self.old { rooms = with_room name.now bytes self.old.rooms }) }
        ensures err { OnErr result (self.new ≡ self.old) }
    {
        raise_in(self.alloc, &mut self.slots, name, bytes)
    }

    /// The call of the trait with the number `call`, counted from 1, is set to fail.
    pub fn fail_at(&mut self, call: u64) -> Result<(), NoMemory>
        ensures ok { OnOk result (self.new ≡ record self.old { failing = self.old.failing ++ call ∷ [] }) }
        ensures err { OnErr result (self.new ≡ self.old) }
    {
        self.failing.push(call)?;
        Ok(())
    }

    /// The bytes of the file `name`; None exactly where it is not held. Takes no memory.
    pub fn file(&self, name: &str) -> Option<&[u8]>
        ensures { MatchOption result
            (file_of name.now self.now.held ≡ None)
            (λ bytes. file_of name.now self.now.held ≡ Some bytes.now) }
    {
        file_in(self.slots.as_slice(), name)
    }

    /// Counts one more call of the trait, and gives whether it is to fail.
    fn begin(&mut self) -> bool
        ensures due { result ≡ fails_next self.old }
        ensures call { self.new ≡ called self.old }
    {
        self.calls = next_call(self.calls);
        is_due(self.calls, self.failing.as_slice())
    }
}

impl Files for MemFiles {
    ghost held = { λ f. Some f.held };

    ghost read_faults = { λ f. f.read_faults };

    ghost write_faults = { λ f. f.write_faults };

    /// Reads as many bytes as the file has from `at` on and `to` has place for; the rest of `to`
    /// stays.
    ///
    /// Failed comes exactly where the call is set to fail or has the last number, and then the
    /// count of reads rises, or where `name` is not held, and then no count rises for that. Linear
    /// in the number of names and of the bytes read.
    fn read_at(&mut self, name: &str, at: u64, to: &mut [u8]) -> Result<usize, Failed>
        ensures fails { is_err result ≡ refuses_read self.old name.now }
        ensures state { self.new
            ≡ (if fails_next self.old then read_failed self.old else called self.old) }
        ensures whole { IfOk result (λ n.
            IsSomeAnd (file_of name.now self.old.held) (λ file. ReadsAll file at to.old to.new n)) }
        ensures kept { OnErr result (to.new ≡ to.old) }
        ensures count { self.new.read_faults
            ≡ count_after (fails_next self.old) (next_call self.old.calls) self.old.read_faults }
        ensures counts { Counts self.old.read_faults self.new.read_faults
            self.old.write_faults self.new.write_faults }
        ensures steady { OnOk result (self.new.read_faults ≡ self.old.read_faults) }
    {
        if self.begin() {
            self.read_faults = risen(self.calls, self.read_faults);
            return Err(Failed);
        }
        match file_in(self.slots.as_slice(), name) {
            Some(file) => Ok(copy_front(file, at, to)),
            None => Err(Failed),
        }
    }

    /// Makes the file `name` there and empty.
    ///
    /// Failed comes exactly where the call is set to fail or has the last number, or `name` has no
    /// room. Then the file is as it was, and the count of writes rises. Linear in the number of
    /// names.
    fn create(&mut self, name: &str) -> Result<(), Failed>
        ensures fails { is_err result ≡ refuses_create self.old name.now }
        ensures ok { OnOk result
            (self.new ≡ record (called self.old) { held = emptied name.now self.old.held }) }
        ensures err { OnErr result (self.new ≡ write_failed self.old) }
        ensures count { self.new.write_faults
            ≡ count_after (refuses_create self.old name.now)
            (next_call self.old.calls) self.old.write_faults }
        ensures counts { Counts self.old.write_faults self.new.write_faults
            self.old.read_faults self.new.read_faults }
        ensures steady { OnOk result (self.new.write_faults ≡ self.old.write_faults) }
    {
        if self.begin() || create_in(self.slots.as_mut_slice(), name).is_err() {
            self.write_faults = risen(self.calls, self.write_faults);
            return Err(Failed);
        }
        Ok(())
    }

    /// Appends the whole piece.
    ///
    /// Failed comes exactly where the call is set to fail or has the last number, or the piece
    /// would pass the room of `name`. Then the file is as it was, and the count of writes rises.
    /// Linear in the number of names and in the length of the piece.
    fn append(&mut self, name: &str, piece: &[u8]) -> Result<usize, Failed>
        requires some { 0 < length piece.now }
        requires there { IsSome (file_of name.now self.old.held) }
        ensures fails { is_err result ≡ refuses_append self.old name.now (length piece.now) }
        ensures whole { IfOk result (λ n. n ≡ length piece.now) }
        ensures ok { OnOk result
            (self.new ≡ record (called self.old) { held = extended name.now piece.now self.old.held }) }
        ensures err { OnErr result (self.new ≡ write_failed self.old) }
        ensures count { self.new.write_faults
            ≡ count_after (refuses_append self.old name.now (length piece.now))
            (next_call self.old.calls) self.old.write_faults }
        ensures counts { Counts self.old.write_faults self.new.write_faults
            self.old.read_faults self.new.read_faults }
        ensures steady { OnOk result (self.new.write_faults ≡ self.old.write_faults) }
    {
        if self.begin() || append_in(self.slots.as_mut_slice(), name, piece).is_err() {
            self.write_faults = risen(self.calls, self.write_faults);
            return Err(Failed);
        }
        Ok(piece.len())
    }
}

/// Copies the bytes of `file` from `at` on into the start of `to`, as many as it has room for, and
/// gives their number.
fn copy_front(file: &[u8], at: u64, to: &mut [u8]) -> usize
    ensures { ReadsAll file.now at to.old to.new result }
{
    let start = file.len().min(at as usize);
    let rest = &file[start..];
    let count = to.len().min(rest.len());
    let piece = &rest[..count];
    let front = &mut to[..count];
    front.copy_from_slice(piece);
    count
}
