ghost use Rattle.std.specs.Prelude.{◌≡◌, ◌++◌, ◌∷◌, [], ◌<◌, ◌≤◌, length, take, max, Some, is_err, IfOk, OnOk, OnErr};
ghost use Rattle.oc_outside.specs.Calls.{count_after, next_call};
ghost use Rattle.oc_outside.specs.Texts.{grown};
ghost use Rattle.oc_outside.specs.MemConsole.{no_texts, called, out_failed, err_failed, fails_next, refuses_out, refuses_err};

use crate::calls::{is_due, next_call, risen};
use crate::console::Console;
use crate::failed::Failed;
use crate::page::{Page, raise_both};
use oc_base::NoMemory;
use std::alloc::Global;
use std::marker::Model;

/// The two standard streams in memory, for tests: each text may grow to its room, and calls can be
/// set to fail.
///
/// The rooms are reserved by `room`, so that the calls of the trait take no memory. They are
/// numbered together from 1 on. The number stops at 2^64 - 1: the call that reaches it and every
/// later one fail.
#[derive(Debug, Drop)]
pub struct MemConsole {
    out: Page,
    err: Page,
    calls: u64,
    failing: Vec<u64>,
    out_faults: u64,
    err_faults: u64,
}

impl Model for MemConsole {
    ghost use Rattle.oc_outside.specs.MemConsole.{ConsoleState};

    ghost Value = { ConsoleState };

    ghost view = { λ c. record {
      shown = c.out.bytes;
      told = c.err.bytes;
      out_room = c.out.room;
      err_room = c.err.room;
      calls = c.calls;
      failing = c.failing.items;
      out_faults = c.out_faults;
      err_faults = c.err_faults;
    } };
}

impl MemConsole {
    /// Two empty texts without room, and all counts 0. Takes no memory.
    pub fn new(alloc: Global) -> MemConsole
        ensures { result ≡ no_texts }
    {
        MemConsole {
            out: Page::new(alloc),
            err: Page::new(alloc),
            calls: 0,
            failing: Vec::new(alloc),
            out_faults: 0,
            err_faults: 0,
        }
    }

    /// The rooms of standard output and standard error are raised to `out` and `err` bytes, each
    /// where it is lower.
    ///
    /// Linear in the lengths of the two texts. After an error neither room is raised.
    pub fn room(&mut self, out: u64, err: u64) -> Result<(), NoMemory>
        ensures ok { OnOk result
            (self.new
            ≡ record self.old {
              out_room = max self.old.out_room out;
              err_room = max self.old.err_room err;
            }) }
        ensures err { OnErr result (self.new ≡ self.old) }
    {
        raise_both(&mut self.out, &mut self.err, (out, err))
    }

    /// The call of the trait with the number `call`, counted from 1, is set to fail.
    pub fn fail_at(&mut self, call: u64) -> Result<(), NoMemory>
        ensures ok { OnOk result (self.new ≡ record self.old { failing = self.old.failing ++ call ∷ [] }) }
        ensures err { OnErr result (self.new ≡ self.old) }
    {
        self.failing.push(call)?;
        Ok(())
    }

    /// What standard output was given. Takes no memory.
    pub fn shown(&self) -> &[u8]
        ensures { result.now ≡ self.now.shown }
    {
        self.out.as_slice()
    }

    /// What standard error was given. Takes no memory.
    pub fn told(&self) -> &[u8]
        ensures { result.now ≡ self.now.told }
    {
        self.err.as_slice()
    }

    /// Counts one more call of the trait, and gives whether it is to fail.
    fn begin(&mut self) -> bool
        ensures due { result ≡ fails_next self.old }
        ensures call { self.new ≡ called self.old }
    {
        self.calls = next_call(self.calls);
        is_due(self.calls, self.failing.as_slice())
    }
}

impl Console for MemConsole {
    ghost shown = { λ c. Some c.shown };

    ghost told = { λ c. Some c.told };

    ghost out_faults = { λ c. c.out_faults };

    ghost err_faults = { λ c. c.err_faults };

    /// Appends the whole piece to standard output.
    ///
    /// Failed comes exactly where the call is set to fail or has the last number, or the piece
    /// would pass the room of standard output. Then nothing was appended, and the count of `out`
    /// rises. Linear in the length of the piece.
    #[tactic(auto, unfolding(crate::specs::Texts::grown))]
    fn out(&mut self, piece: &[u8]) -> Result<usize, Failed>
        requires { 0 < length piece.now }
        ensures fails { is_err result ≡ refuses_out self.old (length piece.now) }
        ensures whole { IfOk result (λ n. n ≡ length piece.now) }
        ensures ok { OnOk result
            (self.new ≡ record (called self.old) { shown = self.old.shown ++ piece.now }) }
        ensures err { OnErr result (self.new ≡ out_failed self.old) }
        ensures grows { IfOk result (λ n.
            Some self.new.shown ≡ grown (take n piece.now) (Some self.old.shown)) }
        ensures count { self.new.out_faults
            ≡ count_after (refuses_out self.old (length piece.now))
            (next_call self.old.calls) self.old.out_faults }
        ensures counts { self.old.out_faults ≤ self.new.out_faults }
        ensures steady { OnOk result (self.new.out_faults ≡ self.old.out_faults) }
    {
        if self.begin() || self.out.append(piece).is_err() {
            self.out_faults = risen(self.calls, self.out_faults);
            return Err(Failed);
        }
        Ok(piece.len())
    }

    /// Appends the whole piece to standard error.
    ///
    /// Failed comes exactly where the call is set to fail or has the last number, or the piece
    /// would pass the room of standard error. Then nothing was appended, and the count of `err`
    /// rises. Linear in the length of the piece.
    #[tactic(auto, unfolding(crate::specs::Texts::grown))]
    fn err(&mut self, piece: &[u8]) -> Result<usize, Failed>
        requires { 0 < length piece.now }
        ensures fails { is_err result ≡ refuses_err self.old (length piece.now) }
        ensures whole { IfOk result (λ n. n ≡ length piece.now) }
        ensures ok { OnOk result
            (self.new ≡ record (called self.old) { told = self.old.told ++ piece.now }) }
        ensures err { OnErr result (self.new ≡ err_failed self.old) }
        ensures grows { IfOk result (λ n.
            Some self.new.told ≡ grown (take n piece.now) (Some self.old.told)) }
        ensures count { self.new.err_faults
            ≡ count_after (refuses_err self.old (length piece.now))
            (next_call self.old.calls) self.old.err_faults }
        ensures counts { self.old.err_faults ≤ self.new.err_faults }
        ensures steady { OnOk result (self.new.err_faults ≡ self.old.err_faults) }
    {
        if self.begin() || self.err.append(piece).is_err() {
            self.err_faults = risen(self.calls, self.err_faults);
            return Err(Failed);
        }
        Ok(piece.len())
    }
}
