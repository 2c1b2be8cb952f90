//! The two streams of a console as sinks, for the loop over pieces.
ghost use Rattle.std.specs.Prelude.{◌≡◌, Some};
ghost use Rattle.oc_outside.specs.Held.{beside_stream};

use crate::console::Console;
use crate::failed::Failed;
use crate::sink::Sink;

/// Standard output as a sink. Beside it lie standard error and its count.
pub struct OutSink<'c, C: Console> {
    console: &'c mut C,
}

impl<'c, C: Console> OutSink<'c, C> {
    /// The sink at the end of what standard output was given.
    pub fn new(console: &'c mut C) -> OutSink<'c, C>
        ensures same_reference { result.console.ghost_name ≡ console.entry.ghost_name }
        ensures console { result.console.now ≡ console.old }
    {
        OutSink { console }
    }
}

impl<C: Console> Sink for OutSink<'_, C> {
    ghost taken = { λ s. C.shown s.console.now };

    ghost faults = { λ s. C.out_faults s.console.now };

    ghost beside = { λ s. beside_stream (C.told s.console.now) (C.err_faults s.console.now) };

    ghost borrow = { λ s. Some s.console.ghost_name };

    fn put(&mut self, piece: &[u8]) -> Result<usize, Failed> {
        self.console.out(piece)
    }
}

impl<C: Console> Drop for OutSink<'_, C> {
    fn drop(self)
        ensures { self.exit.0.now ≡ self.entry.console.now }
    {
        let OutSink { console: _ } = self;
    }
}

/// Standard error as a sink. Beside it lie standard output and its count.
pub struct ErrSink<'c, C: Console> {
    console: &'c mut C,
}

impl<'c, C: Console> ErrSink<'c, C> {
    /// The sink at the end of what standard error was given.
    pub fn new(console: &'c mut C) -> ErrSink<'c, C>
        ensures same_reference { result.console.ghost_name ≡ console.entry.ghost_name }
        ensures console { result.console.now ≡ console.old }
    {
        ErrSink { console }
    }
}

impl<C: Console> Sink for ErrSink<'_, C> {
    ghost taken = { λ s. C.told s.console.now };

    ghost faults = { λ s. C.err_faults s.console.now };

    ghost beside = { λ s. beside_stream (C.shown s.console.now) (C.out_faults s.console.now) };

    ghost borrow = { λ s. Some s.console.ghost_name };

    fn put(&mut self, piece: &[u8]) -> Result<usize, Failed> {
        self.console.err(piece)
    }
}

impl<C: Console> Drop for ErrSink<'_, C> {
    fn drop(self)
        ensures { self.exit.0.now ≡ self.entry.console.now }
    {
        let ErrSink { console: _ } = self;
    }
}
