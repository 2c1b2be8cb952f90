//! What a writer of a format promises.
ghost use Rattle.std.specs.Prelude.{◌≡◌, ℕ, ◌+◌, ◌-◌, ◌^◌, ◌<◌, ◌≤◌, List, length, IfOk, OnOk, OnErr};
ghost use Rattle.oc_outside.specs.Causes.{Rose};
ghost use Rattle.oc_outside.specs.Texts.{grown, TakesPrefix};
ghost use Rattle.oc_outside.specs.Windows.{IsFilled};
ghost use Rattle.oc_neutral.specs.Dialects.{Dialect, IsDialect};
ghost use Rattle.oc_neutral.specs.Objects.{Object};
ghost use Rattle.oc_target.specs.Targets.{WritesCanonical};

use crate::fitted::Fitted;
use oc_base::NoMemory;
use oc_outside::{Failed, PIECE, Sink, put_all};
use std::alloc::Global;

/// A planned file, of which any window can be given, though it may not be held. No call takes memory.
pub trait Emits {
    /// The file.
    ghost file: { Self → List ℕ };

    /// Its length in bytes.
    fn len(&self) -> u64
        ensures { result ≡ length (file self.now) };

    /// Puts the bytes from `at` on, an offset in the file, into the start of `to`, as many as both
    /// have, and gives their number; none from the end of the file on. The rest of `to` stays.
    fn window(&self, at: u64, to: &mut [u8]) -> usize
        ensures { IsFilled (file self.now) at to.old to.new result };

    /// Puts the file to a sink, in pieces of `PIECE` bytes, the last one shorter. It holds one
    /// piece.
    ///
    /// After Failed the sink took some prefix of the file, and its count rose; else that count
    /// stays.
    fn emit<S: Sink>(&self, sink: &mut S) -> Result<(), Failed>
        ensures ok { OnOk result (S.taken sink.new ≡ grown (file self.now) (S.taken sink.old)) }
        ensures err { OnErr result (TakesPrefix (file self.now) (S.taken sink.old) (S.taken sink.new)) }
        ensures counts { S.faults sink.old ≤ S.faults sink.new }
        ensures steady { OnOk result (S.faults sink.new ≡ S.faults sink.old) }
        ensures cause { OnErr result (Rose (S.faults sink.old) (S.faults sink.new)) }
        ensures beside { S.beside sink.new ≡ S.beside sink.old }
        ensures borrow { S.borrow sink.new ≡ S.borrow sink.old }
    {
        let mut piece = [0; PIECE];
        let len = self.len();
        let mut at = 0;
        'pieces: while at < len {
            let count = self.window(at, &mut piece);
            put_all(sink, &piece[..count])?;
            at += count as u64;
        }
        Ok(())
    }
}

/// A writer of a format.
pub trait Writes {
    /// The planned file.
    type Plan: Emits;

    /// The format.
    ghost dialect: { Dialect };

    /// The one file that is written for an object.
    ghost canonical: { Object → List ℕ };

    /// The plan of the file of an object that is ready to be written in the format. `NoMemory` where
    /// memory ran out.
    fn plan(&self, alloc: Global, fitted: Fitted) -> Result<Self::Plan, NoMemory>
        requires { fitted.format ≡ dialect.format }
        ensures { IfOk result (λ plan. Self.Plan.file plan ≡ canonical fitted) };

    /// The dialect has the words and alignments of its format, and the file of each object that is
    /// ready for the format is well formed, and shows what a reader of the format shows of the
    /// object.
    ghost law: { WritesCanonical dialect canonical };
}
