ghost use Rattle.std.specs.Prelude.{◌≡◌, ℕ, ◌+◌, ◌-◌, ◌^◌, ◌<◌, ◌≤◌, List, Option, length, take, IfOk, OnOk, OnErr};
ghost use Rattle.std.specs.Borrow.{GName};
ghost use Rattle.oc_outside.specs.Causes.{Rose};
ghost use Rattle.oc_outside.specs.Held.{Beside};
ghost use Rattle.oc_outside.specs.Texts.{grown};

use crate::failed::Failed;

/// Something that takes bytes in order: a file that grows, or a stream.
///
/// Contracts may or may not see what it took. Failed calls are counted: the count never falls, and
/// a call that succeeds leaves it. A count that is at its last value, 2^64 - 1, counts as rising as
/// well.
pub trait Sink {
    /// The bytes that it took so far, where contracts see them.
    ghost taken: { Self → Option (List ℕ) };

    /// How many calls of `put` failed.
    ghost faults: { Self → ℕ };

    /// What lies beside these bytes, which no `put` changes.
    ghost beside: { Self → Beside };

    /// The borrow that it holds, if any, which no `put` changes.
    ghost borrow: { Self → Option GName };

    /// Takes a prefix of `piece`, and gives the number of bytes taken, which is at least 1.
    ///
    /// After Failed nothing was taken, and the count rose.
    fn put(&mut self, piece: &[u8]) -> Result<usize, Failed>
        requires { 0 < length piece.now }
        ensures taken { IfOk result (λ n. (0 < n) × (n ≤ length piece.now)) }
        ensures ok { IfOk result (λ n. taken self.new ≡ grown (take n piece.now) (taken self.old)) }
        ensures err { OnErr result (taken self.new ≡ taken self.old) }
        ensures counts { faults self.old ≤ faults self.new }
        ensures steady { OnOk result (faults self.new ≡ faults self.old) }
        ensures cause { OnErr result (Rose (faults self.old) (faults self.new)) }
        ensures beside { beside self.new ≡ beside self.old }
        ensures borrow { borrow self.new ≡ borrow self.old };
}
