ghost use Rattle.std.specs.Prelude.{◌≡◌, ℕ, ◌+◌, ◌-◌, ◌^◌, ◌<◌, ◌≤◌, List, Option, length, take, IfOk, OnOk, OnErr};
ghost use Rattle.oc_outside.specs.Causes.{Rose};
ghost use Rattle.oc_outside.specs.Texts.{grown, LeavesOther};

use crate::failed::Failed;

/// The two texts that a program writes: standard output and standard error.
///
/// Contracts may see what was written, as for texts in memory, or not, as for real streams. Failed
/// calls are counted, one count for each text. No count falls, a call leaves the other call's text
/// and count, and one that succeeds leaves both counts. A count that is at its last value,
/// 2^64 - 1, counts as rising as well.
pub trait Console {
    /// What standard output was given so far, where contracts see it.
    ghost shown: { Self → Option (List ℕ) };

    /// What standard error was given so far, where contracts see it.
    ghost told: { Self → Option (List ℕ) };

    /// How many calls of `out` failed.
    ghost out_faults: { Self → ℕ };

    /// How many calls of `err` failed.
    ghost err_faults: { Self → ℕ };

    /// Writes a prefix of `piece` to standard output, and gives the number of bytes taken, which is
    /// at least 1.
    ///
    /// After Failed nothing was written, and the count of `out` rose.
    fn out(&mut self, piece: &[u8]) -> Result<usize, Failed>
        requires { 0 < length piece.now }
        ensures taken { IfOk result (λ n. (0 < n) × (n ≤ length piece.now)) }
        ensures ok { IfOk result (λ n. shown self.new ≡ grown (take n piece.now) (shown self.old)) }
        ensures err { OnErr result (shown self.new ≡ shown self.old) }
        ensures counts { out_faults self.old ≤ out_faults self.new }
        ensures steady { OnOk result (out_faults self.new ≡ out_faults self.old) }
        ensures cause { OnErr result (Rose (out_faults self.old) (out_faults self.new)) }
        ensures other { LeavesOther (told self.old) (told self.new)
            (err_faults self.old) (err_faults self.new) };

    /// Writes a prefix of `piece` to standard error, and gives the number of bytes taken, which is
    /// at least 1.
    ///
    /// After Failed nothing was written, and the count of `err` rose.
    fn err(&mut self, piece: &[u8]) -> Result<usize, Failed>
        requires { 0 < length piece.now }
        ensures taken { IfOk result (λ n. (0 < n) × (n ≤ length piece.now)) }
        ensures ok { IfOk result (λ n. told self.new ≡ grown (take n piece.now) (told self.old)) }
        ensures err { OnErr result (told self.new ≡ told self.old) }
        ensures counts { err_faults self.old ≤ err_faults self.new }
        ensures steady { OnOk result (err_faults self.new ≡ err_faults self.old) }
        ensures cause { OnErr result (Rose (err_faults self.old) (err_faults self.new)) }
        ensures other { LeavesOther (shown self.old) (shown self.new)
            (out_faults self.old) (out_faults self.new) };
}
