ghost use Rattle.std.specs.Prelude.{◌≡◌, ℕ, ◌+◌, ◌-◌, ◌^◌, ◌<◌, ◌≤◌, ◌⊎◌, List, Option, None, length, take, IfOk, OnOk, OnErr, IsSome, IsSomeAnd};
ghost use Rattle.std.specs.Option.{option_map, ForSome};
ghost use Rattle.oc_outside.specs.Held.{Held, file_of, emptied, extended};
ghost use Rattle.oc_outside.specs.Causes.{Rose, Counts};
ghost use Rattle.oc_outside.specs.Reading.{Reads, IsAbsent};

use crate::failed::Failed;

/// Files by name, of which a program reads parts, which it creates and to which it appends.
///
/// Contracts may see what the files hold, as for files in memory, or not, as for those of an
/// operating system. Failed calls are counted, reading and writing apart. No count falls, a call
/// leaves the count that is not its own, and one that succeeds leaves both. A count that is at its
/// last value, 2^64 - 1, counts as rising as well.
pub trait Files {
    /// What each file holds, by its name, where contracts see it.
    ghost held: { Self → Option Held };

    /// How many calls of `read_at` failed.
    ghost read_faults: { Self → ℕ };

    /// How many calls of `create` and `append` failed.
    ghost write_faults: { Self → ℕ };

    /// Reads from the file `name`, from its byte `at` on, into the start of `to`, and gives the
    /// number of bytes read.
    ///
    /// No more than `to` has room for. Ok(0) into a buffer that is not empty is the end of the
    /// file. What `to` holds past the bytes read is not specified. Failed is returned only where
    /// the count of reads rose, or where contracts see the files and `name` is not among them.
    fn read_at(&mut self, name: &str, at: u64, to: &mut [u8]) -> Result<usize, Failed>
        ensures bound { IfOk result (λ n. n ≤ length to.new) }
        ensures bytes { ForSome (held self.old) (λ m.
            IfOk result (λ n. IsSomeAnd (file_of name.now m) (λ file. Reads file at to.new n))) }
        ensures same { held self.new ≡ held self.old }
        ensures counts { Counts (read_faults self.old) (read_faults self.new)
            (write_faults self.old) (write_faults self.new) }
        ensures steady { OnOk result (read_faults self.new ≡ read_faults self.old) }
        ensures cause { OnErr result
            (Rose (read_faults self.old) (read_faults self.new) ⊎ IsAbsent name.now (held self.old)) };

    /// Makes the file `name` there and empty, whether it was there or not. All others stay.
    ///
    /// After Failed the file is as it was, or empty, and the count of writes rose.
    fn create(&mut self, name: &str) -> Result<(), Failed>
        ensures ok { OnOk result (held self.new ≡ option_map (emptied name.now) (held self.old)) }
        ensures err { OnErr result
            ((held self.new ≡ held self.old) ⊎ (held self.new ≡ option_map (emptied name.now) (held self.old))) }
        ensures counts { Counts (write_faults self.old) (write_faults self.new)
            (read_faults self.old) (read_faults self.new) }
        ensures steady { OnOk result (write_faults self.new ≡ write_faults self.old) }
        ensures cause { OnErr result (Rose (write_faults self.old) (write_faults self.new)) };

    /// Appends a prefix of `piece` to the file `name`, and gives the number of bytes taken, which
    /// is at least 1.
    ///
    /// All other files stay. After Failed nothing was appended, and the count of writes rose.
    fn append(&mut self, name: &str, piece: &[u8]) -> Result<usize, Failed>
        requires some { 0 < length piece.now }
        requires there { ForSome (held self.old) (λ m. IsSome (file_of name.now m)) }
        ensures taken { IfOk result (λ n. (0 < n) × (n ≤ length piece.now)) }
        ensures ok { IfOk result (λ n. held self.new ≡ option_map (extended name.now (take n piece.now)) (held self.old)) }
        ensures err { OnErr result (held self.new ≡ held self.old) }
        ensures counts { Counts (write_faults self.old) (write_faults self.new)
            (read_faults self.old) (read_faults self.new) }
        ensures steady { OnOk result (write_faults self.new ≡ write_faults self.old) }
        ensures cause { OnErr result (Rose (write_faults self.old) (write_faults self.new)) };
}
