//! What a reader of a format promises.
ghost use Rattle.std.specs.Prelude.{◌≡◌, ◌≤◌, length, None, IfErr, IfOk, OnOk};
ghost use Rattle.oc_base.specs.declared.limits.TheConstants.{MOST_INPUT};
ghost use Rattle.oc_base.specs.Stops.{IsStop};
ghost use Rattle.oc_neutral.specs.Dialects.{Dialect, IsDialect};
ghost use Rattle.oc_shows.specs.Readable.{IsReadable};
ghost use Rattle.oc_shows.specs.Shows.{Shows};

use oc_base::Stop;
use oc_linking::Keep;
use oc_neutral::Neutral;
use std::alloc::Global;

/// A reader of a format.
pub trait Reads {
    /// The format.
    ghost dialect: { Dialect };

    /// The object of a file of at most 67,108,864 bytes. It has all carried sections and symbols,
    /// and relocations in the sections that are kept.
    ///
    /// Refused exactly where the file has a fault when it is read under `keep`, with the first one;
    /// `NoMemory` where memory ran out, or where the file asks for more than the reader takes of any file
    /// (its own page says from which size on).
    fn read(&self, alloc: Global, bytes: &[u8], keep: &Keep) -> Result<Neutral, Stop>
        requires { length bytes.now ≤ MOST_INPUT }
        ensures well_formed { OnOk result (dialect.rules.fault bytes.now keep.now ≡ None) }
        ensures shows { IfOk result (Shows dialect bytes.now keep.now) }
        ensures readable { IfOk result IsReadable }
        ensures fault { IfErr result (IsStop (dialect.rules.fault bytes.now keep.now)) };

    /// The dialect says the same of words and alignments as its format.
    ghost law: { IsDialect dialect };
}
