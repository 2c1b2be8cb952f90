//! Reading any file, as a trait: what is proved over it needs no reader's proofs.
ghost use Rattle.std.specs.Prelude.{◌≡◌, ◌≤◌, length, None, IfErr, IfOk, OnOk};
ghost use Rattle.oc_base.specs.declared.limits.TheConstants.{MOST_INPUT};
ghost use Rattle.oc_base.specs.Stops.{IsStop};
ghost use Rattle.oc_convert.specs.Dispatched.{reading_refusal};
ghost use Rattle.oc_built.specs.Built.{IsRead, built};

use crate::reading::read_any;
use oc_base::Stop;
use oc_neutral::{Keep, Neutral};
use std::alloc::Global;

/// What reads a file of any format.
pub trait ReadsAny {
    /// The object of a file of at most 67,108,864 bytes, as `read_any` gives it.
    fn read(&self, alloc: Global, bytes: &[u8], keep: &Keep) -> Result<Neutral, Stop>
        requires { length bytes.now ≤ MOST_INPUT }
        ensures well_formed { OnOk result (reading_refusal built keep.now bytes.now ≡ None) }
        ensures refused { IfErr result (IsStop (reading_refusal built keep.now bytes.now)) }
        ensures read { IfOk result (IsRead keep.now bytes.now) };
}

/// The readers of all formats.
pub struct AnyReader;

impl ReadsAny for AnyReader {
    fn read(&self, alloc: Global, bytes: &[u8], keep: &Keep) -> Result<Neutral, Stop> {
        read_any(alloc, bytes, keep)
    }
}
