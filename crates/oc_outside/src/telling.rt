ghost use Rattle.std.specs.Prelude.{◌≡◌, ℕ, ◌+◌, ◌-◌, ◌^◌, ◌<◌, ◌≤◌, OnOk, OnErr};
ghost use Rattle.oc_outside.specs.Causes.{Rose};
ghost use Rattle.oc_outside.specs.Texts.{grown, TakesPrefix, LeavesOther};

use crate::console::Console;
use crate::console_sinks::{ErrSink, OutSink};
use crate::failed::Failed;
use crate::writing::put_all;

/// Writes all of the text to standard error, in pieces of `PIECE` bytes, the last one shorter.
///
/// After Failed some prefix of the text was written, and the count of `err` rose. Takes no memory.
pub fn tell_all<C: Console>(console: &mut C, text: &[u8]) -> Result<(), Failed>
    ensures ok { OnOk result (C.told console.new ≡ grown text.now (C.told console.old)) }
    ensures err { OnErr result (TakesPrefix text.now (C.told console.old) (C.told console.new)) }
    ensures counts { C.err_faults console.old ≤ C.err_faults console.new }
    ensures steady { OnOk result (C.err_faults console.new ≡ C.err_faults console.old) }
    ensures cause { OnErr result (Rose (C.err_faults console.old) (C.err_faults console.new)) }
    ensures other { LeavesOther (C.shown console.old) (C.shown console.new)
        (C.out_faults console.old) (C.out_faults console.new) }
{
    put_all(&mut ErrSink::new(console), text)
}

/// Writes all of the text to standard output, in pieces of `PIECE` bytes, the last one shorter.
///
/// After Failed some prefix of the text was written, and the count of `out` rose. Takes no memory.
pub fn show_all<C: Console>(console: &mut C, text: &[u8]) -> Result<(), Failed>
    ensures ok { OnOk result (C.shown console.new ≡ grown text.now (C.shown console.old)) }
    ensures err { OnErr result (TakesPrefix text.now (C.shown console.old) (C.shown console.new)) }
    ensures counts { C.out_faults console.old ≤ C.out_faults console.new }
    ensures steady { OnOk result (C.out_faults console.new ≡ C.out_faults console.old) }
    ensures cause { OnErr result (Rose (C.out_faults console.old) (C.out_faults console.new)) }
    ensures other { LeavesOther (C.told console.old) (C.told console.new)
        (C.err_faults console.old) (C.err_faults console.new) }
{
    put_all(&mut OutSink::new(console), text)
}
