//! Why no job of a list was run, and what is reported of it.
ghost use Rattle.std.specs.Prelude.{◌≡◌, ℕ, ◌≤◌, ◌⊎◌};
ghost use Rattle.oc_outside.specs.Texts.{LeavesOther};
ghost use Rattle.oc_batch.specs.Faults as faults;

use crate::texts::not_text;
use oc_base::NoMemory;
use oc_outside::Console;
use oc_runs::{InputFault, report, tell, too_long};
use std::alloc::Global;

/// Why no job of a list was run.
#[derive(Clone, Copy, Debug, PartialEq, Eq)]
pub(crate) enum ListFault {
    /// The list was not read.
    Unread,
    /// It is longer than an input may be.
    TooLong,
    /// It is not UTF-8.
    NotText,
    /// Memory ran out.
    NoMemory,
}

impl From<InputFault> for ListFault {
    ghost use Rattle.std.specs.Prelude.{◌≡◌};
    ghost use Rattle.oc_batch.specs.Faults.{fault_of};

    ghost from_gives = { λ input fault. fault ≡ fault_of input };

    fn from(fault: InputFault) -> ListFault {
        match fault {
            InputFault::Refused(_) => ListFault::TooLong,
            InputFault::Unread => ListFault::Unread,
            InputFault::NoMemory => ListFault::NoMemory,
        }
    }
}

impl From<NoMemory> for ListFault {
    ghost use Rattle.std.specs.Prelude.{◌≡◌};
    ghost use Rattle.oc_batch.specs.declared.fault.ListFault.TheVariants as fault;

    ghost from_gives = { λ _ list. list ≡ fault.NoMemory };

    fn from(_: NoMemory) -> ListFault {
        ListFault::NoMemory
    }
}

/// Tells why no job of a list was run, and answers the status of the batch: where a call fails, the
/// status stays. Takes memory for the text of a list that is too long.
pub(crate) fn report_list<C: Console>(alloc: Global, console: &mut C, fault: ListFault) -> u8
    ensures told { faults.IsTold (C.told console.old) (C.told console.new)
        (C.err_faults console.old) (C.err_faults console.new) fault result }
    ensures counts { C.err_faults console.old ≤ C.err_faults console.new }
    ensures other { LeavesOther (C.shown console.old) (C.shown console.new)
        (C.out_faults console.old) (C.out_faults console.new) }
{
    match fault {
        ListFault::Unread => report(alloc, console, InputFault::Unread),
        ListFault::TooLong => report(alloc, console, InputFault::Refused(too_long())),
        ListFault::NotText => tell(console, not_text().as_bytes(), 9),
        ListFault::NoMemory => report(alloc, console, InputFault::NoMemory),
    }
}
