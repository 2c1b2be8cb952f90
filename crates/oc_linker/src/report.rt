//! What is reported where nothing was linked, and the status of the run.
ghost use Rattle.std.specs.Prelude.{◌≡◌, ℕ, ◌≤◌, ◌+◌, ◌-◌, ◌^◌};
ghost use Rattle.oc_outside.specs.Texts.{LeavesOther};
ghost use Rattle.oc_linker.specs.Causes.{IsLinkReported};

use crate::linking::LinkFault;
use crate::message::{placement_message, too_long};
use oc_base::NoMemory;
use oc_outside::Console;
use oc_place::PlaceCode;
use oc_runs::{report, report_memory, tell};
use std::alloc::Global;

// reports what is at fault in a placement; where there is no memory for the text, the text for that
fn report_placement<C: Console>(alloc: Global, console: &mut C, line: u32, code: PlaceCode) -> u8
    ensures reported { IsLinkReported (C.told console.old) (C.told console.new)
        (C.err_faults console.old) (C.err_faults console.new) (LinkFault.Placement line code) result }
    ensures counts { C.err_faults console.old ≤ C.err_faults console.new }
    ensures other { LeavesOther (C.shown console.old) (C.shown console.new)
        (C.out_faults console.old) (C.out_faults console.new) }
{
    match placement_message(alloc, line, code) {
        Ok(text) => tell(console, text.as_slice(), 9),
        Err(NoMemory) => report_memory(console),
    }
}

/// Tells why nothing was linked, and answers the status of the run.
pub(crate) fn report_link<C: Console>(alloc: Global, console: &mut C, fault: LinkFault) -> u8
    ensures reported { IsLinkReported (C.told console.old) (C.told console.new)
        (C.err_faults console.old) (C.err_faults console.new) fault result }
    ensures counts { C.err_faults console.old ≤ C.err_faults console.new }
    ensures other { LeavesOther (C.shown console.old) (C.shown console.new)
        (C.out_faults console.old) (C.out_faults console.new) }
{
    match fault {
        LinkFault::Input(fault) => report(alloc, console, fault),
        LinkFault::TooLong => tell(console, too_long().as_bytes(), 9),
        LinkFault::Placement { line, code } => report_placement(alloc, console, line, code),
    }
}
