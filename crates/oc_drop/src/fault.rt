//! The faults of an edit.
ghost use Rattle.std.specs.Prelude.{◌≡◌, None, IfErr, OnOk};
ghost use Rattle.oc_base.specs.Stops.{IsStop};
ghost use Rattle.oc_drop.specs.Steps as steps;

use oc_base::{Code, Fault, Phase, Spot, Stop};

/// Nothing where there is no fault, and else the fault as a refusal. Constant time, no memory.
pub fn unless(fault: Option<Fault>) -> Result<(), Stop>
    ensures clean { OnOk result (fault ≡ None) }
    ensures refused { IfErr result (IsStop fault) }
{
    match fault {
        Some(fault) => Err(Stop::Refused(fault)),
        None => Ok(()),
    }
}

/// A fault of the Edit phase. Constant time, no memory.
pub fn edit_fault(code: Code, index: u32, place: u64) -> Fault
    ensures { result ≡ steps.edit_fault code index place }
{
    let spot = Spot {
        phase: Phase::Edit,
        index,
        place,
    };
    spot.fault(code)
}
