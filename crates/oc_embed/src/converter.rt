//! Converting any file, as a trait: what is proved over it needs no reader's and no writer's proofs.
ghost use Rattle.std.specs.Prelude.{◌≡◌, ◌≤◌, length, None, IfErr, IfOk, OnOk};
ghost use Rattle.oc_base.specs.declared.limits.TheConstants.{MOST_INPUT};
ghost use Rattle.oc_base.specs.Stops.{IsStop};
ghost use Rattle.oc_convert.specs.Dispatched.{IsDispatched, dispatch_refusal};
ghost use Rattle.oc_built.specs.Built.{built};

use oc_base::{Format, Stop};
use oc_names::Edits;
use oc_target::Emits;
use std::alloc::Global;

/// What converts a file of any format.
pub trait ConvertsAny {
    /// The planned file.
    type Plan: Emits + Drop;

    /// The plan of the file in the format `to` of a file of at most 67,108,864 bytes, as `dispatch` gives it.
    fn plan(
        &self,
        alloc: Global,
        to: Format,
        bytes: &[u8],
        edits: &Edits,
    ) -> Result<Self::Plan, Stop>
        requires { length bytes.now ≤ MOST_INPUT }
        ensures accepted { OnOk result (dispatch_refusal built edits.now to bytes.now ≡ None) }
        ensures refused { IfErr result (IsStop (dispatch_refusal built edits.now to bytes.now)) }
        ensures dispatched { IfOk result (λ plan. IsDispatched built edits.now to bytes.now (Self.Plan.file plan)) };
}
