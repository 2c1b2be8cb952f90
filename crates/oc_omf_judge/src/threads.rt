//! Threads, and what frames and targets have by them.
ghost use Rattle.std.specs.Prelude.{◌≡◌, ◌<◌, Ok, OnOk, IfErr};
ghost use Rattle.oc_omf.specs.declared.structures.Subrecord.TheVariants as subrecord;
ghost use Rattle.oc_omf_judge.specs.Threads.{method_by};
ghost use Rattle.oc_omf_judge.specs.Reached as specs;
ghost use Rattle.oc_omf_judge.specs.declared.whole.Whole.{Whole};

use crate::counts::is_there;
use crate::reached::Reached;
use crate::section_stage::EntryPlace;
use oc_base::{Code, Fault, Phase, Stop};
use oc_omf::{Datum, Method, Thread, Threads};

/// A fault of what lies at a place in an entry. Constant time.
pub(crate) fn relocation_fault(here: EntryPlace, code: Code) -> Fault
    ensures { result ≡ specs.relocation_fault (here.index, here.place) code }
{
    Fault {
        phase: Phase::Relocation,
        index: here.index,
        code,
        place: here.place,
    }
}

/// The method of a frame, or else of a target: its own, or that of its thread, if that is in force.
/// Constant time.
pub fn method_of(threads: &Threads, frame: bool, datum: Datum) -> Option<Method>
    ensures { result ≡ method_by threads.now frame datum }
{
    match datum {
        Datum::Explicit(method) => Some(method),
        Datum::Thread(number) => threads.get(frame, number),
    }
}

/// Judges a thread, and records it. Stops exactly where it has a fault. Constant time.
pub(crate) fn take_thread(
    reached: &mut Reached<'_>,
    here: EntryPlace,
    thread: Thread,
) -> Result<(), Stop>
    requires { thread.number < 4 }
    ensures taken { OnOk result ((w : Whole) → specs.IsPartTaken w reached.old (here.index, here.place) (Ok (subrecord.Thread thread)) reached.new) }
    ensures stop { IfErr result (λ s. (w : Whole) → specs.IsPartStopped w reached.old (here.index, here.place) (Ok (subrecord.Thread thread)) s) }
{
    if !is_there(reached.counts, thread.method) {
        return Err(Stop::Refused(relocation_fault(here, Code::BadTarget)));
    }
    reached.threads.take_up(thread);
    Ok(())
}
