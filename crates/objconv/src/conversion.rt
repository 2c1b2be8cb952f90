//! A conversion of a file to another.
ghost use Rattle.std.specs.Prelude.{◌≡◌, ◌+◌, ◌-◌, ◌^◌, ◌<◌, ◌≤◌, Err, IfOk, IfErr};
ghost use Rattle.oc_outside.specs.Causes.{Counts};
ghost use Rattle.objconv.specs.Conversions as conversions;
ghost use Rattle.objconv.specs.Refusals.{conversion_refusal};
ghost use Rattle.oc_runs.specs.Reports as reports;
ghost use Rattle.objconv.specs.Runs.{IsEnd};
ghost use Rattle.oc_runs.specs.States.{state_of};

use crate::writing::write_output;
use oc_base::{Format, Stop};
use oc_dispatch::{AnyPlan, dispatch};
use oc_names::Edits;
use oc_outside::{Console, Files};
use oc_runs::{InputFault, output_words, read_input, report, tell};
use oc_target::Emits;
use std::alloc::Global;

// reads and converts the input
fn plan_conversion<F: Files>(
    alloc: Global,
    files: &mut F,
    to: Format,
    edits: &Edits,
    input: &str,
) -> Result<AnyPlan, InputFault>
    ensures planned { IfOk result (λ plan. conversions.IsOutput to edits.now input.now (F.held files.old) (⟦<AnyPlan as Emits>⟧.file plan)) }
    ensures fault { IfErr result (reports.Explains (conversion_refusal edits.now to) input.now (F.held files.old)
        (F.read_faults files.old) (F.read_faults files.new)) }
    ensures same { F.held files.new ≡ F.held files.old }
    ensures counts { Counts (F.read_faults files.old) (F.read_faults files.new)
        (F.write_faults files.old) (F.write_faults files.new) }
    ensures failed { F.read_faults files.old < F.read_faults files.new → result ≡ Err InputFault.Unread }
{
    let bytes = match read_input(alloc, files, input) {
        Ok(bytes) => bytes,
        Err(fault) => return Err(fault),
    };
    match dispatch(alloc, to, bytes.as_slice(), edits) {
        Ok(plan) => Ok(plan),
        Err(Stop::Refused(fault)) => Err(InputFault::Refused(fault)),
        Err(Stop::NoMemory) => Err(InputFault::NoMemory),
    }
}

/// Converts the file `input` to the file `output` in the format `to`, and answers the status of the
/// run. The output is created only once its plan is made.
pub fn convert_file<F: Files, C: Console>(
    alloc: Global,
    files: &mut F,
    console: &mut C,
    to: Format,
    edits: &Edits,
    input: &str,
    output: &str,
) -> u8
    ensures job { conversions.IsConversion to edits.now input.now output.now
        (state_of F.held F.read_faults F.write_faults C.shown C.told C.out_faults C.err_faults files.old console.old) result
        (state_of F.held F.read_faults F.write_faults C.shown C.told C.out_faults C.err_faults files.new console.new) }
    ensures end { IsEnd
        (state_of F.held F.read_faults F.write_faults C.shown C.told C.out_faults C.err_faults files.old console.old) result
        (state_of F.held F.read_faults F.write_faults C.shown C.told C.out_faults C.err_faults files.new console.new) }
{
    let plan = match plan_conversion(alloc, files, to, edits, input) {
        Ok(plan) => plan,
        Err(fault) => return report(alloc, console, fault),
    };
    match write_output(files, output, plan) {
        Ok(()) => 0,
        Err(_) => tell(console, output_words().as_bytes(), 5),
    }
}
