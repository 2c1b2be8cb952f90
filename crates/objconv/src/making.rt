//! An object that is made.
ghost use Rattle.std.specs.Prelude.{◌≡◌, ◌+◌, ◌-◌, ◌^◌, ◌<◌, ◌≤◌, false, length, IfOk};
ghost use Rattle.oc_base.specs.Formats.{word_for};
ghost use Rattle.oc_neutral.specs.Families.{is_many};
ghost use Rattle.objconv.specs.Making as making;
ghost use Rattle.objconv.specs.Runs.{IsEnd};
ghost use Rattle.oc_runs.specs.States.{state_of};

use crate::writing::write_output;
use oc_base::{Bytes, Format, NoMemory, Stop, word_of};
use oc_dispatch::{AnyPlan, dispatch};
use oc_made::made_file;
use oc_names::Edits;
use oc_outside::{Console, Files, show_all};
use oc_runs::{output_words, report_memory, tell};
use oc_target::Emits;
use std::alloc::Global;

/// What is written and shown of an object that is made.
#[derive(Drop)]
struct Made<P> {
    plan: P,
    summary: Bytes,
}

// the line that says how much was made
#[tactic(auto, unfolding(crate::specs::Making::summary_of))]
fn summary(alloc: Global, count: u32, size: u64) -> Result<Bytes, NoMemory>
    requires { count ≤ 100000 }
    ensures { IfOk result (λ text. text ≡ making.summary_of count size) }
{
    let relocs = 2 * count;
    let text = format!(in alloc; "made {count} functions, {relocs} relocations, {size} bytes\n")?;
    Ok(Bytes::from_vec(text.into_bytes()))
}

// the plan, with the line that says how much was made
fn summed<P: Emits + Drop>(alloc: Global, count: u32, plan: P) -> Result<Made<P>, NoMemory>
    requires { count ≤ 100000 }
    ensures plan { IfOk result (λ made. made.plan ≡ plan) }
    ensures summary { IfOk result (λ made. made.summary ≡ making.summary_of count (length (P.file plan))) }
{
    let summary = summary(alloc, count, plan.len())?;
    Ok(Made { plan, summary })
}

// the plan of the object of so many functions as a file in the format `to`, which no format refuses but
// ELF for many sections
fn plan_made(alloc: Global, count: u32, to: Format) -> Result<AnyPlan, NoMemory>
    requires few { count ≤ 100000 }
    requires plain { is_many to ≡ false }
    ensures { IfOk result (λ plan. making.IsMadeOutput count to (⟦<AnyPlan as Emits>⟧.file plan)) }
{
    let bytes = made_file(alloc, count, word_of(to))?;
    let edits = Edits::new(alloc);
    match dispatch(alloc, to, bytes.as_slice(), &edits) {
        Ok(plan) => Ok(plan),
        Err(Stop::NoMemory) => Err(NoMemory),
        Err(Stop::Refused(_)) => unreachable!(),
    }
}

// the same, with the line that says how much was made
fn prepared(alloc: Global, count: u32, to: Format) -> Result<Made<AnyPlan>, NoMemory>
    requires few { count ≤ 100000 }
    requires plain { is_many to ≡ false }
    ensures planned { IfOk result (λ made. making.IsMadeOutput count to (⟦<AnyPlan as Emits>⟧.file made.plan)) }
    ensures summary { IfOk result (λ made. made.summary ≡ making.summary_of count (length (⟦<AnyPlan as Emits>⟧.file made.plan))) }
{
    let plan = plan_made(alloc, count, to)?;
    summed(alloc, count, plan)
}

/// Makes the object of `count` functions in the file `output` in the format `to`, shows how much was
/// made, and answers the status of the run. `to` is not ELF for many sections, of which the object has
/// too few. The output is created only once its plan and the line to be shown are made; the line is
/// shown only once the output is whole.
pub fn make_file<F: Files, C: Console>(
    alloc: Global,
    files: &mut F,
    console: &mut C,
    count: u32,
    to: Format,
    output: &str,
) -> u8
    requires few { count ≤ 100000 }
    requires plain { is_many to ≡ false }
    ensures job { making.IsMaking count to output.now
        (state_of F.held F.read_faults F.write_faults C.shown C.told C.out_faults C.err_faults files.old console.old) result
        (state_of F.held F.read_faults F.write_faults C.shown C.told C.out_faults C.err_faults files.new console.new) }
    ensures end { IsEnd
        (state_of F.held F.read_faults F.write_faults C.shown C.told C.out_faults C.err_faults files.old console.old) result
        (state_of F.held F.read_faults F.write_faults C.shown C.told C.out_faults C.err_faults files.new console.new) }
{
    let Made { plan, summary } = match prepared(alloc, count, to) {
        Ok(made) => made,
        Err(NoMemory) => return report_memory(console),
    };
    match write_output(files, output, plan) {
        Ok(()) => match show_all(console, summary.as_slice()) {
            Ok(()) => 0,
            Err(_) => 6,
        },
        Err(_) => tell(console, output_words().as_bytes(), 5),
    }
}
