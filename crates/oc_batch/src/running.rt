//! The jobs of a list, run in order.
ghost use Rattle.std.specs.Prelude.{◌≡◌, ℕ, ◌+◌, ◌-◌, ◌^◌, ◌<◌, ◌≤◌, nat_eq, if◌then◌else◌, IfOk, OnErr};
ghost use Rattle.oc_runs.specs.States.{state_of};
ghost use Rattle.oc_batch.specs.Runs as runs;

use crate::job::RunsJob;
use crate::job_line::job_line;
use oc_outside::{Console, Failed, Files, show_all};
use oc_words::Words;
use std::alloc::Global;

// runs one job, shows its line, and gives its status; Failed where the line was not shown whole
fn run_one<R: RunsJob, F: Files, C: Console>(
    alloc: Global,
    runner: &R,
    number: u64,
    job: &Words,
    files: &mut F,
    console: &mut C,
) -> Result<u8, Failed>
    ensures ran { IfOk result (λ status. runs.HasRunOne number job.now
        (state_of F.held F.read_faults F.write_faults C.shown C.told C.out_faults C.err_faults files.old console.old) status
        (state_of F.held F.read_faults F.write_faults C.shown C.told C.out_faults C.err_faults files.new console.new)) }
    ensures cut { OnErr result (runs.HasCutOne number job.now
        (state_of F.held F.read_faults F.write_faults C.shown C.told C.out_faults C.err_faults files.old console.old)
        (state_of F.held F.read_faults F.write_faults C.shown C.told C.out_faults C.err_faults files.new console.new)) }
{
    let status = runner.run_job(alloc, job, files, console);
    let line = job_line(number, status);
    show_all(console, line.as_slice())?;
    Ok(status)
}

// the status of a batch, by that of the jobs so far and that of one more
fn with_status(so_far: u8, status: u8) -> u8
    ensures { result ≡ (if nat_eq status 0 then so_far else 10) }
{
    if status == 0 { so_far } else { 10 }
}

/// Runs the jobs in order, each as the command does by itself on the files that the one before left,
/// and shows the line of each once it is done.
///
/// - 0: all ran, each with status 0. 10: all ran, and one had another status.
/// - 6: standard output took a prefix of the line of a job, and then failed; no later job ran.
///
/// Takes the memory of one job at a time, and none between them.
pub(crate) fn run_jobs<R: RunsJob, F: Files, C: Console>(
    alloc: Global,
    runner: &R,
    jobs: &[Words],
    files: &mut F,
    console: &mut C,
) -> u8
    ensures { runs.AreRun jobs.now
        (state_of F.held F.read_faults F.write_faults C.shown C.told C.out_faults C.err_faults files.old console.old) result
        (state_of F.held F.read_faults F.write_faults C.shown C.told C.out_faults C.err_faults files.new console.new) }
{
    let mut answer = 0;
    for (index, job) in jobs.iter().enumerate() {
        let status = match run_one(alloc, runner, index as u64 + 1, job, files, console) {
            Ok(status) => status,
            Err(Failed) => return 6,
        };
        answer = with_status(answer, status);
    }
    answer
}
