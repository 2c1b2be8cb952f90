//! One run of a batch.
ghost use Rattle.std.specs.Prelude.{◌≡◌, ◌+◌, ◌-◌, ◌^◌};
ghost use Rattle.oc_runs.specs.States.{state_of};
ghost use Rattle.oc_batch.specs.Batches.{IsBatch};

use crate::fault::report_list;
use crate::job::RunsJob;
use crate::reading::read_list;
use crate::running::run_jobs;
use crate::texts::bad_words;
use oc_outside::{Console, Files};
use oc_runs::tell;
use oc_words::Words;
use std::alloc::Global;

/// Runs the jobs of the list that the one word names, over these files and this console, and
/// returns its status. `runner` runs each job.
///
/// The list is UTF-8 text. Each line that has a word is a job for the command `objconv`: blanks
/// separate its words, and a newline ends it. The jobs are run in order, each as if alone on the
/// files that the one before left, whatever their statuses are. After each the line `job I: S` is
/// shown, with its number, counted from 1, and its status. The list is read once, and the words of
/// all jobs are made before the first one runs.
/// - 0: all jobs ran, each with status 0. 10: all ran, and one had another status.
/// - 3: there is not exactly one word. 4: a read of the list failed, or it is not held. 8: it has
///   more than 67,108,864 bytes. 9: it is not UTF-8. 7: memory ran out before a job began. With
///   these no job is run, no file is changed, nothing was shown, and the cause was reported.
/// - 6: standard output took a prefix of a job's line, and then failed; no later job was run.
///
/// There is no other status. Where reporting a text fails, the status stays. Takes memory for the
/// list and the words of its jobs, and for one job at a time.
pub fn run_batch_by<R: RunsJob, F: Files, C: Console>(
    alloc: Global,
    runner: &R,
    words: &Words,
    files: &mut F,
    console: &mut C,
) -> u8
    ensures { IsBatch words.now
        (state_of F.held F.read_faults F.write_faults C.shown C.told C.out_faults C.err_faults files.old console.old) result
        (state_of F.held F.read_faults F.write_faults C.shown C.told C.out_faults C.err_faults files.new console.new) }
{
    if words.count() != 1 {
        return tell(console, bad_words().as_bytes(), 3);
    }
    match read_list(alloc, files, words.word(0)) {
        Ok(jobs) => run_jobs(alloc, runner, jobs.as_slice(), files, console),
        Err(fault) => report_list(alloc, console, fault),
    }
}
