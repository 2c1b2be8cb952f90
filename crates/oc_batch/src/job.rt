//! How one job is run.
ghost use Rattle.objconv.specs.Runs.{IsRun};
ghost use Rattle.oc_runs.specs.States.{state_of};

use oc_outside::{Console, Files};
use oc_words::Words;
use std::alloc::Global;

/// What runs one job as the command `objconv` does.
pub trait RunsJob {
    /// Runs the job of these words over these files and this console, and answers its status.
    fn run_job<F: Files, C: Console>(
        &self,
        alloc: Global,
        words: &Words,
        files: &mut F,
        console: &mut C,
    ) -> u8
        ensures { IsRun words.now
            (state_of F.held F.read_faults F.write_faults C.shown C.told C.out_faults C.err_faults files.old console.old) result
            (state_of F.held F.read_faults F.write_faults C.shown C.told C.out_faults C.err_faults files.new console.new) };
}
