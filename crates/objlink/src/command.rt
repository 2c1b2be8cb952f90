//! One run of the command.
ghost use Rattle.std.specs.Prelude.{◌+◌, ◌-◌, ◌^◌};
ghost use Rattle.oc_linker.specs.Runs.{IsLinkRun};
ghost use Rattle.oc_runs.specs.States.{state_of};

use oc_dispatch::AnyReader;
use oc_linker::run_link_by;
use oc_outside::{Console, Files};
use oc_words::Words;
use std::alloc::Global;

/// Links the object file OBJECT where the text PLACEMENT places it, over these files and this
/// console, and returns the status of the run. The words are the two names.
///
/// The object may be of any format. It is read with all its sections, and judged before PLACEMENT
/// is opened. What is shown is what linking it by the rules of its format gives: its bytes and
/// exports, or the first overflow.
/// - 0: the text was shown whole. 6: standard output took a prefix of it, and then failed.
/// - 1, 2, 8: OBJECT has a first refusal, which is malformed, refused or a limit; its message was
///   reported.
/// - 3: the words are not two. 4: a read failed, or a file that is to be read is not held.
/// - 9: PLACEMENT is at fault, or has more than 67,108,864 bytes; it was reported where. 7: memory
///   ran out, or the object or the text is above a ceiling of `oc_weight`.
///
/// There is no other status. With all but 0 and 6 nothing was shown; where reporting the cause
/// fails, the status stays. No file is changed. Takes memory for the two files, the object and the
/// text.
pub fn run_link<F: Files, C: Console>(
    alloc: Global,
    words: &Words,
    files: &mut F,
    console: &mut C,
) -> u8
    ensures { IsLinkRun words.now
        (state_of F.held F.read_faults F.write_faults C.shown C.told C.out_faults C.err_faults files.old console.old) result
        (state_of F.held F.read_faults F.write_faults C.shown C.told C.out_faults C.err_faults files.new console.new) }
{
    run_link_by(alloc, &AnyReader, words, files, console)
}
