//! One run of the command.
ghost use Rattle.std.specs.Prelude.{◌≡◌, ℕ, ◌+◌, ◌-◌, ◌^◌};
ghost use Rattle.oc_runs.specs.Ends.{IsEnd};
ghost use Rattle.oc_runs.specs.States.{state_of};
ghost use Rattle.oc_linker.specs.Runs.{IsLinkRun, IsLinking, IsStatus};

use crate::linking::text_of_files;
use crate::message::bad_words;
use crate::report::report_link;
use oc_dispatch::ReadsAny;
use oc_outside::{Console, Files, show_all};
use oc_runs::tell;
use oc_words::Words;
use std::alloc::Global;

// links the object of a file at the placement of another
fn link_files<R: ReadsAny, F: Files, C: Console>(
    alloc: Global,
    reader: &R,
    object: &str,
    placement: &str,
    files: &mut F,
    console: &mut C,
) -> u8
    ensures link { IsLinking object.now placement.now
        (state_of F.held F.read_faults F.write_faults C.shown C.told C.out_faults C.err_faults files.old console.old) result
        (state_of F.held F.read_faults F.write_faults C.shown C.told C.out_faults C.err_faults files.new console.new) }
    ensures end { IsEnd IsStatus
        (state_of F.held F.read_faults F.write_faults C.shown C.told C.out_faults C.err_faults files.old console.old) result
        (state_of F.held F.read_faults F.write_faults C.shown C.told C.out_faults C.err_faults files.new console.new) }
    ensures same { F.held files.new ≡ F.held files.old }
    ensures writes { F.write_faults files.new ≡ F.write_faults files.old }
{
    let text = match text_of_files(alloc, reader, files, object, placement) {
        Ok(text) => text,
        Err(fault) => return report_link(alloc, console, fault),
    };
    match show_all(console, text.as_slice()) {
        Ok(()) => 0,
        Err(_) => 6,
    }
}

/// Links the object of a file at the placement of another, over these files and this console, and
/// returns the status of the run. The words are the two names, OBJECT and PLACEMENT.
///
/// The object is read by `reader`, with all kept, and judged before the placement is opened. What
/// is shown is the text of linking it by the rules of its format: its bytes and exports, or the
/// first overflow.
/// - 0: the text was shown whole. 6: standard output took a prefix of it, and then failed.
/// - 1, 2, 8: the object has a first refusal, which is malformed, refused or a limit. 9: it has
///   none, and the placement is at fault, or has more than 67,108,864 bytes.
/// - 3: the words are not two. 4: a read failed, or a file that is to be read is not held.
///   7: memory ran out, or the object or the text is above a ceiling of `oc_weight`.
///
/// There is no other status. With all but 0 and 6 nothing was shown, and the cause was reported;
/// where reporting it fails, the status stays. Where no call fails, only lack of memory comes in
/// place of the status of the first cause, and never of 3. No file is changed. Takes memory for the
/// two files, the object and the text.
pub fn run_link_by<R: ReadsAny, F: Files, C: Console>(
    alloc: Global,
    reader: &R,
    words: &Words,
    files: &mut F,
    console: &mut C,
) -> u8
    ensures { IsLinkRun words.now
        (state_of F.held F.read_faults F.write_faults C.shown C.told C.out_faults C.err_faults files.old console.old) result
        (state_of F.held F.read_faults F.write_faults C.shown C.told C.out_faults C.err_faults files.new console.new) }
{
    let count = words.count();
    if count != 2 {
        return tell(console, bad_words().as_bytes(), 3);
    }
    link_files(alloc, reader, words.word(0), words.word(1), files, console)
}
