//! What is reported of words that are no job.
ghost use Rattle.std.specs.Prelude.{◌≡◌, ℕ, ◌≤◌, ◌⊎◌, ◌+◌, ◌-◌, ◌^◌};
ghost use Rattle.oc_outside.specs.Texts.{LeavesOther};
ghost use Rattle.oc_words.specs.Messages.{word_message_of};
ghost use Rattle.objconv.specs.Reports.{IsWordReported};

use oc_outside::Console;
use oc_runs::{report_memory, tell};
use oc_words::{WordCode, word_message};
use std::alloc::Global;

/// Reports which word is at fault, and returns 3; where there is no memory for the text, reports
/// that and returns 7.
pub fn report_word<C: Console>(alloc: Global, console: &mut C, index: u32, code: WordCode) -> u8
    ensures reported { IsWordReported (word_message_of index code) (C.told console.old) (C.told console.new)
        (C.err_faults console.old) (C.err_faults console.new) result }
    ensures counts { C.err_faults console.old ≤ C.err_faults console.new }
    ensures other { LeavesOther (C.shown console.old) (C.shown console.new)
        (C.out_faults console.old) (C.out_faults console.new) }
{
    match word_message(alloc, index, code) {
        Ok(text) => tell(console, text.as_slice(), 3),
        Err(_) => report_memory(console),
    }
}
