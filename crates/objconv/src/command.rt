//! One run of the command.
ghost use Rattle.std.specs.Prelude.{◌+◌, ◌-◌, ◌^◌};
ghost use Rattle.objconv.specs.Runs.{IsRun};
ghost use Rattle.oc_runs.specs.States.{state_of};

use crate::conversion::convert_file;
use crate::listing::list_file;
use crate::making::make_file;
use crate::report::report_word;
use oc_outside::{Console, Files};
use oc_runs::report_memory;
use oc_words::{Job, WordFault, Words, read_words};
use std::alloc::Global;

/// Runs the command that `words` give, over these files and this console, and returns its status.
///
/// `-fTARGET [options] IN OUT` converts the object file IN, edited as the options say, `-ds IN`
/// lists its symbols, and `--make=N TARGET OUT` makes an object of N functions and converts it.
/// - 0: done. A conversion's OUT holds the converted object, which links as the edited input does,
///   and nothing was shown; a listing was shown whole, and no file is changed; an object that was
///   made is in OUT, and how much was made was shown. Nothing was reported.
/// - 1, 2, 8: the input has a first refusal, which is malformed, refused or a limit; its message was
///   reported. Never where an object is made.
/// - 3: the words are no job; it was reported which word is at fault, and nothing was read.
/// - 4: a read failed, or IN is not held; never where an object is made. 5: a write failed; OUT is
///   as it was, or holds a prefix of the planned file. 6: standard output took a prefix of a
///   listing, or of how much was made, and then failed; OUT is whole where an object was made.
///   7: memory ran out, before anything was written or shown. On any machine it is also answered where the
///   names in a file weigh more than 1 GiB, a name 64 more than its bytes, where all tables of relocations
///   have more than 2^23 entries or a module of OMF more than 9,586,980 relocated fields, and where a
///   listing has more than 2^29 bytes up to the end of a name (`oc_weight`).
///
/// There is no other status, and a read or write that fails ends the run. With every status but 0
/// and 5, and 6 where an object is made, no file is changed. Where reporting a text fails, the
/// status stays. Takes memory for the input, which is also made, for the object with a copy of its
/// contents and names, and for the plan or the listing; none for the output's bytes. A run is to
/// take at most 1.5 GiB and 10 seconds on one present-day processor, and 4 GiB and 60 seconds for a
/// module of OMF with millions of symbols that have names of their own; besides that, each word
/// that edits names goes once over the symbols. No clause of the contract covers this: it is
/// measured with the worst files known (`bench/hostile`, docs/SAFETY.md).
pub fn run<F: Files, C: Console>(alloc: Global, words: &Words, files: &mut F, console: &mut C) -> u8
    ensures { IsRun words.now
        (state_of F.held F.read_faults F.write_faults C.shown C.told C.out_faults C.err_faults files.old console.old) result
        (state_of F.held F.read_faults F.write_faults C.shown C.told C.out_faults C.err_faults files.new console.new) }
{
    match read_words(alloc, words) {
        Ok(
            Job::Convert {
                to,
                edits,
                input,
                output,
            },
        ) => convert_file(
            alloc,
            files,
            console,
            to,
            &edits,
            input.as_str(),
            output.as_str(),
        ),
        Ok(Job::Symbols { input }) => list_file(alloc, files, console, input.as_str()),
        Ok(Job::Make { count, to, output }) => {
            make_file(alloc, files, console, count, to, output.as_str())
        }
        Err(WordFault::Bad { index, code }) => report_word(alloc, console, index, code),
        Err(WordFault::NoMemory) => report_memory(console),
    }
}
