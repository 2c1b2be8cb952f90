//! One run of the command.
ghost use Rattle.oc_runs.specs.States.{state_of};
ghost use Rattle.oc_lister.specs.Runs.{IsList};

use oc_dispatch::AnyReader;
use oc_lister::run_list_by;
use oc_outside::{Console, Files};
use oc_words::Words;
use std::alloc::Global;

/// Lists an object file of any format, as `words` ask, over these files and this console, and
/// returns the status.
///
/// `-dh IN` shows the format of IN and how many sections, symbols, relocations and bytes it has,
/// `-dn IN` its sections, a line each, and `-dr IN` its relocations, each with its residue where
/// all sections lie at 0. The format is that of the first bytes; debug sections, exception sections
/// and notes are listed too.
/// - 0: the listing was shown whole, and nothing was reported. 6: standard output took a prefix of
///   it, and then failed.
/// - 1, 2, 8: IN has a first refusal, which is malformed, refused or a limit; its message was
///   reported.
/// - 3: the words are none of these three commands; that was reported, and nothing was read.
/// - 4: a read failed, or IN is not held. 7: memory ran out, before anything was shown, or IN or its
///   listing is above a ceiling of `oc_weight`.
///
/// There is no other status, and a call of a device that fails ends the run; where reporting a text
/// fails, the status stays. No file is changed, and with every status but 0 and 6 nothing is shown.
/// Takes memory for IN, for the object with a copy of its contents and names, and for the text.
pub fn run_list<F: Files, C: Console>(
    alloc: Global,
    words: &Words,
    files: &mut F,
    console: &mut C,
) -> u8
    ensures { IsList words.now
        (state_of F.held F.read_faults F.write_faults C.shown C.told C.out_faults C.err_faults files.old console.old) result
        (state_of F.held F.read_faults F.write_faults C.shown C.told C.out_faults C.err_faults files.new console.new) }
{
    run_list_by(alloc, &AnyReader, words, files, console)
}
