//! One run of the command.
ghost use Rattle.std.specs.Prelude.{◌≡◌, ◌+◌, ◌-◌, ◌^◌, ◌<◌, ◌≤◌, length, Err, IfOk, IfErr, None, OnOk};
ghost use Rattle.oc_base.specs.declared.limits.TheConstants.{MOST_INPUT};
ghost use Rattle.oc_base.specs.Stops.{IsStop};
ghost use Rattle.oc_outside.specs.Causes.{Counts};
ghost use Rattle.oc_linking.specs.Keeping.{all};
ghost use Rattle.oc_convert.specs.Dispatched.{reading_refusal};
ghost use Rattle.oc_built.specs.Built.{IsRead, built};
ghost use Rattle.oc_runs.specs.Reports as reports;
ghost use Rattle.oc_runs.specs.States.{state_of};
ghost use Rattle.oc_lister.specs.Runs as runs;

use crate::words::asked;
use oc_base::{Bytes, Stop};
use oc_dispatch::ReadsAny;
use oc_linking::Keep;
use oc_listings::{Listing, listings_agree, object_text};
use oc_outside::{Console, Files, show_all};
use oc_runs::{InputFault, read_input, report, tell};
use oc_words::Words;
use std::alloc::Global;

/// All is kept.
const ALL: Keep = Keep {
    debug: true,
    exceptions: true,
    notes: true,
};

// the text for words that ask for no listing
#[tactic(auto, unfolding(crate::specs::Runs::words_text))]
fn bad_words() -> &'static str
    ensures { result.now ≡ runs.words_text }
{
    "objlist: words: BadWords\n"
}

// the listing of a file of these bytes
fn text_of<R: ReadsAny>(
    alloc: Global,
    reader: &R,
    bytes: &[u8],
    listing: Listing,
) -> Result<Bytes, Stop>
    requires { length bytes.now ≤ MOST_INPUT }
    ensures accepted { OnOk result (reading_refusal built all bytes.now ≡ None) }
    ensures listed { IfOk result (runs.IsListed listing bytes.now) }
    ensures refused { IfErr result (IsStop (reading_refusal built all bytes.now)) }
{
    listings_agree();
    let neutral = match reader.read(alloc, bytes, &ALL) {
        Ok(neutral) => neutral,
        Err(fault) => return Err(fault),
    };
    neutral.is_object();
    match object_text(alloc, &neutral, bytes.len() as u64, listing) {
        Ok(text) => Ok(text),
        Err(_) => Err(Stop::NoMemory),
    }
}

// reads the input and lists it
fn lines_of<R: ReadsAny, F: Files>(
    alloc: Global,
    reader: &R,
    files: &mut F,
    input: &str,
    listing: Listing,
) -> Result<Bytes, InputFault>
    ensures listing { IfOk result (runs.IsListing listing input.now (F.held files.old)) }
    ensures fault { IfErr result (reports.Explains runs.list_refusal input.now (F.held files.old)
        (F.read_faults files.old) (F.read_faults files.new)) }
    ensures same { F.held files.new ≡ F.held files.old }
    ensures counts { Counts (F.read_faults files.old) (F.read_faults files.new)
        (F.write_faults files.old) (F.write_faults files.new) }
    ensures failed { F.read_faults files.old < F.read_faults files.new → result ≡ Err InputFault.Unread }
{
    let bytes = match read_input(alloc, files, input) {
        Ok(bytes) => bytes,
        Err(fault) => return Err(fault),
    };
    match text_of(alloc, reader, bytes.as_slice(), listing) {
        Ok(text) => Ok(text),
        Err(Stop::Refused(fault)) => Err(InputFault::Refused(fault)),
        Err(Stop::NoMemory) => Err(InputFault::NoMemory),
    }
}

// shows a listing of the file `input`, and answers the status of the run
fn list_input<R: ReadsAny, F: Files, C: Console>(
    alloc: Global,
    reader: &R,
    files: &mut F,
    console: &mut C,
    input: &str,
    listing: Listing,
) -> u8
    ensures listing { runs.ListsInput listing input.now
        (state_of F.held F.read_faults F.write_faults C.shown C.told C.out_faults C.err_faults files.old console.old) result
        (state_of F.held F.read_faults F.write_faults C.shown C.told C.out_faults C.err_faults files.new console.new) }
    ensures end { runs.IsEnd
        (state_of F.held F.read_faults F.write_faults C.shown C.told C.out_faults C.err_faults files.old console.old) result
        (state_of F.held F.read_faults F.write_faults C.shown C.told C.out_faults C.err_faults files.new console.new) }
{
    let lines = match lines_of(alloc, reader, files, input, listing) {
        Ok(lines) => lines,
        Err(fault) => return report(alloc, console, fault),
    };
    match show_all(console, lines.as_slice()) {
        Ok(()) => 0,
        Err(_) => 6,
    }
}

/// Lists an object file, read by `reader`, over these files and this console, and returns the
/// status of the run. The words are `-dh`, `-dn` or `-dr`, and the name of the file.
/// - 0: the listing was shown whole. 6: standard output took a prefix of it, and then failed.
/// - 1, 2, 8: the file has a first refusal, whose message was reported.
/// - 3: the words ask for no listing; nothing was read. 4: a read failed, or the file is not held.
///   7: memory ran out, before anything was shown, or the file or the listing is above a ceiling of
///   `oc_weight`.
///
/// No file is changed. Takes the time of reading and listing, and memory for the file, the object
/// and the text.
pub fn run_list_by<R: ReadsAny, F: Files, C: Console>(
    alloc: Global,
    reader: &R,
    words: &Words,
    files: &mut F,
    console: &mut C,
) -> u8
    ensures { runs.IsList words.now
        (state_of F.held F.read_faults F.write_faults C.shown C.told C.out_faults C.err_faults files.old console.old) result
        (state_of F.held F.read_faults F.write_faults C.shown C.told C.out_faults C.err_faults files.new console.new) }
{
    match asked(words) {
        Some((listing, input)) => list_input(alloc, reader, files, console, input, listing),
        None => tell(console, bad_words().as_bytes(), 3),
    }
}
