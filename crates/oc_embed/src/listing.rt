//! A listing in memory.
ghost use Rattle.std.specs.Prelude.{◌≡◌, ◌≤◌, length, IfErr, IfOk, List, ℕ};
ghost use Rattle.oc_embed.specs.Listings.{IsListed, IsUnlisted, SaysListing};
ghost use Rattle.oc_embed.specs.Rooms.{Answers};

use crate::refusal::{Refusal, tell_refusal};
use crate::room::{Left, give};
use oc_base::{Bytes, MOST_INPUT, Stop};
use oc_dispatch::ReadsAny;
use oc_dump::symbol_lines;
use oc_neutral::Keep;
use oc_runs::too_long;
use std::alloc::Global;

/// Nothing is kept that may be left out.
const NONE: Keep = Keep {
    debug: false,
    exceptions: false,
    notes: false,
};

// the lines of the symbols of the input
fn lines<R: ReadsAny>(alloc: Global, reader: &R, input: &[u8]) -> Result<Bytes, Refusal>
    ensures listed { IfOk result (IsListed input.now) }
    ensures refused { IfErr result (IsUnlisted input.now) }
{
    if input.len() as u64 > MOST_INPUT {
        return Err(Refusal::Input(too_long()));
    }
    let neutral = match reader.read(alloc, input, &NONE) {
        Ok(neutral) => neutral,
        Err(Stop::Refused(fault)) => return Err(Refusal::Input(fault)),
        Err(Stop::NoMemory) => return Err(Refusal::NoMemory),
    };
    match symbol_lines(alloc, &neutral) {
        Ok(lines) => Ok(lines),
        Err(_) => Err(Refusal::NoMemory),
    }
}

/// Lists the symbols of the object file `input`, read by `reader`, into the rooms of the caller, and answers the
/// status and the sizes.
///
/// What a room holds behind what is laid into its start stays.
/// - 0: `output` begins with the lines that `objconv -ds` shows; there is no text.
/// - 1, 2, 8: the input has a first refusal; `text` begins with its message, as the program's without its name and
///   its newline. 7: memory ran out, which `text` says.
/// - 11: what there is to say, of a status that is not told, has no room, and both rooms stay. The sizes are those
///   that it has.
///
/// There is no other status. Takes the time of reading and listing, and memory for the object and the lines.
pub fn list_by<R: ReadsAny>(
    alloc: Global,
    reader: &R,
    input: &[u8],
    output: &mut [u8],
    text: &mut [u8],
) -> Left
    ensures { Answers (SaysListing input.now) output.old text.old result output.new text.new }
{
    match lines(alloc, reader, input) {
        Ok(lines) => give(lines.as_slice(), output),
        Err(refusal) => tell_refusal(alloc, refusal, text),
    }
}
