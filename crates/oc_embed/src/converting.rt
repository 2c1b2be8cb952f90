//! A conversion in memory.
ghost use Rattle.std.specs.Prelude.{◌≡◌, ◌≤◌, length, IfErr, IfOk, List, ℕ};
ghost use Rattle.oc_embed.specs.Conversions.{IsConverted, IsUnconverted, SaysConversion};
ghost use Rattle.oc_embed.specs.Rooms.{Answers};

use crate::converter::ConvertsAny;
use crate::refusal::{Refusal, tell_refusal};
use crate::room::{Left, give_plan};
use crate::words::asked;
use oc_base::{MOST_INPUT, Stop};
use oc_runs::too_long;
use std::alloc::Global;

// the plan of what the words ask for of the input
fn planned<C: ConvertsAny>(
    alloc: Global,
    converter: &C,
    input: &[u8],
    words: &[u8],
) -> Result<C::Plan, Refusal>
    ensures planned { IfOk result (λ plan. IsConverted words.now input.now (C.Plan.file plan)) }
    ensures refused { IfErr result (IsUnconverted words.now input.now) }
{
    let wanted = asked(alloc, words)?;
    if input.len() as u64 > MOST_INPUT {
        return Err(Refusal::Input(too_long()));
    }
    match converter.plan(alloc, wanted.to, input, &wanted.edits) {
        Ok(plan) => Ok(plan),
        Err(Stop::Refused(fault)) => Err(Refusal::Input(fault)),
        Err(Stop::NoMemory) => Err(Refusal::NoMemory),
    }
}

/// Converts the object file `input` as `words` ask, into the rooms of the caller, and answers the status and the
/// sizes.
///
/// `words` are those of the command `objconv` before IN and OUT, each ended by a NUL, which the last may lack:
/// `-fTARGET` and options. What a room holds behind what is laid into its start stays.
/// - 0: `output` begins with the converted object, which links as the edited input does; there is no text.
/// - 1, 2, 8: the input has a first refusal, which is malformed, refused or a limit; `text` begins with its
///   message, as the program's without its name and its newline. 3: a word is at fault, and `text` names the first
///   one, or the words are not UTF-8. 7: memory ran out, which `text` says; also for words of more than 64 MiB.
/// - 11: what there is to say, of a status that is not told, has no room, and both rooms stay. The sizes are those
///   that it has.
///
/// There is no other status. Takes the time and memory of a run of the program, but none for the input and the
/// output; the sizes cost a conversion too.
pub fn convert_by<C: ConvertsAny>(
    alloc: Global,
    converter: &C,
    input: &[u8],
    words: &[u8],
    output: &mut [u8],
    text: &mut [u8],
) -> Left
    ensures { Answers (SaysConversion words.now input.now) output.old text.old result output.new text.new }
{
    match planned(alloc, converter, input, words) {
        Ok(plan) => give_plan(plan, output),
        Err(refusal) => tell_refusal(alloc, refusal, text),
    }
}
