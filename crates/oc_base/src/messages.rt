//! The text of a refusal.
ghost use Rattle.std.specs.Prelude.{◌≡◌, IfOk};
ghost use Rattle.oc_base.specs.Messages.{message_of};

use crate::answers::NoMemory;
use crate::bytes::Bytes;
use crate::classes::class;
use crate::fault::Fault;
use crate::words::{class_word, code_name, phase_words};
use std::alloc::Global;

/// The message for a fault: `objconv: CLASS: PHASE INDEX: CODE at PLACE` and a newline, with the
/// index and the place in decimal. Takes memory for the text alone.
#[tactic(auto, unfolding(crate::specs::Messages::message_of))]
pub fn message(alloc: Global, fault: &Fault) -> Result<Bytes, NoMemory>
    ensures { IfOk result (λ text. text ≡ message_of fault.now) }
{
    let kind = class_word(class(fault.code));
    let phase = phase_words(fault.phase);
    let name = code_name(fault.code);
    let index = fault.index;
    let place = fault.place;
    let text = format!(in alloc; "objconv: {kind}: {phase} {index}: {name} at {place}\n")?;
    Ok(Bytes::from_vec(text.into_bytes()))
}
