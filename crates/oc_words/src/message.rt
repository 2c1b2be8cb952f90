//! The text for words that are no job.
ghost use Rattle.std.specs.Prelude.{◌≡◌, IfOk};
ghost use Rattle.oc_words.specs.Messages.{word_code_text, word_message_of};

use crate::fault::WordCode;
use oc_base::{Bytes, NoMemory};
use std::alloc::Global;

// the name of what is wrong
fn name_of(code: WordCode) -> &'static str
    ensures { result.now ≡ word_code_text code }
{
    match code {
        WordCode::UnknownOption => "UnknownOption",
        WordCode::SecondTarget => "SecondTarget",
        WordCode::BadPair => "BadPair",
        WordCode::Conflict => "Conflict",
        WordCode::ExtraName => "ExtraName",
        WordCode::SameFile => "SameFile",
        WordCode::BadNumber => "BadNumber",
        WordCode::BadTarget => "BadTarget",
        WordCode::MissingTarget => "MissingTarget",
        WordCode::MissingName => "MissingName",
    }
}

/// The message for a word at fault: `objconv: word INDEX: CODE` and a newline, with the index in
/// decimal. Takes memory for the text alone.
#[tactic(auto, unfolding(crate::specs::Messages::word_message_of))]
pub fn word_message(alloc: Global, index: u32, code: WordCode) -> Result<Bytes, NoMemory>
    ensures { IfOk result (λ text. text ≡ word_message_of index code) }
{
    let name = name_of(code);
    let text = format!(in alloc; "objconv: word {index}: {name}\n")?;
    Ok(Bytes::from_vec(text.into_bytes()))
}
