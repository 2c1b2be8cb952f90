//! What one word of a conversion means by itself.
ghost use Rattle.std.specs.Prelude.{◌≡◌, IfOk};
ghost use Rattle.oc_words.specs.Options as options;

use crate::fault::WordCode;
use crate::formats::format_named;
use crate::naming::headed_word;
use crate::text::behind;
use oc_base::{Format, NoMemory};
use oc_names::{Choice, Edit};
use std::alloc::Global;

/// What one word of a conversion means by itself.
#[derive(Drop)]
pub enum Argument {
    /// It is the name of a file.
    Operand,
    /// It names the target.
    Target(Format),
    /// It asks for an edit of symbols.
    Asks(Edit),
    /// It chooses what becomes of Debug sections: Strip or Keep.
    Debug(Choice),
    /// It chooses what becomes of Exception sections: Strip or Keep.
    Exceptions(Choice),
    /// It is at fault, whatever comes before it.
    Faulty(WordCode),
}

// what a fixed word means
fn fixed_word(word: &str) -> Option<Argument>
    ensures { result ≡ options.fixed_word word.now }
{
    if word == "-nu" {
        Some(Argument::Asks(Edit::Underscore))
    } else if word == "--strip-debug" {
        Some(Argument::Debug(Choice::Strip))
    } else if word == "--keep-debug" {
        Some(Argument::Debug(Choice::Keep))
    } else if word == "--strip-exceptions" {
        Some(Argument::Exceptions(Choice::Strip))
    } else if word == "--keep-exceptions" {
        Some(Argument::Exceptions(Choice::Keep))
    } else {
        None
    }
}

// the target of `-fTARGET`
fn target_word(word: &str) -> Option<Format>
    ensures { result ≡ options.target_word word.now }
{
    let name = behind("-f", word)?;
    format_named(name)
}

// whether the word begins with `-`
fn is_option(word: &str) -> bool
    ensures { result ≡ options.is_option word.now }
{
    match word.as_bytes() {
        [first, ..] => *first == b'-',
        [] => false,
    }
}

// what an option means
fn option_word(alloc: Global, word: &str) -> Result<Argument, NoMemory>
    ensures { IfOk result (λ said. said ≡ options.option_word word.now) }
{
    if let Some(said) = fixed_word(word) {
        return Ok(said);
    }
    if let Some(to) = target_word(word) {
        return Ok(Argument::Target(to));
    }
    headed_word(alloc, word)
}

/// What a word means by itself. `NoMemory` where there is no memory for its names. Linear in the
/// word.
#[tactic(auto, unfolding(crate::specs::Options::said_by))]
pub(crate) fn said_by(alloc: Global, word: &str) -> Result<Argument, NoMemory>
    ensures { IfOk result (λ said. said ≡ options.said_by word.now) }
{
    if is_option(word) {
        option_word(alloc, word)
    } else {
        Ok(Argument::Operand)
    }
}
