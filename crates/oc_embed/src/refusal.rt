//! Why a call gives no output, and what it tells of that.
ghost use Rattle.std.specs.Prelude.{◌≡◌, ◌+◌, ◌-◌, ◌^◌, ◌≤◌, List, ℕ, length, IfOk};
ghost use Rattle.oc_base.specs.Codes.{class_of};
ghost use Rattle.oc_runs.specs.States.{status_by};
ghost use Rattle.oc_runs.specs.Texts.{memory_text};
ghost use Rattle.oc_embed.specs.Refusals.{IsTold};
ghost use Rattle.oc_embed.specs.Rooms.{Answers, IsLeft};
ghost use Rattle.oc_embed.specs.Said as said;

use crate::room::{Left, tell};
use oc_base::{Class, Code, Fault, NoMemory, class, message};
use oc_words::{WordCode, WordFault, word_message};
use std::alloc::Global;

/// Why a call gives no output.
#[derive(Clone, Copy, Debug, PartialEq, Eq)]
pub(crate) enum Refusal {
    /// The words are not UTF-8.
    NotText,
    /// The first word at fault.
    Word {
        /// Its index among the words of the command, counted from 0.
        index: u32,
        /// What is wrong with it.
        code: WordCode,
    },
    /// The first refusal of the input.
    Input(Fault),
    /// Memory ran out.
    NoMemory,
}

impl From<NoMemory> for Refusal {
    ghost use Rattle.std.specs.Prelude.{◌≡◌};
    ghost use Rattle.oc_embed.specs.declared.refusal.Refusal.TheVariants as refusal;

    ghost from_gives = { λ _ gives. gives ≡ refusal.NoMemory };

    fn from(_: NoMemory) -> Refusal {
        Refusal::NoMemory
    }
}

// the line for lack of memory
#[tactic(auto, unfolding(oc_runs::specs::Texts::memory_text))]
fn memory_line() -> &'static str
    ensures { result.now ≡ memory_text }
{
    "objconv: out of memory\n"
}

// the line for words that are not UTF-8
#[tactic(auto, unfolding(crate::specs::Said::words_text))]
fn words_line() -> &'static str
    ensures { result.now ≡ said.words_text }
{
    "objconv: words: NotText\n"
}

// the status of a refusal
fn status_of(code: Code) -> u8
    ensures { result ≡ status_by (class_of code) }
{
    match class(code) {
        Class::Malformed => 1,
        Class::Refused => 2,
        Class::Limit => 8,
    }
}

// tells that the words are not UTF-8
#[tactic(auto, unfolding(crate::specs::Said::words_text))]
fn tell_words(text: &mut [u8]) -> Left
    ensures { (output : List ℕ) → IsLeft said.no_text output text.old result output text.new }
{
    tell(words_line().as_bytes(), 3, text)
}

// tells that memory ran out
#[tactic(auto, unfolding(oc_runs::specs::Texts::memory_text))]
fn tell_memory(text: &mut [u8]) -> Left
    ensures { (output : List ℕ) → IsLeft said.no_memory output text.old result output text.new }
{
    tell(memory_line().as_bytes(), 7, text)
}

// tells which word is at fault
#[tactic(auto, unfolding(oc_words::specs::Messages::word_message_of))]
fn tell_word(alloc: Global, index: u32, code: WordCode, text: &mut [u8]) -> Left
    ensures { (output : List ℕ) → Answers (IsTold (Refusal.Word index code)) output text.old result output text.new }
{
    match word_message(alloc, index, code) {
        Ok(line) => tell(line.as_slice(), 3, text),
        Err(_) => tell_memory(text),
    }
}

// tells the first refusal of the input
#[tactic(auto, unfolding(oc_base::specs::Messages::message_of))]
fn tell_input(alloc: Global, fault: Fault, text: &mut [u8]) -> Left
    ensures { (output : List ℕ) → Answers (IsTold (Refusal.Input fault)) output text.old result output text.new }
{
    match message(alloc, &fault) {
        Ok(line) => tell(line.as_slice(), status_of(fault.code), text),
        Err(_) => tell_memory(text),
    }
}

/// Tells why a call gives no output, in the caller's room for a text; where the text finds no memory, tells that.
/// Where a text has no room, the room stays.
pub(crate) fn tell_refusal(alloc: Global, refusal: Refusal, text: &mut [u8]) -> Left
    ensures { (output : List ℕ) → Answers (IsTold refusal) output text.old result output text.new }
{
    match refusal {
        Refusal::NotText => tell_words(text),
        Refusal::Word { index, code } => tell_word(alloc, index, code, text),
        Refusal::Input(fault) => tell_input(alloc, fault, text),
        Refusal::NoMemory => tell_memory(text),
    }
}
