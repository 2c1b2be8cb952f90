//! The words of a conversion, which a caller gives as one block.
ghost use Rattle.std.specs.Prelude.{◌≡◌, ◌+◌, ◌-◌, ◌^◌, ◌<◌, ◌≤◌, length, List, ℕ, IfErr, IfOk};
ghost use Rattle.oc_base.specs.declared.limits.TheConstants.{MOST_INPUT};
ghost use Rattle.oc_embed.specs.Words as specs;
ghost use Rattle.oc_embed.specs.Conversions as conversions;

use crate::refusal::Refusal;
use oc_base::{Format, MOST_INPUT, NoMemory};
use oc_names::Edits;
use oc_words::{Job, WordFault, Words, read_words};
use std::alloc::Global;

/// What the words of a conversion ask for.
#[derive(Debug, Drop)]
pub(crate) struct Wanted {
    /// The format of the output.
    pub(crate) to: Format,
    /// The edits of symbols, and the choices.
    pub(crate) edits: Edits,
}

// the block without the NUL that ends its last word
fn unended(block: &[u8]) -> &[u8]
    ensures { result.now ≡ specs.unended block.now }
{
    match block.last() {
        Some(0) => &block[..block.len() - 1],
        _ => block,
    }
}

// the words of a text, which NULs part
fn pieces(alloc: Global, text: &str) -> Result<Words, NoMemory>
    requires { length text.now ≤ MOST_INPUT }
    ensures { IfOk result (λ found. found ≡ specs.pieces text.now) }
{
    let mut words = Words::new(alloc);
    for word in text.split('\0') {
        words.push(word)?;
    }
    Ok(words)
}

// the words of a block whose text without its last NUL is given
fn words_of(alloc: Global, block: &[u8], text: &str) -> Result<Words, NoMemory>
    requires size { length block.now ≤ MOST_INPUT }
    requires text { text.now ≡ specs.unended block.now }
    ensures { IfOk result (λ found. found ≡ specs.words_in block.now) }
{
    if block.is_empty() {
        return Ok(Words::new(alloc));
    }
    pieces(alloc, text)
}

// the words of the command: those of the block, IN and OUT
#[tactic(auto, unfolding(crate::specs::Words::command))]
fn command(alloc: Global, block: &[u8], text: &str) -> Result<Words, NoMemory>
    requires size { length block.now ≤ MOST_INPUT }
    requires text { text.now ≡ specs.unended block.now }
    ensures { IfOk result (λ found. found ≡ specs.command block.now) }
{
    let mut words = words_of(alloc, block, text)?;
    words.push("IN")?;
    words.push("OUT")?;
    Ok(words)
}

// what the words of the command ask for
fn job(alloc: Global, words: &Words) -> Result<Wanted, Refusal>
    requires { (block : List ℕ) × (words.now ≡ specs.command block) }
    ensures asked { IfOk result (λ wanted. conversions.IsConversion words.now wanted.to wanted.edits) }
    ensures refused { IfErr result (conversions.IsNoConversion words.now) }
{
    match read_words(alloc, words) {
        Ok(Job::Convert { to, edits, .. }) => Ok(Wanted { to, edits }),
        Ok(Job::Symbols { .. }) => unreachable!(),
        Ok(Job::Make { .. }) => unreachable!(),
        Err(WordFault::Bad { index, code }) => Err(Refusal::Word { index, code }),
        Err(WordFault::NoMemory) => Err(Refusal::NoMemory),
    }
}

/// What the words of a block ask for, of a conversion from IN to OUT, which are no words of the block.
///
/// `NotText` exactly where the block is not UTF-8, `Word` exactly where the words, with IN and OUT after them, are
/// at fault. `NoMemory` where memory ran out, and for a block of more than 67,108,864 bytes. Linear in the block, of
/// which it makes copies.
pub(crate) fn asked(alloc: Global, block: &[u8]) -> Result<Wanted, Refusal>
    ensures asked { IfOk result (λ wanted. conversions.Asks block.now wanted.to wanted.edits) }
    ensures refused { IfErr result (conversions.IsMisasked block.now) }
{
    if block.len() as u64 > MOST_INPUT {
        return Err(Refusal::NoMemory);
    }
    let Ok(text) = str::from_utf8(unended(block)) else {
        return Err(Refusal::NotText);
    };
    let words = command(alloc, block, text)?;
    job(alloc, &words)
}
