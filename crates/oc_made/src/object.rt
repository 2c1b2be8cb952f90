//! The object.
ghost use Rattle.std.specs.Prelude.{◌≡◌, ◌≤◌, IfOk};
ghost use Rattle.oc_made.specs.Functions as functions;
ghost use Rattle.oc_made.specs.Functions.{made_object};

use crate::calls::calls_of;
use crate::code::text_section;
use crate::symbols::symbols_of;
use oc_base::{Format, NoMemory, Word};
use oc_neutral::{Neutral, Relocs};
use std::alloc::Global;

// ELF for a word
fn elf_format(word: Word) -> Format
    ensures { result ≡ functions.elf_format word }
{
    match word {
        Word::W32 => Format::Elf32,
        Word::W64 => Format::Elf64,
    }
}

/// The object of `count` functions, at most 100,000, with the names and tags of ELF.
///
/// Function i is the Global `f_i`. It has 16 bytes, from 16i on in the one section `.text`, and calls
/// two symbols: the function (5i + 1) mod `count`, and `x_k` outside, where k is i mod 10.
///
/// `NoMemory` where memory ran out; there is no other refusal. Linear in the functions.
#[tactic(auto, unfolding(crate::specs::Functions::made_object))]
pub fn made(alloc: Global, count: u32, word: Word) -> Result<Neutral, NoMemory>
    requires { count ≤ 100000 }
    ensures { IfOk result (λ neutral. neutral ≡ made_object count word) }
{
    let mut sections = Vec::new(alloc);
    sections.push(text_section(alloc, count)?)?;
    let symbols = symbols_of(alloc, count)?;
    let calls = calls_of(alloc, word, count)?;
    Ok(Neutral::new(
        elf_format(word),
        Vec::new(alloc),
        sections,
        symbols,
        Relocs::of(calls),
    ))
}
