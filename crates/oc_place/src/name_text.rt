//! Names as lines write them.
ghost use Rattle.std.specs.Prelude.{◌≡◌, ◌++◌, IfOk, OnOk};
ghost use Rattle.oc_place.specs.NameTexts as texts;

use crate::digits::hex_digit;
use oc_base::{Bytes, NoMemory};
use std::alloc::Global;

/// What comes next at a place of the text.
#[derive(Clone, Copy, Debug, PartialEq, Eq)]
pub(crate) enum Next {
    /// A byte as it is, or a backslash.
    Any,
    /// The letter after a backslash.
    Letter,
    /// The first of two digits.
    High,
    /// The second, after a first of this value.
    Low(u8),
}

/// What a byte of the text is.
#[derive(Clone, Copy, Debug, PartialEq, Eq)]
pub(crate) enum Step {
    /// A part of what is written for one byte of the name; this comes next.
    Part(Next),
    /// The end of what is written for this byte of the name.
    Whole(u8),
}

// what a byte is, by what comes next
fn step_of(next: Next, byte: u8) -> Option<Step>
    ensures { result ≡ texts.step_of next byte }
{
    match next {
        Next::Any => {
            if byte == b'\\' {
                Some(Step::Part(Next::Letter))
            } else if byte > b' ' {
                Some(Step::Whole(byte))
            } else {
                None
            }
        }
        Next::Letter => {
            if byte == b'x' {
                Some(Step::Part(Next::High))
            } else {
                None
            }
        }
        Next::High => {
            let digit = hex_digit(byte)?;
            Some(Step::Part(Next::Low(digit)))
        }
        Next::Low(high) => {
            let digit = hex_digit(byte)?;
            let number = 16 * u32::from(high) + u32::from(digit);
            Some(Step::Whole((number % 256) as u8))
        }
    }
}

// adds the byte of the name that is complete, and gives what comes next
fn add_step(name: &mut Vec<u8>, step: Step) -> Result<Next, NoMemory>
    ensures next { IfOk result (λ next. next ≡ texts.next_of step) }
    ensures name { OnOk result (name.new.items ≡ name.old.items ++ texts.byte_of step) }
{
    match step {
        Step::Part(next) => Ok(next),
        Step::Whole(byte) => {
            name.push(byte)?;
            Ok(Next::Any)
        }
    }
}

// the bytes that a text means
fn unescape(alloc: Global, text: &[u8]) -> Result<Option<Bytes>, NoMemory>
    ensures { IfOk result (λ name. name ≡ texts.name_after Next.Any text.now) }
{
    let mut name = Vec::new(alloc);
    let mut next = Next::Any;
    for byte in text {
        let Some(step) = step_of(next, *byte) else {
            return Ok(None);
        };
        next = add_step(&mut name, step)?;
    }
    match next {
        Next::Any => Ok(Some(Bytes::from_vec(name))),
        Next::Letter => Ok(None),
        Next::High => Ok(None),
        Next::Low(_) => Ok(None),
    }
}

/// The name that a text means, and `None` exactly where it means none or is empty. Linear in the
/// text, takes memory for the name.
#[tactic(auto, unfolding(crate::specs::NameTexts::name_of))]
pub(crate) fn name_of(alloc: Global, text: &[u8]) -> Result<Option<Bytes>, NoMemory>
    ensures { IfOk result (λ name. name ≡ texts.name_of text.now) }
{
    if text.is_empty() {
        return Ok(None);
    }
    unescape(alloc, text)
}
