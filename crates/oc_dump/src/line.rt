//! The line of a symbol.
ghost use Rattle.std.specs.Prelude.{◌≡◌, ◌++◌, ◌<◌, codes, length, OnOk, string_bytes};
ghost use Rattle.oc_base.specs.Formats.{word_for};
ghost use Rattle.oc_neutral.specs.Invariants.{IsBinding, IsValue};
ghost use Rattle.oc_dump.specs.Lines as lines;

use crate::shown::{put_hex, put_name};
use oc_base::{NoMemory, word_of};
use oc_linking::{Binding, Fallback, Value};
use oc_neutral::{Neutral, Symbol};

// the letter of a binding
fn letter(binding: Binding) -> &'static str
    ensures { result.now ≡ lines.letter binding }
{
    match binding {
        Binding::Local(_) => "L",
        Binding::Global(_) => "G",
        Binding::Undefined => "U",
        Binding::Common { .. } => "C",
        Binding::Weak(_) => "W",
    }
}

// an offset, or an absolute number
fn number_shown(value: Value) -> u64
    ensures { result ≡ lines.number_shown value }
{
    match value {
        Value::Place { offset, .. } => offset.into(),
        Value::Absolute(x) => x,
    }
}

// the value of a binding
fn value_shown(binding: Binding) -> u64
    ensures { result ≡ lines.value_shown binding }
{
    match binding {
        Binding::Local(value) | Binding::Global(value) => number_shown(value),
        Binding::Common { size, .. } => size,
        Binding::Weak(Fallback::Place { offset, .. }) => offset.into(),
        Binding::Undefined | Binding::Weak(Fallback::Zero | Fallback::Name(_)) => 0,
    }
}

// appends the number of the section at a position to the text
fn put_section(out: &mut String, neutral: &Neutral, section: u32) -> Result<(), NoMemory>
    requires { section < length neutral.now.sections }
    ensures { OnOk result (string_bytes out.new ≡ string_bytes out.old ++ lines.section_shown neutral.now.sections section) }
{
    let number = neutral.section(section).number;
    write!(out, "{number}")?;
    Ok(())
}

// appends the place of a value to the text
fn put_holder(out: &mut String, neutral: &Neutral, value: Value) -> Result<(), NoMemory>
    requires { IsValue neutral.now value }
    ensures { OnOk result (string_bytes out.new ≡ string_bytes out.old ++ lines.holder_shown neutral.now.sections value) }
{
    match value {
        Value::Place { section, .. } => put_section(out, neutral, section),
        Value::Absolute(_) => Ok(out.push_str("abs")?),
    }
}

// appends the place of a binding to the text
fn put_place(out: &mut String, neutral: &Neutral, binding: Binding) -> Result<(), NoMemory>
    requires { IsBinding neutral.now binding }
    ensures { OnOk result (string_bytes out.new ≡ string_bytes out.old ++ lines.place_shown neutral.now.sections binding) }
{
    match binding {
        Binding::Local(value) | Binding::Global(value) => put_holder(out, neutral, value),
        Binding::Weak(Fallback::Place { section, .. }) => put_section(out, neutral, section),
        Binding::Undefined
        | Binding::Common { .. }
        | Binding::Weak(Fallback::Zero | Fallback::Name(_)) => Ok(out.push_str("-")?),
    }
}

// appends the letter, value and section of a symbol to the text
fn put_front(out: &mut String, neutral: &Neutral, binding: Binding) -> Result<(), NoMemory>
    requires { IsBinding neutral.now binding }
    ensures { OnOk result (string_bytes out.new ≡ string_bytes out.old ++ lines.front_of (word_for neutral.now.format) neutral.now.sections binding) }
{
    out.push_str(letter(binding))?;
    out.push_str(" ")?;
    put_hex(out, word_of(neutral.format()), value_shown(binding))?;
    out.push_str(" ")?;
    put_place(out, neutral, binding)?;
    out.push_str(" ")?;
    Ok(())
}

/// Appends the line of a symbol to the text. Linear in its name.
#[tactic(auto, unfolding(crate::specs::Lines::line_of))]
pub(crate) fn put_line(out: &mut String, neutral: &Neutral, symbol: &Symbol) -> Result<(), NoMemory>
    requires { IsBinding neutral.now symbol.now.binding }
    ensures { OnOk result (string_bytes out.new ≡ string_bytes out.old ++ lines.line_of neutral.now symbol.now) }
{
    put_front(out, neutral, symbol.binding)?;
    put_name(out, symbol.name.as_slice())?;
    out.push_str("\n")?;
    Ok(())
}
