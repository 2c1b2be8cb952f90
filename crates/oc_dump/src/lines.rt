//! The lines of all symbols.
ghost use Rattle.std.specs.Prelude.{◌≡◌, IfOk};
ghost use Rattle.oc_dump.specs.Lines.{symbol_lines_of};

use crate::line::put_line;
use oc_base::{Bytes, NoMemory};
use oc_neutral::Neutral;
use oc_weight::with_text;
use std::alloc::Global;

// how many bytes the names have that are shown; `NoMemory` where a text has no room for them
fn name_bytes(neutral: &Neutral) -> Result<u64, NoMemory> {
    let mut bytes = 0;
    for symbol in neutral.symbols() {
        bytes = with_text(bytes, symbol.name.as_slice().len() as u64)?;
    }
    Ok(bytes)
}

/// One line for each symbol, in their order: letter, value, section and name, with a blank between
/// them and a newline at the end.
///
/// The letter is L, G, U, C or W. The value is an offset in bytes, an absolute number, or the size
/// of a common, in lower-case hexadecimal of 8 digits, or of 16 in an object of 64 bits; it is 0
/// for U and for a W without a place. The section is its number in the input, `abs`, or `-` for U,
/// C and a W without a place. Bytes of a name that are no graphic characters of ASCII, and the
/// backslash, are shown as `\x` and two digits. Linear in the number of symbols and the bytes of
/// their names; takes memory for the text.
///
/// `NoMemory` where memory ran out, or where the names have more than 2^29 bytes, or as many come
/// before a name that is shown.
#[tactic(auto, unfolding(crate::specs::Lines::symbol_lines_of))]
pub fn symbol_lines(alloc: Global, neutral: &Neutral) -> Result<Bytes, NoMemory>
    ensures { IfOk result (λ text. text ≡ symbol_lines_of neutral.now) }
{
    let _ = name_bytes(neutral)?;
    let mut out = String::new(alloc);
    neutral.is_object();
    for index in 0..neutral.symbol_count() {
        put_line(&mut out, neutral, neutral.symbol(index))?;
    }
    Ok(Bytes::from_vec(out.into_bytes()))
}
