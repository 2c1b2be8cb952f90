//! Numbers as lines show them, digit by digit: no formatter is made for any of them.
ghost use Rattle.std.specs.Prelude.{◌≡◌, ◌+◌, ◌-◌, ◌*◌, ◌/◌, ◌%◌, ◌^◌, ◌<◌, ◌≤◌, ◌++◌, ◌∷◌, [], false, OnOk, string_bytes};
ghost use Rattle.std.specs.Fmt.{decimal, digit_glyph};
ghost use Rattle.oc_dump.specs.Lines.{digit_count, hex};
ghost use Rattle.oc_linking.specs.Numbers.{modulus};
ghost use Rattle.oc_listings.specs.Digits.{last_digits};
ghost use Rattle.oc_listings.specs.Texts.{number_text};

use itoa::Buffer;
use oc_base::{NoMemory, Word};

/// Puts a number after the text, in decimal. Constant time.
pub(crate) fn put_decimal(out: &mut String, x: u32) -> Result<(), NoMemory>
    ensures { OnOk result (string_bytes out.new ≡ string_bytes out.old ++ decimal x) }
{
    let mut buffer = Buffer::new();
    out.push_str(buffer.format(x))?;
    Ok(())
}

/// Puts a number after the text, in decimal, and a blank after it. Constant time.
pub(crate) fn put_number(out: &mut String, x: u32) -> Result<(), NoMemory>
    ensures { OnOk result (string_bytes out.new ≡ string_bytes out.old ++ number_text x) }
{
    put_decimal(out, x)?;
    out.push_str(" ")?;
    Ok(())
}

// puts a digit of base 16 after the text
fn put_digit(out: &mut String, digit: u8) -> Result<(), NoMemory>
    requires { digit < 16 }
    ensures { OnOk result (string_bytes out.new ≡ string_bytes out.old ++ digit_glyph false digit ∷ []) }
{
    let glyph = if digit < 10 {
        b'0' + digit
    } else {
        b'a' + (digit - 10)
    };
    out.push(char::from(glyph))?;
    Ok(())
}

// puts the last digits of a number after the text
fn put_digits(out: &mut String, count: u32, x: u64) -> Result<(), NoMemory>
    requires { count ≤ 16 }
    ensures { OnOk result (string_bytes out.new ≡ string_bytes out.old ++ last_digits count x) }
{
    for done in 0..count {
        let shift = 4 * (count - 1 - done);
        put_digit(out, ((x >> shift) % 16) as u8)?;
    }
    Ok(())
}

/// Puts a residue of a word after the text, in hexadecimal: 8 digits, or 16 where words have 64 bits, with
/// zeros first. Constant time.
pub(crate) fn put_residue(out: &mut String, word: Word, x: u64) -> Result<(), NoMemory>
    requires { x < modulus word }
    ensures { OnOk result (string_bytes out.new ≡ string_bytes out.old ++ hex (digit_count word) x) }
{
    match word {
        Word::W32 => put_digits(out, 8, x),
        Word::W64 => put_digits(out, 16, x),
    }
}
