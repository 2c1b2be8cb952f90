//! Bytes in hexadecimal, as lines.
ghost use Rattle.std.specs.Prelude.{◌≡◌, ◌++◌, ◌^◌, ◌<◌, ◌≤◌, false, length, OnOk, string_bytes};
ghost use Rattle.std.specs.Fmt.{digit_glyph};
ghost use Rattle.oc_dump.specs.Lines.{hex};
ghost use Rattle.oc_link.specs.Texts as texts;

use oc_base::NoMemory;

/// The digits of half a byte. A formatter takes four times as long.
const DIGITS: [char; 16] = [
    '0', '1', '2', '3', '4', '5', '6', '7', '8', '9', 'a', 'b', 'c', 'd', 'e', 'f',
];

// the digit of half a byte
fn digit(half: u8) -> char
    requires { half < 16 }
    ensures digit { result ≡ digit_glyph false half }
    ensures ascii { result < 128 }
{
    DIGITS[usize::from(half)]
}

// puts the two digits of a byte
#[tactic(auto, using(crate::proofs::HexLemmas::two_digits))]
fn put_digits(out: &mut String, byte: u8) -> Result<(), NoMemory>
    ensures { OnOk result (string_bytes out.new ≡ string_bytes out.old ++ hex 2 byte) }
{
    let (high, low) = (byte / 16, byte % 16);
    out.push(digit(high))?;
    out.push(digit(low))?;
    Ok(())
}

// puts what comes after byte i of so many
fn put_mark(out: &mut String, count: usize, i: usize) -> Result<(), NoMemory>
    requires { i < 2 ^ 32 }
    ensures { OnOk result (string_bytes out.new ≡ string_bytes out.old ++ texts.mark count i) }
{
    if i + 1 == count || (i + 1) % 16 == 0 {
        out.push_str("\n")?;
    } else {
        out.push_str(" ")?;
    }
    Ok(())
}

// puts byte i of so many, and what comes after it
fn put_byte(out: &mut String, count: usize, i: usize, byte: u8) -> Result<(), NoMemory>
    requires { i < 2 ^ 32 }
    ensures { OnOk result (string_bytes out.new ≡ string_bytes out.old ++ texts.byte_text count (i, byte)) }
{
    put_digits(out, byte)?;
    put_mark(out, count, i)?;
    Ok(())
}

/// Puts bytes, two digits each, up to sixteen in a line. Linear in the bytes.
pub(crate) fn put_bytes(out: &mut String, bytes: &[u8]) -> Result<(), NoMemory>
    requires { length bytes.now ≤ 2 ^ 32 }
    ensures { OnOk result (string_bytes out.new ≡ string_bytes out.old ++ texts.bytes_text bytes.now) }
{
    for (i, byte) in bytes.iter().enumerate() {
        put_byte(out, bytes.len(), i, *byte)?;
    }
    Ok(())
}
