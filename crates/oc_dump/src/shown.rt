//! Numbers and names, as lines show them.
ghost use Rattle.std.specs.Prelude.{◌≡◌, ◌++◌, ◌^◌, OnOk, string_bytes};
ghost use Rattle.oc_dump.specs.Lines as lines;

use oc_base::{NoMemory, Word};
use oc_weight::with_text;

// puts a byte of a name after the text
#[tactic(auto, using(crate::proofs::HexLemmas::hex_shown))]
fn put_byte(out: &mut String, byte: u8) -> Result<(), NoMemory>
    ensures { OnOk result (string_bytes out.new ≡ string_bytes out.old ++ lines.shown_byte byte) }
{
    if byte.is_ascii_graphic() && byte != b'\\' {
        out.push(char::from(byte))?;
    } else {
        write!(out, "\\x{byte:02x}")?;
    }
    Ok(())
}

/// Puts a name after the text: graphic characters of ASCII but the backslash as they are, every
/// other byte as `\x` and two digits.
///
/// `NoMemory` where the text would have more than 2^29 bytes with those of the name, or where memory ran
/// out; then a part may have been put. Linear in the name.
pub fn put_name(out: &mut String, name: &[u8]) -> Result<(), NoMemory>
    ensures { OnOk result (string_bytes out.new ≡ string_bytes out.old ++ lines.shown_name name.now) }
{
    let _ = with_text(out.len() as u64, name.len() as u64)?;
    for byte in name {
        put_byte(out, *byte)?;
    }
    Ok(())
}

/// Puts a number after the text, in hexadecimal: at least 8 digits for words of 32 bits and 16 for those
/// of 64, with zeros first.
///
/// `NoMemory` where memory ran out; then a part may have been put. Constant time.
#[tactic(auto, using(crate::proofs::HexLemmas::hex_shown))]
pub fn put_hex(out: &mut String, word: Word, x: u64) -> Result<(), NoMemory>
    ensures { OnOk result (string_bytes out.new ≡ string_bytes out.old ++ lines.hex (lines.digit_count word) x) }
{
    match word {
        Word::W32 => write!(out, "{x:08x}")?,
        Word::W64 => write!(out, "{x:016x}")?,
    }
    Ok(())
}
