//! The header of an object.
ghost use Rattle.std.specs.Prelude.{◌≡◌, ◌++◌, codes, length, OnOk, string_bytes};
ghost use Rattle.oc_chains.specs.Lists.{held_in};
ghost use Rattle.oc_listings.specs.Texts as texts;

use crate::relocs::reloc_count;
use crate::terms::format_text;
use oc_base::{Format, NoMemory};
use oc_neutral::Neutral;

// puts the line of a format after the text
fn put_format(out: &mut String, format: Format) -> Result<(), NoMemory>
    ensures { OnOk result (string_bytes out.new ≡ string_bytes out.old ++ codes "format " ++ texts.format_text format ++ codes "\n") }
{
    out.push_str("format ")?;
    out.push_str(format_text(format))?;
    out.push_str("\n")?;
    Ok(())
}

// puts the line of a word and a number after the text
#[tactic(auto, unfolding(crate::specs::Texts::line_text))]
fn put_line(out: &mut String, word: &str, number: u64) -> Result<(), NoMemory>
    ensures { OnOk result (string_bytes out.new ≡ string_bytes out.old ++ texts.line_text word.now number) }
{
    write!(out, "{word} {number}\n")?;
    Ok(())
}

/// Puts the lines of the header after the text, of an object that was read from so many bytes. Linear in
/// the relocations.
#[tactic(auto, unfolding(crate::specs::Texts::header_text))]
pub(crate) fn put_header(out: &mut String, neutral: &Neutral, bytes: u64) -> Result<(), NoMemory>
    ensures { OnOk result (string_bytes out.new ≡ string_bytes out.old
        ++ texts.header_text neutral.now.format (length neutral.now.sections) (length neutral.now.symbols) (held_in neutral.now.relocs) bytes) }
{
    put_format(out, neutral.format())?;
    put_line(out, "sections", neutral.section_count().into())?;
    put_line(out, "symbols", neutral.symbol_count().into())?;
    put_line(out, "relocations", reloc_count(neutral))?;
    put_line(out, "bytes", bytes)?;
    Ok(())
}
