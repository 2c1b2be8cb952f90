//! The lines of hints.
ghost use Rattle.std.specs.Prelude.{◌≡◌, ◌++◌, codes, IfOk, OnOk, string_bytes};
ghost use Rattle.oc_dump.specs.Lines.{shown_name};
ghost use Rattle.oc_hint_text.specs.Lines as lines;

use crate::words::{
    edit_sentence, edit_word, field_sentence, field_word, file_sentence, file_word,
    section_sentence, section_word, symbol_sentence, symbol_word,
};
use oc_base::{Bytes, NoMemory};
use oc_dump::put_name;
use oc_hints::Hint;
use std::alloc::Global;

// puts how many more there are than the one that is shown after the text
fn put_more(out: &mut String, count: u64) -> Result<(), NoMemory>
    ensures { OnOk result (string_bytes out.new ≡ string_bytes out.old ++ lines.more_text count) }
{
    if count > 1 {
        let more = count - 1;
        write!(out, ", and {more} more")?;
    }
    Ok(())
}

// puts the fields of a section after the text
fn put_fields(out: &mut String, section: &[u8], at: u32, count: u64) -> Result<(), NoMemory>
    ensures { OnOk result (string_bytes out.new ≡ string_bytes out.old ++ lines.fields_text section.now at count) }
{
    put_name(out, section)?;
    write!(out, " at {at}")?;
    put_more(out, count)?;
    Ok(())
}

// puts the line of a thing of this name after the text
fn put_named(out: &mut String, word: &str, name: &[u8], sentence: &str) -> Result<(), NoMemory>
    ensures { OnOk result (string_bytes out.new ≡ string_bytes out.old ++ lines.line_text word.now (shown_name name.now) sentence.now) }
{
    out.push_str(word)?;
    out.push_str(": ")?;
    put_name(out, name)?;
    out.push_str(": ")?;
    out.push_str(sentence)?;
    out.push_str("\n")?;
    Ok(())
}

// puts the line of fields of a section after the text
fn put_field_line(
    out: &mut String,
    word: &str,
    section: &[u8],
    at: u32,
    count: u64,
    sentence: &str,
) -> Result<(), NoMemory>
    ensures { OnOk result (string_bytes out.new ≡ string_bytes out.old ++ lines.line_text word.now (lines.fields_text section.now at count) sentence.now) }
{
    out.push_str(word)?;
    out.push_str(": ")?;
    put_fields(out, section, at, count)?;
    out.push_str(": ")?;
    out.push_str(sentence)?;
    out.push_str("\n")?;
    Ok(())
}

// puts the line of the file after the text
fn put_file_line(out: &mut String, word: &str, sentence: &str) -> Result<(), NoMemory>
    ensures { OnOk result (string_bytes out.new ≡ string_bytes out.old ++ lines.line_text word.now (codes "the file") sentence.now) }
{
    out.push_str(word)?;
    out.push_str(": ")?;
    out.push_str("the file")?;
    out.push_str(": ")?;
    out.push_str(sentence)?;
    out.push_str("\n")?;
    Ok(())
}

// puts the line of a hint after the text
#[tactic(auto, unfolding(crate::specs::Lines::hint_line))]
fn put_hint(out: &mut String, hint: &Hint) -> Result<(), NoMemory>
    ensures { OnOk result (string_bytes out.new ≡ string_bytes out.old ++ lines.hint_line hint.now) }
{
    match hint {
        Hint::Symbol { key, name } => {
            put_named(
                out,
                symbol_word(*key),
                name.as_slice(),
                symbol_sentence(*key),
            )
        }
        Hint::Section { key, name } => {
            put_named(
                out,
                section_word(*key),
                name.as_slice(),
                section_sentence(*key),
            )
        }
        Hint::Field {
            key,
            section,
            at,
            count,
        } => put_field_line(
            out,
            field_word(*key),
            section.as_slice(),
            *at,
            *count,
            field_sentence(*key),
        ),
        Hint::File { key } => put_file_line(out, file_word(*key), file_sentence(*key)),
        Hint::Edit { key, name } => {
            put_named(out, edit_word(*key), name.as_slice(), edit_sentence(*key))
        }
    }
}

/// The lines of hints, in their order: `KEY: THING: TEXT`, each with a newline.
///
/// The thing is the name of a symbol, of a section, or that an edit speaks of; `the file`; or, of
/// fields, the name of their section, ` at ` and the offset of the first in decimal, and `, and N more`
/// where there are more in that section. Names are shown as in a listing of symbols. `NoMemory` where
/// memory ran out, or where the text would have more than 2^29 bytes. Linear in the text.
#[tactic(auto, unfolding(crate::specs::Lines::hint_lines))]
pub fn hint_lines(alloc: Global, hints: &[Hint]) -> Result<Bytes, NoMemory>
    ensures { IfOk result (λ text. text ≡ lines.hint_lines hints.now) }
{
    let mut out = String::new(alloc);
    for hint in hints {
        put_hint(&mut out, hint)?;
    }
    Ok(Bytes::from_vec(out.into_bytes()))
}
