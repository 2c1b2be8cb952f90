//! The relocations of an object.
ghost use Rattle.std.specs.Prelude.{◌≡◌, ◌++◌, ◌+◌, ◌-◌, ◌*◌, ◌^◌, ◌<◌, ◌≤◌, length, OnOk, string_bytes};
ghost use Rattle.std.specs.List.{flat_map, range_with_len};
ghost use Rattle.oc_chains.specs.Lists.{list_of, held_in};
ghost use Rattle.oc_neutral.specs.Invariants.{IsThere};
ghost use Rattle.oc_listings.specs.ObjectListings as listings;
ghost use Rattle.oc_listings.specs.Texts as texts;

use crate::numbers::{put_decimal, put_number, put_residue};
use crate::resting::resting_residue;
use crate::terms::check_text;
use oc_base::{NoMemory, word_of};
use oc_chains::Field;
use oc_dump::put_name;
use oc_linking::{Check, Width};
use oc_neutral::{Neutral, Reloc, Target};

/// No line of a relocation has fewer bytes.
const LEAST_LINE: u64 = 29;

// puts what a relocation names after the text
fn put_target(out: &mut String, neutral: &Neutral, target: Target) -> Result<(), NoMemory>
    requires { IsThere neutral.now target }
    ensures { OnOk result (string_bytes out.new ≡ string_bytes out.old ++ listings.target_text neutral.now target) }
{
    match target {
        Target::Section(index) => {
            out.push_str("section ")?;
            put_decimal(out, neutral.section(index).number)?;
        }
        Target::Symbol(index) => {
            out.push_str("symbol ")?;
            put_name(out, neutral.symbol(index).name.as_slice())?;
        }
    }
    Ok(())
}

// puts the numbers of a field and its check after the text
fn put_numbers(
    out: &mut String,
    number: u32,
    offset: u32,
    width: Width,
    check: Check,
) -> Result<(), NoMemory>
    ensures { OnOk result (string_bytes out.new ≡ string_bytes out.old ++ texts.numbers_text number offset width check) }
{
    put_number(out, number)?;
    put_number(out, offset)?;
    put_number(out, width.bytes())?;
    out.push_str(check_text(check))?;
    out.push_str(" ")?;
    Ok(())
}

// puts the line of a field of a section of that number after the text
#[tactic(auto, unfolding(crate::specs::Texts::field_text))]
fn put_reloc(
    out: &mut String,
    neutral: &Neutral,
    number: u32,
    field: Field<Reloc>,
) -> Result<(), NoMemory>
    requires { IsThere neutral.now field.item.target }
    ensures { OnOk result (string_bytes out.new ≡ string_bytes out.old ++ listings.reloc_line neutral.now number field) }
{
    let word = word_of(neutral.format());
    let reloc = field.item;
    put_numbers(out, number, field.at, reloc.form.width, reloc.form.check)?;
    let residue = resting_residue(word, neutral.symbols(), field.at, reloc);
    put_residue(out, word, residue)?;
    out.push_str(" ")?;
    put_target(out, neutral, reloc.target)?;
    out.push_str("\n")?;
    Ok(())
}

// puts the lines of the relocations of a section after the text
fn put_relocs_of(out: &mut String, neutral: &Neutral, section: u32) -> Result<(), NoMemory>
    requires { section < length neutral.now.sections }
    ensures { OnOk result (string_bytes out.new ≡ string_bytes out.old ++ listings.reloc_text_of neutral.now section) }
{
    neutral.is_object();
    let number = neutral.section(section).number;
    for field in neutral.relocs(section) {
        put_reloc(out, neutral, number, field)?;
    }
    Ok(())
}

/// Puts the lines of all relocations after the text, by section and offset. Linear in the relocations
/// and the names of their symbols.
pub(crate) fn put_relocs(out: &mut String, neutral: &Neutral) -> Result<(), NoMemory>
    ensures { OnOk result (string_bytes out.new ≡ string_bytes out.old
        ++ flat_map (listings.reloc_text_of neutral.now) (range_with_len 0 (length neutral.now.sections))) }
{
    neutral.is_object();
    out.reserve((reloc_count(neutral) * LEAST_LINE) as usize)?;
    for section in 0..neutral.section_count() {
        put_relocs_of(out, neutral, section)?;
    }
    Ok(())
}

// how many relocations a section has
fn count_of(neutral: &Neutral, section: u32) -> u64
    requires { section < length neutral.now.sections }
    ensures { result ≡ length (list_of neutral.now.relocs section) }
{
    neutral.is_object();
    let mut count = 0;
    for field in neutral.relocs(section) {
        let _ = field;
        count += 1;
    }
    count
}

/// How many relocations an object has. Linear in them, no memory.
pub(crate) fn reloc_count(neutral: &Neutral) -> u64
    ensures { result ≡ held_in neutral.now.relocs }
{
    neutral.is_object();
    let mut count = 0;
    for section in 0..neutral.section_count() {
        count += count_of(neutral, section);
    }
    count
}
