//! The hints of one key.
ghost use Rattle.std.specs.Prelude.{◌≡◌, ◌++◌, ◌<◌, length, count_by, find, OnOk};
ghost use Rattle.std.specs.Option.{option_map};
ghost use Rattle.std.specs.List.{flat_map};
ghost use Rattle.oc_chains.specs.Lists.{list_of};
ghost use Rattle.oc_hints.specs.Case.{case_of};
ghost use Rattle.oc_hints.specs.Hints as hints;

use crate::edits::{concerns_edits, edit_meets, name_of};
use crate::fields::{concerns_fields, field_meets};
use crate::files::file_meets;
use crate::hint::Hint;
use crate::key::{EditKey, FieldKey, FileKey, SectionKey, SymbolKey};
use crate::sections::{concerns_sections, object_of_sections, section_meets};
use crate::subject::Subject;
use crate::symbols::{concerns_symbols, object_of_symbols, symbol_meets};
use oc_base::{Bytes, NoMemory};
use oc_names::Edit;
use oc_neutral::{Neutral, Section, Symbol};
use std::alloc::Global;

// notes the hint of a symbol
fn note_symbol(
    alloc: Global,
    found: &mut Vec<Hint>,
    key: SymbolKey,
    symbol: &Symbol,
) -> Result<(), NoMemory>
    ensures { OnOk result (found.new.items ≡ found.old.items ++ hints.symbol_hint key symbol.now) }
{
    if symbol_meets(key, symbol) {
        let name = Bytes::from_slice(alloc, symbol.name.as_slice())?;
        found.push(Hint::Symbol { key, name })?;
    }
    Ok(())
}

// notes the hints of symbols
fn note_symbols_of(
    alloc: Global,
    found: &mut Vec<Hint>,
    key: SymbolKey,
    symbols: &[Symbol],
) -> Result<(), NoMemory>
    ensures { OnOk result (found.new.items ≡ found.old.items ++ flat_map (hints.symbol_hint key) symbols.now) }
{
    for symbol in symbols {
        note_symbol(alloc, found, key, symbol)?;
    }
    Ok(())
}

/// Notes what the key says of symbols. `NoMemory` where memory ran out. Linear in the symbols and
/// their names.
pub(crate) fn note_symbols(
    alloc: Global,
    found: &mut Vec<Hint>,
    key: SymbolKey,
    subject: &Subject,
) -> Result<(), NoMemory>
    ensures { OnOk result (found.new.items ≡ found.old.items ++ hints.symbol_hints key (case_of subject.now)) }
{
    if !concerns_symbols(key, subject) {
        return Ok(());
    }
    note_symbols_of(alloc, found, key, object_of_symbols(key, subject).symbols())
}

// notes the hint of a section
fn note_section(
    alloc: Global,
    found: &mut Vec<Hint>,
    key: SectionKey,
    subject: &Subject,
    section: &Section,
) -> Result<(), NoMemory>
    ensures { OnOk result (found.new.items ≡ found.old.items ++ hints.section_hint key (case_of subject.now) section.now) }
{
    if section_meets(key, subject, section) {
        let name = Bytes::from_slice(alloc, section.name.as_slice())?;
        found.push(Hint::Section { key, name })?;
    }
    Ok(())
}

// notes the hints of sections
fn note_sections_of(
    alloc: Global,
    found: &mut Vec<Hint>,
    key: SectionKey,
    subject: &Subject,
    sections: &[Section],
) -> Result<(), NoMemory>
    ensures { OnOk result (found.new.items ≡ found.old.items ++ flat_map (hints.section_hint key (case_of subject.now)) sections.now) }
{
    for section in sections {
        note_section(alloc, found, key, subject, section)?;
    }
    Ok(())
}

/// Notes what the key says of sections. `NoMemory` where memory ran out. Linear in the sections, and
/// in the bytes of directives.
pub(crate) fn note_sections(
    alloc: Global,
    found: &mut Vec<Hint>,
    key: SectionKey,
    subject: &Subject,
) -> Result<(), NoMemory>
    ensures { OnOk result (found.new.items ≡ found.old.items ++ hints.section_hints key (case_of subject.now)) }
{
    if !concerns_sections(key, subject) {
        return Ok(());
    }
    let sections = object_of_sections(key, subject).sections();
    note_sections_of(alloc, found, key, subject, sections)
}

// the offset of the first field of a section at a position that the key is about
fn first_met(key: FieldKey, neutral: &Neutral, at: u32, section: &Section) -> Option<u32>
    requires { at < length neutral.now.sections }
    ensures { result ≡ option_map (λ f. f.at) (find (hints.meets key neutral.now section.now) (list_of neutral.now.relocs at)) }
{
    for field in neutral.relocs(at) {
        if field_meets(key, neutral, section, field.at, field.item) {
            return Some(field.at);
        }
    }
    None
}

// how many fields of a section at a position the key is about
fn count_met(key: FieldKey, neutral: &Neutral, at: u32, section: &Section) -> u64
    requires { at < length neutral.now.sections }
    ensures { result ≡ count_by (hints.meets key neutral.now section.now) (list_of neutral.now.relocs at) }
{
    neutral.is_object();
    let mut count = 0;
    for field in neutral.relocs(at) {
        count += u64::from(field_meets(key, neutral, section, field.at, field.item));
    }
    count
}

// notes the hint of the fields of a section at a position
fn note_fields_in(
    alloc: Global,
    found: &mut Vec<Hint>,
    key: FieldKey,
    neutral: &Neutral,
    at: u32,
    section: &Section,
) -> Result<(), NoMemory>
    requires { at < length neutral.now.sections }
    ensures { OnOk result (found.new.items ≡ found.old.items ++ hints.field_hint key neutral.now at section.now) }
{
    let Some(first) = first_met(key, neutral, at, section) else {
        return Ok(());
    };
    let count = count_met(key, neutral, at, section);
    let section = Bytes::from_slice(alloc, section.name.as_slice())?;
    found.push(Hint::Field {
        key,
        section,
        at: first,
        count,
    })?;
    Ok(())
}

// notes the hints of the fields of all sections
fn note_fields_of(
    alloc: Global,
    found: &mut Vec<Hint>,
    key: FieldKey,
    neutral: &Neutral,
) -> Result<(), NoMemory>
    ensures { OnOk result (found.new.items ≡ found.old.items ++ hints.each_from (hints.field_hint key neutral.now) 0 neutral.now.sections) }
{
    for at in 0..neutral.section_count() {
        note_fields_in(alloc, found, key, neutral, at, neutral.section(at))?;
    }
    Ok(())
}

/// Notes what the key says of fields. `NoMemory` where memory ran out. Linear in the relocations.
pub(crate) fn note_fields(
    alloc: Global,
    found: &mut Vec<Hint>,
    key: FieldKey,
    subject: &Subject,
) -> Result<(), NoMemory>
    ensures { OnOk result (found.new.items ≡ found.old.items ++ hints.field_hints key (case_of subject.now)) }
{
    if !concerns_fields(key, subject) {
        return Ok(());
    }
    note_fields_of(alloc, found, key, subject.output)
}

/// Notes what the key says of the file. `NoMemory` where memory ran out. Linear in sections and symbols.
pub(crate) fn note_file(
    found: &mut Vec<Hint>,
    key: FileKey,
    subject: &Subject,
) -> Result<(), NoMemory>
    ensures { OnOk result (found.new.items ≡ found.old.items ++ hints.file_hints key (case_of subject.now)) }
{
    if file_meets(key, subject) {
        found.push(Hint::File { key })?;
    }
    Ok(())
}

// notes the hint of an edit
fn note_edit(
    alloc: Global,
    found: &mut Vec<Hint>,
    key: EditKey,
    subject: &Subject,
    edit: &Edit,
) -> Result<(), NoMemory>
    ensures { OnOk result (found.new.items ≡ found.old.items ++ hints.edit_hint key (case_of subject.now) edit.now) }
{
    if edit_meets(key, subject, edit) {
        let name = Bytes::from_slice(alloc, name_of(edit))?;
        found.push(Hint::Edit { key, name })?;
    }
    Ok(())
}

// notes the hints of edits
fn note_edits_of(
    alloc: Global,
    found: &mut Vec<Hint>,
    key: EditKey,
    subject: &Subject,
    edits: &[Edit],
) -> Result<(), NoMemory>
    ensures { OnOk result (found.new.items ≡ found.old.items ++ flat_map (hints.edit_hint key (case_of subject.now)) edits.now) }
{
    for edit in edits {
        note_edit(alloc, found, key, subject, edit)?;
    }
    Ok(())
}

/// Notes what the key says of edits. `NoMemory` where memory ran out. Time is that of a comparison
/// for each edit and symbol.
pub(crate) fn note_edits(
    alloc: Global,
    found: &mut Vec<Hint>,
    key: EditKey,
    subject: &Subject,
) -> Result<(), NoMemory>
    ensures { OnOk result (found.new.items ≡ found.old.items ++ hints.edit_hints key (case_of subject.now)) }
{
    if !concerns_edits(key, subject) {
        return Ok(());
    }
    note_edits_of(alloc, found, key, subject, subject.edits.as_slice())
}
