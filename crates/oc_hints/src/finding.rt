//! All hints of a conversion.
ghost use Rattle.std.specs.Prelude.{◌≡◌, ◌++◌, IfOk, OnOk};
ghost use Rattle.std.specs.List.{list_any};
ghost use Rattle.oc_hints.specs.Case.{case_of};
ghost use Rattle.oc_hints.specs.Hints as hints;

use crate::hint::{Hint, class_of};
use crate::key::{Class, EditKey, FieldKey, FileKey, SectionKey, SymbolKey};
use crate::noting::{note_edits, note_fields, note_file, note_sections, note_symbols};
use crate::subject::Subject;
use oc_base::NoMemory;
use std::alloc::Global;

// names and functions that a linker or start-up code takes otherwise
fn note_names(alloc: Global, found: &mut Vec<Hint>, subject: &Subject) -> Result<(), NoMemory>
    ensures { OnOk result (found.new.items ≡ found.old.items ++ hints.name_hints (case_of subject.now)) }
{
    note_symbols(alloc, found, SymbolKey::WeakAtZero, subject)?;
    note_sections(alloc, found, SectionKey::StartUpLost, subject)?;
    note_sections(alloc, found, SectionKey::ShutDownNotRun, subject)?;
    note_symbols(alloc, found, SymbolKey::VersionedName, subject)?;
    note_symbols(alloc, found, SymbolKey::LinkerName, subject)?;
    Ok(())
}

// what sections and commons may be and have
fn note_rights(alloc: Global, found: &mut Vec<Hint>, subject: &Subject) -> Result<(), NoMemory>
    ensures { OnOk result (found.new.items ≡ found.old.items ++ hints.right_hints (case_of subject.now)) }
{
    note_fields(alloc, found, FieldKey::AddressInReadOnly, subject)?;
    note_sections(alloc, found, SectionKey::WritableCode, subject)?;
    note_sections(alloc, found, SectionKey::NoRights, subject)?;
    note_symbols(alloc, found, SymbolKey::CommonAlignment, subject)?;
    note_sections(alloc, found, SectionKey::CommonAlignments, subject)?;
    note_sections(alloc, found, SectionKey::DirectivesLost, subject)?;
    Ok(())
}

// what refers to other things, and what stays
fn note_references(alloc: Global, found: &mut Vec<Hint>, subject: &Subject) -> Result<(), NoMemory>
    ensures { OnOk result (found.new.items ≡ found.old.items ++ hints.reference_hints (case_of subject.now)) }
{
    note_symbols(alloc, found, SymbolKey::NoHandler, subject)?;
    note_fields(alloc, found, FieldKey::DistanceForAddress, subject)?;
    note_fields(alloc, found, FieldKey::CallWithoutStub, subject)?;
    note_fields(alloc, found, FieldKey::SplitLiterals, subject)?;
    note_sections(alloc, found, SectionKey::KeptSection, subject)?;
    note_sections(alloc, found, SectionKey::ExcludedSection, subject)?;
    Ok(())
}

// what linkers say of code and calls
fn note_calls(alloc: Global, found: &mut Vec<Hint>, subject: &Subject) -> Result<(), NoMemory>
    ensures { OnOk result (found.new.items ≡ found.old.items ++ hints.call_hints (case_of subject.now)) }
{
    note_file(found, FileKey::WholeSections, subject)?;
    note_symbols(alloc, found, SymbolKey::LtoOnly, subject)?;
    note_fields(alloc, found, FieldKey::CallRecompile, subject)?;
    note_fields(alloc, found, FieldKey::AddressOutOfRange, subject)?;
    Ok(())
}

// what they say of names and sections
fn note_links(alloc: Global, found: &mut Vec<Hint>, subject: &Subject) -> Result<(), NoMemory>
    ensures { OnOk result (found.new.items ≡ found.old.items ++ hints.link_hints (case_of subject.now)) }
{
    note_symbols(alloc, found, SymbolKey::WeakAbsent, subject)?;
    note_file(found, FileKey::Safeseh, subject)?;
    note_fields(alloc, found, FieldKey::TextRelocations, subject)?;
    note_file(found, FileKey::ManySections, subject)?;
    Ok(())
}

// what is asked for and does less than it seems
fn note_wishes(alloc: Global, found: &mut Vec<Hint>, subject: &Subject) -> Result<(), NoMemory>
    ensures { OnOk result (found.new.items ≡ found.old.items ++ hints.wish_hints (case_of subject.now)) }
{
    note_edits(alloc, found, EditKey::WithoutEffect, subject)?;
    note_edits(alloc, found, EditKey::FinalName, subject)?;
    Ok(())
}

/// The hints of a conversion, in the order of the table of keys (docs/OBJHINT.md), and then in that
/// of the file: first those of what no tool says, then those of what a linker says too, then notes.
///
/// `NoMemory` where memory ran out. Time is some 20 walks over the object, and a comparison for each
/// edit and symbol; memory is that of the hints.
#[tactic(auto, unfolding(crate::specs::Hints::hints_of))]
pub fn hints_of(alloc: Global, subject: &Subject) -> Result<Vec<Hint>, NoMemory>
    ensures { IfOk result (λ found. found.items ≡ hints.hints_of (case_of subject.now)) }
{
    let mut found = Vec::new(alloc);
    note_names(alloc, &mut found, subject)?;
    note_rights(alloc, &mut found, subject)?;
    note_references(alloc, &mut found, subject)?;
    note_calls(alloc, &mut found, subject)?;
    note_links(alloc, &mut found, subject)?;
    note_wishes(alloc, &mut found, subject)?;
    Ok(found)
}

// whether no tool says what the hint says
fn is_silent(hint: &Hint) -> bool
    ensures { result ≡ hints.is_silent_hint hint.now }
{
    class_of(hint) == Class::Silent
}

// whether a linker says what the hint says
fn is_loud(hint: &Hint) -> bool
    ensures { result ≡ hints.is_loud_hint hint.now }
{
    class_of(hint) == Class::Loud
}

// whether no tool says what one of the hints says
fn one_is_silent(found: &[Hint]) -> bool
    ensures { result ≡ list_any hints.is_silent_hint found.now }
{
    found.iter().any(is_silent)
}

// whether a linker says what one of the hints says
fn one_is_loud(found: &[Hint]) -> bool
    ensures { result ≡ list_any hints.is_loud_hint found.now }
{
    found.iter().any(is_loud)
}

/// The status of a run that tells these hints: 10 where one is of what no tool says, else 9 where one
/// is of what a linker says too, else 0. Linear.
pub fn status_for(found: &[Hint]) -> u8
    ensures { result ≡ hints.status_for found.now }
{
    if one_is_silent(found) {
        10
    } else if one_is_loud(found) {
        9
    } else {
        0
    }
}
