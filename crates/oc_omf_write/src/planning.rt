//! Planning the canonical file of an object that is ready for OMF.
ghost use Rattle.std.specs.Prelude.{◌≡◌, ◌^◌, ◌<◌, ◌++◌, IfOk, OnOk, length, map};
ghost use Rattle.std.specs.List.{range_with_len};
ghost use Rattle.oc_base.specs.declared.format.Format.TheVariants.{Omf};
ghost use Rattle.oc_shelf.specs.Writing.Parts.{file_of};
ghost use Rattle.oc_target.specs.Fitted.{IsFitted};
ghost use Rattle.oc_omf_file.specs.Canonical.{omf_file};
ghost use Rattle.oc_omf_write.specs.declared.entries.Entry.TheVariants as entry;
ghost use Rattle.oc_omf_write.specs.Made.{IsMadeWith};
ghost use Rattle.oc_omf_write.specs.Pieces.{AreInSections};
ghost use Rattle.oc_omf_write.specs.Plans.{AreEntries};
ghost use Rattle.oc_omf_write.specs.Raws.{sections_in};
ghost use Rattle.oc_omf_write.specs.Tables.{AreSound, fixups_of};

use crate::entries::Entry;
use crate::fixups::all_fixups;
use crate::layout::layout_of;
use crate::names::{Names, add_names};
use crate::numbers::numbers_of;
use crate::pieces::add_data;
use crate::plan::{OmfParts, Plan};
use crate::raw::Addends;
use crate::segments::segments_of;
use crate::symbols::symbol_entries;
use crate::tables::WrittenTables;
use oc_base::NoMemory;
use oc_neutral::{Neutral, Section, Symbol};
use oc_plans::with_numbers;
use oc_target::Fitted;
use std::alloc::Global;

// the sections of an object, with the numbers in their fields, and its symbols
fn parts_of(neutral: Neutral) -> (Vec<Section>, Vec<Symbol>)
    requires { IsFitted Omf neutral }
    ensures sections { result.0.items ≡ sections_in neutral }
    ensures symbols { result.1.items ≡ neutral.symbols }
{
    neutral.is_object();
    let (_groups, sections, symbols, relocs) = neutral.into_parts();
    let addends = Addends { symbols: &symbols };
    let sections = with_numbers(&addends, &relocs, sections);
    (sections, symbols)
}

// adds the entries of the segments of so many sections
fn add_segments(entries: &mut Vec<Entry>, count: u32) -> Result<(), NoMemory>
    ensures { OnOk result (entries.new.items ≡ entries.old.items ++ map entry.Segment (range_with_len 0 count)) }
{
    for k in 0..count {
        entries.push(Entry::Segment(k))?;
    }
    Ok(())
}

// the entries of a file that is made of these, with these entries of its symbols
fn entries_of(
    alloc: Global,
    tables: &WrittenTables,
    symbols: &[Entry],
) -> Result<Vec<Entry>, NoMemory>
    requires few { length tables.now.sections.items < 2 ^ 31 }
    requires names { length tables.now.names.items < 2 ^ 32 }
    requires sound { AreSound tables.now }
    requires fixups { AreInSections tables.now.sections.items (fixups_of tables.now) }
    ensures { IfOk result (λ entries. AreEntries tables.now symbols.now entries.items) }
{
    let mut entries = Vec::new(alloc);
    entries.push(Entry::Header)?;
    add_names(&mut entries, &tables.sections, &tables.names)?;
    add_segments(&mut entries, tables.sections.len() as u32)?;
    entries.push(Entry::Group)?;
    entries.extend_from_slice(symbols)?;
    add_data(&mut entries, &tables.sections, &tables.fixups)?;
    entries.push(Entry::End)?;
    Ok(entries)
}

// what a file of an object that is ready for OMF is made of, and the entries of its symbols
fn tables_of(alloc: Global, fitted: Fitted) -> Result<(WrittenTables, Vec<Entry>), NoMemory>
    requires { fitted.format ≡ Omf }
    ensures { IfOk result (λ made. IsMadeWith fitted made.0 made.1.items) }
{
    fitted.is_fitted();
    let neutral = fitted.neutral();
    let entries = symbol_entries(alloc, neutral)?;
    let numbers = numbers_of(alloc, neutral.symbol_count(), &entries)?;
    let fixups = all_fixups(alloc, neutral, &numbers)?;
    let (sections, symbols) = parts_of(fitted.into_neutral());
    let names = Names::of(alloc, &sections)?;
    let segments = segments_of(alloc, &names, &sections)?;
    let names = names.into_list();
    let tables = WrittenTables {
        sections,
        segments,
        names,
        symbols,
        fixups,
    };
    Ok((tables, entries))
}

/// The plan of the canonical file of an object that is ready for OMF. `NoMemory` where memory ran out.
/// Linear in the object, but for looking up names and the logarithm of a section's fixups.
pub(crate) fn plan_object(alloc: Global, fitted: Fitted) -> Result<Plan, NoMemory>
    requires { fitted.format ≡ Omf }
    ensures { IfOk result (λ plan. file_of plan ≡ omf_file fitted) }
{
    fitted.is_fitted();
    let (tables, symbols) = tables_of(alloc, fitted)?;
    let entries = entries_of(alloc, &tables, &symbols)?;
    let layout = layout_of(alloc, &tables, &entries)?;
    Ok(Plan::new(OmfParts { tables, entries }, layout))
}
