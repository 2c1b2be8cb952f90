//! The relocations of the object, added section by section.
ghost use Rattle.std.specs.Prelude.{◌≡◌, ◌+◌, ◌<◌, ◌≤◌, length, take, drop, slice_get, true, None, Some, IfOk, OnOk};
ghost use Rattle.std.specs.List.Sorted.{IsPermutation};
ghost use Rattle.oc_linking.specs.FirstFault.{stage_fault};
ghost use Rattle.oc_linking.specs.Keeping.{keeps};
ghost use Rattle.oc_shows.specs.Built.{HasAdded};
ghost use Rattle.oc_shelf.specs.Reading.Collected.{collected};
ghost use Rattle.oc_coff.specs.SectionFaults.{section_stage};
ghost use Rattle.oc_coff.specs.Sections as sections;
ghost use Rattle.oc_coff.specs.Tables as tables;
ghost use Rattle.oc_coff.specs.Files as files;
ghost use Rattle.oc_coff_read.specs.Adding as adding;
ghost use Rattle.oc_coff_read.specs.Adding.{AreAddedUpto};
ghost use Rattle.oc_coff_judge.specs.Led.{carried_at};
ghost use Rattle.oc_coff_read.specs.Given as given;

use crate::built_relocs::{in_order, reloc_for};
use crate::built_symbols::Positions;
use oc_base::{NoMemory, Word};
use oc_coff::{Coff, SectionHeader};
use oc_coff_judge::{RelocTable, kind_in, reloc_of, table_of};
use oc_neutral::{Builder, Keep, Kind, are_bytes};
use oc_shelf::PlacedEntry;
use std::alloc::Global;

// a file whose relocations are added
#[derive(Clone, Copy)]
struct RelocContext<'a> {
    // the word of its format
    word: Word,
    // the file
    coff: &'a Coff<'a>,
    // which of its sections are kept
    keep: &'a Keep,
    // where its sections and symbols are among the carried ones
    positions: &'a Positions<'a>,
}

// a section whose relocations are added
#[derive(Clone, Copy)]
struct RelocSection<'a> {
    // its number, counted from 0
    number: u32,
    // its position among the carried sections
    position: u32,
    // its kind
    kind: Kind,
    // its relocation table
    table: RelocTable,
    // its bytes, where they are in the file
    contents: &'a [u8],
}

// the bytes of a section that are in the file, where there are any
fn contents_of<'a>(coff: &Coff<'a>, table: &RelocTable, h: &SectionHeader) -> &'a [u8]
    requires { table.now.stored ≡ true → h.now.PointerToRawData + h.now.SizeOfRawData ≤ length coff.now.bytes }
    ensures { table.now.stored ≡ true → result.now ≡ take h.now.SizeOfRawData (drop h.now.PointerToRawData coff.now.bytes) }
{
    if !table.stored {
        return &[];
    }
    let start = h.PointerToRawData as usize;
    let file = coff.file();
    &file[start..start + h.SizeOfRawData as usize]
}

// adds the relocation of entry `j` of those of a section
fn add_entry(
    context: RelocContext<'_>,
    builder: &mut Builder,
    place: &RelocSection,
    entries: &[PlacedEntry],
    j: usize,
) -> Result<(), NoMemory>
    requires ready { adding.IsReady context.word context.coff.now context.keep.now context.positions.now.sections.now context.positions.now.symbols.now }
    requires place { adding.IsPlace context.coff.now place.now.number place.now.position place.now.kind place.now.table place.now.contents.now }
    requires kept { keeps context.keep.now place.now.kind ≡ true }
    requires entries { IsPermutation (collected (given.placed_at context.coff.now place.now.table) place.now.table.count) entries.now }
    requires there { j < length entries.now }
    requires before { AreAddedUpto context.word context.coff.now context.keep.now place.now.position j entries.now builder.old }
    ensures { OnOk result (AreAddedUpto context.entry.word context.entry.coff.now context.entry.keep.now place.now.position (j + 1) entries.now builder.new) }
{
    let coff = context.coff;
    coff.is_headed();
    are_bytes(coff.file());
    let r = reloc_of(coff, place.number, &place.table, entries[j].index);
    let reloc = reloc_for(context.word, coff, context.positions, place.contents, &r).unwrap();
    builder.add_clean_reloc(place.position, r.VirtualAddress, reloc)
}

// adds the relocations of a section, where it is kept
fn add_table(
    alloc: Global,
    context: RelocContext<'_>,
    builder: &mut Builder,
    place: &RelocSection,
) -> Result<(), NoMemory>
    requires ready { adding.IsReady context.word context.coff.now context.keep.now context.positions.now.sections.now context.positions.now.symbols.now }
    requires place { adding.IsPlace context.coff.now place.now.number place.now.position place.now.kind place.now.table place.now.contents.now }
    requires before { adding.AreAddedBefore context.word context.coff.now context.keep.now place.now.position builder.old }
    ensures { OnOk result (adding.AreAddedBefore context.entry.word context.entry.coff.now context.entry.keep.now (place.now.position + 1) builder.new) }
{
    let coff = context.coff;
    coff.is_headed();
    are_bytes(coff.file());
    if !context.keep.keeps(place.kind) {
        return Ok(());
    }
    let entries = in_order(alloc, coff, place.number, &place.table)?;
    for j in 0..entries.len() {
        add_entry(context, builder, place, entries.as_slice(), j)?;
    }
    Ok(())
}

// section `i`, counted from 0, of that header and kind, which is at that position
fn place_of<'a>(
    coff: &Coff<'a>,
    i: u32,
    h: &SectionHeader,
    kind: Kind,
    position: u32,
) -> RelocSection<'a>
    requires clean { stage_fault (section_stage coff.now.bytes (files.tables_in coff.now)) ≡ None }
    requires here { slice_get (files.tables_in coff.now).sections i ≡ Some (tables.section_table coff.now.bytes h.now) }
    requires carried { sections.kind_in (files.tables_in coff.now).strings h.now ≡ Some kind }
    requires position { position ≡ length (collected (carried_at (files.tables_in coff.now)) i) }
    ensures place { adding.IsPlace coff.now result.number result.position result.kind result.table result.contents.now }
    ensures number { result.number ≡ i }
    ensures position { result.position ≡ position }
{
    let table = table_of(coff, i, h, kind);
    RelocSection {
        number: i,
        position,
        kind,
        table,
        contents: contents_of(coff, &table, h),
    }
}

// adds the relocations of section `i`, counted from 0, where it is kept, and so many are carried
// before it; gives how many are carried with it
fn add_relocs_of(
    alloc: Global,
    context: RelocContext<'_>,
    builder: &mut Builder,
    i: u32,
    position: u32,
) -> Result<u32, NoMemory>
    requires ready { adding.IsReady context.word context.coff.now context.keep.now context.positions.now.sections.now context.positions.now.symbols.now }
    requires low { i < length (files.tables_in context.coff.now).sections }
    requires before { adding.HasBefore context.word context.coff.now context.keep.now i position builder.old }
    ensures { IfOk result (λ p. adding.HasBefore context.entry.word context.entry.coff.now context.entry.keep.now (i + 1) p builder.new) }
{
    let coff = context.coff;
    coff.has_few();
    let h = coff.section(i);
    match kind_in(coff, &h) {
        None => Ok(position),
        Some(kind) => {
            let place = place_of(coff, i, &h, kind, position);
            add_table(alloc, context, builder, &place)?;
            Ok(position + 1)
        }
    }
}

/// Adds the relocations of all sections that are kept, those of a section in the order of their
/// offsets. `NoMemory` where memory ran out. The time is that of n log2(n) steps for n relocations,
/// in any order, and linear in the sections and their names.
pub(crate) fn add_relocations(
    alloc: Global,
    word: Word,
    coff: &Coff,
    keep: &Keep,
    positions: &Positions,
    builder: &mut Builder,
) -> Result<(), NoMemory>
    requires ready { adding.IsReady word coff.now keep.now positions.now.sections.now positions.now.symbols.now }
    requires before { builder.old ≡ adding.started word coff.now }
    ensures { OnOk result (HasAdded (adding.started word coff.now) builder.new (given.given_at word (files.tables_in coff.now) keep.now)) }
{
    let context = RelocContext {
        word,
        coff,
        keep,
        positions,
    };
    let mut position = 0;
    for i in 0..coff.section_count() {
        position = add_relocs_of(alloc, context, builder, i, position)?;
    }
    Ok(())
}
