//! The relocations of the object, added section by section.
ghost use Rattle.std.specs.Prelude.{◌≡◌, ◌+◌, ◌<◌, ◌≤◌, length, take, true, false, None, Some, OnOk};
ghost use Rattle.std.specs.List.Sorted.{IsPermutation};
ghost use Rattle.oc_linking.specs.FirstFault.{first_fault};
ghost use Rattle.oc_shows.specs.Built.{HasAdded, IsStarted};
ghost use Rattle.oc_neutral.specs.declared.elf.TheConstants.{SHT_NOBITS};
ghost use Rattle.oc_shelf.specs.Reading.Collected.{collected};
ghost use Rattle.oc_shelf.specs.Reading.Slots.{AreSlots};
ghost use Rattle.oc_elf_read.specs.Built.{symboled};
ghost use Rattle.oc_elf.specs.CarriedSections.{position_of};
ghost use Rattle.oc_elf.specs.Elf.{elf_dialect, rest_stages};
ghost use Rattle.oc_elf_read.specs.Given as given;
ghost use Rattle.oc_elf_judge.specs.Known.{IsAimed, IsTable};
ghost use Rattle.oc_elf.specs.RelocRules.{is_kept_section};
ghost use Rattle.oc_elf.specs.Sections as sections;
ghost use Rattle.oc_elf.specs.Tables.{reloc_count, symbol_count};

use crate::built_relocs::{in_order, reloc_for};
use oc_base::NoMemory;
use oc_elf::{Frame, Shdr};
use oc_elf_judge::{Aims, is_kept, reloc_of, table_header};
use oc_neutral::{Builder, Keep};
use oc_shelf::{PlacedEntry, Slots};
use std::alloc::Global;

// a section whose relocations are added
#[derive(Clone, Copy)]
struct RelocSection<'a> {
    // the number of its header
    number: u32,
    // its position among the carried sections
    position: u32,
    // the header of its relocation table
    table: &'a Shdr,
}

// the bytes of a section that takes bytes of the file
fn contents_of<'a>(frame: &Frame<'a>, s: &Shdr) -> &'a [u8]
    requires lies { s.now.sh_offset + s.now.sh_size ≤ length frame.now.file }
    requires stored { sections.is_type SHT_NOBITS s.now ≡ false }
    ensures { result.now ≡ sections.contents_of frame.now s.now }
{
    let start = s.sh_offset as usize;
    let file = frame.file();
    &file[start..start + s.sh_size as usize]
}

// adds the relocation of entry `j` of those of a section
fn add_entry(
    frame: &Frame,
    keep: &Keep,
    aims: &Aims,
    builder: &mut Builder,
    place: &RelocSection,
    entries: &[PlacedEntry],
    j: usize,
) -> Result<(), NoMemory>
    requires clean { first_fault (rest_stages frame.now keep.now) ≡ None }
    requires aims { IsAimed frame.now aims.now.table.now aims.now.sections.now aims.now.symbols.now }
    requires started { IsStarted (elf_dialect frame.now.class) frame.now.file keep.now (symboled frame.now (symbol_count frame.now)) }
    requires low { place.now.number < length frame.now.headers }
    requires kept { is_kept_section frame.now keep.now place.now.number ≡ true }
    requires here { position_of frame.now place.now.number ≡ Some place.now.position }
    requires table { IsTable frame.now place.now.number place.now.table.now }
    requires entries { IsPermutation (collected (given.placed frame.now place.now.number) (reloc_count frame.now place.now.number)) entries.now }
    requires there { j < length entries.now }
    requires before { HasAdded (symboled frame.now (symbol_count frame.now)) builder.old
        (given.given_with frame.now keep.now place.now.number place.now.position (take j entries.now)) }
    ensures { OnOk result (HasAdded (symboled frame.now (symbol_count frame.now)) builder.new
        (given.given_with frame.now keep.now place.now.number place.now.position (take (j + 1) entries.now))) }
{
    frame.is_frame();
    let s = frame.header(place.number);
    let r = reloc_of(frame, place.number, place.table, entries[j].index);
    let reloc = reloc_for(frame, aims, contents_of(frame, &s), &r).unwrap();
    builder.add_clean_reloc(place.position, r.r_offset as u32, reloc)
}

// adds the relocations of a section
fn add_table(
    alloc: Global,
    frame: &Frame,
    keep: &Keep,
    aims: &Aims,
    builder: &mut Builder,
    place: &RelocSection,
) -> Result<(), NoMemory>
    requires clean { first_fault (rest_stages frame.now keep.now) ≡ None }
    requires aims { IsAimed frame.now aims.now.table.now aims.now.sections.now aims.now.symbols.now }
    requires started { IsStarted (elf_dialect frame.now.class) frame.now.file keep.now (symboled frame.now (symbol_count frame.now)) }
    requires low { place.now.number < length frame.now.headers }
    requires kept { is_kept_section frame.now keep.now place.now.number ≡ true }
    requires here { position_of frame.now place.now.number ≡ Some place.now.position }
    requires table { IsTable frame.now place.now.number place.now.table.now }
    requires before { HasAdded (symboled frame.now (symbol_count frame.now)) builder.old (given.given_before frame.now keep.now place.now.number) }
    ensures { OnOk result (HasAdded (symboled frame.now (symbol_count frame.now)) builder.new (given.given_before frame.now keep.now (place.now.number + 1))) }
{
    frame.is_frame();
    let entries = in_order(alloc, frame, place.number, place.table)?;
    for j in 0..entries.len() {
        add_entry(frame, keep, aims, builder, place, entries.as_slice(), j)?;
    }
    Ok(())
}

// adds the relocations of section `i`, where it is kept
fn add_relocs_of(
    alloc: Global,
    frame: &Frame,
    keep: &Keep,
    tables: &Slots,
    aims: &Aims,
    builder: &mut Builder,
    i: u32,
) -> Result<(), NoMemory>
    requires clean { first_fault (rest_stages frame.now keep.now) ≡ None }
    requires tables { AreSlots (sections.table_among frame.now (length frame.now.headers)) (length frame.now.headers) tables.now }
    requires aims { IsAimed frame.now aims.now.table.now aims.now.sections.now aims.now.symbols.now }
    requires started { IsStarted (elf_dialect frame.now.class) frame.now.file keep.now (symboled frame.now (symbol_count frame.now)) }
    requires low { i < length frame.now.headers }
    requires before { HasAdded (symboled frame.now (symbol_count frame.now)) builder.old (given.given_before frame.now keep.now i) }
    ensures { OnOk result (HasAdded (symboled frame.now (symbol_count frame.now)) builder.new (given.given_before frame.now keep.now (i + 1))) }
{
    frame.is_frame();
    if !is_kept(frame, keep, i) {
        return Ok(());
    }
    let table = table_header(frame, tables.get(i));
    let place = RelocSection {
        number: i,
        position: aims.sections.get(i).unwrap(),
        table: &table,
    };
    add_table(alloc, frame, keep, aims, builder, &place)
}

/// Adds the relocations of all sections that are kept, those of a section in the order of their
/// offsets. `NoMemory` where memory ran out. The time is that of n log2(n) steps for n relocations,
/// in any order, and linear in the section headers and their names.
pub(crate) fn add_relocations(
    alloc: Global,
    frame: &Frame,
    keep: &Keep,
    tables: &Slots,
    aims: &Aims,
    builder: &mut Builder,
) -> Result<(), NoMemory>
    requires clean { first_fault (rest_stages frame.now keep.now) ≡ None }
    requires tables { AreSlots (sections.table_among frame.now (length frame.now.headers)) (length frame.now.headers) tables.now }
    requires aims { IsAimed frame.now aims.now.table.now aims.now.sections.now aims.now.symbols.now }
    requires started { IsStarted (elf_dialect frame.now.class) frame.now.file keep.now (symboled frame.now (symbol_count frame.now)) }
    requires before { builder.old ≡ symboled frame.now (symbol_count frame.now) }
    ensures { OnOk result (HasAdded (symboled frame.now (symbol_count frame.now)) builder.new (given.given_at frame.now keep.now)) }
{
    frame.is_frame();
    for i in 0..frame.count() {
        add_relocs_of(alloc, frame, keep, tables, aims, builder, i)?;
    }
    Ok(())
}
