//! The relocations of the object, added section by section.
ghost use Rattle.std.specs.Prelude.{◌≡◌, ◌+◌, ◌<◌, length, take, true, OnOk};
ghost use Rattle.std.specs.List.Sorted.{IsPermutation};
ghost use Rattle.oc_shows.specs.Built.{HasAdded};
ghost use Rattle.oc_shelf.specs.Reading.Collected.{collected};
ghost use Rattle.oc_macho.specs.Framed.{IsTable, table_at};
ghost use Rattle.oc_macho_judge.specs.Holders.{AreHolders};
ghost use Rattle.oc_macho.specs.Sections.{is_kept};
ghost use Rattle.oc_macho_read.specs.Adding.{IsReady};
ghost use Rattle.oc_macho_read.specs.Built.{started};
ghost use Rattle.oc_macho_read.specs.Given as given;

use crate::aims::RelocContext;
use crate::built_relocs::{in_order, reloc_for};
use oc_base::NoMemory;
use oc_macho::{Frame, SectionHeader, kind_of};
use oc_macho_judge::item_of;
use oc_neutral::Builder;
use oc_shelf::PlacedEntry;
use std::alloc::Global;

// adds the relocation of field `j` of those of section `i`
fn add_field(
    frame: &Frame,
    known: &RelocContext,
    builder: &mut Builder,
    i: u32,
    h: &SectionHeader,
    fields: &[PlacedEntry],
    j: usize,
) -> Result<(), NoMemory>
    requires ready { IsReady frame.now known.now.keep known.now.positions.now }
    requires holders { AreHolders frame.now known.now.holders.now }
    requires table { IsTable frame.now i h.now }
    requires kept { is_kept known.now.keep (table_at frame.now i) ≡ true }
    requires fields { IsPermutation (collected (given.placed frame.now (table_at frame.now i)) h.now.nreloc) fields.now }
    requires there { j < length fields.now }
    requires before { HasAdded (started frame.now known.now.keep) builder.old (given.given_with frame.now known.now.keep i (take j fields.now)) }
    ensures { OnOk result (HasAdded (started frame.now known.now.keep) builder.new (given.given_with frame.now known.now.keep i (take (j + 1) fields.now))) }
{
    let item = item_of(frame, i, h, fields[j].index);
    let reloc = reloc_for(frame, known, i, h, &item).unwrap();
    builder.add_clean_reloc(i, item.first.r_address, reloc)
}

// adds the relocations of section `i`, which is kept
fn add_table(
    alloc: Global,
    frame: &Frame,
    known: &RelocContext,
    builder: &mut Builder,
    i: u32,
    h: &SectionHeader,
) -> Result<(), NoMemory>
    requires ready { IsReady frame.now known.now.keep known.now.positions.now }
    requires holders { AreHolders frame.now known.now.holders.now }
    requires table { IsTable frame.now i h.now }
    requires kept { is_kept known.now.keep (table_at frame.now i) ≡ true }
    requires before { HasAdded (started frame.now known.now.keep) builder.old (given.given_before frame.now known.now.keep i) }
    ensures { OnOk result (HasAdded (started frame.now known.now.keep) builder.new (given.given_before frame.now known.now.keep (i + 1))) }
{
    let fields = in_order(alloc, frame, i, h)?;
    for j in 0..fields.len() {
        add_field(frame, known, builder, i, h, fields.as_slice(), j)?;
    }
    Ok(())
}

// adds the relocations of section `i`, where it is kept
fn add_relocs_of(
    alloc: Global,
    frame: &Frame,
    known: &RelocContext,
    builder: &mut Builder,
    i: u32,
) -> Result<(), NoMemory>
    requires ready { IsReady frame.now known.now.keep known.now.positions.now }
    requires holders { AreHolders frame.now known.now.holders.now }
    requires there { i < length frame.now.sections }
    requires before { HasAdded (started frame.now known.now.keep) builder.old (given.given_before frame.now known.now.keep i) }
    ensures { OnOk result (HasAdded (started frame.now known.now.keep) builder.new (given.given_before frame.now known.now.keep (i + 1))) }
{
    let h = frame.section(i);
    if !known.keep.keeps(kind_of(&h)) {
        return Ok(());
    }
    frame.has_entries(i, &h);
    add_table(alloc, frame, known, builder, i, &h)
}

/// Adds the relocations of all sections that are kept, those of a section in the order of their
/// offsets. `NoMemory` where memory ran out. The time is that of n log2(n) steps for n relocation
/// entries, in any order, and linear in the sections.
pub(crate) fn add_relocations(
    alloc: Global,
    frame: &Frame,
    known: &RelocContext,
    builder: &mut Builder,
) -> Result<(), NoMemory>
    requires ready { IsReady frame.now known.now.keep known.now.positions.now }
    requires holders { AreHolders frame.now known.now.holders.now }
    requires before { builder.old ≡ started frame.now known.now.keep }
    ensures { OnOk result (HasAdded (started frame.now known.now.keep) builder.new (given.given_at frame.now known.now.keep)) }
{
    let count = frame.section_count();
    for i in 0..count {
        add_relocs_of(alloc, frame, known, builder, i)?;
    }
    Ok(())
}
