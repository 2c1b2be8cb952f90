//! The symbols whose addresses fields of kept sections take.
ghost use Rattle.std.specs.Prelude.{◌≡◌, ℕ, ◌+◌, ◌<◌, ◌||◌, Bool, false, length, replicate, None, IfOk};
ghost use Rattle.oc_linking.specs.FirstFault.{stage_fault};
ghost use Rattle.oc_macho.specs.Entries as entries;
ghost use Rattle.oc_macho.specs.Framed.{IsTable, table_at};
ghost use Rattle.oc_macho.specs.SectionFaults.{section_stage};
ghost use Rattle.oc_macho_read.specs.Pins as pins;

use oc_base::NoMemory;
use oc_macho::{Frame, Reference, SectionHeader, kind_of};
use oc_macho_judge::{begins_behind, item_of};
use oc_neutral::Keep;
use std::alloc::Global;

// marks the symbol to which a reference is, where it is to one
fn mark(marks: &mut Vec<bool>, taken: Option<Reference>)
    ensures { marks.new.items ≡ pins.marked marks.old.items taken }
{
    match taken {
        Some(Reference::Symbol(j)) => {
            if (j as usize) < marks.len() {
                marks[j as usize] = true;
            }
        }
        Some(Reference::Section(_) | Reference::Address(_)) | None => (),
    }
}

// marks what the field that begins with entry `k` takes, given whether one does
fn mark_entry(frame: &Frame, i: u32, h: &SectionHeader, marks: &mut Vec<bool>, k: u32, begins: bool)
    requires table { IsTable frame.now i h.now }
    requires there { k < h.now.nreloc }
    requires begins { begins ≡ entries.begins frame.now.word (table_at frame.now i).relocs k }
    ensures { (test : ℕ → Bool) → pins.AreMarks frame.now test marks.old.items
        → pins.AreMarks frame.now (λ j. test j || pins.is_taken_at frame.now (table_at frame.now i) k j) marks.new.items }
{
    if !begins {
        return;
    }
    let item = item_of(frame, i, h, k);
    mark(marks, item.taken(frame.word()));
}

// marks what the fields of section `i` take
fn mark_table(frame: &Frame, i: u32, h: &SectionHeader, marks: &mut Vec<bool>)
    requires { IsTable frame.now i h.now }
    ensures { (test : ℕ → Bool) → pins.AreMarks frame.now test marks.old.items
        → pins.AreMarks frame.now (λ j. test j || entries.is_taken_in frame.now.word j (table_at frame.now i)) marks.new.items }
{
    let mut begins = true;
    for k in 0..h.nreloc {
        mark_entry(frame, i, h, marks, k, begins);
        begins = begins_behind(frame, i, h, k, begins);
    }
}

// marks what the fields of section `i` take, where it is kept
fn mark_section(frame: &Frame, keep: &Keep, marks: &mut Vec<bool>, i: u32)
    requires clean { stage_fault (section_stage frame.now) ≡ None }
    requires there { i < length frame.now.sections }
    requires before { pins.AreMarks frame.now (pins.is_pinned_upto frame.now keep.now i) marks.old.items }
    ensures { pins.AreMarks frame.now (pins.is_pinned_upto frame.now keep.now (i + 1)) marks.new.items }
{
    let h = frame.section(i);
    if !keep.keeps(kind_of(&h)) {
        return;
    }
    frame.has_entries(i, &h);
    mark_table(frame, i, &h, marks);
}

// a mark for each symbol, none set
fn no_marks(alloc: Global, count: u32) -> Result<Vec<bool>, NoMemory>
    ensures { IfOk result (λ marks. marks.items ≡ replicate count false) }
{
    Ok(vec![in alloc; false; count as usize]?)
}

/// For each symbol whether it is pinned: a field of a kept section takes its address. `NoMemory`
/// where memory ran out. Linear in the symbols, the sections and the relocation entries.
pub(crate) fn pins_of(alloc: Global, frame: &Frame, keep: &Keep) -> Result<Vec<bool>, NoMemory>
    requires { stage_fault (section_stage frame.now) ≡ None }
    ensures { IfOk result (λ marks. pins.ArePins frame.now keep.now marks.items) }
{
    let mut marks = no_marks(alloc, frame.symbol_count())?;
    let count = frame.section_count();
    for i in 0..count {
        mark_section(frame, keep, &mut marks, i);
    }
    Ok(marks)
}
