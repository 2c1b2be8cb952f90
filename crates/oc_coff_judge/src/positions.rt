//! The positions of carried sections and symbols.
ghost use Rattle.std.specs.Prelude.{◌≡◌, ◌+◌, ◌<◌, length, is_some, slice_set, None, Some, if◌then◌else◌, IfOk};
ghost use Rattle.oc_linking.specs.FirstFault.{stage_fault};
ghost use Rattle.oc_shelf.specs.Reading.Slots.{AreSlots};
ghost use Rattle.oc_coff.specs.Entries as entries;
ghost use Rattle.oc_coff.specs.Sections.{position_of, sections_in};
ghost use Rattle.oc_coff.specs.SymbolFaults.{symbol_stage};
ghost use Rattle.oc_coff.specs.Symbols as symbols;
ghost use Rattle.oc_coff.specs.Files as files;
ghost use Rattle.oc_coff_judge.specs.Numbered as numbered;
ghost use Rattle.oc_coff_judge.specs.Tagged.{AreTagged, IsSymbolEntry, symbol_position};

use crate::bindings::binding_of;
use crate::sections::is_carried;
use oc_base::NoMemory;
use oc_coff::Coff;
use oc_shelf::Slots;
use std::alloc::Global;

// the next position, where the section is carried
fn next_of(carried: bool, position: u32) -> Option<u32>
    ensures { result ≡ (if carried then Some position else None) }
{
    if carried {
        return Some(position);
    }
    None
}

/// The position of each section among the carried ones, by its number, where a symbol can name it.
/// `NoMemory` where memory ran out. Linear in the sections and their names.
pub(crate) fn section_positions(alloc: Global, coff: &Coff) -> Result<Slots, NoMemory>
    ensures { IfOk result (λ slots. AreSlots (position_of (sections_in (files.tables_in coff.now))) (length (files.tables_in coff.now).sections + 1) slots) }
{
    coff.has_few();
    let mut slots = Slots::empty(alloc, 1)?;
    let mut position = 0;
    for i in 0..coff.section_count() {
        let carried = is_carried(coff, i);
        slots.push(next_of(carried, position))?;
        position += u32::from(carried);
    }
    Ok(slots)
}

// whether entry `j`, a symbol, is carried
#[tactic(auto, unfolding(oc_coff::specs::Symbols::symbol_of, crate::specs::Numbered::entry_by))]
fn is_carried_symbol(coff: &Coff, sections: &Slots, tagged: &Slots, j: u32) -> bool
    requires clean { stage_fault (symbol_stage (files.tables_in coff.now)) ≡ None }
    requires there { j < length (files.tables_in coff.now).entries }
    requires symbol { IsSymbolEntry coff.now j }
    requires positions { AreSlots (position_of (sections_in (files.tables_in coff.now))) (length (files.tables_in coff.now).sections + 1) sections.now }
    requires tagged { AreTagged (files.tables_in coff.now) tagged.now }
    ensures { result ≡ is_some (symbols.symbol_of (files.tables_in coff.now).strings (sections_in (files.tables_in coff.now))
        (entries.entries_in (files.tables_in coff.now)) (numbered.entry_by coff.now j)) }
{
    let s = coff.symbol(j);
    binding_of(coff, sections, tagged, j, &s).is_some()
}

// puts the next position into the slot of entry `j`, where that is carried; gives the next one
fn place(slots: &mut Slots, carried: bool, j: u32, position: u32) -> u32
    requires low { j < length slots.old }
    requires room { position < 4294967295 }
    ensures slots { slots.new ≡ (if carried then slice_set slots.old j (Some position) else slots.old) }
    ensures next { result ≡ (if carried then position + 1 else position) }
{
    if !carried {
        return position;
    }
    slots.fill(j, position);
    position + 1
}

/// The position of each symbol among the carried ones, by its entry. `NoMemory` where memory ran
/// out. Linear in the entries of the symbol table and the names of symbols.
pub fn symbol_positions(
    alloc: Global,
    coff: &Coff,
    numbers: &[u32],
    sections: &Slots,
    tagged: &Slots,
) -> Result<Slots, NoMemory>
    requires clean { stage_fault (symbol_stage (files.tables_in coff.now)) ≡ None }
    requires numbers { numbered.AreNumbers coff.now numbers.now }
    requires positions { AreSlots (position_of (sections_in (files.tables_in coff.now))) (length (files.tables_in coff.now).sections + 1) sections.now }
    requires tagged { AreTagged (files.tables_in coff.now) tagged.now }
    ensures { IfOk result (λ slots. AreSlots (symbol_position (files.tables_in coff.now)) (length (files.tables_in coff.now).entries) slots) }
{
    coff.is_headed();
    let mut slots = Slots::empty(alloc, coff.entry_count())?;
    let mut position = 0;
    for i in 0..numbers.len() {
        let j = numbers[i];
        let carried = is_carried_symbol(coff, sections, tagged, j);
        position = place(&mut slots, carried, j, position);
    }
    Ok(slots)
}
