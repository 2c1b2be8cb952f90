//! Which sections and symbols are carried, and their positions.
ghost use Rattle.std.specs.Prelude.{◌≡◌, ◌+◌, ◌<◌, ◌≤◌, length, is_some, None, Some, if◌then◌else◌, IfOk};
ghost use Rattle.oc_linking.specs.FirstFault.{stage_fault};
ghost use Rattle.oc_shelf.specs.Reading.Collected.{collected, position_in};
ghost use Rattle.oc_shelf.specs.Reading.Slots.{AreSlots};
ghost use Rattle.oc_elf.specs.CarriedSections.{position_of, section_of};
ghost use Rattle.oc_elf.specs.CarriedSymbols as symbols;
ghost use Rattle.oc_elf_judge.specs.Known.{IsSymtab};
ghost use Rattle.oc_elf.specs.SectionRules.{section_stage};
ghost use Rattle.oc_elf.specs.SymbolRules.{symbol_stage};
ghost use Rattle.oc_elf.specs.Tables.{symbol_count};

use crate::bindings::is_carried_symbol;
use crate::symbols::symbol_count;
use oc_base::NoMemory;
use oc_elf::{Frame, Shdr, is_carried_type};
use oc_shelf::Slots;
use std::alloc::Global;

// the next position, where the entry at a number is carried
fn next_of(carried: bool, position: u32) -> Option<u32>
    ensures { result ≡ (if carried then Some position else None) }
{
    if carried { Some(position) } else { None }
}

// whether section `k` is carried
fn is_carried(frame: &Frame, k: u32) -> bool
    ensures { result ≡ is_some (section_of frame.now k) }
{
    is_carried_type(frame.header(k).sh_type)
}

/// The position of each section among the carried ones, by its number. `NoMemory` where memory ran
/// out. Linear in the section headers.
pub(crate) fn section_positions(alloc: Global, frame: &Frame) -> Result<Slots, NoMemory>
    ensures { IfOk result (λ slots. AreSlots (position_of frame.now) (length frame.now.headers) slots) }
{
    let mut slots = Slots::empty(alloc, 0)?;
    let mut position = 0;
    for k in 0..frame.count() {
        let carried = is_carried(frame, k);
        slots.push(next_of(carried, position))?;
        position += u32::from(carried);
    }
    Ok(slots)
}

/// The position of each symbol among the carried ones, by its number. `NoMemory` where memory ran
/// out. Linear in the symbols and their names.
pub(crate) fn symbol_positions(
    alloc: Global,
    frame: &Frame,
    table: &Shdr,
    sections: &Slots,
) -> Result<Slots, NoMemory>
    requires table { IsSymtab frame.now table.now }
    requires positions { AreSlots (position_of frame.now) (length frame.now.headers) sections.now }
    ensures { IfOk result (λ slots. AreSlots (symbols.symbol_position frame.now) (symbol_count frame.now) slots) }
{
    let mut slots = Slots::empty(alloc, 0)?;
    let mut position = 0;
    for k in 0..symbol_count(frame, table) {
        let carried = is_carried_symbol(frame, table, sections, k);
        slots.push(next_of(carried, position))?;
        position += u32::from(carried);
    }
    Ok(slots)
}
