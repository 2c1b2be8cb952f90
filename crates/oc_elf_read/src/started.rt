//! The groups, sections and symbols of the object, before its relocations.
ghost use Rattle.std.specs.Prelude.{◌≡◌, length, None, IfOk};
ghost use Rattle.oc_linking.specs.FirstFault.{stage_fault};
ghost use Rattle.oc_shelf.specs.Reading.Slots.{AreSlots};
ghost use Rattle.oc_elf_read.specs.Built.{symboled};
ghost use Rattle.oc_elf.specs.CarriedSections.{position_of};
ghost use Rattle.oc_elf.specs.Groups.{owner_among};
ghost use Rattle.oc_elf_judge.specs.Known.{AreSigned, IsSymtab};
ghost use Rattle.oc_elf.specs.SectionRules.{section_stage};
ghost use Rattle.oc_elf.specs.SymbolRules.{symbol_stage};
ghost use Rattle.oc_elf.specs.Tables.{symbol_count};

use crate::built_groups::add_groups;
use crate::built_sections::{Memberships, add_sections};
use crate::built_symbols::add_symbols;
use oc_base::NoMemory;
use oc_elf::{Frame, Shdr};
use oc_neutral::Builder;
use oc_shelf::Slots;
use std::alloc::Global;

/// The groups, sections and symbols of a file that are carried, where `owners` has the group of each
/// section, and `positions` its position among the carried ones. `NoMemory` where memory ran out.
/// Linear in the section headers and the symbols, their names, the keys of groups, and the bytes of
/// sections.
pub(crate) fn start(
    alloc: Global,
    frame: &Frame,
    table: &Shdr,
    owners: &Slots,
    positions: &Slots,
) -> Result<Builder, NoMemory>
    requires sections { stage_fault (section_stage frame.now) ≡ None }
    requires symbols { stage_fault (symbol_stage frame.now) ≡ None }
    requires table { IsSymtab frame.now table.now }
    requires signed { AreSigned frame.now }
    requires owners { AreSlots (owner_among frame.now (length frame.now.headers)) (length frame.now.headers) owners.now }
    requires positions { AreSlots (position_of frame.now) (length frame.now.headers) positions.now }
    ensures { IfOk result (λ b. b ≡ symboled frame.now (symbol_count frame.now)) }
{
    let mut builder = Builder::new(alloc, frame.class().format());
    let begun = add_groups(alloc, frame, table, owners, &mut builder)?;
    let known = Memberships {
        owners,
        begun: &begun,
    };
    add_sections(alloc, frame, &known, &mut builder)?;
    add_symbols(alloc, frame, table, positions, &mut builder)?;
    Ok(builder)
}
