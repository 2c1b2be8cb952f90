//! The symbols of the object.
ghost use Rattle.std.specs.Prelude.{◌≡◌, ◌+◌, ◌<◌, ◌&&◌, if◌then◌else◌, length, None, IfOk, OnOk};
ghost use Rattle.oc_neutral.specs.KindRules.{has};
ghost use Rattle.oc_linking.specs.FirstFault.{stage_fault};
ghost use Rattle.oc_shelf.specs.Reading.Slots.{AreSlots};
ghost use Rattle.oc_macho.specs.SectionFaults.{section_stage};
ghost use Rattle.oc_macho.specs.SymbolFaults.{symbol_stage};
ghost use Rattle.oc_macho.specs.Symbols as symbols;
ghost use Rattle.oc_macho_read.specs.Built as built;

use crate::bindings::binding_of;
use crate::pins::pins_of;
use oc_base::{Bytes, NoMemory};
use oc_macho::{Frame, N_PEXT, Nlist, has};
use oc_macho_judge::{is_external, is_own, is_stab, name_of};
use oc_neutral::{Builder, Keep, Mark, Symbol, Visibility};
use oc_shelf::Slots;
use std::alloc::Global;

// whether a symbol is carried
fn is_carried(alloc: Global, frame: &Frame, s: &Nlist) -> Result<bool, NoMemory>
    ensures { IfOk result (λ carried. carried ≡ symbols.is_carried frame.now s.now) }
{
    let own = is_own(alloc, frame, s)?;
    Ok(!is_stab(s) && !own && (is_external(s) || !name_of(frame, s).is_empty()))
}

// which modules see a symbol
fn visibility_of(s: &Nlist) -> Visibility
    ensures { result ≡ (if symbols.is_external s.now && has s.now.n_type N_PEXT then Visibility.Hidden else Visibility.Default) }
{
    if is_external(s) && has(s.n_type.into(), N_PEXT.into()) {
        Visibility::Hidden
    } else {
        Visibility::Default
    }
}

// symbol `j` of the object
fn symbol_of(
    alloc: Global,
    frame: &Frame,
    pinned: bool,
    j: u32,
    s: &Nlist,
) -> Result<Symbol, NoMemory>
    requires { built.IsSound frame.now s.now }
    ensures { IfOk result (λ x. x ≡ built.symbol_as frame.now pinned j s.now) }
{
    Ok(Symbol {
        name: Bytes::from_slice(alloc, name_of(frame, s))?,
        binding: binding_of(frame, s),
        mark: Mark::NoType,
        vis: visibility_of(s),
        size: 0,
        pinned,
        number: j,
    })
}

/// Adds the carried symbols, and gives the position of each, by its number. `NoMemory` where memory
/// ran out. Linear in the symbols and their names, the sections and the relocation entries.
pub(crate) fn add_symbols(
    alloc: Global,
    frame: &Frame,
    keep: &Keep,
    builder: &mut Builder,
) -> Result<Slots, NoMemory>
    requires sections { stage_fault (section_stage frame.now) ≡ None }
    requires symbols { stage_fault (symbol_stage frame.now) ≡ None }
    requires before { builder.old ≡ built.symboled frame.now keep.now 0 }
    ensures added { OnOk result (builder.new ≡ built.started frame.now keep.now) }
    ensures placed { IfOk result (λ positions. AreSlots (built.symbol_position frame.now keep.now) (length frame.now.symbols) positions) }
{
    let pins = pins_of(alloc, frame, keep)?;
    let mut positions = Slots::empty(alloc, 0)?;
    let count = frame.symbol_count();
    for j in 0..count {
        let s = frame.symbol(j);
        let carried = is_carried(alloc, frame, &s)?;
        if !carried {
            positions.push(None)?;
            continue;
        }
        let symbol = symbol_of(alloc, frame, pins[j as usize], j, &s)?;
        let position = builder.add_new_symbol(symbol)?;
        positions.push(Some(position))?;
    }
    Ok(positions)
}
