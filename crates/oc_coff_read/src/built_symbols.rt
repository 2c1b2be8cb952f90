//! The symbols of the object.
ghost use Rattle.std.specs.Prelude.{◌≡◌, ◌+◌, ◌<◌, length, slice_get, None, Some, IfOk, OnOk};
ghost use Rattle.oc_linking.specs.FirstFault.{stage_fault};
ghost use Rattle.oc_shelf.specs.Reading.Slots.{AreSlots};
ghost use Rattle.oc_coff.specs.Entries as entries;
ghost use Rattle.oc_coff.specs.SymbolFaults.{symbol_stage};
ghost use Rattle.oc_coff.specs.Files as files;
ghost use Rattle.oc_coff_read.specs.Built as built;
ghost use Rattle.oc_coff_judge.specs.Found.{ArePositions};
ghost use Rattle.oc_coff_judge.specs.Numbered as numbered;
ghost use Rattle.oc_coff_judge.specs.Tagged as tagged;

use oc_base::{Bytes, NoMemory, Word};
use oc_coff::{Coff, SymbolEntry};
use oc_coff_judge::{binding_of, mark_of, name_by};
use oc_neutral::{Binding, Builder, Fallback, Symbol, Visibility, are_bytes};
use oc_shelf::Slots;
use std::alloc::Global;

/// The positions of the sections and symbols of a file among the carried ones.
#[derive(Clone, Copy)]
pub(crate) struct Positions<'a> {
    /// The position of each section, by its number.
    pub(crate) sections: &'a Slots,
    /// The entries that weak externals tag.
    pub(crate) tagged: &'a Slots,
    /// The position of each symbol, by its entry.
    pub(crate) symbols: &'a Slots,
}

// a fallback whose symbol is named by its entry, with that symbol's position
fn placed_fallback(positions: &Slots, fallback: Fallback) -> Fallback
    ensures { result ≡ tagged.placed_fallback positions.now fallback }
{
    match fallback {
        Fallback::Name(j) => Fallback::Name(positions.get(j).unwrap_or(j)),
        Fallback::Place { section, offset } => Fallback::Place { section, offset },
        Fallback::Zero => Fallback::Zero,
    }
}

// the same of a binding
fn placed_binding(positions: &Slots, binding: Binding) -> Binding
    ensures { result ≡ tagged.placed_binding positions.now binding }
{
    match binding {
        Binding::Weak(fallback) => Binding::Weak(placed_fallback(positions, fallback)),
        Binding::Local(value) => Binding::Local(value),
        Binding::Global(value) => Binding::Global(value),
        Binding::Undefined => Binding::Undefined,
        Binding::Common { size, align } => Binding::Common { size, align },
    }
}

// the symbol of entry `j`, with that binding
#[tactic(auto, unfolding(oc_coff_judge::specs::Numbered::entry_by))]
fn symbol_with(
    alloc: Global,
    coff: &Coff,
    j: u32,
    s: &SymbolEntry,
    binding: Binding,
) -> Result<Symbol, NoMemory>
    requires { s.now ≡ (numbered.entry_by coff.now j).symbol }
    ensures { IfOk result (λ y. y ≡ tagged.symbol_as coff.now j binding) }
{
    Ok(Symbol {
        name: Bytes::from_slice(alloc, name_by(coff, s))?,
        binding,
        mark: mark_of(s),
        vis: Visibility::Default,
        size: 0,
        pinned: false,
        number: j,
    })
}

// adds symbol `i` of all, which is entry `j`, where it is carried
#[tactic(auto, unfolding(oc_coff_judge::specs::Numbered::entry_by))]
fn add_symbol(
    alloc: Global,
    word: Word,
    coff: &Coff,
    positions: &Positions,
    builder: &mut Builder,
    i: usize,
    j: u32,
) -> Result<(), NoMemory>
    requires clean { stage_fault (symbol_stage (files.tables_in coff.now)) ≡ None }
    requires there { j < length (files.tables_in coff.now).entries }
    requires here { slice_get (entries.entries_in (files.tables_in coff.now)) i ≡ Some (numbered.entry_by coff.now j) }
    requires sections { ArePositions coff.now positions.now.sections.now }
    requires tagged { tagged.AreTagged (files.tables_in coff.now) positions.now.tagged.now }
    requires symbols { AreSlots (tagged.symbol_position (files.tables_in coff.now)) (length (files.tables_in coff.now).entries) positions.now.symbols.now }
    requires before { builder.old ≡ built.symboled word (files.tables_in coff.now) i }
    ensures { OnOk result (builder.new ≡ built.symboled word (files.tables_in coff.now) (i + 1)) }
{
    coff.is_headed();
    are_bytes(coff.file());
    let s = coff.symbol(j);
    match binding_of(coff, positions.sections, positions.tagged, j, &s) {
        None => Ok(()),
        Some(binding) => {
            let placed = placed_binding(positions.symbols, binding);
            let symbol = symbol_with(alloc, coff, j, &s, placed)?;
            builder.add_new_symbol(symbol)?;
            Ok(())
        }
    }
}

/// Adds the carried symbols. `NoMemory` where memory ran out. Linear in the symbols and their names.
pub(crate) fn add_symbols(
    alloc: Global,
    word: Word,
    coff: &Coff,
    numbers: &[u32],
    positions: &Positions,
    builder: &mut Builder,
) -> Result<(), NoMemory>
    requires clean { stage_fault (symbol_stage (files.tables_in coff.now)) ≡ None }
    requires numbers { numbered.AreNumbers coff.now numbers.now }
    requires sections { ArePositions coff.now positions.now.sections.now }
    requires tagged { tagged.AreTagged (files.tables_in coff.now) positions.now.tagged.now }
    requires symbols { AreSlots (tagged.symbol_position (files.tables_in coff.now)) (length (files.tables_in coff.now).entries) positions.now.symbols.now }
    requires before { builder.old ≡ built.symboled word (files.tables_in coff.now) 0 }
    ensures { OnOk result (builder.new ≡ built.symboled word (files.tables_in coff.now) (length (entries.entries_in (files.tables_in coff.now)))) }
{
    for i in 0..numbers.len() {
        add_symbol(alloc, word, coff, positions, builder, i, numbers[i])?;
    }
    Ok(())
}
