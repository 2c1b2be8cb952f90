//! The symbols of the object.
ghost use Rattle.std.specs.Prelude.{◌≡◌, ◌+◌, ◌<◌, length, None, Some, if◌then◌else◌, IfOk, OnOk};
ghost use Rattle.oc_linking.specs.FirstFault.{stage_fault};
ghost use Rattle.oc_shelf.specs.Reading.Slots.{AreSlots};
ghost use Rattle.oc_elf_read.specs.Built.{symbol_as, symboled};
ghost use Rattle.oc_elf.specs.CarriedSections.{position_of};
ghost use Rattle.oc_elf.specs.CarriedSymbols as symbols;
ghost use Rattle.oc_elf.specs.Entries as entries;
ghost use Rattle.oc_elf_judge.specs.Known.{IsSymtab, IsValued};
ghost use Rattle.oc_elf.specs.SectionRules.{section_stage};
ghost use Rattle.oc_elf.specs.SymbolRules.{symbol_stage};
ghost use Rattle.oc_elf.specs.Tables.{symbol_count};

use oc_base::{Bytes, NoMemory};
use oc_elf::{
    Frame, SHN_ABS, SHN_COMMON, SHN_UNDEF, STB_WEAK, STT_COMMON, STT_FUNC, STT_OBJECT, STV_DEFAULT,
    STV_HIDDEN, STV_INTERNAL, STV_PROTECTED, Shdr, Sym,
};
use oc_elf_judge::{entry_of, home_of, is_local, is_passed, name_of, symbol_count};
use oc_neutral::{Binding, Builder, Fallback, Mark, Symbol, Value, Visibility};
use oc_shelf::Slots;
use std::alloc::Global;

// the value that a section or the number ABS gives
fn value_of(frame: &Frame, positions: &Slots, s: &Sym) -> Option<Value>
    requires positions { AreSlots (position_of frame.now) (length frame.now.headers) positions.now }
    requires valued { IsValued frame.now s.now }
    ensures { result ≡ symbols.value_of frame.now s.now }
{
    if s.st_shndx == SHN_ABS {
        return Some(Value::Absolute(s.st_value));
    }
    match home_of(frame, positions, s) {
        Some(section) => Some(Value::Place {
            section,
            offset: s.st_value as u32,
        }),
        None => None,
    }
}

// the binding of a nonlocal symbol that is defined
fn defined_as(bind: u8, value: Value) -> Binding
    ensures { result ≡ symbols.defined_as bind value }
{
    match value {
        Value::Place { section, offset } => {
            if bind == STB_WEAK {
                Binding::Weak(Fallback::Place { section, offset })
            } else {
                Binding::Global(Value::Place { section, offset })
            }
        }
        Value::Absolute(n) => Binding::Global(Value::Absolute(n)),
    }
}

// the binding of a nonlocal symbol
fn public_binding(frame: &Frame, positions: &Slots, s: &Sym) -> Option<Binding>
    requires positions { AreSlots (position_of frame.now) (length frame.now.headers) positions.now }
    requires valued { IsValued frame.now s.now }
    ensures { result ≡ symbols.public_binding frame.now s.now }
{
    if s.st_shndx == SHN_UNDEF {
        return Some(if s.st_bind() == STB_WEAK {
            Binding::Weak(Fallback::Zero)
        } else {
            Binding::Undefined
        });
    }
    if s.st_shndx == SHN_COMMON {
        return Some(Binding::Common {
            size: s.st_size,
            align: s.st_value as u32,
        });
    }
    match value_of(frame, positions, s) {
        Some(value) => Some(defined_as(s.st_bind(), value)),
        None => None,
    }
}

// the binding of a symbol
#[tactic(auto, unfolding(oc_elf::specs::CarriedSymbols::binding_of))]
fn binding_of(frame: &Frame, positions: &Slots, s: &Sym) -> Option<Binding>
    requires positions { AreSlots (position_of frame.now) (length frame.now.headers) positions.now }
    requires valued { IsValued frame.now s.now }
    ensures { result ≡ symbols.binding_of frame.now s.now }
{
    if !is_local(s) {
        return public_binding(frame, positions, s);
    }
    match value_of(frame, positions, s) {
        Some(value) => Some(Binding::Local(value)),
        None => None,
    }
}

// what a symbol is declared to name
fn mark_of(s: &Sym) -> Mark
    ensures { result ≡ entries.mark_of s.now }
{
    match s.st_type() {
        STT_OBJECT | STT_COMMON => Mark::Object,
        STT_FUNC => Mark::Function,
        _ => Mark::NoType,
    }
}

// which modules see a symbol
fn visibility_of(s: &Sym) -> Visibility
    ensures { result ≡ entries.visibility_of s.now }
{
    match s.st_other % 4 {
        STV_DEFAULT => Visibility::Default,
        STV_INTERNAL => Visibility::Internal,
        STV_HIDDEN => Visibility::Hidden,
        STV_PROTECTED => Visibility::Protected,
        _ => unreachable!(),
    }
}

// symbol `k` of the object, with a binding
#[tactic(auto, unfolding(oc_elf::specs::CarriedSymbols::symbol_with))]
fn symbol_with(
    alloc: Global,
    frame: &Frame,
    table: &Shdr,
    k: u32,
    s: &Sym,
    binding: Binding,
) -> Result<Symbol, NoMemory>
    requires { IsSymtab frame.now table.now }
    ensures { IfOk result (λ y. y ≡ symbol_as (symbols.symbol_with frame.now k s.now binding)) }
{
    Ok(Symbol {
        name: Bytes::from_slice(alloc, name_of(frame, table, s))?,
        binding,
        mark: mark_of(s),
        vis: visibility_of(s),
        size: s.st_size,
        pinned: false,
        number: k,
    })
}

// the binding of a symbol, where it is carried
fn carried_binding(frame: &Frame, table: &Shdr, positions: &Slots, s: &Sym) -> Option<Binding>
    requires table { IsSymtab frame.now table.now }
    requires positions { AreSlots (position_of frame.now) (length frame.now.headers) positions.now }
    requires valued { IsValued frame.now s.now }
    ensures { result ≡ (if symbols.is_passed frame.now s.now then None else symbols.binding_of frame.now s.now) }
{
    if is_passed(frame, table, s) {
        return None;
    }
    binding_of(frame, positions, s)
}

// adds symbol `k`, where it is carried
#[tactic(auto, unfolding(oc_elf::specs::CarriedSymbols::symbol_of, oc_elf::specs::CarriedSymbols::symbol_by))]
fn add_symbol(
    alloc: Global,
    frame: &Frame,
    table: &Shdr,
    positions: &Slots,
    builder: &mut Builder,
    k: u32,
) -> Result<(), NoMemory>
    requires table { IsSymtab frame.now table.now }
    requires positions { AreSlots (position_of frame.now) (length frame.now.headers) positions.now }
    requires sections { stage_fault (section_stage frame.now) ≡ None }
    requires clean { stage_fault (symbol_stage frame.now) ≡ None }
    requires there { k < symbol_count frame.now }
    requires before { builder.old ≡ symboled frame.now k }
    ensures { OnOk result (builder.new ≡ symboled frame.now (k + 1)) }
{
    frame.is_frame();
    if k == 0 {
        return Ok(());
    }
    let s = entry_of(frame, table, k);
    match carried_binding(frame, table, positions, &s) {
        None => Ok(()),
        Some(binding) => {
            let symbol = symbol_with(alloc, frame, table, k, &s, binding)?;
            builder.add_new_symbol(symbol)?;
            Ok(())
        }
    }
}

/// Adds the carried symbols. `NoMemory` where memory ran out. Linear in the symbols and their names.
pub(crate) fn add_symbols(
    alloc: Global,
    frame: &Frame,
    table: &Shdr,
    positions: &Slots,
    builder: &mut Builder,
) -> Result<(), NoMemory>
    requires table { IsSymtab frame.now table.now }
    requires positions { AreSlots (position_of frame.now) (length frame.now.headers) positions.now }
    requires sections { stage_fault (section_stage frame.now) ≡ None }
    requires clean { stage_fault (symbol_stage frame.now) ≡ None }
    requires before { builder.old ≡ symboled frame.now 0 }
    ensures { OnOk result (builder.new ≡ symboled frame.now (symbol_count frame.now)) }
{
    for k in 0..symbol_count(frame, table) {
        add_symbol(alloc, frame, table, positions, builder, k)?;
    }
    Ok(())
}
