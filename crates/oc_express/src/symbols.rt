//! What a target can express of symbols.
ghost use Rattle.std.specs.Prelude.{◌≡◌, false, slice_get};
ghost use Rattle.std.specs.Option.{option_map, option_map_or};
ghost use Rattle.oc_base.specs.Faults.{fault_at};
ghost use Rattle.oc_linking.specs.FirstFault.{first_broken};
ghost use Rattle.oc_neutral.specs.Bindings as bindings;
ghost use Rattle.oc_neutral.specs.Families.{family_of};
ghost use Rattle.oc_neutral.specs.TargetSymbols as conditions;
ghost use Rattle.oc_neutral.specs.Tests as tests;
ghost use Rattle.oc_express.specs.Firsts.{symbols_first};

use crate::sections::is_too_long;
use oc_base::{Code, Fault, Format, Phase, Spot};
use oc_neutral::{Binding, Fallback, Neutral, Symbol, Value};
use oc_target::{global_place, group_at, has_nul, is_local, is_long_number, natural_align};

// whether the target cannot write the name of a symbol
fn is_unwritable(target: Format, symbol: &Symbol) -> bool
    ensures { result ≡ conditions.is_unwritable target symbol.now }
{
    let name = symbol.name.as_slice();
    match target {
        Format::Elf32
        | Format::Elf64
        | Format::BigElf32
        | Format::BigElf64
        | Format::Coff32
        | Format::Coff64
        | Format::BigCoff32
        | Format::BigCoff64
        | Format::Mac32
        | Format::Mac64 => has_nul(name),
        Format::Omf => !is_local(symbol.binding) && is_too_long(name),
    }
}

/// Whether the value is an absolute number. Constant time.
pub(crate) fn is_absolute(value: Value) -> bool
    ensures { result ≡ bindings.is_absolute value }
{
    match value {
        Value::Place { .. } => false,
        Value::Absolute(_) => true,
    }
}

// whether a Global of this value cannot be written
fn lacks_value(target: Format, value: Value) -> bool
    ensures { result ≡ (family_of target).lacks_value value }
{
    match target {
        Format::Elf32
        | Format::Elf64
        | Format::BigElf32
        | Format::BigElf64
        | Format::Coff32
        | Format::BigCoff32
        | Format::Mac32
        | Format::Mac64 => false,
        Format::Coff64 | Format::BigCoff64 => is_long_number(value),
        Format::Omf => is_absolute(value),
    }
}

// whether it is a Global with an absolute value that the target cannot write
fn is_absolute_form(target: Format, binding: Binding) -> bool
    ensures { result ≡ conditions.is_absolute_form target binding }
{
    match binding {
        Binding::Global(value) => lacks_value(target, value),
        Binding::Local(_) | Binding::Undefined | Binding::Common { .. } | Binding::Weak(_) => false,
    }
}

// whether the size cannot be written, or the alignment is not given to a common of that size
fn is_unnatural(size: u64, align: u32) -> bool
    ensures { result ≡ tests.is_unnatural size align }
{
    size == 0 || size > 0xFFFF_FFFF || align > natural_align(size)
}

// whether a common of this size and alignment cannot be written
fn lacks_common(target: Format, size: u64, align: u32) -> bool
    ensures { result ≡ (family_of target).lacks_common size align }
{
    match target {
        Format::Elf32 | Format::Elf64 | Format::BigElf32 | Format::BigElf64 => false,
        Format::Coff32 | Format::Coff64 | Format::BigCoff32 | Format::BigCoff64 | Format::Omf =>
            is_unnatural(size, align),
        Format::Mac32 | Format::Mac64 => size == 0 || align > 1 << 15,
    }
}

// whether it is a common that the target cannot write
fn is_common_form(target: Format, binding: Binding) -> bool
    ensures { result ≡ conditions.is_common_form target binding }
{
    match binding {
        Binding::Common { size, align } => lacks_common(target, size, align),
        Binding::Local(_) | Binding::Global(_) | Binding::Undefined | Binding::Weak(_) => false,
    }
}

// whether the symbol is a Global with a place in a section that is in no group
fn is_steady(neutral: &Neutral, symbol: &Symbol) -> bool
    ensures { result ≡ tests.is_steady neutral.now symbol.now }
{
    match global_place(symbol.binding) {
        Some((section, _)) => group_at(neutral, section).is_none(),
        None => false,
    }
}

// whether the symbol at a position exists, and is such a Global
fn is_steady_at(neutral: &Neutral, at: u32) -> bool
    ensures { result ≡ option_map_or (tests.is_steady neutral.now) (slice_get neutral.now.symbols at) false }
{
    at < neutral.symbol_count() && is_steady(neutral, neutral.symbol(at))
}

// whether it is a fallback Name of a symbol that is no such Global
fn is_unsteady_name(neutral: &Neutral, fallback: Fallback) -> bool
    ensures { result ≡ tests.is_unsteady_name neutral.now fallback }
{
    match fallback {
        Fallback::Name(at) => !is_steady_at(neutral, at),
        Fallback::Place { .. } | Fallback::Zero => false,
    }
}

// whether a Weak with this fallback cannot be written
fn lacks_weak(target: Format, neutral: &Neutral, fallback: Fallback) -> bool
    ensures { result ≡ (family_of target).lacks_weak neutral.now fallback }
{
    match target {
        Format::Elf32
        | Format::Elf64
        | Format::BigElf32
        | Format::BigElf64
        | Format::Mac32
        | Format::Mac64 => { is_unsteady_name(neutral, fallback) }
        Format::Coff32 | Format::Coff64 | Format::BigCoff32 | Format::BigCoff64 => false,
        Format::Omf => true,
    }
}

// whether it is a Weak that the target cannot write
fn is_weak_form(target: Format, neutral: &Neutral, binding: Binding) -> bool
    ensures { result ≡ conditions.is_weak_form target neutral.now binding }
{
    match binding {
        Binding::Weak(fallback) => lacks_weak(target, neutral, fallback),
        Binding::Local(_) | Binding::Global(_) | Binding::Undefined | Binding::Common { .. } =>
            false,
    }
}

// the code of the first condition that a symbol breaks
#[tactic(auto, unfolding(oc_neutral::specs::TargetSymbols::symbol_conditions))]
fn code_of(target: Format, neutral: &Neutral, symbol: &Symbol) -> Option<Code>
    ensures { option_map (fault_at (conditions.symbol_spot symbol.now)) result ≡ first_broken (conditions.symbol_conditions target neutral.now symbol.now) }
{
    if is_unwritable(target, symbol) {
        Some(Code::NameForm)
    } else if is_absolute_form(target, symbol.binding) {
        Some(Code::AbsoluteForm)
    } else if is_common_form(target, symbol.binding) {
        Some(Code::CommonForm)
    } else if is_weak_form(target, neutral, symbol.binding) {
        Some(Code::WeakForm)
    } else {
        None
    }
}

// what a symbol breaks
fn symbol_spot(symbol: &Symbol) -> Spot
    ensures { result ≡ conditions.symbol_spot symbol.now }
{
    Spot {
        phase: Phase::TargetSymbol,
        index: symbol.number,
        place: 0,
    }
}

/// The first fault of the symbols of an object in a target, in the order of the list. Time is linear in
/// the symbols and their names; no memory.
pub(crate) fn symbols_fault(target: Format, neutral: &Neutral) -> Option<Fault>
    ensures { result ≡ symbols_first target neutral.now }
{
    for k in 0..neutral.symbol_count() {
        let symbol = neutral.symbol(k);
        if let Some(code) = code_of(target, neutral, symbol) {
            return Some(symbol_spot(symbol).fault(code));
        }
    }
    None
}
