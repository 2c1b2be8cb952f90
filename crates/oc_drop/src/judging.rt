//! Why dropping sections is refused.
ghost use Rattle.std.specs.Prelude.{◌≡◌, ◌<◌, IfOk, length, slice_get, Some};
ghost use Rattle.oc_linking.specs.Parts as parts;
ghost use Rattle.oc_chains.specs.Lists.{list_of};
ghost use Rattle.oc_neutral.specs.Without.{refers_to_dropped};
ghost use Rattle.oc_drop.specs.Steps.{first_field, first_in};
ghost use Rattle.oc_drop.specs.Dropping as dropping;

use crate::fault::edit_fault;
use oc_base::{Code, Fault};
use oc_chains::Field;
use oc_neutral::{
    Binding, Less, Neutral, Reloc, Section, Symbol, Target, is_dropped, lies_in_dropped,
};

/// Whether a symbol is a Local. Constant time, no memory.
pub fn is_local(binding: Binding) -> bool
    ensures { result ≡ parts.is_local binding }
{
    matches!(binding, Binding::Local(_))
}

// the fault of a nonlocal symbol in a dropped section
fn dropped_symbol(stay: &[bool], symbol: &Symbol) -> Option<Fault>
    ensures { result ≡ dropping.dropped_symbol stay.now symbol.now }
{
    if !is_local(symbol.binding) && lies_in_dropped(stay, symbol) {
        return Some(edit_fault(Code::SymbolInDropped, symbol.number, 0));
    }
    None
}

/// The first nonlocal symbol in a dropped section. Linear in the symbols, no memory.
pub(crate) fn symbols_fault(stay: &[bool], symbols: &[Symbol]) -> Option<Fault>
    ensures { result ≡ first_in (dropping.dropped_symbol stay.now) symbols.now }
{
    for symbol in symbols {
        let fault = dropped_symbol(stay, symbol);
        if fault.is_some() {
            return fault;
        }
    }
    None
}

// whether a relocation refers to a dropped section
fn refers_to_dropped(stay: &[bool], reloc: Reloc) -> bool
    ensures { result ≡ refers_to_dropped stay.now reloc }
{
    let target = match reloc.target {
        Target::Section(at) => is_dropped(stay, at),
        Target::Symbol(_) => false,
    };
    let taken = match reloc.form.less {
        Less::Section(at) => is_dropped(stay, at),
        _ => false,
    };
    target || taken
}

// the fault of a field that refers to a dropped section, where its own stays
fn dropped_reference(
    stay: &[bool],
    at: u32,
    section: &Section,
    field: Field<Reloc>,
) -> Option<Fault>
    ensures { result ≡ dropping.dropped_reference stay.now at section.now field }
{
    if !is_dropped(stay, at) && refers_to_dropped(stay, field.item) {
        return Some(edit_fault(Code::RelocToDropped, section.number, field.at.into()));
    }
    None
}

// the first such field of a section
fn section_fault(stay: &[bool], neutral: &Neutral, at: u32) -> Option<Fault>
    requires { at < length neutral.now.sections }
    ensures { result ≡ dropping.section_fault stay.now neutral.now at }
{
    let section = neutral.section(at);
    for field in neutral.relocs(at) {
        let fault = dropped_reference(stay, at, section, field);
        if fault.is_some() {
            return fault;
        }
    }
    None
}

/// The first field of a section that stays and refers to a dropped one, by sections and offsets.
/// Linear in the fields, no memory.
pub(crate) fn references_fault(stay: &[bool], neutral: &Neutral) -> Option<Fault>
    ensures { result ≡ first_field (dropping.dropped_reference stay.now) neutral.now }
{
    for at in 0..neutral.section_count() {
        let fault = section_fault(stay, neutral, at);
        if fault.is_some() {
            return fault;
        }
    }
    None
}
