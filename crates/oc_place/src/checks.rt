//! What is wrong with sections and symbols that are placed so.
ghost use Rattle.std.specs.Prelude.{◌≡◌, ◌+◌, ◌-◌, ◌^◌, ◌<◌, ◌≤◌, get_or, length, slice_get, None, Some, IfSome, MatchOption};
ghost use Rattle.oc_neutral.specs.Invariants.{IsAlign, IsMember, IsBinding, IsValue, IsObject};
ghost use Rattle.oc_place.specs.Placings as placings;
ghost use Rattle.oc_place.specs.Footprints.{plot_of, footprint_of};
ghost use Rattle.oc_linking.specs.Numbers.{first_upto};
ghost use Rattle.oc_place.specs.Faults.{IsFirst, IsFor};

use crate::fault::{PlaceCode, PlaceFault};
use crate::notebook::Notebook;
use crate::spot::Spot;
use oc_base::{Word, word_of};
use oc_linking::{Binding, Fallback, Value, modulus};
use oc_neutral::{Neutral, Section, Symbol};

// what is wrong with a section that lies there
fn spot_code(word: Word, section: &Section, spot: Option<Spot>) -> Option<PlaceCode>
    requires { IsAlign section.now.align }
    ensures { result ≡ placings.spot_code word (plot_of section.now) spot }
{
    let Some(spot) = spot else {
        return Some(PlaceCode::Unplaced);
    };
    if spot.address % u64::from(section.align) != 0 {
        return Some(PlaceCode::Misaligned);
    }
    if u128::from(spot.address) + u128::from(section.size) > modulus(word) {
        return Some(PlaceCode::PastEnd);
    }
    None
}

// what is wrong with the section at a position
fn section_code(object: &Neutral, notebook: &Notebook, k: u32) -> Option<PlaceCode>
    requires there { k < length object.now.sections }
    requires counted { IsFor object.now notebook.now }
    ensures { placings.section_bad (footprint_of object.now) notebook.now k ≡ placings.at_position k result }
{
    object.is_object();
    let section = object.section(k);
    if notebook.is_dropped(section.group) {
        return None;
    }
    spot_code(word_of(object.format()), section, notebook.spot(k))
}

// the address of a name is missing
fn unnamed(spot: Option<Spot>) -> Option<PlaceCode>
    ensures { result ≡ placings.unnamed spot }
{
    match spot {
        None => Some(PlaceCode::Unnamed),
        Some(_) => None,
    }
}

// what is wrong with the address of a common
fn common_code(align: u32, spot: Option<Spot>) -> Option<PlaceCode>
    requires { IsAlign align }
    ensures { result ≡ placings.common_code align spot }
{
    let Some(spot) = spot else {
        return Some(PlaceCode::Unnamed);
    };
    if spot.address % u64::from(align) != 0 {
        return Some(PlaceCode::Misaligned);
    }
    None
}

// what is wrong with what the outside gives a symbol, by whether it is lost
fn given_code(binding: Binding, lost: bool, spot: Option<Spot>) -> Option<PlaceCode>
    requires { placings.IsCommonAligned binding }
    ensures { result ≡ placings.given_code binding lost spot }
{
    match binding {
        Binding::Local(_) => None,
        Binding::Global(_) => {
            if lost {
                unnamed(spot)
            } else if spot.is_some() {
                Some(PlaceCode::Defined)
            } else {
                None
            }
        }
        Binding::Undefined => unnamed(spot),
        Binding::Common { align, .. } => common_code(align, spot),
        Binding::Weak(_) => { if lost { unnamed(spot) } else { None } }
    }
}

// whether the section at a position is discarded
fn is_gone(object: &Neutral, notebook: &Notebook, section: u32) -> bool
    requires there { section < length object.now.sections }
    requires counted { IsFor object.now notebook.now }
    ensures { result ≡ placings.is_dropped notebook.now.dropped (placings.group_at (footprint_of object.now).sections section) }
{
    object.is_object();
    notebook.is_dropped(object.section(section).group)
}

// whether the place of a binding is in a section that is discarded
fn is_lost(object: &Neutral, notebook: &Notebook, binding: Binding) -> bool
    requires binding { IsBinding object.now binding }
    requires counted { IsFor object.now notebook.now }
    ensures { result ≡ placings.is_lost (footprint_of object.now) notebook.now binding }
{
    match binding {
        Binding::Global(Value::Place { section, .. }) => is_gone(object, notebook, section),
        Binding::Global(Value::Absolute(_)) => false,
        Binding::Weak(Fallback::Place { section, .. }) => is_gone(object, notebook, section),
        Binding::Weak(Fallback::Zero) => false,
        Binding::Weak(Fallback::Name(_)) => false,
        Binding::Local(_) => false,
        Binding::Undefined => false,
        Binding::Common { .. } => false,
    }
}

// what is wrong with the symbol at a position
fn symbol_code(object: &Neutral, notebook: &Notebook, k: u32) -> Option<PlaceCode>
    requires there { k < length object.now.symbols }
    requires counted { IsFor object.now notebook.now }
    ensures { placings.symbol_bad (footprint_of object.now) notebook.now k ≡ placings.at_position k result }
{
    object.is_object();
    let binding = object.symbol(k).binding;
    given_code(
        binding,
        is_lost(object, notebook, binding),
        notebook.given(k).spot,
    )
}

// the first section that is at fault
fn check_sections(object: &Neutral, notebook: &Notebook) -> Result<(), PlaceFault>
    requires { IsFor object.now notebook.now }
    ensures { IsFirst result (first_upto (placings.section_bad (footprint_of object.now) notebook.now) (length object.now.sections)) }
{
    for k in 0..object.section_count() {
        if let Some(code) = section_code(object, notebook, k) {
            return Err(PlaceFault::Bad { line: k + 1, code });
        }
    }
    Ok(())
}

// the first symbol that is at fault
fn check_symbols(object: &Neutral, notebook: &Notebook) -> Result<(), PlaceFault>
    requires { IsFor object.now notebook.now }
    ensures { IsFirst result (first_upto (placings.symbol_bad (footprint_of object.now) notebook.now) (length object.now.symbols)) }
{
    for k in 0..object.symbol_count() {
        if let Some(code) = symbol_code(object, notebook, k) {
            return Err(PlaceFault::Bad { line: k + 1, code });
        }
    }
    Ok(())
}

/// Whether all is placed well: the first section that is at fault, or else the first symbol. Linear in
/// their numbers, no memory.
pub(crate) fn check(object: &Neutral, notebook: &Notebook) -> Result<(), PlaceFault>
    requires { IsFor object.now notebook.now }
    ensures { IsFirst result (placings.first_bad (footprint_of object.now) notebook.now) }
{
    check_sections(object, notebook)?;
    check_symbols(object, notebook)
}
