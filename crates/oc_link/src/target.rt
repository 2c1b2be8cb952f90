//! The values of what fields refer to.
ghost use Rattle.std.specs.Prelude.{◌≡◌, ◌<◌, length, slice_get, Some};
ghost use Rattle.oc_neutral.specs.declared.symbol.Symbol.{Symbol as SymbolValue};
ghost use Rattle.oc_neutral.specs.Invariants.{IsThere, NamesOriginal};
ghost use Rattle.oc_neutral.specs.Worth.{target_worth};
ghost use Rattle.oc_place.specs.Placings.{IsPlacingOf};
ghost use Rattle.oc_link.specs.Values as values;

use crate::spots::spot_of;
use oc_linking::Binding;
use oc_neutral::{Neutral, Target};
use oc_place::{Placements, Spot};

/// The value of a target.
#[derive(Clone, Copy, Debug)]
pub(crate) struct TargetValue {
    /// Where it lies.
    pub(crate) spot: Spot,
    /// The address of its slot; 0 where it has none.
    pub(crate) slot: u64,
}

// the slot of a symbol; a Local has none
fn slot_of(object: &Neutral, placed: &Placements, k: u32) -> u64
    requires there { k < length object.now.symbols }
    requires placing { IsPlacingOf object.now placed.now }
    ensures { (s : SymbolValue) → slice_get object.now.symbols k ≡ Some s → result ≡ (values.value_in object.now placed.now s).slot }
{
    object.is_object();
    match object.symbol(k).binding {
        Binding::Local(_) => 0,
        Binding::Global(_) => placed.outside(k).slot,
        Binding::Undefined => placed.outside(k).slot,
        Binding::Common { .. } => placed.outside(k).slot,
        Binding::Weak(_) => placed.outside(k).slot,
    }
}

/// The value of a target. Constant time, no memory.
pub(crate) fn value_of(object: &Neutral, placed: &Placements, target: Target) -> TargetValue
    requires there { IsThere object.now target }
    requires original { NamesOriginal object.now.symbols target }
    requires placing { IsPlacingOf object.now placed.now }
    ensures { values.as_valued result ≡ target_worth object.now.symbols (values.laid object.now placed.now) (values.valued object.now placed.now) target }
{
    object.is_object();
    match target {
        Target::Section(k) => TargetValue {
            spot: placed.section(k),
            slot: 0,
        },
        Target::Symbol(k) => TargetValue {
            spot: spot_of(object, placed, k),
            slot: slot_of(object, placed, k),
        },
    }
}
