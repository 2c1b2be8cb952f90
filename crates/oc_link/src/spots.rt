//! Where symbols lie.
ghost use Rattle.std.specs.Prelude.{◌≡◌, ℕ, ◌<◌, false, List, length, slice_get, Some};
ghost use Rattle.std.specs.Option.{option_map, unwrap_or};
ghost use Rattle.oc_base.specs.Formats.{word_for};
ghost use Rattle.oc_linking.specs.Parts.{is_local};
ghost use Rattle.oc_linking.specs.Placing as placing;
ghost use Rattle.oc_linking.specs.Values as linking;
ghost use Rattle.oc_neutral.specs.declared.symbol.Symbol.{Symbol as SymbolValue};
ghost use Rattle.oc_neutral.specs.Faces.{shown_binding, shown_fallback, shown_symbols};
ghost use Rattle.oc_neutral.specs.Invariants.{IsBinding, IsFallback, IsValue};
ghost use Rattle.oc_place.specs.Placings.{as_site, IsPlacingOf};
ghost use Rattle.oc_link.specs.Values as values;

use crate::discarded::is_gone;
use oc_base::{Word, word_of};
use oc_linking::{Binding, Fallback, Value, modulus, reduced};
use oc_neutral::Neutral;
use oc_place::{Placements, Spot};

// the spot of a place: the section's, with the offset added to the address
fn place_spot(word: Word, spot: Spot, offset: u32) -> Spot
    ensures { result ≡ values.place_spot word spot offset }
{
    let address = (u128::from(spot.address) + u128::from(offset)) % modulus(word);
    Spot {
        address: address as u64,
        ..spot
    }
}

// where a value lies
fn own_spot(object: &Neutral, placed: &Placements, value: Value) -> Spot
    requires value { IsValue object.now value }
    requires placing { IsPlacingOf object.now placed.now }
    ensures { as_site result ≡ linking.own_site (word_for object.now.format) (values.laid object.now placed.now) value }
{
    let word = word_of(object.format());
    match value {
        Value::Place { section, offset } => place_spot(word, placed.section(section), offset),
        Value::Absolute(number) => Spot {
            address: reduced(word, number),
            home: 0,
            number: 0,
        },
    }
}

// a spot that is given, or zeros
fn given_or_zeros(given: Option<Spot>) -> Spot
    ensures { as_site result ≡ unwrap_or (option_map as_site given) placing.nowhere }
{
    match given {
        Some(spot) => spot,
        None => Spot {
            address: 0,
            home: 0,
            number: 0,
        },
    }
}

// where a Global lies, which the outside gives a spot where it is lost
fn global_spot(object: &Neutral, placed: &Placements, value: Value, given: Option<Spot>) -> Spot
    requires value { IsValue object.now value }
    requires placing { IsPlacingOf object.now placed.now }
    ensures { as_site result ≡ linking.global_site (word_for object.now.format) (values.laid object.now placed.now) (option_map as_site given) value }
{
    if is_gone(object, placed, value) {
        return given_or_zeros(given);
    }
    own_spot(object, placed, value)
}

// where a symbol lies that is not Weak, by what the outside gives its name
fn strong_spot(object: &Neutral, placed: &Placements, binding: Binding, given: Option<Spot>) -> Spot
    requires binding { IsBinding object.now binding }
    requires placing { IsPlacingOf object.now placed.now }
    ensures { as_site result ≡ linking.strong_site (word_for object.now.format) (values.laid object.now placed.now) (option_map as_site given)
        (shown_binding object.now.symbols binding) }
{
    match binding {
        Binding::Local(value) => own_spot(object, placed, value),
        Binding::Global(value) => global_spot(object, placed, value, given),
        Binding::Undefined => given_or_zeros(given),
        Binding::Common { .. } => given_or_zeros(given),
        Binding::Weak(_) => given_or_zeros(None),
    }
}

// where a symbol lies to which a fallback leads
fn named_spot(object: &Neutral, placed: &Placements, k: u32) -> Spot
    requires named { IsFallback object.now (Fallback.Name k) }
    requires placing { IsPlacingOf object.now placed.now }
    ensures { as_site result ≡ linking.fallback_site (word_for object.now.format) (values.laid object.now placed.now) (values.given object.now placed.now)
        (shown_symbols object.now) (shown_fallback object.now.symbols (Fallback.Name k)) }
{
    object.is_object();
    let outside = placed.outside(k);
    strong_spot(object, placed, object.symbol(k).binding, outside.spot)
}

// where a fallback lies
fn fallback_spot(object: &Neutral, placed: &Placements, fallback: Fallback) -> Spot
    requires fallback { IsFallback object.now fallback }
    requires placing { IsPlacingOf object.now placed.now }
    ensures { as_site result ≡ linking.fallback_site (word_for object.now.format) (values.laid object.now placed.now) (values.given object.now placed.now)
        (shown_symbols object.now) (shown_fallback object.now.symbols fallback) }
{
    match fallback {
        Fallback::Place { section, offset } => {
            place_spot(word_of(object.format()), placed.section(section), offset)
        }
        Fallback::Zero => given_or_zeros(None),
        Fallback::Name(k) => named_spot(object, placed, k),
    }
}

// where a Weak lies: what the outside gives its name, or else its fallback
fn weak_spot(object: &Neutral, placed: &Placements, fallback: Fallback, given: Option<Spot>) -> Spot
    requires fallback { IsFallback object.now fallback }
    requires placing { IsPlacingOf object.now placed.now }
    ensures { as_site result ≡ unwrap_or (option_map as_site given)
        (linking.fallback_site (word_for object.now.format) (values.laid object.now placed.now) (values.given object.now placed.now)
        (shown_symbols object.now) (shown_fallback object.now.symbols fallback)) }
{
    match given {
        Some(spot) => spot,
        None => fallback_spot(object, placed, fallback),
    }
}

// where a symbol of that binding lies, by what the outside gives its name
fn spot_by(object: &Neutral, placed: &Placements, binding: Binding, given: Option<Spot>) -> Spot
    requires binding { IsBinding object.now binding }
    requires placing { IsPlacingOf object.now placed.now }
    ensures { (name : List ℕ) → (is_local binding ≡ false → (values.given object.now placed.now).site name ≡ option_map as_site given)
        → as_site result ≡ values.site_in object.now placed.now name binding }
{
    match binding {
        Binding::Local(_) => strong_spot(object, placed, binding, given),
        Binding::Global(_) => strong_spot(object, placed, binding, given),
        Binding::Undefined => strong_spot(object, placed, binding, given),
        Binding::Common { .. } => strong_spot(object, placed, binding, given),
        Binding::Weak(fallback) => weak_spot(object, placed, fallback, given),
    }
}

/// Where the symbol at a position lies. Constant time, no memory.
pub(crate) fn spot_of(object: &Neutral, placed: &Placements, k: u32) -> Spot
    requires there { k < length object.now.symbols }
    requires placing { IsPlacingOf object.now placed.now }
    ensures { (s : SymbolValue) → slice_get object.now.symbols k ≡ Some s → as_site result ≡ values.site_in object.now placed.now s.name s.binding }
{
    object.is_object();
    let outside = placed.outside(k);
    spot_by(object, placed, object.symbol(k).binding, outside.spot)
}
