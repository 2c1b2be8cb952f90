//! What is discarded.
ghost use Rattle.std.specs.Prelude.{◌≡◌, ◌<◌, length};
ghost use Rattle.oc_linking.specs.Placing as placing;
ghost use Rattle.oc_neutral.specs.Invariants.{IsFallback, IsValue};
ghost use Rattle.oc_place.specs.Placings.{IsPlacingOf};
ghost use Rattle.oc_link.specs.Values as values;

use oc_linking::{Fallback, Value};
use oc_neutral::Neutral;
use oc_place::Placements;

/// Whether a section is discarded. Constant time, no memory.
pub(crate) fn is_discarded(object: &Neutral, placed: &Placements, section: u32) -> bool
    requires there { section < length object.now.sections }
    requires placing { IsPlacingOf object.now placed.now }
    ensures { result ≡ (values.laid object.now placed.now).discarded section }
{
    object.is_object();
    match object.section(section).group {
        Some(group) => placed.discarded(group),
        None => false,
    }
}

/// Whether a value is a place in a section that is discarded. Constant time, no memory.
pub(crate) fn is_gone(object: &Neutral, placed: &Placements, value: Value) -> bool
    requires value { IsValue object.now value }
    requires placing { IsPlacingOf object.now placed.now }
    ensures { result ≡ placing.is_gone (values.laid object.now placed.now) value }
{
    match value {
        Value::Place { section, .. } => is_discarded(object, placed, section),
        Value::Absolute(_) => false,
    }
}

/// Whether a fallback is a place in a section that is discarded. Constant time, no memory.
pub(crate) fn is_fallback_gone(object: &Neutral, placed: &Placements, fallback: Fallback) -> bool
    requires fallback { IsFallback object.now fallback }
    requires placing { IsPlacingOf object.now placed.now }
    ensures { result ≡ placing.is_fallback_gone (values.laid object.now placed.now) fallback }
{
    match fallback {
        Fallback::Place { section, .. } => is_discarded(object, placed, section),
        Fallback::Zero => false,
        Fallback::Name(_) => false,
    }
}
