//! The first field whose value does not fit.
ghost use Rattle.std.specs.Prelude.{◌≡◌, ◌<◌, length, IfSome};
ghost use Rattle.oc_base.specs.Formats.{word_for};
ghost use Rattle.oc_linking.specs.Images as images;
ghost use Rattle.oc_chains.specs.Lists.{list_of};
ghost use Rattle.oc_place.specs.Placings.{IsPlacingOf};
ghost use Rattle.oc_link.specs.Values as values;

use crate::discarded::is_discarded;
use crate::fields::patch_of;
use oc_base::word_of;
use oc_linking::fits;
use oc_neutral::Neutral;
use oc_place::Placements;

// the first field of a section that overflows
fn first_field(object: &Neutral, placed: &Placements, section: u32) -> Option<u32>
    requires there { section < length object.now.sections }
    requires placing { IsPlacingOf object.now placed.now }
    ensures { result ≡ values.first_of (values.overflows_at object.now placed.now section) (list_of object.now.relocs section) }
{
    object.is_object();
    let word = word_of(object.format());
    for field in object.relocs(section) {
        let patch = patch_of(object, placed, section, field);
        if !fits(word, patch.width, patch.check, patch.residue) {
            return Some(field.at);
        }
    }
    None
}

// the same, and none where the section is discarded
fn first_in(object: &Neutral, placed: &Placements, section: u32) -> Option<u32>
    requires there { section < length object.now.sections }
    requires placing { IsPlacingOf object.now placed.now }
    ensures { result ≡ values.first_in object.now placed.now section }
{
    object.is_object();
    if is_discarded(object, placed, section) {
        return None;
    }
    first_field(object, placed, section)
}

/// The first field of all sections that overflows: the least section, and in it the least offset.
/// Linear in the sections and the relocations, no memory.
pub(crate) fn first_overflow(object: &Neutral, placed: &Placements) -> Option<(u32, u32)>
    requires { IsPlacingOf object.now placed.now }
    ensures there { IfSome result (λ k. k.0 < length object.now.sections) }
    ensures first { result ≡ images.first_field (images.overflows (word_for object.now.format)) (values.patches object.now placed.now) 0
        (values.contents object.now placed.now) }
{
    for section in 0..object.section_count() {
        if let Some(at) = first_in(object, placed, section) {
            return Some((section, at));
        }
    }
    None
}
