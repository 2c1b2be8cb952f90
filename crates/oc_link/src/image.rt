//! The bytes of a section, its fields filled.
ghost use Rattle.std.specs.Prelude.{◌≡◌, ◌<◌, length, IfOk};
ghost use Rattle.oc_linking.specs.Images.{overlay};
ghost use Rattle.oc_place.specs.Placings.{IsPlacingOf};
ghost use Rattle.oc_link.specs.Values as values;

use crate::fields::patch_of;
use oc_base::{Bytes, NoMemory};
use oc_neutral::{Neutral, put};
use oc_place::Placements;
use std::alloc::Global;

/// The bytes of a section that has some in the object, each field replaced by its value. Linear in
/// the bytes and the fields; takes memory for the bytes.
pub(crate) fn image_of(
    alloc: Global,
    object: &Neutral,
    placed: &Placements,
    section: u32,
) -> Result<Bytes, NoMemory>
    requires there { section < length object.now.sections }
    requires placing { IsPlacingOf object.now placed.now }
    ensures { IfOk result (λ bytes. bytes ≡ overlay (values.patches object.now placed.now section) 0 (values.bytes_of object.now section)) }
{
    object.is_object();
    let mut bytes = Bytes::from_slice(alloc, object.section(section).bytes.as_slice())?;
    for field in object.relocs(section) {
        let patch = patch_of(object, placed, section, field);
        put(&mut bytes, field.at, field.width, patch.residue);
    }
    Ok(bytes)
}
