//! The text of sections.
ghost use Rattle.std.specs.Prelude.{◌≡◌, ◌+◌, ◌++◌, ◌^◌, ◌<◌, false, length, replicate, OnOk, string_bytes};
ghost use Rattle.oc_neutral.specs.Building as building;
ghost use Rattle.oc_place.specs.Placings.{IsPlacingOf};
ghost use Rattle.oc_link.specs.Pieces as pieces;
ghost use Rattle.oc_link.specs.Texts as texts;
ghost use Rattle.oc_link.specs.Values as values;

use crate::bytes::put_bytes;
use crate::discarded::is_discarded;
use crate::image::image_of;
use oc_base::{NoMemory, Word, word_of};
use oc_dump::put_hex;
use oc_neutral::{Kind, Neutral};
use oc_place::Placements;
use std::alloc::Global;

// puts `section S ADDRESS SIZE`
#[tactic(auto, unfolding(crate::specs::Texts::head_text))]
fn put_head(
    out: &mut String,
    word: Word,
    section: u32,
    address: u64,
    size: u32,
) -> Result<(), NoMemory>
    requires { section < 2 ^ 31 }
    ensures { OnOk result (string_bytes out.new ≡ string_bytes out.old ++ texts.head_text word section address size) }
{
    let number = section + 1;
    write!(out, "section {number} ")?;
    put_hex(out, word, address)?;
    write!(out, " {size}\n")?;
    Ok(())
}

/// Whether a kind is Zero. Constant time, no memory.
pub(crate) fn is_zero(kind: Kind) -> bool
    ensures { result ≡ building.is_zero kind }
{
    matches!(kind, Kind::Zero)
}

// puts that there are zeros, where there are some
fn put_zeros(out: &mut String, size: u32) -> Result<(), NoMemory>
    ensures { OnOk result (string_bytes out.new ≡ string_bytes out.old ++ texts.zeros_text (replicate size 0)) }
{
    if size > 0 {
        out.push_str("zeros\n")?;
    }
    Ok(())
}

// puts the image of a section that is not discarded
fn put_image(
    alloc: Global,
    out: &mut String,
    object: &Neutral,
    placed: &Placements,
    section: u32,
) -> Result<(), NoMemory>
    requires there { section < length object.now.sections }
    requires placing { IsPlacingOf object.now placed.now }
    requires kept { (values.laid object.now placed.now).discarded section ≡ false }
    ensures { OnOk result (string_bytes out.new ≡ string_bytes out.old ++ pieces.image_text_of object.now placed.now section) }
{
    object.is_object();
    let itself = object.section(section);
    if is_zero(itself.kind) {
        put_zeros(out, itself.size)?;
        return Ok(());
    }
    let bytes = image_of(alloc, object, placed, section)?;
    put_bytes(out, bytes.as_slice())?;
    Ok(())
}

// puts a section; nothing where it is discarded
fn put_section(
    alloc: Global,
    out: &mut String,
    object: &Neutral,
    placed: &Placements,
    section: u32,
) -> Result<(), NoMemory>
    requires there { section < length object.now.sections }
    requires placing { IsPlacingOf object.now placed.now }
    ensures { OnOk result (string_bytes out.new ≡ string_bytes out.old ++ pieces.section_text_of object.now placed.now section) }
{
    object.is_object();
    if is_discarded(object, placed, section) {
        return Ok(());
    }
    let size = object.section(section).size;
    put_head(
        out,
        word_of(object.format()),
        section,
        placed.section(section).address,
        size,
    )?;
    put_image(alloc, out, object, placed, section)?;
    Ok(())
}

/// Puts all sections that are not discarded. Linear in their bytes and fields; takes memory for the
/// bytes of one section beside the text.
pub(crate) fn put_sections(
    alloc: Global,
    out: &mut String,
    object: &Neutral,
    placed: &Placements,
) -> Result<(), NoMemory>
    requires { IsPlacingOf object.now placed.now }
    ensures { OnOk result (string_bytes out.new ≡ string_bytes out.old ++ pieces.sections_text_of object.now placed.now) }
{
    for section in 0..object.section_count() {
        put_section(alloc, out, object, placed, section)?;
    }
    Ok(())
}
