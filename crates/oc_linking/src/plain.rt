//! Linking by the definitions: plain, slow, and right by its contract.
ghost use Rattle.std.specs.Prelude.{◌≡◌, ◌+◌, ◌/◌, ◌%◌, ◌^◌, ◌<◌, IfOk, length};
ghost use Rattle.oc_linking.specs.Fits as fitting;
ghost use Rattle.oc_linking.specs.Images as imaging;
ghost use Rattle.oc_linking.specs.Linking as linking;
ghost use Rattle.oc_linking.specs.Linking.{Exports};
ghost use Rattle.oc_linking.specs.Plain.{patches_at, patch_at, bytes_in, linked_as};

use crate::checks::fits;
use crate::terms::Patch;
use oc_base::{NoMemory, Word};
use std::alloc::Global;

/// A field of a section, filled with its residue.
#[derive(Clone, Copy, Debug, PartialEq, Eq)]
pub struct PlacedPatch {
    /// The position of its section, from 0.
    pub section: u32,
    /// Where it begins in its section, in bytes.
    pub offset: u64,
    /// What it holds.
    pub patch: Patch,
}

/// What linking gives, but for the exports.
#[derive(Debug, Drop, PartialEq, Eq)]
pub enum Outcome {
    /// The residue of this field is the first that does not fit.
    Overflow {
        /// The position of its section, from 0.
        section: u32,
        /// Where it begins in its section, in bytes.
        offset: u64,
    },
    /// The bytes of each section.
    Image(Vec<Vec<u8>>),
}

/// The first of these fields that begins there. Linear in their number, no memory.
pub fn patch_of(fields: &[PlacedPatch], section: u32, offset: u64) -> Option<Patch>
    ensures { result ≡ patch_at fields.now section offset }
{
    for field in fields {
        if field.section == section && field.offset == offset {
            return Some(field.patch);
        }
    }
    None
}

/// Byte number `back` of a number, the lowest first.
fn byte_of(number: u64, back: u32) -> u8
    requires { back < 8 }
    ensures { result ≡ number / 256 ^ back % 256 }
{
    (number >> (8 * back) & 0xFF) as u8
}

/// Byte number `back` of what a field stores, the lowest first.
fn stored(patch: Patch, back: u32) -> Option<u8>
    requires { back < 8 }
    ensures { result ≡ fitting.stored back patch }
{
    if back < patch.width.bytes() {
        Some(byte_of(patch.residue, back))
    } else {
        None
    }
}

/// The byte at `i` that the field stores which begins `back` bytes before.
fn byte_by(fields: &[PlacedPatch], section: u32, i: u64, back: u32) -> Option<u8>
    requires { back < 8 }
    ensures { result ≡ imaging.byte_by (patches_at fields.now section) i back }
{
    let offset = i.checked_sub(u64::from(back))?;
    stored(patch_of(fields, section, offset)?, back)
}

/// The byte at `i` that a field stores.
fn byte_at(fields: &[PlacedPatch], section: u32, i: u64) -> Option<u8>
    ensures { result ≡ imaging.byte_upto (patches_at fields.now section) i 8 }
{
    for back in 0..8 {
        if let Some(byte) = byte_by(fields, section, i, back) {
            return Some(byte);
        }
    }
    None
}

/// The bytes of a section, each field replaced by what it stores.
///
/// Takes time in proportion to the bytes times the fields; `NoMemory` where the copy cannot be had.
pub fn image(
    alloc: Global,
    contents: &[u8],
    fields: &[PlacedPatch],
    section: u32,
) -> Result<Vec<u8>, NoMemory>
    ensures { IfOk result (λ out.
        out.items ≡ imaging.overlay (patches_at fields.now section) 0 contents.now) }
{
    let mut out = Vec::new(alloc);
    for (i, byte) in contents.iter().enumerate() {
        out.push(byte_at(fields, section, i as u64).unwrap_or(*byte))?;
    }
    Ok(out)
}

/// Whether a field begins there, and its residue does not fit it.
fn overflows_at(word: Word, fields: &[PlacedPatch], section: u32, offset: u64) -> bool
    ensures { result ≡ imaging.passes_at (imaging.overflows word)
        (patches_at fields.now section) offset }
{
    match patch_of(fields, section, offset) {
        None => false,
        Some(patch) => !fits(word, patch.width, patch.check, patch.residue),
    }
}

/// The least offset below `size` whose field overflows.
fn first_offset(word: Word, fields: &[PlacedPatch], section: u32, size: u64) -> Option<u64>
    ensures { result ≡ imaging.first_at (imaging.overflows word)
        (patches_at fields.now section) size }
{
    for offset in 0..size {
        if overflows_at(word, fields, section, offset) {
            return Some(offset);
        }
    }
    None
}

/// The first field that overflows: the least section, and in it the least offset.
fn first_overflow(word: Word, fields: &[PlacedPatch], sections: &[Vec<u8>]) -> Option<(u32, u64)>
    requires { length sections.now < 2 ^ 32 }
    ensures { result ≡ imaging.first_field (imaging.overflows word) (patches_at fields.now) 0
        (bytes_in sections.now) }
{
    for (s, contents) in sections.iter().enumerate() {
        if let Some(offset) = first_offset(word, fields, s as u32, contents.len() as u64) {
            return Some((s as u32, offset));
        }
    }
    None
}

/// The bytes of all sections, each field replaced by what it stores.
fn images(
    alloc: Global,
    fields: &[PlacedPatch],
    sections: &[Vec<u8>],
) -> Result<Vec<Vec<u8>>, NoMemory>
    requires { length sections.now < 2 ^ 32 }
    ensures { IfOk result (λ out.
        bytes_in out.items ≡ imaging.overlays (patches_at fields.now) 0 (bytes_in sections.now)) }
{
    let mut out = Vec::new(alloc);
    for (s, contents) in sections.iter().enumerate() {
        out.push(image(alloc, contents.as_slice(), fields, s as u32)?)?;
    }
    Ok(out)
}

/// Links the contents of sections, given their fields with their residues at one placement.
///
/// A field that begins outside its section, and a second one at one place, count for nothing. The
/// answer is the first overflow, by section and offset, or the bytes of all sections; `NoMemory`
/// where these cannot be had. Takes time in proportion to the bytes times the fields.
pub fn link(
    alloc: Global,
    word: Word,
    fields: &[PlacedPatch],
    sections: &[Vec<u8>],
) -> Result<Outcome, NoMemory>
    requires { length sections.now < 2 ^ 32 }
    ensures { IfOk result (λ out. (exports : Exports) → linked_as out exports
        ≡ linking.link_of word (bytes_in sections.now) (patches_at fields.now) exports) }
{
    match first_overflow(word, fields, sections) {
        Some((section, offset)) => Ok(Outcome::Overflow { section, offset }),
        None => Ok(Outcome::Image(images(alloc, fields, sections)?)),
    }
}
