//! The forms of lines.
ghost use Rattle.std.specs.Prelude.{◌≡◌, None, Some, IfOk, MatchOption};
ghost use Rattle.oc_place.specs.Entries as entries;
ghost use Rattle.oc_place.specs.Parts.{left};

use crate::entry::PlacementLine;
use crate::name_text::name_of;
use crate::parts::{cut, decimal_next, hex_next, only, spot_next, whole};
use oc_base::{Bytes, NoMemory};
use std::alloc::Global;

// `image H`
fn image_in(rest: Option<&[u8]>) -> Option<PlacementLine>
    ensures { result ≡ entries.image_in (left rest.entry) }
{
    let (base, rest) = hex_next(rest)?;
    whole(PlacementLine::Image(base), rest)
}

// `got H`
fn got_in(rest: Option<&[u8]>) -> Option<PlacementLine>
    ensures { result ≡ entries.got_in (left rest.entry) }
{
    let (base, rest) = hex_next(rest)?;
    whole(PlacementLine::Got(base), rest)
}

// `section K H H H`
fn section_in(rest: Option<&[u8]>) -> Option<PlacementLine>
    ensures { result ≡ entries.section_in (left rest.entry) }
{
    let (number, rest) = decimal_next(rest)?;
    let (spot, rest) = spot_next(rest)?;
    whole(PlacementLine::Section { number, spot }, rest)
}

// `drop K`
fn drop_in(rest: Option<&[u8]>) -> Option<PlacementLine>
    ensures { result ≡ entries.drop_in (left rest.entry) }
{
    let (number, rest) = decimal_next(rest)?;
    whole(PlacementLine::Drop(number), rest)
}

// `name H H H H NAME`
fn name_in<'a>(rest: Option<&'a [u8]>) -> Option<(PlacementLine, &'a [u8])>
    ensures { MatchOption result (entries.name_in (left rest.entry) ≡ None)
        (λ x. entries.name_in (left rest.entry) ≡ Some (x.0, x.1.now)) }
{
    let (spot, rest) = spot_next(rest)?;
    let (slot, rest) = hex_next(rest)?;
    let text = only(rest)?;
    Some((PlacementLine::Name { spot, slot }, text))
}

// `slot H NAME`
fn slot_in<'a>(rest: Option<&'a [u8]>) -> Option<(PlacementLine, &'a [u8])>
    ensures { MatchOption result (entries.slot_in (left rest.entry) ≡ None)
        (λ x. entries.slot_in (left rest.entry) ≡ Some (x.0, x.1.now)) }
{
    let (slot, rest) = hex_next(rest)?;
    let text = only(rest)?;
    Some((PlacementLine::Slot(slot), text))
}

// an entry about no name
fn unnamed<'a>(entry: Option<PlacementLine>) -> Option<(PlacementLine, &'a [u8])>
    ensures { MatchOption result (entries.unnamed entry ≡ None) (λ x. entries.unnamed entry ≡ Some (x.0, x.1.now)) }
{
    let entry = entry?;
    Some((entry, &[]))
}

// the shape of a line with this first word
#[tactic(auto, unfolding(crate::specs::Entries::shape_by))]
fn shape_by<'a>(word: &[u8], rest: Option<&'a [u8]>) -> Option<(PlacementLine, &'a [u8])>
    ensures { MatchOption result (entries.shape_by word.now (left rest.entry) ≡ None)
        (λ x. entries.shape_by word.now (left rest.entry) ≡ Some (x.0, x.1.now)) }
{
    if word == b"section".as_slice() {
        unnamed(section_in(rest))
    } else if word == b"name".as_slice() {
        name_in(rest)
    } else if word == b"slot".as_slice() {
        slot_in(rest)
    } else if word == b"drop".as_slice() {
        unnamed(drop_in(rest))
    } else if word == b"image".as_slice() {
        unnamed(image_in(rest))
    } else if word == b"got".as_slice() {
        unnamed(got_in(rest))
    } else {
        None
    }
}

// the shape of a line
#[tactic(auto, unfolding(crate::specs::Entries::shape_of))]
fn shape_of(line: &[u8]) -> Option<(PlacementLine, &[u8])>
    ensures { MatchOption result (entries.shape_of line.now ≡ None)
        (λ x. entries.shape_of line.now ≡ Some (x.0, x.1.now)) }
{
    let (word, rest) = cut(line);
    shape_by(word, rest)
}

// an entry with the name that a text means
fn with_name(
    alloc: Global,
    entry: PlacementLine,
    text: &[u8],
) -> Result<Option<(PlacementLine, Bytes)>, NoMemory>
    ensures { IfOk result (λ line. line ≡ entries.with_name entry text.now) }
{
    match name_of(alloc, text)? {
        Some(name) => Ok(Some((entry, name))),
        None => Ok(None),
    }
}

// an entry about no name
fn without_name(alloc: Global, entry: PlacementLine) -> Option<(PlacementLine, Bytes)>
    ensures { result ≡ Some (entry, entries.no_name) }
{
    Some((entry, Bytes::from_vec(Vec::new(alloc))))
}

// an entry with the name that it is about
fn named(
    alloc: Global,
    entry: PlacementLine,
    text: &[u8],
) -> Result<Option<(PlacementLine, Bytes)>, NoMemory>
    ensures { IfOk result (λ line. line ≡ entries.named (entry, text.now)) }
{
    match entry {
        PlacementLine::Image(_) => Ok(without_name(alloc, entry)),
        PlacementLine::Got(_) => Ok(without_name(alloc, entry)),
        PlacementLine::Section { .. } => Ok(without_name(alloc, entry)),
        PlacementLine::Drop(_) => Ok(without_name(alloc, entry)),
        PlacementLine::Name { .. } => with_name(alloc, entry, text),
        PlacementLine::Slot(_) => with_name(alloc, entry, text),
    }
}

/// What a line says, and the name that it is about, empty where it is about none; `None` exactly
/// where the line is of no form. Linear in the line, takes memory for the name.
#[tactic(auto, unfolding(crate::specs::Entries::line_of))]
pub(crate) fn line_of(
    alloc: Global,
    line: &[u8],
) -> Result<Option<(PlacementLine, Bytes)>, NoMemory>
    ensures { IfOk result (λ shape. shape ≡ entries.line_of line.now) }
{
    match shape_of(line) {
        Some((entry, text)) => named(alloc, entry, text),
        None => Ok(None),
    }
}
