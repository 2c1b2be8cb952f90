//! The room that a text needs.
ghost use Rattle.std.specs.Prelude.{◌<◌, length};
ghost use Rattle.oc_place.specs.Placings.{IsPlacingOf};

use crate::discarded::is_discarded;
use crate::sections::is_zero;
use oc_linking::Binding;
use oc_neutral::{Neutral, Section, Symbol};
use oc_place::Placements;

/// At least as many bytes as the line of a section and `zeros` have.
const SECTION_LINES: usize = 64;

/// At least as many bytes as the line of a name has beside the name.
const NAME_LINE: usize = 32;

/// The text of a byte: two digits, and a blank or a newline.
const BYTE: usize = 3;

// room for the text of a section
fn section_room(section: &Section) -> usize {
    if is_zero(section.kind) {
        return SECTION_LINES;
    }
    SECTION_LINES + BYTE * section.size as usize
}

// room for what a symbol exports
fn symbol_room(symbol: &Symbol) -> usize {
    match symbol.binding {
        Binding::Local(_) => 0,
        Binding::Undefined => 0,
        Binding::Global(_) => NAME_LINE.saturating_add(symbol.name.as_slice().len()),
        Binding::Common { .. } => NAME_LINE.saturating_add(symbol.name.as_slice().len()),
        Binding::Weak(_) => NAME_LINE.saturating_add(symbol.name.as_slice().len()),
    }
}

// room for the text of all sections that are not discarded
fn sections_room(object: &Neutral, placed: &Placements) -> usize
    requires { IsPlacingOf object.now placed.now }
{
    let mut room: usize = 0;
    for section in 0..object.section_count() {
        if !is_discarded(object, placed, section) {
            room = room.saturating_add(section_room(object.section(section)));
        }
    }
    room
}

// room for what all symbols export
fn symbols_room(object: &Neutral) -> usize {
    let mut room: usize = 0;
    for k in 0..object.symbol_count() {
        room = room.saturating_add(symbol_room(object.symbol(k)));
    }
    room
}

/// How many bytes the text of an object has at most, where its names print as they are: room that is
/// taken at once, so that a long text is not moved while it grows. No clause rests on it. Linear in
/// the sections and symbols, no memory.
pub(crate) fn room_for(object: &Neutral, placed: &Placements) -> usize
    requires { IsPlacingOf object.now placed.now }
{
    sections_room(object, placed).saturating_add(symbols_room(object))
}
