//! Reading a placement.
ghost use Rattle.std.specs.Prelude.{◌≡◌, ◌+◌, ◌≤◌, [], ◌∷◌, length, Ok, IfOk, IfErr, MatchOption, OnOk};
ghost use Rattle.std.specs.List.{slice_split};
ghost use Rattle.oc_base.specs.declared.limits.TheConstants.{MOST_INPUT};
ghost use Rattle.oc_neutral.specs.Faces.{shown_symbols};
ghost use Rattle.oc_place.specs.Faults.{AreAsMany, IsBadOf, IsFor};
ghost use Rattle.oc_place.specs.Indexes.{IsIndex};
ghost use Rattle.oc_place.specs.Placings.{placed_in, IsPlacingOf};
ghost use Rattle.oc_place.specs.Footprints.{footprint_of};
ghost use Rattle.oc_place.specs.Written as lines;

use crate::checks::check;
use crate::fault::{PlaceCode, PlaceFault};
use crate::index::{NamedSymbol, index_of};
use crate::notebook::Notebook;
use crate::placements::{Placements, into_placed};
use crate::shapes::line_of;
use memchr::memchr;
use oc_base::NoMemory;
use oc_neutral::Neutral;
use std::alloc::Global;

// adds what a line says; the number of the line is counted from 1
#[tactic(auto, unfolding(crate::specs::Written::with_line))]
fn read_line(
    alloc: Global,
    object: &Neutral,
    names: &[NamedSymbol<'_>],
    notebook: &mut Notebook,
    line: u32,
    text: &[u8],
) -> Result<(), PlaceFault>
    requires index { IsIndex (lines.names_of (shown_symbols object.now)) names.now }
    requires counted { IsFor object.now notebook.old }
    ensures ok { OnOk result (lines.with_line (footprint_of object.now) notebook.old text.now ≡ Ok notebook.new) }
    ensures err { IfErr result (IsBadOf (lines.at_line line (lines.with_line (footprint_of object.now) notebook.old text.now))) }
    ensures same { AreAsMany notebook.old notebook.new }
{
    let Some((entry, name)) = line_of(alloc, text)? else {
        return Err(PlaceFault::Bad {
            line,
            code: PlaceCode::BadLine,
        });
    };
    match notebook.add(object, names, entry, name.as_slice()) {
        Ok(()) => Ok(()),
        Err(code) => Err(PlaceFault::Bad { line, code }),
    }
}

// the first line of a text without its newline, and what comes after that; `None` where there is no
// newline
fn next_line(text: &[u8]) -> Option<(&[u8], &[u8])>
    ensures { MatchOption result (slice_split lines.is_newline text.now ≡ text.now ∷ [])
        (λ x. (slice_split lines.is_newline text.now ≡ x.0.now ∷ slice_split lines.is_newline x.1.now) × (length x.1.now + 1 ≤ length text.now)) }
{
    match memchr(b'\n', text) {
        Some(end) => Some((&text[..end], &text[end + 1..])),
        None => None,
    }
}

// what all lines note
#[tactic(auto, unfolding(crate::specs::Written::notes_of))]
fn read_lines(
    alloc: Global,
    object: &Neutral,
    names: &[NamedSymbol<'_>],
    text: &[u8],
) -> Result<Notebook, PlaceFault>
    requires index { IsIndex (lines.names_of (shown_symbols object.now)) names.now }
    requires short { length text.now ≤ MOST_INPUT }
    ensures ok { IfOk result (λ notes. lines.notes_of (footprint_of object.now) text.now ≡ Ok notes) }
    ensures err { IfErr result (IsBadOf (lines.notes_of (footprint_of object.now) text.now)) }
    ensures counted { IfOk result (IsFor object.now) }
{
    let mut notebook = Notebook::new(alloc, object)?;
    let mut line = 1_u32;
    let mut rest = text;
    while let Some((piece, after)) = next_line(rest) {
        if let Err(fault) = read_line(alloc, object, names, &mut notebook, line, piece) {
            return Err(fault);
        }
        rest = after;
        line += 1;
    }
    if !rest.is_empty() {
        return Err(PlaceFault::Bad {
            line,
            code: PlaceCode::BadLine,
        });
    }
    Ok(notebook)
}

/// The placement of an object that a text of at most 67,108,864 bytes gives, with what it gives
/// outside names.
///
/// Each line ends with a newline, and one blank is between its parts. H is 1 to 16 digits of
/// hexadecimal in lower case, K is 1 to 10 decimal digits, counted from 1, and NAME is a name as a
/// listing shows it, in which any byte may be `\x` and two digits.
/// - `image H`, `got H`: the bases; 0 where they are absent.
/// - `section K H H H`: address, home and home number of a section.
/// - `drop K`: a group is discarded.
/// - `name H H H H NAME`: address, home, home number and slot of a name.
/// - `slot H NAME`: the slot of a name to which the outside gives no address.
///
/// `Bad` is what is at fault first. Of lines, in their order: `BadLine` exactly where it is of no
/// form, `TooLarge` where an H is 2^W or more, `BadSection` where no section or group has number K,
/// `NoSymbol` where no symbol that is not Local has the name, `Repeated` where an earlier line is
/// about the same base, section, group or name. Then of sections that are not discarded, by their
/// position: `Unplaced` exactly where no line places it, `Misaligned` where its address is no multiple
/// of its alignment, `PastEnd` where it ends beyond 2^W. Then of symbols that are not Local, by theirs:
/// `Unnamed` exactly where it is Undefined, a Common or lost with its section and no line gives it an
/// address, `Defined` where one does to a Global that is not lost, `Misaligned` where the address of a
/// Common is no multiple of its alignment. `NoMemory` where memory ran out.
///
/// Time is linear in the text and the object, but for a sort of the symbols' names and a search for
/// each name; takes memory for the names, sections, groups and symbols.
#[tactic(auto, unfolding(crate::specs::Placings::placed_in))]
pub fn read_place(alloc: Global, text: &[u8], object: &Neutral) -> Result<Placements, PlaceFault>
    requires { length text.now ≤ MOST_INPUT }
    ensures ok { IfOk result (λ placed. placed_in (footprint_of object.now) text.now ≡ Ok placed) }
    ensures err { IfErr result (IsBadOf (placed_in (footprint_of object.now) text.now)) }
    ensures placing { IfOk result (IsPlacingOf object.now) }
{
    let names = index_of(alloc, object)?;
    let notebook = read_lines(alloc, object, &names, text)?;
    check(object, &notebook)?;
    Ok(into_placed(alloc, object, notebook)?)
}
