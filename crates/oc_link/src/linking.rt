//! An object linked, as text.
ghost use Rattle.std.specs.Prelude.{◌≡◌, ◌++◌, ◌^◌, ◌<◌, IfOk, OnOk, string_bytes};
ghost use Rattle.oc_place.specs.Placings.{IsPlacingOf};
ghost use Rattle.oc_link.specs.Linked.{link_text_of};
ghost use Rattle.oc_link.specs.Pieces as pieces;
ghost use Rattle.oc_link.specs.Texts as texts;

use crate::exports::put_exports;
use crate::overflow::first_overflow;
use crate::room::room_for;
use crate::sections::put_sections;
use oc_base::{Bytes, NoMemory};
use oc_neutral::Neutral;
use oc_place::Placements;
use std::alloc::Global;

// puts the line of an overflow
#[tactic(auto, unfolding(crate::specs::Texts::overflow_text))]
fn put_overflow(out: &mut String, section: u32, at: u32) -> Result<(), NoMemory>
    requires { section < 2 ^ 31 }
    ensures { OnOk result (string_bytes out.new ≡ string_bytes out.old ++ texts.overflow_text section at) }
{
    let number = section + 1;
    write!(out, "overflow {number} {at}\n")?;
    Ok(())
}

// puts the sections and the exports, whose room is taken before
fn put_linked(
    alloc: Global,
    out: &mut String,
    object: &Neutral,
    placed: &Placements,
) -> Result<(), NoMemory>
    requires { IsPlacingOf object.now placed.now }
    ensures { OnOk result (string_bytes out.new ≡ string_bytes out.old ++ pieces.linked_text_of object.now placed.now) }
{
    out.reserve(room_for(object, placed))?;
    put_sections(alloc, out, object, placed)?;
    put_exports(alloc, out, object, placed)?;
    Ok(())
}

/// What linking an object gives where it is placed, as text.
///
/// Where some field's value does not fit it: `overflow S AT` of the first, by section and offset. Else
/// for each section that is not discarded `section S ADDRESS SIZE`, with `zeros` where its kind is Zero
/// and it is not empty, or its bytes, sixteen in a line; then, in the order of names, `export ADDRESS
/// NAME` of each Global and Weak that is not lost and `common SIZE NAME` of each common. S is the
/// position of a section, counted from 1; bytes and addresses are hexadecimal, the latter of 8 or 16
/// digits, sizes and offsets decimal.
///
/// `NoMemory` where memory ran out, or where the text before a name and that name have more than 2^29
/// bytes (`put_name`). Time is linear in the bytes, relocations and names, but for a sort of the names;
/// memory is that of the text, of one section and of a slice and a number for each name.
#[tactic(auto, unfolding(crate::specs::Linked::link_text_of))]
pub fn link_text(alloc: Global, object: &Neutral, placed: &Placements) -> Result<Bytes, NoMemory>
    requires { IsPlacingOf object.now placed.now }
    ensures { IfOk result (λ text. text ≡ link_text_of object.now placed.now) }
{
    object.is_object();
    let mut out = String::new(alloc);
    match first_overflow(object, placed) {
        Some((section, at)) => put_overflow(&mut out, section, at)?,
        None => put_linked(alloc, &mut out, object, placed)?,
    }
    Ok(Bytes::from_vec(out.into_bytes()))
}
