//! The parts of a line, between its blanks. What is left of a line is `None` after its last part.
ghost use Rattle.std.specs.Prelude.{◌≡◌, ◌∷◌, None, Some, MatchOption};
ghost use Rattle.oc_place.specs.Parts as parts;

use crate::digits::{decimal_of, hex_of};
use crate::entry::PlacementLine;
use crate::spot::Spot;
use memchr::memchr;

/// The first part of a text, and what is left after it. Linear in the part, no memory.
pub(crate) fn cut(text: &[u8]) -> (&[u8], Option<&[u8]>)
    ensures { parts.parts_of text.now ≡ result.0.now ∷ parts.left result.1 }
{
    match memchr(b' ', text) {
        Some(end) => (&text[..end], Some(&text[end + 1..])),
        None => (text, None),
    }
}

/// The next part as a number of hexadecimal, and what is left after it. Linear in the part, no
/// memory.
pub(crate) fn hex_next<'a>(left: Option<&'a [u8]>) -> Option<(u64, Option<&'a [u8]>)>
    ensures { MatchOption result (parts.hex_next (parts.left left.entry) ≡ None)
        (λ x. parts.hex_next (parts.left left.entry) ≡ Some (x.0, parts.left x.1)) }
{
    let (part, rest) = cut(left?);
    let number = hex_of(part)?;
    Some((number, rest))
}

/// The next part as a decimal, and what is left after it. Linear in the part, no memory.
pub(crate) fn decimal_next<'a>(left: Option<&'a [u8]>) -> Option<(u64, Option<&'a [u8]>)>
    ensures { MatchOption result (parts.decimal_next (parts.left left.entry) ≡ None)
        (λ x. parts.decimal_next (parts.left left.entry) ≡ Some (x.0, parts.left x.1)) }
{
    let (part, rest) = cut(left?);
    let number = decimal_of(part)?;
    Some((number, rest))
}

/// The next three parts as an address, a home and a home number, and what is left after them.
/// Linear in the parts, no memory.
pub(crate) fn spot_next<'a>(left: Option<&'a [u8]>) -> Option<(Spot, Option<&'a [u8]>)>
    ensures { MatchOption result (parts.spot_next (parts.left left.entry) ≡ None)
        (λ x. parts.spot_next (parts.left left.entry) ≡ Some (x.0, parts.left x.1)) }
{
    let (address, left) = hex_next(left)?;
    let (home, left) = hex_next(left)?;
    let (number, left) = hex_next(left)?;
    Some((
        Spot {
            address,
            home,
            number,
        },
        left,
    ))
}

/// The entry, where nothing is left. Constant time, no memory.
pub(crate) fn whole(entry: PlacementLine, left: Option<&[u8]>) -> Option<PlacementLine>
    ensures { result ≡ parts.whole entry (parts.left left.entry) }
{
    match left {
        None => Some(entry),
        Some(_) => None,
    }
}

/// The only part that is left. Linear in it, no memory.
pub(crate) fn only(left: Option<&[u8]>) -> Option<&[u8]>
    ensures { MatchOption result (parts.only (parts.left left.entry) ≡ None)
        (λ part. parts.only (parts.left left.entry) ≡ Some part.now) }
{
    let (part, rest) = cut(left?);
    match rest {
        None => Some(part),
        Some(_) => None,
    }
}
