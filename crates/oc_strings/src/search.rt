//! The search for a name in a table.
ghost use Rattle.std.specs.Prelude.{◌≡◌, ℕ, ◌+◌, ◌-◌, ◌^◌, ◌<◌, ◌≤◌, ◌↔◌, IfOk, IsTrue, length, slice_index_or};
ghost use Rattle.oc_base.specs.Strings.{table_place};
ghost use Rattle.oc_strings.specs.Inside.{name_in, names_in, AreWithin, IsGivenAt, IsSearchable, IsTable};

use crate::order::compare_backward;
use crate::table::NameSpan;
use std::cmp::Ordering;

/// The name at a place of the table.
fn name_at(head: u32, bytes: &[u8], place: NameSpan) -> &[u8]
    requires above { head ≤ place.at }
    requires within { place.at - head + place.len ≤ length bytes.now }
    ensures { result.now ≡ name_in head bytes.now place }
{
    let start = (place.at - head) as usize;
    &bytes[start..start + place.len as usize]
}

/// The offset of a name in the table that consists of these parts.
pub(crate) fn find(
    head: u32,
    bytes: &[u8],
    given: &[NameSpan],
    order: &[u32],
    name: &[u8],
) -> Option<u32>
    requires { IsTable head bytes.now given.now order.now }
    ensures { result ≡ table_place head (names_in head bytes.now given.now) name.now }
{
    let mut low = 0;
    let mut high = order.len();
    while low < high {
        let middle = low + (high - low) / 2;
        let place = given[order[middle] as usize];
        match compare_backward(name_at(head, bytes, place), name) {
            Ordering::Less => low = middle + 1,
            Ordering::Greater => high = middle,
            Ordering::Equal => return Some(place.at),
        }
    }
    None
}

/// Whether the given name at a position is this one.
fn is_given_at(head: u32, bytes: &[u8], given: &[NameSpan], near: usize, name: &[u8]) -> bool
    requires { AreWithin head bytes.now given.now }
    ensures { IsTrue result ↔ IsGivenAt (names_in head bytes.now given.now) near name.now }
{
    match given.get(near) {
        Some(place) => name_at(head, bytes, *place) == name,
        None => false,
    }
}

/// The offset of a name in the table that consists of these parts, which is looked for first where
/// the given name at `near` lies.
pub(crate) fn find_near(
    head: u32,
    bytes: &[u8],
    given: &[NameSpan],
    order: &[u32],
    near: usize,
    name: &[u8],
) -> Option<u32>
    requires { IsTable head bytes.now given.now order.now }
    ensures { result ≡ table_place head (names_in head bytes.now given.now) name.now }
{
    if is_given_at(head, bytes, given, near, name) {
        return Some(given[near].at);
    }
    find(head, bytes, given, order, name)
}
