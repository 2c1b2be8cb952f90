//! Entries in the order of their places.
ghost use Rattle.std.specs.Prelude.{◌≡◌};
ghost use Rattle.std.specs.List.Sorted.{IsPermutation, IsSorted};
ghost use Rattle.oc_shelf.specs.Reading.Order as order;

use std::cmp::Ordering;

/// An entry of a table, and where what it speaks of begins.
#[derive(Clone, Copy, Debug, PartialEq, Eq, Drop)]
pub struct PlacedEntry {
    /// The place.
    pub place: u64,
    /// The number of the entry.
    pub index: u32,
}

// by the place, and at one place by the index
fn by_place(x: &PlacedEntry, y: &PlacedEntry) -> Ordering
    ensures { result ≡ order.by_place x.now y.now }
{
    match x.place.cmp(&y.place) {
        Ordering::Equal => x.index.cmp(&y.index),
        other => other,
    }
}

/// Puts entries in the order of their places, and those at one place in the order of their numbers.
/// Takes no memory. The time is that of about n log2(n) comparisons for n entries, whoever chose them.
pub fn sort_by_place(entries: &mut Vec<PlacedEntry>)
    ensures same { IsPermutation entries.old.items entries.new.items }
    ensures sorted { IsSorted order.by_place entries.new.items }
{
    entries.sort_unstable_by(|x, y| by_place(x, y));
}
