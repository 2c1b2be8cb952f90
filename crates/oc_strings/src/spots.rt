//! What each of the given names ends, and where those that end it lie.
ghost use Rattle.std.specs.Prelude.{◌≡◌, ◌<◌, true, IfOk, IfSome, length, option_map, slice_index_or};
ghost use Rattle.oc_strings.specs.Order.{AreClosed, AreSpots, AreTailsPlaced, IsOrder, number_at};
ghost use Rattle.oc_strings.specs.Tables.{texts};

use crate::order::{Entry, Order};
use crate::tails::is_top;
use oc_base::NoMemory;
use std::alloc::Global;

/// What is known of a given name. A name is told by its number: its place among the given ones.
#[derive(Clone, Copy, Debug)]
pub(crate) struct Spot {
    /// Whether it ends no other name, and is the first of the same ones.
    pub is_top: bool,
    /// The next shorter name that ends it, or another one that is the same, if there is one.
    pub tail: Option<usize>,
}

/// The number of the entry with this rank.
fn number_of(entries: &[Entry], rank: Option<usize>) -> Option<usize>
    requires { IfSome rank (λ k. k < length entries.now) }
    ensures { result ≡ option_map (number_at entries.now) rank }
{
    match rank {
        Some(k) => Some(entries[k].number),
        None => None,
    }
}

/// What is known of each of the names in this order.
pub(crate) fn spots_of(
    alloc: Global,
    names: &[&[u8]],
    order: Order<'_>,
) -> Result<Vec<Spot>, NoMemory>
    requires { IsOrder (texts names.now) order.entries.items order.tails.items }
    ensures { IfOk result (λ spots. AreSpots (texts names.now) spots.items) }
{
    let unknown = Spot {
        is_top: false,
        tail: None,
    };
    let mut spots = vec![in alloc; unknown; names.len()]?;
    for (k, entry) in order.entries.iter().enumerate() {
        spots[entry.number] = Spot {
            is_top: is_top(&order.tails, k),
            tail: number_of(&order.entries, order.tails[k]),
        };
    }
    Ok(spots)
}

/// Gives each name that ends the name with this number, and has no offset yet, its offset in a text
/// that begins at `at` and is that name. What ends a name with an offset has one, so each name is
/// given one once, and passed over once: all calls together take time linear in the number of names.
pub(crate) fn place_tails(
    offsets: &mut [Option<u64>],
    names: &[&[u8]],
    spots: &[Spot],
    number: usize,
    at: u64,
)
    requires known { AreSpots (texts names.now) spots.now }
    requires closed { AreClosed (texts names.now) offsets.old }
    requires room { length offsets.old ≡ length names.now }
    requires within { number < length names.now }
    requires top { (d : Spot) → (slice_index_or spots.now number d).is_top ≡ true }
    ensures { AreTailsPlaced (texts names.now) at number offsets.old offsets.new }
{
    let text = names[number];
    let mut current = Some(number);
    while let Some(i) = current {
        if offsets[i].is_some() {
            return;
        }
        let before = text.len() - names[i].len();
        offsets[i] = Some(at.saturating_add(before as u64));
        current = spots[i].tail;
    }
}
