//! The layout of a string table: its texts in their order, and where each given name lies.
ghost use Rattle.std.specs.Prelude.{◌≡◌, Some, All, IfOk, IsSome, length, map};
ghost use Rattle.oc_base.specs.Strings.{tops_of};
ghost use Rattle.oc_strings.specs.Tables.{texts, offset_of};
ghost use Rattle.oc_strings.specs.Order.{AreSpots, IsOrder};

use crate::order::Order;
use crate::spots::{Spot, place_tails, spots_of};
use oc_base::NoMemory;
use std::alloc::Global;

/// The texts of a table, and where the names lie.
#[derive(Drop)]
pub(crate) struct Places<'a> {
    /// The maximal names, once each, in the order of their first use.
    pub tops: Vec<&'a [u8]>,
    /// For each given name its offset, or the largest number where it passes that.
    pub offsets: Vec<Option<u64>>,
}

/// Puts the texts one after another from `head` on, each where it is used first, and gives each
/// name the offset in the first text that it ends.
fn place<'a>(
    alloc: Global,
    head: u32,
    names: &[&'a [u8]],
    spots: &[Spot],
) -> Result<Places<'a>, NoMemory>
    requires { AreSpots (texts names.now) spots.now }
    ensures tops { IfOk result (λ places. texts places.tops.items ≡ tops_of (texts names.now)) }
    ensures offsets { IfOk result (λ places. places.offsets.items ≡ map (offset_of head (texts names.now)) (texts names.now)) }
    ensures placed { IfOk result (λ places. All (λ offset. IsSome offset) places.offsets.items) }
{
    let mut tops = Vec::with_capacity(alloc, names.len())?;
    let mut offsets = vec![in alloc; None; names.len()]?;
    let mut at = u64::from(head);
    for (i, name) in names.iter().enumerate() {
        if spots[i].is_top {
            place_tails(&mut offsets, names, spots, i, at);
            tops.push(*name)?;
            at = at.saturating_add(name.len() as u64).saturating_add(1);
        }
    }
    Ok(Places { tops, offsets })
}

/// The offsets, which are all there.
fn all_of(alloc: Global, offsets: &[Option<u64>]) -> Result<Vec<u64>, NoMemory>
    requires { All (λ offset. IsSome offset) offsets.now }
    ensures { IfOk result (λ found. map Some found.items ≡ offsets.now) }
{
    let mut found = Vec::with_capacity(alloc, offsets.len())?;
    for offset in offsets {
        found.push(offset.unwrap())?;
    }
    Ok(found)
}

/// The layout of the table of given names.
#[derive(Drop)]
pub(crate) struct Layout<'a> {
    /// The texts, in the order in which they lie.
    pub tops: Vec<&'a [u8]>,
    /// For each given name, in the order in which they were given, its offset.
    pub offsets: Vec<u64>,
}

impl<'a> Layout<'a> {
    /// Lays out the table whose first text lies at `head`, of the names in this order.
    pub fn of(
        alloc: Global,
        head: u32,
        names: &[&'a [u8]],
        order: Order<'a>,
    ) -> Result<Layout<'a>, NoMemory>
        requires { IsOrder (texts names.now) order.entries.items order.tails.items }
        ensures tops { IfOk result (λ layout. texts layout.tops.items ≡ tops_of (texts names.now)) }
        ensures offsets { IfOk result (λ layout. map Some layout.offsets.items ≡ map (offset_of head (texts names.now)) (texts names.now)) }
    {
        let spots = spots_of(alloc, names, order)?;
        let places = place(alloc, head, names, &spots)?;
        let offsets = all_of(alloc, &places.offsets)?;
        Ok(Layout {
            tops: places.tops,
            offsets,
        })
    }
}

/// The offset in bytes of each of the names, in their order, in the table whose first text lies at
/// `head`. The names may be longer together than a `Table` can be: an offset past the largest
/// number of 64 bits is that number. The names are not copied.
///
/// `NoMemory` is the only refusal. Time and memory are those of `Table::of` without its bytes.
pub fn offsets(alloc: Global, head: u32, names: &[&[u8]]) -> Result<Vec<u64>, NoMemory>
    ensures { IfOk result (λ offsets. map Some offsets.items ≡ map (offset_of head (texts names.now)) (texts names.now)) }
{
    let order = Order::of(alloc, names)?;
    let layout = Layout::of(alloc, head, names, order)?;
    Ok(layout.offsets)
}
