//! Which of the names in ascending order end which.
ghost use Rattle.std.specs.Prelude.{◌≡◌, ℕ, ◌<◌, List, All, IfOk, length, not};
ghost use Rattle.oc_base.specs.Strings.{ends};
ghost use Rattle.oc_strings.specs.Keys.{IsKeyed};
ghost use Rattle.oc_strings.specs.Order.{names_of, name_at, Ascends, IsNextTail, AreNextTails, AreTails, ends_next};

use crate::order::{Entry, ends_other};
use oc_base::NoMemory;
use std::alloc::Global;

/// Whether the name at `i` ends the later one at `k`. One that is longer ends none: its bytes are not
/// looked at.
fn ends_later(entries: &[Entry], i: usize, k: usize) -> bool
    requires keyed { All IsKeyed entries.now }
    requires before { i < k }
    requires within { k < length entries.now }
    ensures { result ≡ ends (name_at (names_of entries.now) i) (name_at (names_of entries.now) k) }
{
    let (entry, later) = (&entries[i], &entries[k]);
    entry.name.len() <= later.name.len() && ends_other(entry, later)
}

/// Whether the name with this rank does not end the next one. The names that a name ends come right
/// after it, and it is the last tail of the next one.
pub(crate) fn is_top(tails: &[Option<usize>], k: usize) -> bool
    requires { k < length tails.now }
    ensures { (names : List (List ℕ)) → AreTails names tails.now → result ≡ not (ends_next names k) }
{
    k + 1 >= tails.len() || tails[k + 1] != Some(k)
}

/// The last earlier name that ends the first one whose tail is not known yet.
fn next_tail(entries: &[Entry], tails: &[Option<usize>]) -> Option<usize>
    requires keyed { All IsKeyed entries.now }
    requires ascends { Ascends (names_of entries.now) }
    requires known { AreNextTails (names_of entries.now) tails.now }
    requires within { length tails.now < length entries.now }
    ensures { IsNextTail (names_of entries.now) (length tails.now) result }
{
    let mut candidate = tails.len().checked_sub(1);
    while let Some(k) = candidate {
        if ends_later(entries, k, tails.len()) {
            return Some(k);
        }
        candidate = tails[k];
    }
    None
}

/// For each name the last earlier one that ends it, if one does. No name is passed over twice: the
/// time is linear in the total length of the names.
pub(crate) fn next_tails(alloc: Global, entries: &[Entry]) -> Result<Vec<Option<usize>>, NoMemory>
    requires keyed { All IsKeyed entries.now }
    requires ascends { Ascends (names_of entries.now) }
    ensures { IfOk result (λ tails. AreTails (names_of entries.now) tails.items) }
{
    let mut tails = Vec::with_capacity(alloc, entries.len())?;
    for _k in 0..entries.len() {
        let tail = next_tail(entries, &tails);
        tails.push(tail)?;
    }
    Ok(tails)
}
