//! The items of a list are changed in place.
ghost use Rattle.std.specs.Prelude.{◌≡◌, ◌<◌, ◌≤◌, ℕ, length, slice_get, Some};
ghost use Rattle.oc_chains.specs.declared.entry.Entry.{Entry as EntryOf};
ghost use Rattle.oc_chains.specs.Changed.{AreOf, AreRenewed, IsChangedAt};
ghost use Rattle.oc_chains.specs.Linked.{occurs};
ghost use Rattle.oc_chains.specs.Links.{fields, IsList, nodes};

use crate::entry::{Ends, Entry};

// changes the item of an entry, and gives the entry after it
fn change_entry<T: Copy, F: Fn(T) -> T>(
    entries: &mut [Entry<T>],
    index: u32,
    change: &F,
) -> Option<u32>
    requires there { index < length entries.old }
    requires callable { (e : EntryOf T) → slice_get entries.old index ≡ Some e → F.pre change.now e.field.item }
    ensures next { (e : EntryOf T) → slice_get entries.old index ≡ Some e → result ≡ e.next }
    ensures entries { IsChangedAt (F.post change.now) index entries.old entries.new }
{
    let entry = entries[index as usize];
    entries[index as usize].field.item = change(entry.field.item);
    entry.next
}

/// Every item of the list with these ends becomes an answer of `change` for it; the other entries
/// stay. Linear in the list.
pub(crate) fn change_list<T: Copy, F: Fn(T) -> T>(entries: &mut [Entry<T>], ends: Ends, change: &F)
    requires list { IsList entries.old ends (nodes entries.old ends) }
    requires once { (j : ℕ) → occurs j (nodes entries.old ends) ≤ 1 }
    requires callable { AreOf (F.pre change.now) (fields (nodes entries.old ends)) }
    ensures { AreRenewed (F.post change.now) (λ j. occurs j (nodes entries.old ends)) entries.old entries.new }
{
    let mut next = ends.first;
    'entries: for _ in 0..ends.count {
        match next {
            Some(index) => next = change_entry(entries, index, change),
            None => return,
        }
    }
}
