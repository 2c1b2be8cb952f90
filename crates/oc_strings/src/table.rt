//! The string table of given names.
ghost use Rattle.std.specs.Prelude.{◌≡◌, ℕ, ◌+◌, ◌-◌, ◌^◌, ◌<◌, ◌≤◌, ◌↔◌, Contains, IfOk, IfSome, IsSome, IsTrue, length, sum_by};
ghost use Rattle.oc_base.specs.Strings.{table_text, table_place};
ghost use Rattle.oc_strings.specs.Tables.{StringTable, StandsAt, texts};

use crate::layout::Layout;
use crate::order::Order;
use crate::parts::{bytes_of, places, slices};
use crate::search::{find, find_near};
use oc_base::{Bytes, NoMemory};
use std::alloc::Global;
use std::marker::Model;

/// Where a name lies: its offset in the table, and how long it is, in bytes.
#[derive(Clone, Copy, Debug)]
pub(crate) struct NameSpan {
    pub at: u32,
    pub len: u32,
}

/// A string table. Contracts see the offset at which its first text lies, and the given names.
#[derive(Debug, Drop)]
pub struct Table {
    head: u32,
    bytes: Vec<u8>,
    /// Where each given name lies, in the order in which they were given.
    given: Vec<NameSpan>,
    /// The numbers of the given names in ascending order of the names, each name once.
    order: Vec<u32>,
}

impl Model for Table {
    ghost use Rattle.oc_strings.specs.Tables.{StringTable};
    ghost use Rattle.oc_strings.specs.Inside.{names_in, IsTable};

    ghost Value = { StringTable };

    ghost view = { λ t. record { head = t.head; names = names_in t.head t.bytes.items t.given.items } };

    ghost invariant = { λ t. IsTable t.head t.bytes.items t.given.items t.order.items };
}

impl Table {
    /// Whether a table of the names can be made: `head` and the lengths of the names, each with its
    /// NUL, sum to below 2^32. Linear in the number of names, not in their lengths; no memory.
    pub fn fits(head: u32, names: &[Bytes]) -> bool
        ensures { IsTrue result ↔ (head + sum_by (λ name. length name + 1) names.now < 2 ^ 32) }
    {
        let mut total = u64::from(head);
        for name in names {
            let length = name.as_slice().len() as u64;
            total = total.saturating_add(length).saturating_add(1);
        }
        total <= u64::from(u32::MAX)
    }

    /// The table of the names, whose first text lies at `head`, an offset in bytes. A name that is
    /// the tail of no other, longer name lies there itself, once, with a NUL after it: these texts
    /// follow one another in the order of their first use. Every other name lies at the tail of the
    /// first text that it ends. A name may hold any bytes.
    ///
    /// `NoMemory` is the only refusal. The names are sorted, so the time is at most the sum of
    /// their lengths times the logarithm of their number; besides the bytes, the memory is a few
    /// words for each name. The names are not copied but into the table.
    pub fn of_slices(alloc: Global, head: u32, names: &[&[u8]]) -> Result<Table, NoMemory>
        requires { head + sum_by (λ name. length name + 1) (texts names.now) < 2 ^ 32 }
        ensures { IfOk result (λ table. table ≡ record { head = head; names = texts names.now }) }
    {
        let sorted = Order::of(alloc, names)?;
        let order = sorted.numbers(alloc)?;
        let layout = Layout::of(alloc, head, names, sorted)?;
        let bytes = bytes_of(alloc, &layout.tops)?;
        let given = places(alloc, names, &layout.offsets)?;
        Ok(Table {
            head,
            bytes,
            given,
            order,
        })
    }

    /// The table of names that own their bytes, as `of_slices` makes it, with a word or two more of
    /// memory for each name while it is made.
    pub fn of(alloc: Global, head: u32, names: &[Bytes]) -> Result<Table, NoMemory>
        requires { head + sum_by (λ name. length name + 1) names.now < 2 ^ 32 }
        ensures { IfOk result (λ table. table ≡ record { head = head; names = names.now }) }
    {
        let names = slices(alloc, names)?;
        Table::of_slices(alloc, head, &names)
    }

    /// The offset of the name in bytes, and `None` exactly where it was not given. No memory. The
    /// time is at most the length of the name times the logarithm of the number of names.
    pub fn offset(&self, name: &[u8]) -> Option<u32>
        ensures place { result ≡ table_place self.now.head self.now.names name.now }
        ensures given { IsSome result ↔ Contains self.now.names name.now }
        // The name lies there in the bytes, which begin at the head.
        ensures stands { IfSome result (λ at. (self.now.head ≤ at) × StandsAt name.now (table_text self.now.names) (at - self.now.head)) }
    {
        find(self.head, &self.bytes, &self.given, &self.order, name)
    }

    /// The offset of the name in bytes as `offset` gives it, and `None` exactly where it was not
    /// given. `near` is the position among the given names at which it is looked for first; any
    /// number may be given. No memory. Where the name lies there, the time is constant but for
    /// comparing it with that name; else it is that of `offset`.
    pub fn offset_near(&self, near: usize, name: &[u8]) -> Option<u32>
        ensures place { result ≡ table_place self.now.head self.now.names name.now }
        ensures given { IsSome result ↔ Contains self.now.names name.now }
        // The name lies there in the bytes, which begin at the head.
        ensures stands { IfSome result (λ at. (self.now.head ≤ at) × StandsAt name.now (table_text self.now.names) (at - self.now.head)) }
    {
        find_near(self.head, &self.bytes, &self.given, &self.order, near, name)
    }

    /// The bytes of the table, from its head on. Constant time, no memory.
    pub fn bytes(&self) -> &[u8]
        ensures { result.now ≡ table_text self.now.names }
    {
        self.bytes.as_slice()
    }
}
