//! Names in the order of their bytes, read from the last one on.
ghost use Rattle.std.specs.Prelude.{◌≡◌, ◌↔◌, ℕ, ◌<◌, ◌≤◌, ◌^◌, List, All, IsTrue, length, reverse, slice_index, IfOk};
ghost use Rattle.std.specs.Ordering.{nat_cmp};
ghost use Rattle.std.specs.Cmp.Lexicographic.{slice_cmp};
ghost use Rattle.oc_base.specs.Strings.{ends};
ghost use Rattle.oc_strings.specs.Keys as keys;
ghost use Rattle.oc_strings.specs.Inside.{IsSearchable};
ghost use Rattle.oc_strings.specs.Order.{IsNumbered, names_of, Ascends, AreApart, AreSooner, AreTails, IsOrder, SharesEnd, is_repeat};
ghost use Rattle.oc_strings.specs.Tables.{texts};

use crate::tails::next_tails;
use oc_base::NoMemory;
use std::alloc::Global;
use std::cmp::Ordering;

/// A name that was given, its place among the given names, and the number of its last eight bytes.
#[derive(Clone, Copy, Debug)]
pub(crate) struct Entry<'a> {
    pub name: &'a [u8],
    pub number: usize,
    pub back: u64,
}

/// How many bytes are compared at once, while they are the same.
const BLOCK: usize = 256;

/// How many bytes a number has, by which they are compared at once after that.
pub(crate) const WORD: usize = 8;

/// Byte `i` of a name, counted from the last one on; 0 where the name is shorter.
fn byte_back(name: &[u8], i: usize) -> u8
    ensures { result ≡ keys.byte_back name.now i }
{
    if i < name.len() {
        name[name.len() - 1 - i]
    } else {
        0
    }
}

/// The number of the last eight bytes of a name that is shorter, the last one the highest.
#[tactic(auto, unfolding(crate::specs::Keys::back_number))]
fn short_number(name: &[u8]) -> u64
    ensures { result ≡ keys.back_number name.now }
{
    u64::from_be_bytes([
        byte_back(name, 0),
        byte_back(name, 1),
        byte_back(name, 2),
        byte_back(name, 3),
        byte_back(name, 4),
        byte_back(name, 5),
        byte_back(name, 6),
        byte_back(name, 7),
    ])
}

/// The number of a name's last eight bytes, the last one the highest.
fn back_number(name: &[u8]) -> u64
    ensures number { result ≡ keys.back_number name.now }
    ensures bytes { (k : ℕ) → slice_index name.now k < 2 ^ 8 }
{
    match name.last_chunk() {
        Some(last) => u64::from_le_bytes(*last),
        None => short_number(name),
    }
}

/// Whether both names have a block of bytes, and their last ones are the same.
fn shares_block(a: &[u8], b: &[u8]) -> bool
    ensures { IsTrue result ↔ SharesEnd 256 a.now b.now }
{
    a.len() >= BLOCK && b.len() >= BLOCK && a[a.len() - BLOCK..] == b[b.len() - BLOCK..]
}

/// Whether both names have eight bytes, and their last ones are the same.
fn shares_word(a: &[u8], b: &[u8]) -> bool
    ensures { IsTrue result ↔ SharesEnd 8 a.now b.now }
{
    a.len() >= WORD && b.len() >= WORD && back_number(a) == back_number(b)
}

/// Two names without the blocks that are the same, from the last one on.
fn without_blocks<'a, 'b>(a: &'a [u8], b: &'b [u8]) -> (&'a [u8], &'b [u8])
    ensures { slice_cmp nat_cmp (reverse result.0.now) (reverse result.1.now) ≡ slice_cmp nat_cmp (reverse a.now) (reverse b.now) }
{
    let mut a_left = a;
    let mut b_left = b;
    while shares_block(a_left, b_left) {
        a_left = &a_left[..a_left.len() - BLOCK];
        b_left = &b_left[..b_left.len() - BLOCK];
    }
    (a_left, b_left)
}

/// Two names without the words of eight bytes that are the same, from the last one on.
fn without_words<'a, 'b>(a: &'a [u8], b: &'b [u8]) -> (&'a [u8], &'b [u8])
    ensures order { slice_cmp nat_cmp (reverse result.0.now) (reverse result.1.now) ≡ slice_cmp nat_cmp (reverse a.now) (reverse b.now) }
    ensures tail { ends result.0.now result.1.now ≡ ends a.now b.now }
    ensures apart { ¬ SharesEnd 8 result.0.now result.1.now }
{
    let mut a_left = a;
    let mut b_left = b;
    while shares_word(a_left, b_left) {
        a_left = &a_left[..a_left.len() - WORD];
        b_left = &b_left[..b_left.len() - WORD];
    }
    (a_left, b_left)
}

/// Compares two names byte by byte, from their last bytes on.
fn compare_bytes(a: &[u8], b: &[u8]) -> Ordering
    ensures { result ≡ slice_cmp nat_cmp (reverse a.now) (reverse b.now) }
{
    a.iter().rev().cmp(b.iter().rev())
}

/// Compares two names by the numbers of their last eight bytes, and byte by byte only where these
/// are the same.
fn compare_ends(a: &[u8], b: &[u8]) -> Ordering
    ensures { result ≡ slice_cmp nat_cmp (reverse a.now) (reverse b.now) }
{
    match back_number(a).cmp(&back_number(b)) {
        Ordering::Equal => compare_bytes(a, b),
        other => other,
    }
}

/// Compares two names from their last bytes on. A name comes before those that it ends.
pub(crate) fn compare_backward(a: &[u8], b: &[u8]) -> Ordering
    ensures { result ≡ slice_cmp nat_cmp (reverse a.now) (reverse b.now) }
{
    let (a_left, b_left) = without_blocks(a, b);
    let (a_left, b_left) = without_words(a_left, b_left);
    compare_ends(a_left, b_left)
}

/// Whether the name ends the text. Both are read from the last byte on, as far as they are the same.
fn is_tail(name: &[u8], text: &[u8]) -> bool
    ensures { result ≡ ends name.now text.now }
{
    let (name_left, text_left) = without_words(name, text);
    name_left.len() < WORD && text_left.ends_with(name_left)
}

/// The entry of a name with this place among the given ones.
fn entry_of(name: &[u8], number: usize) -> Entry<'_>
    ensures entry { result ≡ record { name = name.entry; number = number; back = keys.back_number name.now } }
    ensures bytes { (k : ℕ) → slice_index name.now k < 2 ^ 8 }
{
    Entry {
        name,
        number,
        back: back_number(name),
    }
}

/// Compares the numbers of two entries' names, and the names only where these are the same.
fn compare_names(a: &Entry, b: &Entry) -> Ordering
    ensures { result ≡ keys.entry_order a.now b.now }
{
    match a.back.cmp(&b.back) {
        Ordering::Equal => compare_backward(a.name, b.name),
        other => other,
    }
}

/// Compares the names of two entries. Of the same names the one that was given later comes first.
fn compare_entries(a: &Entry, b: &Entry) -> Ordering
    ensures { result ≡ keys.full_order a.now b.now }
{
    match compare_names(a, b) {
        Ordering::Equal => b.number.cmp(&a.number),
        other => other,
    }
}

/// An entry for each name, in ascending order. The sort is one that finds runs: where all names are the same,
/// they stand in the opposite order, and it takes one comparison for each.
fn sorted<'a>(alloc: Global, names: &[&'a [u8]]) -> Result<Vec<Entry<'a>>, NoMemory>
    ensures keyed { IfOk result (λ entries. All keys.IsKeyed entries.items) }
    ensures ascends { IfOk result (λ entries. Ascends (names_of entries.items)) }
    ensures numbered { IfOk result (λ entries. IsNumbered (texts names.now) entries.items) }
    ensures apart { IfOk result (λ entries. AreApart entries.items) }
    ensures sooner { IfOk result (λ entries. AreSooner entries.items) }
{
    let mut entries = Vec::with_capacity(alloc, names.len())?;
    for (number, name) in names.iter().enumerate() {
        entries.push(entry_of(name, number))?;
    }
    entries.sort_by(compare_entries)?;
    Ok(entries)
}

/// Whether the name of the entry ends that of the other one. Where both have eight bytes, and their
/// numbers differ, their bytes are not looked at.
pub(crate) fn ends_other(entry: &Entry, other: &Entry) -> bool
    requires keyed { keys.IsKeyed entry.now }
    requires other_keyed { keys.IsKeyed other.now }
    ensures { result ≡ ends entry.now.name.now other.now.name.now }
{
    (entry.name.len() < WORD || entry.back == other.back) && is_tail(entry.name, other.name)
}

/// The given names in ascending order. Of the same names the one that was given first comes last.
#[derive(Drop)]
pub(crate) struct Order<'a> {
    /// An entry for each given name. Its place here is its rank.
    pub entries: Vec<Entry<'a>>,
    /// For each entry the rank of the last one before it whose name ends its own, if one does.
    pub tails: Vec<Option<usize>>,
}

impl<'a> Order<'a> {
    /// Sorts the names, and says which end which.
    pub fn of(alloc: Global, names: &[&'a [u8]]) -> Result<Order<'a>, NoMemory>
        ensures { IfOk result (λ order. IsOrder (texts names.now) order.entries.items order.tails.items) }
    {
        let entries = sorted(alloc, names)?;
        let tails = next_tails(alloc, &entries)?;
        Ok(Order { entries, tails })
    }

    /// Whether the entry before this one has the same name.
    fn is_repeat(&self, k: usize) -> bool
        requires ascends { Ascends (names_of self.now.entries.items) }
        requires tailed { AreTails (names_of self.now.entries.items) self.now.tails.items }
        requires within { k < length self.now.entries.items }
        ensures { result ≡ is_repeat (names_of self.now.entries.items) k }
    {
        match self.tails[k] {
            Some(j) => self.entries[j].name.len() == self.entries[k].name.len(),
            None => false,
        }
    }

    /// The numbers of the names in ascending order, each name once.
    pub fn numbers(&self, alloc: Global) -> Result<Vec<u32>, NoMemory>
        requires ascends { Ascends (names_of self.now.entries.items) }
        requires tailed { AreTails (names_of self.now.entries.items) self.now.tails.items }
        requires fit { All (λ entry. entry.number < 2 ^ 32) self.now.entries.items }
        ensures { IfOk result (λ numbers. (names : List (List ℕ)) → IsOrder names self.now.entries.items self.now.tails.items → IsSearchable names numbers.items) }
    {
        let mut numbers = Vec::with_capacity(alloc, self.entries.len())?;
        for k in 0..self.entries.len() {
            if !self.is_repeat(k) {
                numbers.push(self.entries[k].number as u32)?;
            }
        }
        Ok(numbers)
    }
}
