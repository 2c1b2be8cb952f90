//! Names that occur twice in a list.
ghost use Rattle.std.specs.Prelude.{◌≡◌, IfOk, length};
ghost use Rattle.std.specs.List.Sorted.{IsPermutation, IsSorted};
ghost use Rattle.oc_strings.specs.Repeats as repeats;

use crate::order::WORD;
use oc_base::{NoMemory, u64_in};
use std::alloc::Global;
use std::cmp::Ordering;

/// Two positions at which a list has the same name.
#[derive(Clone, Copy, Debug, PartialEq, Eq)]
pub struct Repeat {
    /// Where the name occurs first.
    pub earlier: usize,
    /// Where it occurs again.
    pub later: usize,
}

/// An odd number, by which a name's number is multiplied before its next word or byte is added: names of one
/// length that differ in one of these alone get different numbers.
const SPREAD: u64 = 0x9e37_79b9_7f4a_7c15;

/// What is sorted: a number of the name, and where the name lies.
#[derive(Clone, Copy, Drop)]
struct SortKey {
    number: u64,
    at: usize,
}

// the number that another one makes of a number, after it
fn followed(number: u64, next: u64) -> u64
    ensures { result ≡ repeats.followed number next }
{
    number.wrapping_mul(SPREAD).wrapping_add(next)
}

// the number that these bytes make of a number, one by one
fn number_after(number: u64, bytes: &[u8]) -> u64
    ensures { result ≡ repeats.number_after number bytes.now }
{
    let mut number = number;
    for byte in bytes {
        number = followed(number, u64::from(*byte));
    }
    number
}

// a number of a name, of all its bytes: of eight at a time, and then of those that are left
fn number_of(name: &[u8]) -> u64
    ensures { result ≡ repeats.number_of name.now }
{
    let mut number = 0;
    let mut rest = name;
    while rest.len() >= WORD {
        number = followed(number, u64_in(rest, 0));
        rest = &rest[WORD..];
    }
    number_after(number, rest)
}

// the name at a position, and no bytes where there is none
fn bytes_at<'a>(names: &[Option<&'a [u8]>], at: usize) -> &'a [u8]
    ensures { result.now ≡ repeats.bytes_at (repeats.names_of names.now) at }
{
    match names.get(at) {
        Some(Some(name)) => name,
        _ => &[],
    }
}

// by the number, then by the name, then by the position
fn order(names: &[Option<&[u8]>], x: &SortKey, y: &SortKey) -> Ordering
    ensures { result ≡ repeats.order (repeats.names_of names.now) x.now y.now }
{
    if x.number != y.number {
        return x.number.cmp(&y.number);
    }
    match bytes_at(names, x.at).cmp(bytes_at(names, y.at)) {
        Ordering::Equal => x.at.cmp(&y.at),
        other => other,
    }
}

// whether two entries have the same name
fn are_tied(names: &[Option<&[u8]>], x: SortKey, y: SortKey) -> bool
    ensures { result ≡ repeats.are_tied (repeats.names_of names.now) x y }
{
    x.number == y.number && bytes_at(names, x.at) == bytes_at(names, y.at)
}

// the one of two repeats whose later position is the lower
fn sooner(found: Option<Repeat>, next: Repeat) -> Repeat
    ensures { result ≡ repeats.sooner found next }
{
    match found {
        Some(repeat) if repeat.later <= next.later => repeat,
        _ => next,
    }
}

// an entry for each name
fn entries_of(alloc: Global, names: &[Option<&[u8]>]) -> Result<Vec<SortKey>, NoMemory>
    ensures { IfOk result (λ entries. entries.items ≡ repeats.entries_of (repeats.names_of names.now) (length names.now)) }
{
    let mut entries = Vec::with_capacity(alloc, names.len())?;
    for at in 0..names.len() {
        if let Some(name) = names[at] {
            entries.push(SortKey {
                number: number_of(name),
                at,
            })?;
        }
    }
    Ok(entries)
}

// puts the entries in order
fn sort(names: &[Option<&[u8]>], entries: &mut Vec<SortKey>)
    ensures same { IsPermutation entries.old.items entries.new.items }
    ensures sorted { IsSorted (repeats.order (repeats.names_of names.now)) entries.new.items }
{
    entries.sort_unstable_by(|x, y| order(names, x, y));
}

/// The first position at which a name occurs that occurred before, and where it did. A position
/// without a name counts for nothing.
///
/// `NoMemory` where memory ran out; it takes sixteen bytes a position. The time is that of about
/// n log2(n) comparisons for n names, whoever chose them. A comparison takes constant time but for
/// names that agree in number, which few do that were not made for it: it then walks along both up
/// to where they differ.
pub fn first_repeat(alloc: Global, names: &[Option<&[u8]>]) -> Result<Option<Repeat>, NoMemory>
    ensures { IfOk result (λ found. found ≡ repeats.first_repeat (repeats.names_of names.now)) }
{
    let mut entries = entries_of(alloc, names)?;
    sort(names, &mut entries);
    let mut found: Option<Repeat> = None;
    for i in 1..entries.len() {
        let (x, y) = (entries[i - 1], entries[i]);
        if are_tied(names, x, y) {
            let next = Repeat {
                earlier: x.at,
                later: y.at,
            };
            found = Some(sooner(found, next));
        }
    }
    Ok(found)
}
