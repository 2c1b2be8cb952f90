//! Spans of bytes that are taken one after another, in any order.
ghost use Rattle.std.specs.Prelude.{◌≡◌, ℕ, ◌<◌, ◌≤◌, [], false, true, nat_eq, if◌then◌else◌, None, Some, OnOk, OnErr, IfNone, IfSome, IsSome};
ghost use Rattle.std.specs.BTreeMap.{get};
ghost use Rattle.std.specs.Ordering.{nat_cmp};
ghost use Rattle.oc_shelf.specs.Reading.Spans.{end_at, AreSpans, IsMet};

use oc_base::NoMemory;
use std::alloc::Global;
use std::collections::BTreeMap;
use std::marker::Model;

/// Spans of bytes that do not meet, taken in any order. Contracts see where each begins and ends, in
/// ascending order.
#[derive(Drop)]
pub struct Spans {
    ends: BTreeMap<u64, u64>,
    // none ends after it
    top: u64,
}

impl Model for Spans {
    ghost use Rattle.std.specs.Prelude.{ℕ, List};
    ghost use Rattle.oc_shelf.specs.Reading.Spans.{AreSpans, EndBy};

    ghost Value = { List (ℕ × ℕ) };

    ghost view = { λ s. s.ends.entries };

    ghost invariant = { λ s. AreSpans s.ends.entries × EndBy s.top s.ends.entries };
}

// the last span that begins at a place or before it
fn before(ends: &BTreeMap<u64, u64>, at: u64) -> Option<(u64, u64)>
    ensures none { IfNone result ((q : ℕ) → q ≤ at → get nat_cmp ends.now q ≡ None) }
    ensures held { IfSome result (λ e. get nat_cmp ends.now e.0 ≡ Some e.1) }
    ensures below { IfSome result (λ e. e.0 ≤ at) }
    ensures greatest { IfSome result (λ e. (q : ℕ) → q ≤ at → IsSome (get nat_cmp ends.now q) → q ≤ e.0) }
{
    match ends.range(..=at).next_back() {
        Some((start, end)) => Some((*start, *end)),
        None => None,
    }
}

// the first span that begins at or after a place
fn behind(ends: &BTreeMap<u64, u64>, at: u64) -> Option<(u64, u64)>
    ensures none { IfNone result ((q : ℕ) → at ≤ q → get nat_cmp ends.now q ≡ None) }
    ensures held { IfSome result (λ e. get nat_cmp ends.now e.0 ≡ Some e.1) }
    ensures above { IfSome result (λ e. at ≤ e.0) }
    ensures least { IfSome result (λ e. (q : ℕ) → at ≤ q → IsSome (get nat_cmp ends.now q) → e.0 ≤ q) }
{
    match ends.range(at..).next() {
        Some((start, end)) => Some((*start, *end)),
        None => None,
    }
}

// whether a span begins at or before a place, and ends after it
fn meets_before(ends: &BTreeMap<u64, u64>, at: u64) -> bool
    requires { AreSpans ends.now.entries }
    ensures met { result ≡ true → (q : ℕ) × (e : ℕ) × (get nat_cmp ends.now q ≡ Some e) × (q ≤ at) × (at < e) }
    ensures free { result ≡ false → (q e : ℕ) → get nat_cmp ends.now q ≡ Some e → q ≤ at → e ≤ at }
{
    match before(ends, at) {
        Some((_start, stop)) => at < stop,
        None => false,
    }
}

// whether a span begins between two places
fn meets_behind(ends: &BTreeMap<u64, u64>, at: u64, end: u64) -> bool
    ensures met { result ≡ true → (q : ℕ) × (e : ℕ) × (get nat_cmp ends.now q ≡ Some e) × (at ≤ q) × (q < end) }
    ensures free { result ≡ false → (q e : ℕ) → get nat_cmp ends.now q ≡ Some e → at ≤ q → end ≤ q }
{
    match behind(ends, at) {
        Some((start, _stop)) => start < end,
        None => false,
    }
}

// whether a span has a byte between two places
fn meets(ends: &BTreeMap<u64, u64>, begin: u64, end: u64) -> bool
    requires some { begin < end }
    requires spans { AreSpans ends.now.entries }
    ensures met { result ≡ true → IsMet ends.now.entries begin end }
    ensures free { result ≡ false → IsMet ends.now.entries begin end → ⊥ }
{
    meets_before(ends, begin) || meets_behind(ends, begin, end)
}

impl Spans {
    /// No spans. Takes no memory.
    pub fn new(alloc: Global) -> Spans
        ensures { result ≡ [] }
    {
        Spans {
            ends: BTreeMap::new(alloc),
            top: 0,
        }
    }

    /// Whether one of the spans has a byte between two places. The time is the logarithm of their
    /// number, and constant past all of them.
    pub fn is_met(&self, begin: u64, end: u64) -> bool
        requires { begin < end }
        ensures met { result ≡ true → IsMet self.now begin end }
        ensures free { result ≡ false → IsMet self.now begin end → ⊥ }
    {
        begin < self.top && meets(&self.ends, begin, end)
    }

    /// Takes a span that none of the others meets. `NoMemory` where memory ran out, and the spans
    /// stay. The time is the logarithm of their number.
    pub fn take(&mut self, begin: u64, end: u64) -> Result<(), NoMemory>
        requires some { begin < end }
        requires free { IsMet self.old begin end → ⊥ }
        ensures ok { OnOk result ((q : ℕ) → end_at self.new q ≡ if nat_eq q begin then Some end else end_at self.old q) }
        ensures err { OnErr result (self.new ≡ self.old) }
    {
        self.ends.insert(begin, end)?;
        self.top = self.top.max(end);
        Ok(())
    }
}
