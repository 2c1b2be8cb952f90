//! Where relocated fields begin.
ghost use Rattle.std.specs.Prelude.{◌≡◌, ℕ, ◌+◌, ◌≤◌, true, false, ◌||◌, OnOk, IfNone, IfSome};
ghost use Rattle.oc_omf_judge.specs.Starts as specs;

use oc_base::NoMemory;
use oc_weight::with_fields;
use std::alloc::Global;
use std::collections::BTreeMap;

/// How far apart two fields of four bytes begin that meet, at most.
const REACH: u64 = 3;

/// The places at which a field of four bytes begins, each `segment * 2^32 + offset`.
#[derive(Drop)]
pub(crate) struct Starts {
    starts: BTreeMap<u64, u8>,
}

impl Starts {
    /// None. No memory.
    pub(crate) fn new(alloc: Global) -> Starts
        ensures { (k : ℕ) → specs.is_start result k ≡ false }
    {
        Starts {
            starts: BTreeMap::new(alloc),
        }
    }

    // the first field that begins at or after a place
    fn behind(&self, at: u64) -> Option<u64>
        ensures none { IfNone result ((k : ℕ) → at ≤ k → specs.is_start self.now k ≡ false) }
        ensures held { IfSome result (λ start. specs.is_start self.now start ≡ true) }
        ensures above { IfSome result (λ start. at ≤ start) }
        ensures least { IfSome result (λ start. (k : ℕ) → at ≤ k → specs.is_start self.now k ≡ true → start ≤ k) }
    {
        match self.starts.range(at..).next() {
            Some((start, _)) => Some(*start),
            None => None,
        }
    }

    // whether a field begins less than four bytes from a place
    fn is_near(&self, at: u64) -> bool
        requires { at ≤ 1125899906842624 }
        ensures met { result ≡ true → specs.IsNear self.now at }
        ensures free { result ≡ false → specs.IsNear self.now at → ⊥ }
    {
        match self.behind(at.saturating_sub(REACH)) {
            Some(start) => start <= at + REACH,
            None => false,
        }
    }

    /// Whether a field begins less than four bytes from one of these places, which are counted from
    /// `base`. For each the time is the logarithm of the number of fields.
    pub(crate) fn are_met(&self, base: u64, places: &[u32]) -> bool
        requires { base ≤ 562949953421312 }
        ensures met { result ≡ true → specs.IsMet self.now base places.now }
        ensures free { result ≡ false → specs.IsMet self.now base places.now → ⊥ }
    {
        for place in places {
            if self.is_near(base + u64::from(*place)) {
                return true;
            }
        }
        false
    }

    /// Records fields that begin at these places, counted from `base`. `NoMemory` where memory ran
    /// out, or where there are more fields than `with_fields` allows. For each the time is the
    /// logarithm of the number of fields.
    pub(crate) fn take_up(&mut self, base: u64, places: &[u32]) -> Result<(), NoMemory>
        requires { base ≤ 562949953421312 }
        ensures { OnOk result ((k : ℕ) → specs.is_start self.new k ≡ (specs.is_start self.old k || specs.is_among base places.now k)) }
    {
        let _ = with_fields(self.starts.len() as u64, places.len() as u64)?;
        for place in places {
            let _before = self.starts.insert(base + u64::from(*place), 0)?;
        }
        Ok(())
    }
}
