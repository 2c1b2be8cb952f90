//! Positions by number: a slot for each number below a count, which may be empty.
ghost use Rattle.std.specs.Prelude.{◌≡◌, ◌<◌, ◌++◌, [], ◌∷◌, IfOk, OnOk, OnErr, length, None, Some, replicate, slice_index_or, slice_set};

use oc_base::NoMemory;
use std::alloc::Global;
use std::marker::Model;

/// A slot for each number below a count: a position, or nothing. Contracts see the list of slots.
#[derive(Debug, Drop)]
pub struct Slots {
    slots: Vec<Option<u32>>,
}

impl Model for Slots {
    ghost use Rattle.std.specs.Prelude.{ℕ, List, Option};

    ghost Value = { List (Option ℕ) };

    ghost view = { λ s. s.slots.items };
}

impl Slots {
    /// Empty slots for the numbers below a count. `NoMemory` where memory ran out. Linear time.
    pub fn empty(alloc: Global, count: u32) -> Result<Slots, NoMemory>
        ensures { IfOk result (λ slots. slots ≡ replicate count None) }
    {
        let mut slots = Vec::with_capacity(alloc, count as usize)?;
        for _ in 0..count {
            slots.push(None)?;
        }
        Ok(Slots { slots })
    }

    /// What the slot of a number has; nothing past the last. Constant time.
    pub fn get(&self, number: u32) -> Option<u32>
        ensures { result ≡ slice_index_or self.now number None }
    {
        match self.slots.get(number as usize) {
            Some(slot) => *slot,
            None => None,
        }
    }

    /// Puts a position into the slot of a number. Constant time.
    pub fn fill(&mut self, number: u32, position: u32)
        requires { number < length self.old }
        ensures { self.new ≡ slice_set self.old number (Some position) }
    {
        self.slots[number as usize] = Some(position);
    }

    /// Puts one more slot after the last. `NoMemory` where memory ran out, and the slots stay.
    /// Amortized constant time.
    pub fn push(&mut self, slot: Option<u32>) -> Result<(), NoMemory>
        ensures ok { OnOk result (self.new ≡ self.old ++ slot ∷ []) }
        ensures err { OnErr result (self.new ≡ self.old) }
    {
        self.slots.push(slot)?;
        Ok(())
    }
}
