//! Places of copies.
ghost use Rattle.std.specs.Prelude.{◌≡◌};

use std::marker::Model;

/// Offsets among expanded bytes. Contracts see a list of numbers.
#[derive(Debug, Drop)]
pub struct Places {
    items: Vec<u32>,
}

impl Model for Places {
    ghost use Rattle.std.specs.Prelude.{ℕ, List};

    ghost Value = { List ℕ };

    ghost view = { λ p. p.items.items };
}

impl Places {
    /// The places of a vector, which is taken over as it is. Constant time, no memory.
    pub(crate) fn from_vec(items: Vec<u32>) -> Places
        ensures { result ≡ items.items }
    {
        Places { items }
    }

    /// The places. Constant time, no memory.
    pub fn as_slice(&self) -> &[u32]
        ensures { result.now ≡ self.now }
    {
        self.items.as_slice()
    }
}
