//! Structures as bytes, put number by number.
ghost use Rattle.std.specs.Prelude.{◌≡◌, ◌+◌, ◌≤◌, [], ◌++◌, length};
ghost use Rattle.oc_base.specs.Numbers.{bytes_of_number};
ghost use Rattle.oc_shelf.specs.declared.writing.rows.TheConstants.{ROW};

use crate::writing::rows::ROW;
use std::marker::Model;

/// The bytes of a structure so far, at most `ROW`. Contracts see them. No call takes memory.
#[derive(Debug, Drop)]
pub struct Packed {
    bytes: [u8; ROW],
    len: usize,
}

impl Model for Packed {
    ghost use Rattle.std.specs.Prelude.{ℕ, ◌≤◌, List, take};
    ghost use Rattle.oc_shelf.specs.declared.writing.rows.TheConstants.{ROW};

    ghost Value = { List ℕ };

    ghost view = { λ p. take p.len p.bytes };

    ghost invariant = { λ p. p.len ≤ ROW };
}

impl Packed {
    /// No bytes.
    pub fn new() -> Packed
        ensures { result ≡ [] }
    {
        Packed {
            bytes: [0; ROW],
            len: 0,
        }
    }

    /// Puts bytes after those so far. Linear in them.
    pub fn put(&mut self, bytes: &[u8])
        requires { length self.old + length bytes.now ≤ ROW }
        ensures bytes { self.new ≡ self.old ++ bytes.now }
        ensures long { length self.new ≡ length self.old + length bytes.now }
    {
        let end = self.len + bytes.len();
        self.bytes[self.len..end].copy_from_slice(bytes);
        self.len = end;
    }

    /// Puts a byte after those so far. Constant time.
    #[tactic(auto, unfolding(oc_base::specs::Numbers::bytes_of_number))]
    pub fn put_u8(&mut self, x: u8)
        requires { length self.old + 1 ≤ ROW }
        ensures bytes { self.new ≡ self.old ++ bytes_of_number 1 x }
        ensures long { length self.new ≡ length self.old + 1 }
    {
        self.put(&x.to_le_bytes());
    }

    /// Puts the two bytes of a number after those so far. Constant time.
    #[tactic(auto, unfolding(oc_base::specs::Numbers::bytes_of_number))]
    pub fn put_u16(&mut self, x: u16)
        requires { length self.old + 2 ≤ ROW }
        ensures bytes { self.new ≡ self.old ++ bytes_of_number 2 x }
        ensures long { length self.new ≡ length self.old + 2 }
    {
        self.put(&x.to_le_bytes());
    }

    /// Puts the four bytes of a number after those so far. Constant time.
    #[tactic(auto, unfolding(oc_base::specs::Numbers::bytes_of_number))]
    pub fn put_u32(&mut self, x: u32)
        requires { length self.old + 4 ≤ ROW }
        ensures bytes { self.new ≡ self.old ++ bytes_of_number 4 x }
        ensures long { length self.new ≡ length self.old + 4 }
    {
        self.put(&x.to_le_bytes());
    }

    /// The bytes. Constant time.
    pub fn as_slice(&self) -> &[u8]
        ensures { result.now ≡ self.now }
    {
        &self.bytes[..self.len]
    }
}
