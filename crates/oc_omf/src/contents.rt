//! The contents of an entry, put field by field (TIS OMF 1.1, "Record Format").
ghost use Rattle.std.specs.Prelude.{◌≡◌, ◌+◌, ◌^◌, ◌<◌, ◌≤◌, [], ◌∷◌, ◌++◌, length};
ghost use Rattle.oc_base.specs.Numbers.{bytes_of_number};
ghost use Rattle.oc_omf.specs.Bytes as structures;
ghost use Rattle.oc_omf.specs.declared.contents.TheConstants.{ROOM};

use crate::constants::{LENGTH_OF_2, LENGTH_OF_3, LENGTH_OF_4, MOST_SHORT_LENGTH};
use std::marker::Model;

/// The most bytes that the contents of an entry have: at most 256 fixups, of 7 bytes each.
pub const ROOM: usize = 2048;

/// The contents of an entry so far. Contracts see their bytes. No call takes memory.
#[derive(Drop)]
pub struct Contents {
    bytes: [u8; ROOM],
    len: usize,
}

impl Model for Contents {
    ghost use Rattle.std.specs.Prelude.{ℕ, ◌≤◌, List, take};
    ghost use Rattle.oc_omf.specs.declared.contents.TheConstants.{ROOM};

    ghost Value = { List ℕ };

    ghost view = { λ c. take c.len c.bytes };

    ghost invariant = { λ c. c.len ≤ ROOM };
}

impl Contents {
    /// No bytes.
    pub fn new() -> Contents
        ensures { result ≡ [] }
    {
        Contents {
            bytes: [0; ROOM],
            len: 0,
        }
    }

    /// Puts bytes after those so far. Linear in them.
    pub fn put(&mut self, bytes: &[u8])
        requires { length self.old + length bytes.now ≤ ROOM }
        ensures bytes { self.new ≡ self.old ++ bytes.now }
        ensures long { length self.new ≡ length self.old + length bytes.now }
    {
        let end = self.len + bytes.len();
        self.bytes[self.len..end].copy_from_slice(bytes);
        self.len = end;
    }

    /// Puts a byte after those so far. Constant time.
    pub fn put_u8(&mut self, x: u8)
        requires { length self.old + 1 ≤ ROOM }
        ensures bytes { self.new ≡ self.old ++ x ∷ [] }
        ensures long { length self.new ≡ length self.old + 1 }
    {
        self.put(&[x]);
    }

    /// Puts the four bytes of a number after those so far. Constant time.
    #[tactic(auto, unfolding(oc_base::specs::Numbers::bytes_of_number))]
    pub fn put_u32(&mut self, x: u32)
        requires { length self.old + 4 ≤ ROOM }
        ensures bytes { self.new ≡ self.old ++ bytes_of_number 4 x }
        ensures long { length self.new ≡ length self.old + 4 }
    {
        self.put(&x.to_le_bytes());
    }

    /// Puts an index after those so far (TIS OMF 1.1, "Index Fields"). Constant time.
    pub fn put_index(&mut self, index: u16)
        requires low { index < 2 ^ 15 }
        requires room { length self.old + 2 ≤ ROOM }
        ensures bytes { self.new ≡ self.old ++ structures.index_bytes index }
        ensures long { length self.new ≤ length self.old + 2 }
    {
        if index < 128 {
            self.put_u8(index as u8);
        } else {
            self.put_u8((128 + index / 256) as u8);
            self.put_u8((index % 256) as u8);
        }
    }

    /// Puts a name of up to 255 bytes after those so far. Linear in it.
    pub fn put_name(&mut self, name: &[u8])
        requires short { length name.now < 256 }
        requires room { length self.old + 1 + length name.now ≤ ROOM }
        ensures bytes { self.new ≡ self.old ++ structures.name_bytes name.now }
        ensures long { length self.new ≡ length self.old + 1 + length name.now }
    {
        self.put_u8(name.len() as u8);
        self.put(name);
    }

    /// Puts the length of a communal after those so far, in its shortest form (TIS OMF 1.1,
    /// "COMDEF"). Constant time.
    #[tactic(auto, unfolding(oc_base::specs::Numbers::bytes_of_number, crate::specs::Bytes::length_bytes))]
    pub fn put_length(&mut self, size: u32)
        requires { length self.old + 5 ≤ ROOM }
        ensures { self.new ≡ self.old ++ structures.length_bytes size }
    {
        let bytes = size.to_le_bytes();
        if size <= u32::from(MOST_SHORT_LENGTH) {
            self.put(&bytes[..1]);
        } else if size < 1 << 16 {
            self.put_u8(LENGTH_OF_2);
            self.put(&bytes[..2]);
        } else if size < 1 << 24 {
            self.put_u8(LENGTH_OF_3);
            self.put(&bytes[..3]);
        } else {
            self.put_u8(LENGTH_OF_4);
            self.put(&bytes);
        }
    }

    /// The bytes, at most `ROOM`. Constant time.
    pub fn as_slice(&self) -> &[u8]
        ensures bytes { result.now ≡ self.now }
        ensures few { length result.now ≤ ROOM }
    {
        &self.bytes[..self.len]
    }
}
