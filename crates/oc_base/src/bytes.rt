//! Bytes and texts that own their memory.
ghost use Rattle.std.specs.Prelude.{◌≡◌, ◌<◌, IfOk, length, slice_set, string_bytes};

use crate::answers::NoMemory;
use smallvec::SmallVec;
use std::alloc::Global;
use std::marker::Model;

/// How many bytes need no memory beside the value: names of symbols are mostly as short.
const INLINE: usize = 15;

/// Bytes that own their memory; up to fifteen need none. Contracts see a list of bytes.
#[derive(Debug, Drop)]
pub struct Bytes {
    items: SmallVec<u8, INLINE>,
}

impl Model for Bytes {
    ghost use Rattle.std.specs.Prelude.{ℕ, List};

    ghost Value = { List ℕ };

    ghost view = { λ b. b.items.items };
}

impl Bytes {
    /// A copy of the bytes, in memory of its own where they are more than fifteen. Time and memory
    /// are those of the copy.
    pub fn from_slice(alloc: Global, from: &[u8]) -> Result<Bytes, NoMemory>
        ensures { IfOk result (λ b. b ≡ from.now) }
    {
        let items = SmallVec::from_slice(alloc, from)?;
        Ok(Bytes { items })
    }

    /// The bytes of a vector, which is taken over as it is. Constant time, no memory.
    pub fn from_vec(from: Vec<u8>) -> Bytes
        ensures { result ≡ from.items }
    {
        Bytes {
            items: SmallVec::from_vec(from),
        }
    }

    /// The bytes. Constant time, no memory.
    pub fn as_slice(&self) -> &[u8]
        ensures { result.now ≡ self.now }
    {
        self.items.as_slice()
    }

    /// Replaces the byte at `at`, an offset in bytes. Constant time, no memory.
    pub fn set(&mut self, at: u64, byte: u8)
        requires { at < length self.old }
        ensures { self.new ≡ slice_set self.old at byte }
    {
        self.items[at as usize] = byte;
    }
}

/// A text that owns its memory. Contracts see its bytes, which are UTF-8.
#[derive(Debug, Drop)]
pub struct Text {
    text: String,
}

impl Model for Text {
    ghost use Rattle.std.specs.Prelude.{ℕ, List, string_bytes};

    ghost Value = { List ℕ };

    ghost view = { λ t. string_bytes t.text };
}

impl Text {
    /// A copy of the text, in memory of its own. Time and memory are those of the copy.
    pub fn from_str(alloc: Global, from: &str) -> Result<Text, NoMemory>
        ensures { IfOk result (λ t. t ≡ from.now) }
    {
        let text = String::from_str(alloc, from)?;
        Ok(Text { text })
    }

    /// The text. Constant time, no memory.
    pub fn as_str(&self) -> &str
        ensures { result.now ≡ self.now }
    {
        self.text.as_str()
    }
}
