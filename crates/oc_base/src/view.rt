//! Numbers and texts at places of a file.
ghost use Rattle.std.specs.Prelude.{◌≡◌, ◌+◌, ◌≤◌, length, slice_range, MatchResult, IsTrue, ◌↔◌};
ghost use Rattle.std.specs.Result.{OkIff};
ghost use Rattle.oc_base.specs.Loans.{LendsIff};
ghost use Rattle.oc_base.specs.Numbers.{number_at};
ghost use Rattle.oc_base.specs.Texts.{IsTextAt, HasNoTextAt};

use crate::answers::OutOfView;
use byteorder::{ByteOrder, LittleEndian};
use memchr::memchr;
use std::marker::Model;

/// The bytes of a file, or of a part of one. Contracts see a list of bytes. Numbers are little
/// endian, places are offsets in bytes from the start, and no call takes memory.
#[derive(Debug, Drop)]
pub struct View<'a> {
    bytes: &'a [u8],
}

impl<'a> Model for View<'a> {
    ghost use Rattle.std.specs.Prelude.{ℕ, List};

    ghost Value = { List ℕ };

    ghost view = { λ v. v.bytes.now };
}

impl<'a> View<'a> {
    /// A view of these bytes. Constant time.
    pub fn new(bytes: &'a [u8]) -> View<'a>
        ensures { result ≡ bytes.now }
    {
        View { bytes }
    }

    /// How many bytes there are. Constant time.
    pub fn len(&self) -> u64
        ensures { result ≡ length self.now }
    {
        self.bytes.len() as u64
    }

    /// Whether there is no byte. Constant time.
    pub fn is_empty(&self) -> bool
        ensures { IsTrue result ↔ (length self.now ≡ 0) }
    {
        self.bytes.is_empty()
    }

    /// The bytes. Constant time.
    pub fn bytes(&self) -> &'a [u8]
        ensures { result.now ≡ self.now }
    {
        self.bytes
    }

    /// The byte at `at`; `OutOfView` exactly where that place passes the end. Constant time.
    #[tactic(auto, unfolding(crate::specs::Numbers::number_at))]
    pub fn u8_at(&self, at: u64) -> Result<u8, OutOfView>
        ensures { OkIff result (at + 1 ≤ length self.now) (number_at self.now at 1) }
    {
        let part = self.part(at, 1)?;
        Ok(part[0])
    }

    /// The number of the two bytes from `at`; `OutOfView` exactly where they pass the end. Constant
    /// time.
    #[tactic(auto, unfolding(crate::specs::Numbers::number_at))]
    pub fn u16_at(&self, at: u64) -> Result<u16, OutOfView>
        ensures { OkIff result (at + 2 ≤ length self.now) (number_at self.now at 2) }
    {
        let part = self.part(at, 2)?;
        Ok(LittleEndian::read_u16(part))
    }

    /// The number of the four bytes from `at`; `OutOfView` exactly where they pass the end.
    /// Constant time.
    #[tactic(auto, unfolding(crate::specs::Numbers::number_at))]
    pub fn u32_at(&self, at: u64) -> Result<u32, OutOfView>
        ensures { OkIff result (at + 4 ≤ length self.now) (number_at self.now at 4) }
    {
        let part = self.part(at, 4)?;
        Ok(LittleEndian::read_u32(part))
    }

    /// The number of the eight bytes from `at`; `OutOfView` exactly where they pass the end.
    /// Constant time.
    #[tactic(auto, unfolding(crate::specs::Numbers::number_at))]
    pub fn u64_at(&self, at: u64) -> Result<u64, OutOfView>
        ensures { OkIff result (at + 8 ≤ length self.now) (number_at self.now at 8) }
    {
        let part = self.part(at, 8)?;
        Ok(LittleEndian::read_u64(part))
    }

    /// The bytes from `at` up to the first NUL at or after it; `OutOfView` exactly where there is
    /// no such NUL. Linear in the bytes that are passed over.
    pub fn text_at(&self, at: u64) -> Result<&'a [u8], OutOfView>
        ensures { MatchResult result (λ text. IsTextAt self.now at text.now) (λ _. HasNoTextAt self.now at) }
    {
        if at > self.len() {
            return Err(OutOfView);
        }
        let rest = &self.bytes[at as usize..];
        match memchr(0, rest) {
            Some(end) => Ok(&rest[..end]),
            None => Err(OutOfView),
        }
    }

    /// The view of `len` bytes from `at`; `OutOfView` exactly where `at + len` passes the end, also
    /// where `len` is 0. Constant time.
    pub fn sub(&self, at: u64, len: u64) -> Result<View<'a>, OutOfView>
        ensures { OkIff result (at + len ≤ length self.now) (slice_range self.now at (at + len)) }
    {
        let bytes = self.part(at, len)?;
        Ok(View { bytes })
    }

    // the bytes of `sub`
    fn part(&self, at: u64, len: u64) -> Result<&'a [u8], OutOfView>
        ensures { LendsIff result (at + len ≤ length self.now) (slice_range self.now at (at + len)) }
    {
        match at.checked_add(len) {
            Some(end) if end <= self.len() => Ok(&self.bytes[at as usize..end as usize]),
            _ => Err(OutOfView),
        }
    }
}
