ghost use Rattle.std.specs.Prelude.{◌≡◌, ◌≤◌, [], ◌++◌, length, vec_len, vec_capacity, max, IfOk, OnOk, OnErr, is_err};
ghost use Rattle.oc_outside.specs.Pages.{passes_room};

use crate::failed::Failed;
use oc_base::NoMemory;
use std::alloc::Global;
use std::marker::Model;

/// Reserves memory for so many bytes in all.
fn reserve(bytes: &mut Vec<u8>, room: u64) -> Result<(), NoMemory>
    ensures ok { OnOk result (room ≤ vec_capacity bytes.new) }
    ensures items { bytes.new.items ≡ bytes.old.items }
    ensures len { vec_len bytes.new ≡ vec_len bytes.old }
    ensures capacity { vec_capacity bytes.old ≤ vec_capacity bytes.new }
{
    bytes.reserve_exact((room as usize).saturating_sub(bytes.len()))?;
    Ok(())
}

/// Bytes in memory with room for more, which is reserved: within the room, no call takes memory.
#[derive(Debug, Drop)]
pub(crate) struct Page {
    bytes: Vec<u8>,
    room: u64,
}

impl Model for Page {
    ghost use Rattle.std.specs.Prelude.{◌≤◌, vec_len, vec_capacity};
    ghost use Rattle.oc_outside.specs.Pages.{PageState};

    ghost Value = { PageState };

    ghost view = { λ p. record { bytes = p.bytes.items; room = p.room } };

    ghost invariant = { λ p. (vec_len p.bytes ≤ p.room) × (p.room ≤ vec_capacity p.bytes) };
}

impl Page {
    /// No bytes, and no room.
    pub(crate) fn new(alloc: Global) -> Page
        ensures { result ≡ record { bytes = []; room = 0 } }
    {
        Page {
            bytes: Vec::new(alloc),
            room: 0,
        }
    }

    pub(crate) fn as_slice(&self) -> &[u8]
        ensures { result.now ≡ self.now.bytes }
    {
        self.bytes.as_slice()
    }

    pub(crate) fn clear(&mut self)
        ensures { self.new ≡ record self.old { bytes = [] } }
    {
        self.bytes.clear();
    }

    /// Appends the whole piece, or nothing where it would pass the room.
    pub(crate) fn append(&mut self, piece: &[u8]) -> Result<usize, Failed>
        ensures fails { is_err result ≡ passes_room self.old.room self.old.bytes (length piece.now) }
        ensures whole { IfOk result (λ n. n ≡ length piece.now) }
        ensures ok { OnOk result (self.new ≡ record self.old { bytes = self.old.bytes ++ piece.now }) }
        ensures err { OnErr result (self.new ≡ self.old) }
    {
        let left = self.room as usize - self.bytes.len();
        if left < piece.len() {
            return Err(Failed);
        }
        let _ = self.bytes.extend_from_slice(piece);
        Ok(piece.len())
    }

    /// Raises the room to that many bytes where it is lower.
    pub(crate) fn raise(&mut self, room: u64) -> Result<(), NoMemory>
        ensures ok { OnOk result (self.new ≡ record self.old { room = max self.old.room room }) }
        ensures err { OnErr result (self.new ≡ self.old) }
    {
        reserve(&mut self.bytes, room)?;
        self.room = self.room.max(room);
        Ok(())
    }

    /// Holds these bytes, and the room is raised to their number where it is lower.
    pub(crate) fn set(&mut self, bytes: &[u8]) -> Result<(), NoMemory>
        ensures ok { OnOk result
            (self.new ≡ record { bytes = bytes.now; room = max self.old.room (length bytes.now) }) }
        ensures err { OnErr result (self.new ≡ self.old) }
    {
        reserve(&mut self.bytes, bytes.len() as u64)?;
        self.bytes.clear();
        let _ = self.bytes.extend_from_slice(bytes);
        self.room = self.room.max(bytes.len() as u64);
        Ok(())
    }
}

/// Raises the rooms of two pages, or neither: what both need is reserved before one is raised.
pub(crate) fn raise_both(
    first: &mut Page,
    second: &mut Page,
    rooms: (u64, u64),
) -> Result<(), NoMemory>
    ensures first { OnOk result
        (first.new ≡ record first.old { room = max first.old.room rooms.0 }) }
    ensures second { OnOk result
        (second.new ≡ record second.old { room = max second.old.room rooms.1 }) }
    ensures err_first { OnErr result (first.new ≡ first.old) }
    ensures err_second { OnErr result (second.new ≡ second.old) }
{
    reserve(&mut first.bytes, rooms.0)?;
    reserve(&mut second.bytes, rooms.1)?;
    first.room = first.room.max(rooms.0);
    second.room = second.room.max(rooms.1);
    Ok(())
}
