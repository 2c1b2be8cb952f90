ghost use Rattle.std.specs.Prelude.{◌≡◌, ◌↔◌, [], ◌++◌, length, max, IfOk, OnOk, OnErr, is_err, IsSome, Some, None, unwrap_or, MatchOption};
ghost use Rattle.std.specs.Str.{bytes_eq};
ghost use Rattle.oc_outside.specs.Pages.{passes_room};

use crate::failed::Failed;
use crate::page::Page;
use oc_base::NoMemory;
use std::alloc::Global;
use std::marker::Model;

/// A name, its file, if that exists, and its room, which may come before the file.
#[derive(Debug, Drop)]
pub(crate) struct Slot {
    name: String,
    there: bool,
    page: Page,
}

impl Model for Slot {
    ghost use Rattle.std.specs.Prelude.{if◌then◌else◌, Some, None, string_bytes};
    ghost use Rattle.oc_outside.specs.Slots.{SlotState};

    ghost Value = { SlotState };

    ghost view = { λ s. record {
      name = string_bytes s.name;
      file = if s.there then Some s.page.bytes else None;
      room = s.page.room;
    } };
}

impl Slot {
    /// A name without a file and with room 0.
    pub(crate) fn new(alloc: Global, name: &str) -> Result<Slot, NoMemory>
        ensures { IfOk result (λ s. s ≡ record { name = name.now; file = None; room = 0 }) }
    {
        Ok(Slot {
            name: String::from_str(alloc, name)?,
            there: false,
            page: Page::new(alloc),
        })
    }

    pub(crate) fn is_named(&self, name: &str) -> bool
        ensures { result ≡ bytes_eq self.now.name name.now }
    {
        self.name.as_str() == name
    }

    pub(crate) fn file(&self) -> Option<&[u8]>
        ensures { MatchOption result (self.now.file ≡ None) (λ bytes. self.now.file ≡ Some bytes.now) }
    {
        if self.there {
            Some(self.page.as_slice())
        } else {
            None
        }
    }

    /// The file exists and is empty.
    pub(crate) fn clear(&mut self)
        ensures { self.new ≡ record self.old { file = Some [] } }
    {
        self.page.clear();
        self.there = true;
    }

    /// Appends the whole piece to the file, or nothing where it would pass the room.
    pub(crate) fn append(&mut self, piece: &[u8]) -> Result<usize, Failed>
        requires { IsSome self.old.file }
        ensures fails { is_err result
            ≡ passes_room self.old.room (unwrap_or self.old.file []) (length piece.now) }
        ensures whole { IfOk result (λ n. n ≡ length piece.now) }
        ensures ok { OnOk result
            (self.new ≡ record self.old { file = Some (unwrap_or self.old.file [] ++ piece.now) }) }
        ensures err { OnErr result (self.new ≡ self.old) }
    {
        self.page.append(piece)
    }

    /// Raises the room to that many bytes where it is lower.
    pub(crate) fn raise(&mut self, room: u64) -> Result<(), NoMemory>
        ensures ok { OnOk result (self.new ≡ record self.old { room = max self.old.room room }) }
        ensures err { OnErr result (self.new ≡ self.old) }
    {
        self.page.raise(room)
    }

    /// The file holds these bytes, and the room is raised to their number where it is lower.
    pub(crate) fn set(&mut self, bytes: &[u8]) -> Result<(), NoMemory>
        ensures ok { OnOk result
            (self.new
            ≡ record self.old {
              file = Some bytes.now;
              room = max self.old.room (length bytes.now);
            }) }
        ensures err { OnErr result (self.new ≡ self.old) }
    {
        self.page.set(bytes)?;
        self.there = true;
        Ok(())
    }
}
