//! The files of a device in memory, one slot for each name. The contracts speak of the maps by name
//! that the slots give.
ghost use Rattle.std.specs.Prelude.{◌≡◌, ℕ, [], length, IfOk, OnOk, OnErr, is_err, IsSome, Some, None, unwrap_or, MatchOption, is_none};
ghost use Rattle.oc_outside.specs.Held.{file_of, with_file, emptied, extended};
ghost use Rattle.oc_outside.specs.Slots.{held_of, rooms_of, place_of, room_of, with_room, lacks_room};

use crate::failed::Failed;
use crate::slot::Slot;
use oc_base::NoMemory;
use std::alloc::Global;

/// The place of the first slot of that name.
fn place_in(slots: &[Slot], name: &str) -> Option<usize>
    ensures { result ≡ place_of name.now slots.now }
{
    slots.iter().position(|slot| slot.is_named(name))
}

/// The bytes of the file of that name, if it is held.
pub(crate) fn file_in<'s>(slots: &'s [Slot], name: &str) -> Option<&'s [u8]>
    ensures { MatchOption result
        (file_of name.now (held_of slots.now) ≡ None)
        (λ bytes. file_of name.now (held_of slots.now) ≡ Some bytes.now) }
{
    let place = place_in(slots, name)?;
    slots[place].file()
}

/// The file of that name exists and is empty, where the name has room.
pub(crate) fn create_in(slots: &mut [Slot], name: &str) -> Result<(), Failed>
    ensures fails { is_err result ≡ is_none (room_of name.now (rooms_of slots.old)) }
    ensures ok { OnOk result (held_of slots.new ≡ emptied name.now (held_of slots.old)) }
    ensures err { OnErr result (held_of slots.new ≡ held_of slots.old) }
    ensures rooms { rooms_of slots.new ≡ rooms_of slots.old }
{
    let Some(place) = place_in(slots, name) else {
        return Err(Failed);
    };
    slots[place].clear();
    Ok(())
}

/// Appends the whole piece to the file of that name, or nothing where it would pass the room.
pub(crate) fn append_in(slots: &mut [Slot], name: &str, piece: &[u8]) -> Result<usize, Failed>
    requires { IsSome (file_of name.now (held_of slots.old)) }
    ensures fails { is_err result
        ≡ lacks_room name.now (length piece.now) (held_of slots.old) (rooms_of slots.old) }
    ensures whole { IfOk result (λ n. n ≡ length piece.now) }
    ensures ok { OnOk result (held_of slots.new ≡ extended name.now piece.now (held_of slots.old)) }
    ensures err { OnErr result (held_of slots.new ≡ held_of slots.old) }
    ensures rooms { rooms_of slots.new ≡ rooms_of slots.old }
{
    let Some(place) = place_in(slots, name) else {
        unreachable!();
    };
    slots[place].append(piece)
}

/// The file of that name holds these bytes, and the room of the name is raised to their number
/// where it is lower.
pub(crate) fn set_in(
    alloc: Global,
    slots: &mut Vec<Slot>,
    name: &str,
    bytes: &[u8],
) -> Result<(), NoMemory>
    ensures held { OnOk result
        (held_of slots.new.items ≡ with_file name.now bytes.now (held_of slots.old.items)) }
    ensures rooms { OnOk result
        (rooms_of slots.new.items ≡ with_room name.now (length bytes.now) (rooms_of slots.old.items)) }
    ensures err_held { OnErr result (held_of slots.new.items ≡ held_of slots.old.items) }
    ensures err_rooms { OnErr result (rooms_of slots.new.items ≡ rooms_of slots.old.items) }
{
    match place_in(slots.as_slice(), name) {
        Some(place) => slots[place].set(bytes),
        None => {
            let mut slot = Slot::new(alloc, name)?;
            slot.set(bytes)?;
            slots.push(slot)?;
            Ok(())
        }
    }
}

/// The room of that name is raised to that many bytes where it is lower.
pub(crate) fn raise_in(
    alloc: Global,
    slots: &mut Vec<Slot>,
    name: &str,
    room: u64,
) -> Result<(), NoMemory>
    ensures rooms { OnOk result
        (rooms_of slots.new.items ≡ with_room name.now room (rooms_of slots.old.items)) }
    ensures err { OnErr result (rooms_of slots.new.items ≡ rooms_of slots.old.items) }
    ensures held { held_of slots.new.items ≡ held_of slots.old.items }
{
    match place_in(slots.as_slice(), name) {
        Some(place) => slots[place].raise(room),
        None => {
            let mut slot = Slot::new(alloc, name)?;
            slot.raise(room)?;
            slots.push(slot)?;
            Ok(())
        }
    }
}
