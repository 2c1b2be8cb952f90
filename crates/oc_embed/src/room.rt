//! The rooms of a caller, and what a call leaves in them.
ghost use Rattle.std.specs.Prelude.{◌≡◌, ◌≤◌, ◌-◌, ◌^◌, List, ℕ, length};
ghost use Rattle.oc_embed.specs.Rooms.{IsLeft, laid};
ghost use Rattle.oc_embed.specs.Said.{given, told};

use oc_target::Emits;

/// The status where a room is too small.
const TOO_SMALL: u8 = 11;

/// How many bytes a line has before its text: `objconv: `.
const NAME: usize = 9;

/// What a call leaves, beside what is in the rooms.
#[derive(Clone, Copy, Debug, PartialEq, Eq)]
pub struct Left {
    /// The status: one of the program's, or 11 where a room is too small.
    pub status: u8,
    /// How many bytes the output has, whether it has room or not.
    pub output: usize,
    /// How many bytes the text has, whether it has room or not.
    pub text: usize,
}

// lays the bytes into the start of a room
fn lay(bytes: &[u8], room: &mut [u8])
    requires { length bytes.now ≤ length room.old }
    ensures { room.new ≡ laid bytes.now room.old }
{
    room[..bytes.len()].copy_from_slice(bytes);
}

/// Tells the text of a line, in the caller's room for a text. Where it has no room, the room stays.
pub(crate) fn tell(line: &[u8], status: u8, text: &mut [u8]) -> Left
    requires { 10 ≤ length line.now }
    ensures { (output : List ℕ) → IsLeft (told status line.now) output text.old result output text.new }
{
    let said = &line[NAME..line.len() - 1];
    if said.len() > text.len() {
        return Left {
            status: TOO_SMALL,
            output: 0,
            text: said.len(),
        };
    }
    lay(said, text);
    Left {
        status,
        output: 0,
        text: said.len(),
    }
}

/// Gives these bytes, in the caller's room for the output. Where they have no room, the room stays.
pub(crate) fn give(bytes: &[u8], output: &mut [u8]) -> Left
    ensures { (text : List ℕ) → IsLeft (given bytes.now) output.old text result output.new text }
{
    if bytes.len() > output.len() {
        return Left {
            status: TOO_SMALL,
            output: bytes.len(),
            text: 0,
        };
    }
    lay(bytes, output);
    Left {
        status: 0,
        output: bytes.len(),
        text: 0,
    }
}

// gives a planned file
fn give_planned<P: Emits>(plan: &P, output: &mut [u8]) -> Left
    ensures { (text : List ℕ) → IsLeft (given (P.file plan.now)) output.old text result output.new text }
{
    let len = plan.len();
    if len > output.len() as u64 {
        return Left {
            status: TOO_SMALL,
            output: len as usize,
            text: 0,
        };
    }
    let _ = plan.window(0, output);
    Left {
        status: 0,
        output: len as usize,
        text: 0,
    }
}

/// Gives a planned file, in the caller's room for the output. Where it has no room, the room stays. Takes no memory.
pub(crate) fn give_plan<P: Emits + Drop>(plan: P, output: &mut [u8]) -> Left
    ensures { (text : List ℕ) → IsLeft (given (P.file plan)) output.old text result output.new text }
{
    give_planned(&plan, output)
}
