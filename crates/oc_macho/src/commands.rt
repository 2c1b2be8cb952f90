//! The load commands, walked once.
ghost use Rattle.std.specs.Prelude.{◌≡◌, ◌+◌, ◌<◌, ◌≤◌, if◌then◌else◌, length, nat_lt, Some, None, true, MatchOption};
ghost use Rattle.oc_linking.specs.Numbers.{or_else};
ghost use Rattle.oc_macho.specs.HeaderFaults as rules;
ghost use Rattle.oc_macho.specs.LoadCommand as command;
ghost use Rattle.oc_macho.specs.MachHeader as header;
ghost use Rattle.oc_macho.specs.Walked as walked;

use crate::constants::{LC_DYSYMTAB, LC_SYMTAB};
use crate::load_command::{DYSYMTAB_COMMAND_SIZE, LOAD_COMMAND_SIZE, LoadCommand, load_command_at};
use crate::mach_header::{MachHeader, mach_header_size};
use crate::section_header::section_header_size;
use crate::segment_command::{segment_command_at, segment_command_size};
use crate::symtab_command::SYMTAB_COMMAND_SIZE;
use crate::words::{foreign_number, segment_number};
use oc_base::Word;

/// Whether `size` bytes at `at` pass an end. Constant time.
pub fn passes_end(end: u64, at: u64, size: u64) -> bool
    ensures { result ≡ rules.passes_end end at size }
{
    match at.checked_add(size) {
        Some(last) => end < last,
        None => true,
    }
}

/// Where commands of two kinds lie: how many there are, and the place of the first.
#[derive(Clone, Copy, Debug, PartialEq, Eq)]
pub(crate) struct Commands {
    /// How many segments there are.
    pub(crate) segments: u32,
    /// Where the first begins, in bytes from the start of the file.
    pub(crate) segment: Option<u64>,
    /// How many commands place symbols and strings.
    pub(crate) symtabs: u32,
    /// Where the first begins, in bytes from the start of the file.
    pub(crate) symtab: Option<u64>,
}

// whether the command at a place, with its first bytes in the file, does not lie before the end of
// the commands, or has a size that none has
fn is_misplaced(word: Word, file: &[u8], end: u64, at: u64) -> bool
    requires end { end ≡ rules.commands_end word file.now }
    requires inside { end ≤ length file.now }
    ensures { result ≡ rules.is_misplaced word file.now at }
{
    if passes_end(end, at, LOAD_COMMAND_SIZE as u64) {
        return true;
    }
    let cmdsize = load_command_at(file, at as usize).cmdsize;
    cmdsize < LOAD_COMMAND_SIZE as u32
        || cmdsize % 4 != 0
        || passes_end(end, at, u64::from(cmdsize))
}

// whether the segment at a place is shorter than what it holds
fn is_short_segment(word: Word, file: &[u8], at: u64, cmdsize: u32) -> bool
    requires { at + cmdsize ≤ length file.now }
    ensures { result ≡ nat_lt cmdsize (rules.whole_segment word file.now at) }
{
    if u64::from(cmdsize) < segment_command_size(word) {
        return true;
    }
    let nsects = segment_command_at(word, file, at as usize).nsects;
    u64::from(cmdsize) < segment_command_size(word) + section_header_size(word) * u64::from(nsects)
}

// whether a command at a place is too short for what it holds, or is a segment of the other word
#[tactic(auto, unfolding(crate::specs::HeaderFaults::least_size))]
fn is_short(word: Word, file: &[u8], at: u64, c: LoadCommand) -> bool
    requires command { c ≡ command.load_command_at file.now at }
    requires inside { at + c.cmdsize ≤ length file.now }
    ensures { result ≡ rules.is_short word file.now at }
{
    if c.cmd == foreign_number(word) {
        return true;
    }
    if c.cmd == segment_number(word) {
        return is_short_segment(word, file, at, c.cmdsize);
    }
    if c.cmd == LC_SYMTAB {
        return c.cmdsize < SYMTAB_COMMAND_SIZE as u32;
    }
    if c.cmd == LC_DYSYMTAB {
        return c.cmdsize < DYSYMTAB_COMMAND_SIZE;
    }
    c.cmdsize < LOAD_COMMAND_SIZE as u32
}

// the command at a place, where it breaks no rule
#[tactic(auto, unfolding(crate::specs::HeaderFaults::is_bad))]
fn read_command(word: Word, file: &[u8], end: u64, at: u64) -> Option<LoadCommand>
    requires end { end ≡ rules.commands_end word file.now }
    requires inside { end ≤ length file.now }
    ensures { MatchOption result (rules.is_bad word file.now at ≡ true) (walked.IsGoodCommand word file.now end at) }
{
    if is_misplaced(word, file, end, at) {
        return None;
    }
    let c = load_command_at(file, at as usize);
    if is_short(word, file, at, c) {
        return None;
    }
    Some(c)
}

// the first of two places, where the second counts if it `is` one
fn first_place(before: Option<u64>, is: bool, at: u64) -> Option<u64>
    ensures { result ≡ or_else before (if is then Some at else None) }
{
    match before {
        Some(place) => Some(place),
        None => { if is { Some(at) } else { None } }
    }
}

impl Commands {
    // no commands
    fn none() -> Commands
        ensures { result ≡ walked.no_commands }
    {
        Commands {
            segments: 0,
            segment: None,
            symtabs: 0,
            symtab: None,
        }
    }

    // with one more command, of that number and at a place
    fn with(self, word: Word, cmd: u32, at: u64) -> Commands
        requires segments { self.segments < 4294967295 }
        requires symtabs { self.symtabs < 4294967295 }
        ensures { result ≡ walked.with_command word self cmd at }
    {
        let is_segment = cmd == segment_number(word);
        let is_symtab = cmd == LC_SYMTAB;
        Commands {
            segments: self.segments + u32::from(is_segment),
            segment: first_place(self.segment, is_segment, at),
            symtabs: self.symtabs + u32::from(is_symtab),
            symtab: first_place(self.symtab, is_symtab, at),
        }
    }
}

/// Where the commands of two kinds lie, where no command breaks a rule. Linear in the commands that
/// the header counts, which have room in the file.
pub(crate) fn walk_commands(word: Word, file: &[u8], h: MachHeader) -> Option<Commands>
    requires header { h ≡ header.mach_header_of file.now }
    requires inside { rules.commands_end word file.now ≤ length file.now }
    ensures { MatchOption result (rules.any_bad word file.now h.ncmds ≡ true) (λ c. walked.AreCommands word file.now h.ncmds c) }
{
    let end = mach_header_size(word) + u64::from(h.sizeofcmds);
    let mut at = mach_header_size(word);
    let mut found = Commands::none();
    for _i in 0..h.ncmds {
        match read_command(word, file, end, at) {
            None => return None,
            Some(c) => {
                found = found.with(word, c.cmd, at);
                at += u64::from(c.cmdsize);
            }
        }
    }
    Some(found)
}
