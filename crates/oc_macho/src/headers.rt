//! The stage of the header: what it says, and what the commands place.
ghost use Rattle.std.specs.Prelude.{◌≡◌, ◌+◌, ◌≤◌, ℕ, true, length, Some, None, MatchOption, IfErr, IfOk, OnOk};
ghost use Rattle.std.specs.Option.{option_map, option_map_or};
ghost use Rattle.oc_base.specs.declared.limits.TheConstants.{MOST_INPUT};
ghost use Rattle.oc_linking.specs.FirstFault.{first_broken, stage_fault};
ghost use Rattle.oc_macho.specs.HeaderFaults as rules;
ghost use Rattle.oc_macho.specs.MachHeader as header;
ghost use Rattle.oc_macho.specs.SegmentCommand as segment;
ghost use Rattle.oc_macho.specs.SymtabCommand as symtab;
ghost use Rattle.oc_macho.specs.Tables as tables;
ghost use Rattle.oc_macho.specs.declared.symtab_command.TheConstants.{SYMTAB_COMMAND_SIZE};
ghost use Rattle.oc_macho.specs.Walked as walked;

use crate::commands::{Commands, passes_end, walk_commands};
use crate::constants::MH_OBJECT;
use crate::frame::{Frame, bytes_at};
use crate::load_command::LOAD_COMMAND_SIZE;
use crate::mach_header::{MachHeader, mach_header_of, mach_header_size};
use crate::nlist::nlist_size;
use crate::segment_command::{segment_command_at, segment_command_size};
use crate::symtab_command::{SymtabCommand, symtab_command_at};
use crate::texts::text_end;
use crate::words::cpu_type;
use oc_base::{Code, Fault, Phase, Word};

// a fault of the header, or of what it places
fn header_fault(place: u64, code: Code) -> Fault
    ensures { result ≡ rules.header_fault place code }
{
    Fault {
        phase: Phase::Header,
        index: 0,
        code,
        place,
    }
}

// the commands, where there is room for them, none breaks a rule, and just one places symbols and
// strings
fn good_commands(word: Word, file: &[u8], h: MachHeader) -> Option<Commands>
    requires header { h ≡ header.mach_header_of file.now }
    requires inside { rules.commands_end word file.now ≤ length file.now }
    ensures { MatchOption result (rules.has_bad_commands word file.now ≡ true) (walked.AreGoodCommands word file.now h.ncmds) }
{
    if u64::from(h.sizeofcmds) < LOAD_COMMAND_SIZE as u64 * u64::from(h.ncmds) {
        return None;
    }
    match walk_commands(word, file, h) {
        None => None,
        Some(found) => {
            if found.symtabs == 1 {
                Some(found)
            } else {
                None
            }
        }
    }
}

// the commands of a file; an error where the header or a command has a fault, with the first
fn read_commands(word: Word, file: &[u8]) -> Result<Commands, Fault>
    requires { length file.now ≤ MOST_INPUT }
    ensures clean { OnOk result (first_broken (rules.command_conditions word file.now) ≡ None) }
    ensures found { IfOk result (λ c. walked.AreCommands word file.now (tables.command_count file.now) c) }
    ensures fault { IfErr result (λ fault. first_broken (rules.command_conditions word file.now) ≡ Some fault) }
{
    let size = file.len() as u64;
    let head = mach_header_size(word);
    if passes_end(size, 0, head) {
        return Err(header_fault(0, Code::Short));
    }
    let h = mach_header_of(file);
    if h.cputype != cpu_type(word) || h.filetype != MH_OBJECT {
        return Err(header_fault(0, Code::NotRelocatable));
    }
    if passes_end(size, head, u64::from(h.sizeofcmds)) {
        return Err(header_fault(head, Code::Short));
    }
    match good_commands(word, file, h) {
        None => Err(header_fault(0, Code::BadHeader)),
        Some(found) => {
            if found.segments > 1 {
                Err(header_fault(0, Code::NotRelocatable))
            } else {
                Ok(found)
            }
        }
    }
}

// the fault of the conditions on symbols and strings
fn symtab_fault(word: Word, size: u64, c: SymtabCommand) -> Option<Fault>
    ensures { result ≡ first_broken (rules.symtab_conditions word size c) }
{
    let symbols = nlist_size(word) * u64::from(c.nsyms);
    if passes_end(size, u64::from(c.symoff), symbols) {
        return Some(header_fault(u64::from(c.symoff), Code::Short));
    }
    if passes_end(size, u64::from(c.stroff), u64::from(c.strsize)) {
        return Some(header_fault(u64::from(c.stroff), Code::Short));
    }
    None
}

// the command that places symbols and strings, at a place
fn symtab_at(file: &[u8], place: Option<u64>) -> Option<SymtabCommand>
    requires { (at : ℕ) → place ≡ Some at → at + SYMTAB_COMMAND_SIZE ≤ length file.now }
    ensures { result ≡ option_map (symtab.symtab_command_at file.now) place }
{
    match place {
        Some(at) => Some(symtab_command_at(file, at as usize)),
        None => None,
    }
}

// where the section headers of the segment at a place begin, and how many there are; none where there
// is no segment
fn headers_of(word: Word, file: &[u8], place: Option<u64>) -> (u64, u32)
    requires { (at : ℕ) → place ≡ Some at → at + segment.segment_command_size word ≤ length file.now }
    ensures place { result.0 ≡ option_map_or (tables.headers_place word) place 0 }
    ensures count { result.1 ≡ option_map_or (λ at. (segment.segment_command_at word file.now at).nsects) place 0 }
{
    match place {
        Some(at) => (
            at + segment_command_size(word),
            segment_command_at(word, file, at as usize).nsects,
        ),
        None => (0, 0),
    }
}

// the tables of a file whose commands have no fault, where these commands place symbols and strings
fn placed<'a>(word: Word, file: &'a [u8], found: Commands, c: SymtabCommand) -> Frame<'a>
    requires small { length file.now ≤ MOST_INPUT }
    requires found { walked.AreCommands word file.now (tables.command_count file.now) found }
    requires commands { first_broken (rules.command_conditions word file.now) ≡ None }
    requires symtab { tables.symtab_of word file.now ≡ Some c }
    requires symbols { first_broken (rules.symtab_conditions word (length file.now) c) ≡ None }
    ensures { result ≡ tables.tables_of word file.now }
{
    let (headers_at, nsects) = headers_of(word, file, found.segment);
    let strings = bytes_at(file, c.stroff as usize, c.strsize as usize);
    Frame {
        word,
        file,
        headers_at,
        nsects,
        symoff: c.symoff,
        nsyms: c.nsyms,
        strings,
        text_end: text_end(strings),
    }
}

/// The tables of a file of a word. An error exactly where the header or what the commands place has a
/// fault, with the first. Linear in the commands.
pub fn read_frame<'a>(word: Word, file: &'a [u8]) -> Result<Frame<'a>, Fault>
    requires { length file.now ≤ MOST_INPUT }
    ensures frame { IfOk result (λ f. f ≡ tables.tables_of word file.now) }
    ensures clean { OnOk result (stage_fault (rules.header_stage word file.now) ≡ None) }
    ensures fault { IfErr result (λ fault. stage_fault (rules.header_stage word file.now) ≡ Some fault) }
{
    let found = match read_commands(word, file) {
        Err(fault) => return Err(fault),
        Ok(found) => found,
    };
    match symtab_at(file, found.symtab) {
        None => Err(header_fault(0, Code::BadHeader)),
        Some(c) => match symtab_fault(word, file.len() as u64, c) {
            Some(fault) => Err(fault),
            None => Ok(placed(word, file, found, c)),
        },
    }
}
