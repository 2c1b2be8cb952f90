//! Objects that are made, over files and a console in memory. The file is one that another program wrote.
ghost use Rattle.std.specs.Prelude.{◌<◌};

use crate::command::run;
use oc_base::NoMemory;
use oc_outside::{MemConsole, MemFiles};
use oc_words::Words;
use std::alloc::Global;
use std::test::Fail;

/// How many bytes the file has.
const ALL: usize = 244;

/// Two functions as COFF for i386; each calls the other and a symbol that is undefined.
const TWO: [u8; ALL] = [
    // 0x00 file header
    0x4C, 1, 1, 0, 0, 0, 0, 0, 0x84, 0, 0, 0, 6, 0, 0, 0, 0, 0, 0, 0,
    // 0x14 section header 1, ".text"
    0x2E, 0x74, 0x65, 0x78, 0x74, 0, 0, 0, 0, 0, 0, 0, 0, 0, 0, 0, 0x20, 0, 0, 0, 0x3C, 0, 0, 0,
    0x5C, 0, 0, 0, 0, 0, 0, 0, 4, 0, 0, 0, 0x20, 0, 0x50, 0x60,
    // 0x3C .text: "f_0"
    0xE8, 0, 0, 0, 0, 0xE8, 0, 0, 0, 0, 0x90, 0x90, 0x90, 0x90, 0x90, 0x90,
    // 0x4C .text: "f_1"
    0xE8, 0, 0, 0, 0, 0xE8, 0, 0, 0, 0, 0x90, 0x90, 0x90, 0x90, 0x90, 0x90,
    // 0x5C relocations of .text: entry 0, "f_0" calls "f_1"
    1, 0, 0, 0, 3, 0, 0, 0, 0x14, 0,
    // 0x66 relocations of .text: entry 1, "f_0" calls "x_0"
    6, 0, 0, 0, 4, 0, 0, 0, 0x14, 0,
    // 0x70 relocations of .text: entry 2, "f_1" calls "f_0"
    0x11, 0, 0, 0, 2, 0, 0, 0, 0x14, 0,
    // 0x7A relocations of .text: entry 3, "f_1" calls "x_1"
    0x16, 0, 0, 0, 5, 0, 0, 0, 0x14, 0,
    // 0x84 symbol table: entry 0, the section ".text"
    0x2E, 0x74, 0x65, 0x78, 0x74, 0, 0, 0, 0, 0, 0, 0, 1, 0, 0, 0, 3, 1,
    // 0x96 symbol table: entry 1, the section's auxiliary entry
    0x20, 0, 0, 0, 4, 0, 0, 0, 0, 0, 0, 0, 0, 0, 0, 0, 0, 0,
    // 0xA8 symbol table: entry 2, "f_0"
    0x66, 0x5F, 0x30, 0, 0, 0, 0, 0, 0, 0, 0, 0, 1, 0, 0x20, 0, 2, 0,
    // 0xBA symbol table: entry 3, "f_1"
    0x66, 0x5F, 0x31, 0, 0, 0, 0, 0, 0x10, 0, 0, 0, 1, 0, 0x20, 0, 2, 0,
    // 0xCC symbol table: entry 4, "x_0"
    0x78, 0x5F, 0x30, 0, 0, 0, 0, 0, 0, 0, 0, 0, 0, 0, 0, 0, 2, 0,
    // 0xDE symbol table: entry 5, "x_1"
    0x78, 0x5F, 0x31, 0, 0, 0, 0, 0, 0, 0, 0, 0, 0, 0, 0, 0, 2, 0,
    // 0xF0 string table
    4, 0, 0, 0,
];

/// The line that is shown of them.
const SUMMARY: &str = "made 2 functions, 4 relocations, 244 bytes\n";

/// A run that makes two functions in a file `b`, which is not there before.
#[derive(Clone, Copy)]
struct Case {
    /// The call on files that fails, counted from 1; 0: none.
    failing: u64,
    /// The call on the console that fails; 0: none.
    unshown: u64,
    /// How many bytes `b` has room for.
    room: u64,
    status: u8,
    /// How many bytes of the file `b` holds; nothing where it is not there.
    held: Option<usize>,
    shown: &'static str,
    told: &'static str,
}

/// A write that fails.
const UNWRITTEN: Case = Case {
    failing: 1,
    unshown: 0,
    room: 1000,
    status: 5,
    held: None,
    shown: "",
    told: "objconv: output fault\n",
};

/// The calls on files are `create` and one `append`, which appends the whole file or, where `b` has less
/// room, nothing.
const CASES: [Case; 5] = [
    Case {
        failing: 0,
        status: 0,
        held: Some(ALL),
        shown: SUMMARY,
        told: "",
        ..UNWRITTEN
    },
    UNWRITTEN,
    Case {
        failing: 2,
        held: Some(0),
        ..UNWRITTEN
    },
    Case {
        failing: 0,
        room: ALL as u64 - 1,
        held: Some(0),
        ..UNWRITTEN
    },
    Case {
        failing: 0,
        unshown: 1,
        status: 6,
        held: Some(ALL),
        told: "",
        ..UNWRITTEN
    },
];

/// The words of the command.
fn words(alloc: Global) -> Result<Words, NoMemory> {
    let mut words = Words::new(alloc);
    words.push("--make=2")?;
    words.push("coff32")?;
    words.push("b")?;
    Ok(words)
}

/// Whether the run of a case ends with its status, and leaves what it says.
fn is_met(alloc: Global, case: &Case, file: &[u8]) -> Result<bool, NoMemory> {
    let words = words(alloc)?;
    let mut files = MemFiles::new(alloc);
    files.room("b", case.room)?;
    if case.failing > 0 {
        files.fail_at(case.failing)?;
    }
    let mut console = MemConsole::new(alloc);
    console.room(100, 100)?;
    if case.unshown > 0 {
        console.fail_at(case.unshown)?;
    }
    let status = run(alloc, &words, &mut files, &mut console);
    let shown = console.shown() == case.shown.as_bytes() && console.told() == case.told.as_bytes();
    let want = case.held.map(|held| &file[..held.min(file.len())]);
    Ok(status == case.status && shown && files.file("b") == want)
}

#[test]
fn makes_two_functions(rt: HostRuntime) -> Result<(), Fail> {
    for (number, case) in CASES.iter().enumerate() {
        assert!(rt; is_met(rt.alloc(), case, &TWO)?, "case {number}");
    }
    Ok(())
}
