//! COFF objects of many sections, read, and their faults, worked out by hand from the structures of
//! winnt.h.
ghost use Rattle.std.specs.Prelude.{◌≤◌, length};
ghost use Rattle.oc_base.specs.declared.limits.TheConstants.{MOST_INPUT};

use oc_base::Code::{self, BadHeader, BadSymbol, BadTable, Short};
use oc_base::Phase::{self, Header, Section, Symbol};
use oc_base::{Fault, Word};
use oc_big_coff::{BigCoffReader32, BigCoffReader64};
use oc_shows::Reads;
use std::alloc::Global;
use std::test::Fail;
use tests_cases::{Edits, KEEP, expected, fault_in, put};

/// How many bytes the object has.
const ALL: usize = 196;

// ... its file header

/// Version.
const VERSION: usize = 4;
/// Machine.
const MACHINE: usize = 6;
/// SizeOfData, the first of the words that are not used.
const UNUSED: usize = 28;
/// NumberOfSections.
const SECTIONS: usize = 44;

// ... what it places

/// Characteristics of the section, of which the second byte has the flag of copies.
const FLAGS: usize = 92;
/// Type of the relocation.
const R_TYPE: usize = 110;
/// Number, Selection, a zero and HighNumber of the section's auxiliary entry.
const NUMBER: usize = 144;
/// SectionNumber of the function.
const MAIN_SECTION: usize = 164;

/// `main` in `.text`, for x64, with a call to `foo`.
const CALL: [u8; ALL] = [
    // the file header
    0, 0, 0xFF, 0xFF, 2, 0, 0x64, 0x86, 0, 0, 0, 0, 0xC7, 0xA1, 0xBA, 0xD1, 0xEE, 0xBA, 0xA9, 0x4B,
    0xAF, 0x20, 0xFA, 0xF6, 0x6A, 0xA4, 0xDC, 0xB8, 0, 0, 0, 0, 0, 0, 0, 0, 0, 0, 0, 0, 0, 0, 0, 0,
    1, 0, 0, 0, 0x70, 0, 0, 0, 4, 0, 0, 0,
    // the section header, at 56
    0x2E, 0x74, 0x65, 0x78, 0x74, 0, 0, 0, 0, 0, 0, 0, 0, 0, 0, 0, 6, 0, 0, 0, 0x60, 0, 0, 0, 0x66,
    0, 0, 0, 0, 0, 0, 0, 1, 0, 0, 0, 0x20, 0, 0x50, 0x60,
    // the bytes, at 96, and the relocation, at 102
    0xE8, 0, 0, 0, 0, 0xC3, 1, 0, 0, 0, 3, 0, 0, 0, 4, 0,
    // the section's own symbol, at 112, and its auxiliary entry
    0x2E, 0x74, 0x65, 0x78, 0x74, 0, 0, 0, 0, 0, 0, 0, 1, 0, 0, 0, 0, 0, 3, 1, 6, 0, 0, 0, 1, 0, 0,
    0, 0, 0, 0, 0, 0, 0, 0, 0, 0, 0, 0, 0,
    // the function, at 152, and what it calls, at 172
    0x6D, 0x61, 0x69, 0x6E, 0, 0, 0, 0, 0, 0, 0, 0, 1, 0, 0, 0, 0x20, 0, 2, 0, 0x66, 0x6F, 0x6F, 0,
    0, 0, 0, 0, 0, 0, 0, 0, 0, 0, 0, 0, 0, 0, 2, 0,
    // the string table, at 192
    4, 0, 0, 0,
];

/// A word, how many bytes of `CALL` are left, what is put into it, and the first fault.
type BigCase = (Word, usize, Edits, Option<(Phase, u32, Code, u64)>);

static CASES: [BigCase; 12] = [
    (Word::W64, ALL, &[], None),
    // for i386
    (
        Word::W32,
        ALL,
        &[(MACHINE, &[0x4C, 1]), (R_TYPE, &[0x14])],
        None,
    ),
    // a later version, and numbers in all words that are not used
    (Word::W64, ALL, &[(VERSION, &[3])], None),
    (Word::W64, ALL, &[(UNUSED, &[0xFF; 16])], None),
    // an earlier version
    (
        Word::W64,
        ALL,
        &[(VERSION, &[1])],
        Some((Header, 0, BadHeader, 0)),
    ),
    // a cut header, and of an earlier version
    (Word::W64, 28, &[], Some((Header, 0, Short, 0))),
    (
        Word::W64,
        55,
        &[(VERSION, &[1])],
        Some((Header, 0, Short, 0)),
    ),
    // 65,537 sections
    (
        Word::W64,
        ALL,
        &[(SECTIONS, &[1, 0, 1, 0])],
        Some((Header, 0, Short, 56)),
    ),
    // a function in section 65,537, and an absolute one
    (
        Word::W64,
        ALL,
        &[(MAIN_SECTION, &[1, 0, 1, 0])],
        Some((Symbol, 2, BadSymbol, 152)),
    ),
    (
        Word::W64,
        ALL,
        &[(MAIN_SECTION, &[0xFF, 0xFF, 0xFF, 0xFF])],
        None,
    ),
    // a section that is kept with section 65,536
    (
        Word::W64,
        ALL,
        &[(FLAGS + 1, &[0x10]), (NUMBER, &[0, 0, 5, 0, 1, 0])],
        Some((Section, 1, BadTable, 56)),
    ),
    // and one of which the linker keeps any copy, with numbers in what is not used beside
    (
        Word::W64,
        ALL,
        &[(FLAGS + 1, &[0x10]), (NUMBER, &[0, 0, 2, 9, 0, 0, 9, 9])],
        None,
    ),
];

// the cases of `CASES`
fn cases() -> &'static [BigCase] {
    &CASES
}

// the fault of a file, if it has one that memory sufficed to read
fn fault_of(alloc: Global, word: Word, file: &[u8]) -> Option<Fault>
    requires { length file.now ≤ MOST_INPUT }
{
    let read = match word {
        Word::W32 => BigCoffReader32.read(alloc, file, &KEEP),
        Word::W64 => BigCoffReader64.read(alloc, file, &KEEP),
    };
    match read {
        Ok(_) => None,
        Err(read) => fault_in(read),
    }
}

#[test]
fn first_fault_of_an_object_of_many_sections(rt: HostRuntime) -> Result<(), Fail> {
    for (word, len, edits, told) in cases() {
        let mut file = CALL;
        put(&mut file, edits);
        let len = (*len).min(ALL);
        let want = match *told {
            Some((phase, index, code, place)) => expected(phase, (index, code, place)),
            None => None,
        };
        assert_eq!(rt;
            fault_of(rt.alloc(), *word, &file[..len]),
            want,
            "{len} bytes, {edits:?}"
        );
    }
    Ok(())
}
