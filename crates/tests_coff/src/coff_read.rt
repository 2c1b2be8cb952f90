//! Faults of COFF objects, worked out by hand from the rules and by an independent program.
mod headers;
mod objects;
mod relocations;
mod sections;
mod symbols;

ghost use Rattle.std.specs.Prelude.{◌≤◌, length};
ghost use Rattle.oc_base.specs.declared.limits.TheConstants.{MOST_INPUT};

use objects::{ALL, CALL, COMPILED, COUNT, FLAGS, R_SYMBOL, R_TYPE, SELECTION, STRINGS};
use oc_base::Code::{self, Group, RelocKind};
use oc_base::Phase::{self, Header, Relocation, Section, Symbol};
use oc_base::{Fault, Word};
use oc_coff_read::{CoffReader32, CoffReader64};
use oc_neutral::Keep;
use oc_shows::Reads;
use std::alloc::Global;
use std::test::Fail;
use tests_cases::{Case, Edits, KEEP, expected, fault_in, put};

/// How many bytes of `CALL` are left, and what is put into it, where it has no fault.
static GOOD: [(usize, Edits); 7] = [
    (ALL, &[]),
    // without a string table
    (STRINGS, &[]),
    // with its count in the only relocation
    (ALL, &[(FLAGS + 3, &[0x61]), (COUNT, &[0xFF, 0xFF])]),
    // copies, of which only one may exist
    (ALL, &[(FLAGS + 1, &[0x10]), (SELECTION, &[1])]),
    // copies with a key
    (ALL, &[(FLAGS + 1, &[0x10]), (SELECTION, &[2])]),
    // an entry that has no effect
    (ALL, &[(R_TYPE, &[0]), (R_SYMBOL, &[9])]),
    // its own symbol as the target
    (ALL, &[(R_SYMBOL, &[0])]),
];

/// Whether exception tables are kept, what is put into `COMPILED`, and the first fault.
type CompiledCase = (bool, Edits, Option<(Phase, u32, Code, u64)>);

/// What is not kept is not judged; and sections that are kept with others.
static COMPILEDS: [CompiledCase; 5] = [
    // the object of a compiler
    (true, &[], None),
    // a type that is none
    (
        true,
        &[(280, &[0x7F])],
        Some((Relocation, 5, RelocKind, 272)),
    ),
    // the same in a section that is not kept
    (false, &[(280, &[0x7F])], None),
    // the code is kept with a section that is kept with another
    (
        true,
        &[
            (137, &[0x10]),
            (177, &[0x10]),
            (404, &[4, 0, 5]),
            (440, &[5, 0, 5]),
        ],
        Some((Section, 3, Group, 100)),
    ),
    // and has an address
    (
        true,
        &[
            (137, &[0x10]),
            (177, &[0x10]),
            (404, &[4, 0, 5]),
            (440, &[5, 0, 5]),
            (112, &[1]),
        ],
        Some((Section, 3, Group, 100)),
    ),
];

// the objects without a fault
fn good() -> &'static [(usize, Edits)] {
    &GOOD
}

// the cases of `COMPILED`
fn compileds() -> &'static [CompiledCase] {
    &COMPILEDS
}

// the fault of a file, if it has one that memory sufficed to read
fn fault_of(alloc: Global, word: Word, file: &[u8], keep: &Keep) -> Option<Fault>
    requires { length file.now ≤ MOST_INPUT }
{
    let read = match word {
        Word::W32 => CoffReader32.read(alloc, file, keep),
        Word::W64 => CoffReader64.read(alloc, file, keep),
    };
    match read {
        Ok(_) => None,
        Err(read) => fault_in(read),
    }
}

// the first fault of a prefix of an object, into which these bytes are put
fn found(
    alloc: Global,
    word: Word,
    file: &mut [u8],
    len: usize,
    edits: Edits,
    exceptions: bool,
) -> Option<Fault>
    requires { length file.old ≤ MOST_INPUT }
{
    put(file, edits);
    let len = len.min(file.len());
    fault_of(alloc, word, &file[..len], &Keep { exceptions, ..KEEP })
}

/// Each condition that is broken alone, and then with the next one that can be broken too: the
/// earlier is reported.
#[test]
fn conditions_in_their_order(rt: HostRuntime) -> Result<(), Fail> {
    let phases = [
        (Header, headers::faults()),
        (Section, sections::faults()),
        (Symbol, symbols::faults()),
        (Relocation, relocations::faults()),
    ];
    for (phase, cases) in phases {
        for (len, edits, fault) in cases {
            let mut file = CALL;
            let found = found(rt.alloc(), Word::W32, &mut file, *len, edits, true);
            assert_eq!(rt;
                found,
                expected(phase, *fault),
                "{phase:?}: {len} bytes, {edits:?}"
            );
        }
    }
    Ok(())
}

#[test]
fn objects_without_a_fault(rt: HostRuntime) -> Result<(), Fail> {
    for (len, edits) in good() {
        let mut file = CALL;
        let found = found(rt.alloc(), Word::W32, &mut file, *len, edits, true);
        assert_eq!(rt; found, None, "{len} bytes, {edits:?}");
    }
    Ok(())
}

#[test]
fn first_fault_of_a_compiled_object(rt: HostRuntime) -> Result<(), Fail> {
    for (exceptions, edits, told) in compileds() {
        let mut file = COMPILED;
        let len = file.len();
        let found = found(rt.alloc(), Word::W64, &mut file, len, edits, *exceptions);
        let want = match *told {
            Some((phase, index, code, place)) => expected(phase, (index, code, place)),
            None => None,
        };
        assert_eq!(rt; found, want, "{edits:?}");
    }
    Ok(())
}
