//! Faults of Mach-O objects, worked out by hand from the rules and by an independent program.
mod headers;
mod objects;
mod relocations;
mod sections;
mod symbols;

ghost use Rattle.std.specs.Prelude.{◌≤◌, length};
ghost use Rattle.oc_base.specs.declared.limits.TheConstants.{MOST_INPUT};

use objects::{
    ALIGN, CALL, CALLED, CALLED32, DIFFERENCE, FOLDED, FOO, MAIN, N_TYPE, N_VALUE, R_NUMBER,
    R_TYPE, SEGNAME, TEXT,
};
use oc_base::Phase::{Header, Relocation, Section, Symbol};
use oc_base::{Code, Fault, Word};
use oc_macho::{Reference, RelocationInfo, relocation_info_of};
use oc_macho_judge::judged;
use oc_neutral::Keep;
use std::alloc::Global;
use std::test::Fail;
use tests_cases::{Case, Edits, KEEP, expected, fault_in, put};

/// The fault of a file under what is kept, if it has one that memory sufficed to read.
fn fault_under(alloc: Global, word: Word, file: &[u8], keep: &Keep) -> Option<Fault>
    requires { length file.now ≤ MOST_INPUT }
{
    match judged(alloc, word, file, keep) {
        Ok(_) => None,
        Err(read) => fault_in(read),
    }
}

/// The fault of an object, where these bytes are put into it.
fn found(alloc: Global, word: Word, file: &mut [u8], len: usize, edits: Edits) -> Option<Fault>
    requires { length file.old ≤ MOST_INPUT }
{
    put(file, edits);
    let len = len.min(file.len());
    fault_under(alloc, word, &file[..len], &KEEP)
}

/// Objects that meet all conditions, some by a hair, of `CALLED`.
const GOOD: [Edits; 17] = [
    &[],
    // an empty command more, of a kind that is not known
    &[(208, &[0x1B])],
    // without the DYSYMTAB
    &[(16, &[2])],
    // strings that end with the last name
    &[(204, &[0xA])],
    // the greatest alignment
    &[(TEXT + ALIGN, &[0xF])],
    // commas after the segment's name and in the section's
    &[(TEXT + SEGNAME + 7, &[0x2C]), (TEXT + 1, &[0x2C])],
    // an entry for debuggers without a name
    &[(MAIN, &[0x10]), (MAIN + N_TYPE, &[0x2B])],
    // an absolute symbol
    &[(MAIN + N_TYPE, &[3])],
    // a weak mark on an absolute Local
    &[(MAIN + N_TYPE, &[2, 1, 0x80])],
    // a value at the end of the section
    &[(MAIN + N_VALUE, &[6])],
    // a Local without a name
    &[(MAIN, &[0]), (MAIN + N_TYPE, &[0xE])],
    // a Local of the name of an external symbol
    &[(FOO, &[1]), (MAIN + N_TYPE, &[0xE])],
    // an entry for debuggers of that name
    &[(FOO, &[1]), (MAIN + N_TYPE, &[0x2F])],
    // a field at the end of the section
    &[(CALL, &[2])],
    // a slot
    &[(CALL + R_TYPE, &[0x4D])],
    // a Local
    &[(CALL + R_NUMBER, &[0]), (MAIN + N_TYPE, &[0xE])],
    // the section
    &[(CALL + R_TYPE, &[0x15])],
];

/// The same of `DIFFERENCE`.
const GOOD_PAIRS: [Edits; 6] = [
    &[],
    // an external symbol with a place is taken
    &[(444, &[0xF])],
    // a field after another
    &[(424, &[0xC]), (432, &[0xC])],
    // a difference of a symbol and itself
    &[(420, &[0])],
    // a difference of a section and its first symbol
    &[(420, &[2, 0, 0, 4])],
    // a wide one in eight bytes
    &[
        (436, &[2, 0, 0, 6]),
        (216, &[0, 0, 0, 0, 1]),
        (448, &[0, 0, 0, 0, 1]),
    ],
];

/// The same of `FOLDED`.
const GOOD_SCATTERED: [Edits; 4] = [
    &[],
    // a LOCAL_SECTDIFF
    &[(367, &[0xA4])],
    // the place of the PAIR
    &[(372, &[0xFF, 0xFF])],
    // an address at the end of the last section
    &[(368, &[0x28])],
];

/// Each condition that is broken alone, and then with the next one that can be broken too: the
/// earlier is reported.
#[test]
fn conditions_in_their_order(rt: HostRuntime) -> Result<(), Fail> {
    let phases = [
        (Header, headers::faults()),
        (Section, sections::faults()),
        (Symbol, symbols::faults()),
        (Relocation, relocations::faults()),
    ];
    for (phase, cases) in phases {
        for (len, edits, fault) in cases {
            let mut file = CALLED;
            let found = found(rt.alloc(), Word::W64, &mut file, *len, edits);
            assert_eq!(rt; found, expected(phase, *fault), "in {len} bytes, {edits:?}");
        }
    }
    Ok(())
}

/// The same of two sections and of pairs.
#[test]
fn conditions_of_pairs(rt: HostRuntime) -> Result<(), Fail> {
    let phases = [
        (Section, sections::sums()),
        (Relocation, relocations::pairs()),
    ];
    for (phase, cases) in phases {
        for (len, edits, fault) in cases {
            let mut file = DIFFERENCE;
            let found = found(rt.alloc(), Word::W64, &mut file, *len, edits);
            assert_eq!(rt; found, expected(phase, *fault), "in {len} bytes, {edits:?}");
        }
    }
    Ok(())
}

/// The same of 32 bits, where they differ.
#[test]
fn conditions_of_32_bits(rt: HostRuntime) -> Result<(), Fail> {
    let phases = [
        (Header, headers::faults_32()),
        (Section, sections::faults_32()),
        (Symbol, symbols::faults_32()),
    ];
    for (phase, cases) in phases {
        for (len, edits, fault) in cases {
            let mut file = CALLED32;
            let found = found(rt.alloc(), Word::W32, &mut file, *len, edits);
            assert_eq!(rt; found, expected(phase, *fault), "in {len} bytes, {edits:?}");
        }
    }
    Ok(())
}

/// The same of scattered entries.
#[test]
fn conditions_of_scattered_entries(rt: HostRuntime) -> Result<(), Fail> {
    let phases = [(Relocation, relocations::scattered())];
    for (phase, cases) in phases {
        for (len, edits, fault) in cases {
            let mut file = FOLDED;
            let found = found(rt.alloc(), Word::W32, &mut file, *len, edits);
            assert_eq!(rt; found, expected(phase, *fault), "in {len} bytes, {edits:?}");
        }
    }
    Ok(())
}

#[test]
fn good_objects(rt: HostRuntime) -> Result<(), Fail> {
    for edits in GOOD {
        let mut file = CALLED;
        let found = found(rt.alloc(), Word::W64, &mut file, objects::ALL, edits);
        assert_eq!(rt; found, None, "{edits:?}");
    }
    Ok(())
}

#[test]
fn good_pairs(rt: HostRuntime) -> Result<(), Fail> {
    for edits in GOOD_PAIRS {
        let mut file = DIFFERENCE;
        let found = found(rt.alloc(), Word::W64, &mut file, objects::ALL, edits);
        assert_eq!(rt; found, None, "{edits:?}");
    }
    Ok(())
}

#[test]
fn good_scattered_entries(rt: HostRuntime) -> Result<(), Fail> {
    for edits in GOOD_SCATTERED {
        let mut file = FOLDED;
        let found = found(rt.alloc(), Word::W32, &mut file, objects::ALL, edits);
        assert_eq!(rt; found, None, "{edits:?}");
    }
    Ok(())
}

// an entry of type 9 in a section for debuggers
#[test]
fn relocations_of_what_is_kept(rt: HostRuntime) -> Result<(), Fail> {
    let fault = expected(Relocation, (1, Code::RelocKind, 296));
    for (debug, want) in [(true, fault), (false, None)] {
        let mut file = CALLED;
        put(
            &mut file,
            &[(TEXT + SEGNAME, b"__DWARF"), (CALL + R_TYPE, &[0x9D])],
        );
        let keep = Keep { debug, ..KEEP };
        assert_eq!(rt;
            fault_under(rt.alloc(), Word::W64, &file, &keep),
            want,
            "{debug}"
        );
    }
    Ok(())
}

/// The number of the section that holds an address, of a file.
fn holder(alloc: Global, file: &[u8], v: u32) -> Option<u32>
    requires { length file.now ≤ MOST_INPUT }
{
    match judged(alloc, Word::W32, file, &KEEP) {
        Ok(found) => found.holders.holder(v),
        Err(_) => None,
    }
}

// the sections of `FOLDED` lie from 0 to 32 and from 32 to 40; an empty one at 32 holds nothing there,
// and one that lies over both comes first
#[test]
fn addresses_are_held(rt: HostRuntime) -> Result<(), Fail> {
    let cases: [(Edits, [(u32, Option<u32>); 5]); 3] = [
        (
            &[],
            [
                (0, Some(1)),
                (31, Some(1)),
                (32, Some(2)),
                (40, Some(2)),
                (41, None),
            ],
        ),
        (
            &[(120, &[40])],
            [
                (0, Some(1)),
                (31, Some(1)),
                (32, Some(1)),
                (40, Some(1)),
                (41, None),
            ],
        ),
        (
            &[(116, &[32]), (120, &[0]), (368, &[40]), (376, &[40])],
            [
                (0, None),
                (31, None),
                (32, Some(2)),
                (40, Some(2)),
                (41, None),
            ],
        ),
    ];
    for (edits, held) in cases {
        let mut file = FOLDED;
        put(&mut file, edits);
        for (v, want) in held {
            assert_eq!(rt; holder(rt.alloc(), &file, v), want, "{v} of {edits:?}");
        }
    }
    Ok(())
}

/// An entry of four bytes.
fn entry(r_address: u32, r_pcrel: u8, r_type: u8, refers: Reference) -> RelocationInfo {
    RelocationInfo {
        r_address,
        r_pcrel,
        r_length: 2,
        r_type,
        refers,
    }
}

// the words are those of `CALLED`, `DIFFERENCE` and `FOLDED`, and of the first of them with r_extern 0
#[test]
fn entries_of_two_words(rt: HostRuntime) -> Result<(), Fail> {
    for (first, second, want) in [
        (1, 0x1D00_0001, entry(1, 1, 1, Reference::Symbol(1))),
        (1, 0x1500_0001, entry(1, 1, 1, Reference::Section(1))),
        (8, 0x5C00_0000, entry(8, 0, 5, Reference::Symbol(0))),
        (0xA200_0004, 16, entry(4, 0, 2, Reference::Address(16))),
        (0xA100_0000, 8, entry(0, 0, 1, Reference::Address(8))),
    ] {
        assert_eq!(rt;
            relocation_info_of(first, second),
            want,
            "{first:x} {second:x}"
        );
    }
    Ok(())
}
