//! Faults of ELF objects, worked out by hand from the rules and by an independent program.
mod elf64;
mod headers;
mod limits;
mod objects;
mod reader;
mod relocations;
mod sections;
mod symbols;

ghost use Rattle.std.specs.Prelude.{◌≤◌, length};
ghost use Rattle.oc_base.specs.declared.limits.TheConstants.{MOST_INPUT};

use objects::{
    ALL, GROUP, GROUPED, MAIN, MEMBER, OWN_MEMBER, R_OFFSET, R_TYPE, SH_ADDRALIGN, SH_OFFSET,
    SH_SIZE, ST_INFO, ST_SHNDX, ST_VALUE, TEXT, WEAK,
};
use oc_base::Fault;
use oc_base::Phase::{Header, Relocation, Section, Symbol};
use oc_elf::ElfClass;
use oc_elf_judge::judge;
use std::alloc::Global;
use std::test::Fail;
use tests_cases::{Case, Edits, KEEP, expected, fault_in, put};

/// The fault of a file, if it has one that memory sufficed to read.
fn fault_of(alloc: Global, class: ElfClass, file: &[u8]) -> Option<Fault>
    requires { length file.now ≤ MOST_INPUT }
{
    match judge(alloc, class, file, &KEEP) {
        Ok(()) => None,
        Err(read) => fault_in(read),
    }
}

/// The fault that is reported of an object of a class, where these bytes are put into it.
fn found(alloc: Global, class: ElfClass, file: &mut [u8], len: usize, edits: Edits) -> Option<Fault>
    requires { length file.old ≤ MOST_INPUT }
{
    put(file, edits);
    let len = len.min(file.len());
    fault_of(alloc, class, &file[..len])
}

/// Objects that meet all conditions, some by a hair.
const GOOD: [Edits; 12] = [
    &[],
    // no sections, and no place for them
    &[(48, &[0]), (32, &[0])],
    // no contents, at the end of the file
    &[(MEMBER + SH_OFFSET, &[0x38, 2]), (MEMBER + SH_SIZE, &[0])],
    // alignment 0
    &[(TEXT + SH_ADDRALIGN, &[0])],
    // alignment 2^20
    &[(TEXT + SH_ADDRALIGN, &[0, 0, 16])],
    // a group that is forgotten
    &[(52, &[0])],
    // a group without members
    &[(GROUP + SH_SIZE, &[4])],
    // a value at the end of its section
    &[(MAIN + ST_VALUE, &[6])],
    // a source file
    &[(OWN_MEMBER + ST_INFO, &[4, 0, 0])],
    // a common of alignment 2^20
    &[
        (MAIN + ST_VALUE, &[0, 0, 16]),
        (MAIN + ST_SHNDX, &[0xF2, 0xFF]),
    ],
    // a field at the end of its section
    &[(R_OFFSET, &[2])],
    // an entry that has no effect
    &[(R_OFFSET, &[0xFF]), (R_TYPE, &[0, 9])],
];

/// Each condition that is broken alone, and then with the next one that can be broken too: the
/// earlier is reported.
#[test]
fn conditions_in_their_order(rt: HostRuntime) -> Result<(), Fail> {
    let phases = [
        (Header, headers::faults()),
        (Section, sections::faults()),
        (Section, sections::group_faults()),
        (Section, sections::table_faults()),
        (Symbol, symbols::faults()),
        (Relocation, relocations::faults()),
    ];
    for (phase, cases) in phases {
        for (len, edits, fault) in cases {
            let mut file = GROUPED;
            let found = found(rt.alloc(), ElfClass::Class32, &mut file, *len, edits);
            assert_eq!(rt; found, expected(phase, *fault), "in {len} bytes, {edits:?}");
        }
    }
    Ok(())
}

#[test]
fn conditions_of_elf64(rt: HostRuntime) -> Result<(), Fail> {
    for (phase, (len, edits, fault)) in elf64::faults() {
        let mut file = WEAK;
        let found = found(rt.alloc(), ElfClass::Class64, &mut file, *len, edits);
        assert_eq!(rt;
            found,
            expected(*phase, *fault),
            "in {len} bytes, {edits:?}"
        );
    }
    Ok(())
}

#[test]
fn good_objects(rt: HostRuntime) -> Result<(), Fail> {
    for edits in GOOD {
        let mut file = GROUPED;
        let found = found(rt.alloc(), ElfClass::Class32, &mut file, ALL, edits);
        assert_eq!(rt; found, None, "{edits:?}");
    }
    Ok(())
}
