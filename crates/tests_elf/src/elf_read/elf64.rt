//! Faults of an ELF64 object, whose relocations have their addends in the entries.
use super::objects::WEAK;
use oc_base::Code::{
    BadHeader, BadOffset, BadTable, BadTarget, NotRelocatable, RelocKind, SectionKind, Short,
    TargetKind,
};
use oc_base::Phase::{self, Header, Relocation, Section};
use tests_cases::Case;

/// All bytes of the object.
const ALL: usize = WEAK.len();

/// Where the section header of its symbols lies.
const SYMTAB: usize = 312;
/// That of its relocations.
const RELA: usize = 504;

/// Where a section header of ELF64 has its type (gABI, "Section Header").
const SH_TYPE: usize = 4;
/// The size of its contents.
const SH_SIZE: usize = 32;
/// The size of its entries.
const SH_ENTSIZE: usize = 56;

/// Where the relocation entry has its offset.
const R_OFFSET: usize = 568;
/// Its type.
const R_TYPE: usize = 576;
/// Its symbol.
const R_SYM: usize = 580;

static FAULTS: [(Phase, Case); 14] = [
    // the header is cut
    (Header, (63, &[], (0, Short, 0))),
    // a header of 52 bytes
    (Header, (ALL, &[(52, &[52])], (0, BadHeader, 0))),
    // i386
    (Header, (ALL, &[(18, &[3])], (0, NotRelocatable, 0))),
    // section headers of 40 bytes
    (Header, (ALL, &[(58, &[40])], (0, BadHeader, 0))),
    // addends in the fields
    (
        Section,
        (
            ALL,
            &[(RELA + SH_TYPE, &[9])],
            (5, SectionKind, RELA as u64),
        ),
    ),
    // symbols of 16 bytes
    (
        Section,
        (
            ALL,
            &[(SYMTAB + SH_ENTSIZE, &[16])],
            (2, BadTable, SYMTAB as u64),
        ),
    ),
    // relocations of 8 bytes
    (
        Section,
        (
            ALL,
            &[(RELA + SH_ENTSIZE, &[8])],
            (5, BadTable, RELA as u64),
        ),
    ),
    // a part of a relocation
    (
        Section,
        (ALL, &[(RELA + SH_SIZE, &[23])], (5, BadTable, RELA as u64)),
    ),
    // an unknown type
    (Relocation, (ALL, &[(R_TYPE, &[3])], (1, RelocKind, 568))),
    // an unknown type whose low byte is known
    (
        Relocation,
        (ALL, &[(R_TYPE, &[14, 1])], (1, RelocKind, 568)),
    ),
    // a field past the end of its section
    (Relocation, (ALL, &[(R_OFFSET, &[1])], (1, BadOffset, 568))),
    // a field far past the end of it
    (
        Relocation,
        (ALL, &[(R_OFFSET, &[0xFF; 8])], (1, BadOffset, 568)),
    ),
    // a symbol that is not there
    (Relocation, (ALL, &[(R_SYM, &[3])], (1, BadTarget, 568))),
    // symbol 0
    (Relocation, (ALL, &[(R_SYM, &[0])], (1, TargetKind, 568))),
];

/// The conditions that the classes differ in.
pub(super) fn faults() -> &'static [(Phase, Case)] {
    &FAULTS
}
