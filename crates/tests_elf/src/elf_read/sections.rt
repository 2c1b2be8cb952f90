//! Faults of section headers.
use super::objects::{
    ALL, GROUP, MAIN, MEMBER, REL, SH_ADDRALIGN, SH_ENTSIZE, SH_FLAGS, SH_INFO, SH_LINK, SH_NAME,
    SH_OFFSET, SH_SIZE, SH_TYPE, SHSTRTAB, ST_NAME, STRTAB, SYMTAB, TEXT,
};
use oc_base::Code::{
    AlignRange, BadAlign, BadName, BadTable, ExtendedNumbering, Group, LimitSection, LimitSum,
    SectionKind, Short,
};
use tests_cases::Case;

static FAULTS: [Case; 25] = [
    // contents past the end
    (ALL, &[(TEXT + SH_SIZE + 1, &[0x10])], (2, Short, 64)),
    // none, but they begin past the end
    (
        ALL,
        &[(TEXT + SH_OFFSET, &[0x39, 2]), (TEXT + SH_SIZE, &[0])],
        (2, Short, 569),
    ),
    // names past the end
    (ALL, &[(STRTAB + SH_SIZE + 1, &[0x10])], (6, Short, 172)),
    // and a name past the end of its table
    (
        ALL,
        &[(TEXT + SH_SIZE + 1, &[0x10]), (TEXT + SH_NAME, &[0xC8])],
        (2, Short, 64),
    ),
    // a name past the end of its table
    (ALL, &[(TEXT + SH_NAME, &[0xC8])], (2, BadName, TEXT as u64)),
    // a name without an end in its table
    (
        ALL,
        &[(SHSTRTAB + SH_SIZE, &[0x33])],
        (7, BadName, SHSTRTAB as u64),
    ),
    // and section numbers beside the symbols
    (
        ALL,
        &[(TEXT + SH_NAME, &[0xC8]), (TEXT + SH_TYPE, &[0x12])],
        (2, BadName, TEXT as u64),
    ),
    // section numbers beside the symbols
    (
        ALL,
        &[(TEXT + SH_TYPE, &[0x12])],
        (2, ExtendedNumbering, TEXT as u64),
    ),
    // and they are thread-local
    (
        ALL,
        &[(TEXT + SH_TYPE, &[0x12]), (TEXT + SH_FLAGS, &[6, 4])],
        (2, ExtendedNumbering, TEXT as u64),
    ),
    // thread-local
    (
        ALL,
        &[(TEXT + SH_FLAGS, &[6, 4])],
        (2, SectionKind, TEXT as u64),
    ),
    // compressed
    (
        ALL,
        &[(TEXT + SH_FLAGS, &[6, 8])],
        (2, SectionKind, TEXT as u64),
    ),
    // ordered by another
    (
        ALL,
        &[(TEXT + SH_FLAGS, &[0x86])],
        (2, SectionKind, TEXT as u64),
    ),
    // zeros that are not allocated
    (
        ALL,
        &[(TEXT + SH_TYPE, &[8]), (TEXT + SH_FLAGS, &[4])],
        (2, SectionKind, TEXT as u64),
    ),
    // addends in the entries
    (ALL, &[(REL + SH_TYPE, &[4])], (4, SectionKind, REL as u64)),
    // an unknown type that is allocated
    (
        ALL,
        &[(TEXT + SH_TYPE, &[0x0C])],
        (2, SectionKind, TEXT as u64),
    ),
    // and of alignment 3
    (
        ALL,
        &[(TEXT + SH_TYPE, &[0x0C]), (TEXT + SH_ADDRALIGN, &[3])],
        (2, SectionKind, TEXT as u64),
    ),
    // thread-local, and of alignment 3
    (
        ALL,
        &[(TEXT + SH_FLAGS, &[6, 4]), (TEXT + SH_ADDRALIGN, &[3])],
        (2, SectionKind, TEXT as u64),
    ),
    // alignment 3
    (
        ALL,
        &[(TEXT + SH_ADDRALIGN, &[3])],
        (2, BadAlign, TEXT as u64),
    ),
    // alignment 2^20 + 2^21
    (
        ALL,
        &[(TEXT + SH_ADDRALIGN, &[0, 0, 0x30])],
        (2, BadAlign, TEXT as u64),
    ),
    // alignment 2^21
    (
        ALL,
        &[(TEXT + SH_ADDRALIGN, &[0, 0, 0x20])],
        (2, AlignRange, TEXT as u64),
    ),
    // and a section above 2^31 - 1
    (
        ALL,
        &[
            (TEXT + SH_ADDRALIGN, &[0, 0, 0x20]),
            (TEXT + SH_TYPE, &[8]),
            (TEXT + SH_SIZE, &[0, 0, 0, 0x80]),
        ],
        (2, AlignRange, TEXT as u64),
    ),
    // a section above 2^31 - 1
    (
        ALL,
        &[(TEXT + SH_TYPE, &[8]), (TEXT + SH_SIZE, &[0, 0, 0, 0x80])],
        (2, LimitSection, 2_147_483_648),
    ),
    // and both above 2^31
    (
        ALL,
        &[
            (TEXT + SH_TYPE, &[8]),
            (TEXT + SH_SIZE, &[0xFF, 0xFF, 0xFF, 0x7F]),
            (MEMBER + SH_TYPE, &[8]),
            (MEMBER + SH_SIZE, &[0, 0, 0, 0x80]),
        ],
        (3, LimitSection, 2_147_483_648),
    ),
    // sections above 2^31
    (
        ALL,
        &[
            (TEXT + SH_TYPE, &[8]),
            (TEXT + SH_SIZE, &[0xFF, 0xFF, 0xFF, 0x7F]),
            (MEMBER + SH_TYPE, &[8]),
            (MEMBER + SH_SIZE, &[2]),
        ],
        (3, LimitSum, 2_147_483_649),
    ),
    // and a symbol's name past the end of its table
    (
        ALL,
        &[
            (TEXT + SH_TYPE, &[8]),
            (TEXT + SH_SIZE, &[0xFF, 0xFF, 0xFF, 0x7F]),
            (MEMBER + SH_TYPE, &[8]),
            (MEMBER + SH_SIZE, &[2]),
            (MAIN + ST_NAME, &[0xC8]),
        ],
        (3, LimitSum, 2_147_483_649),
    ),
];

static GROUP_FAULTS: [Case; 15] = [
    // a group of one and a half words
    (ALL, &[(GROUP + SH_SIZE, &[6])], (1, BadTable, GROUP as u64)),
    // and a name past the end of its table
    (
        ALL,
        &[(GROUP + SH_NAME, &[0xC8]), (GROUP + SH_SIZE, &[6])],
        (1, BadName, GROUP as u64),
    ),
    // a group without a word
    (ALL, &[(GROUP + SH_SIZE, &[0])], (1, BadTable, GROUP as u64)),
    // words of five bytes
    (
        ALL,
        &[(GROUP + SH_ENTSIZE, &[5])],
        (1, BadTable, GROUP as u64),
    ),
    // no symbols beside it
    (ALL, &[(GROUP + SH_LINK, &[6])], (1, BadTable, GROUP as u64)),
    // symbol 0 for a signature
    (ALL, &[(GROUP + SH_INFO, &[0])], (1, BadTable, GROUP as u64)),
    // a signature that is not there
    (ALL, &[(GROUP + SH_INFO, &[5])], (1, BadTable, GROUP as u64)),
    // member 0
    (ALL, &[(56, &[0])], (1, BadTable, GROUP as u64)),
    // a member that is not there
    (ALL, &[(56, &[8])], (1, BadTable, GROUP as u64)),
    // a member twice
    (
        ALL,
        &[(GROUP + SH_SIZE, &[0x0C]), (60, &[3])],
        (1, BadTable, GROUP as u64),
    ),
    // a member of two groups
    (
        ALL,
        &[
            (REL + SH_TYPE, &[0x11]),
            (REL + SH_INFO, &[3]),
            (REL + SH_ENTSIZE, &[4]),
            (84, &[1, 0, 0, 0, 3, 0]),
        ],
        (4, BadTable, REL as u64),
    ),
    // a member that is not there, and unknown flags
    (ALL, &[(56, &[8]), (52, &[2])], (1, BadTable, GROUP as u64)),
    // unknown flags
    (ALL, &[(52, &[2])], (1, Group, GROUP as u64)),
    // and thread-local
    (
        ALL,
        &[(52, &[2]), (GROUP + SH_FLAGS, &[0, 4])],
        (1, Group, GROUP as u64),
    ),
    // and the section after it thread-local
    (
        ALL,
        &[(52, &[2]), (TEXT + SH_FLAGS, &[6, 4])],
        (1, Group, GROUP as u64),
    ),
];

static TABLE_FAULTS: [Case; 11] = [
    // symbols of 15 bytes
    (
        ALL,
        &[(SYMTAB + SH_ENTSIZE, &[0x0F])],
        (5, BadTable, SYMTAB as u64),
    ),
    // and they are thread-local
    (
        ALL,
        &[(SYMTAB + SH_FLAGS, &[0, 4]), (SYMTAB + SH_ENTSIZE, &[0x0F])],
        (5, SectionKind, SYMTAB as u64),
    ),
    // a part of a symbol
    (
        ALL,
        &[(SYMTAB + SH_SIZE, &[0x51])],
        (5, BadTable, SYMTAB as u64),
    ),
    // no names beside the symbols
    (
        ALL,
        &[(SYMTAB + SH_LINK, &[5])],
        (5, BadTable, SYMTAB as u64),
    ),
    // symbols before them
    (
        ALL,
        &[
            (TEXT + SH_TYPE, &[2]),
            (TEXT + SH_SIZE, &[0]),
            (TEXT + SH_LINK, &[6]),
            (TEXT + SH_ENTSIZE, &[0x10]),
        ],
        (5, BadTable, SYMTAB as u64),
    ),
    // relocations of nine bytes
    (ALL, &[(REL + SH_ENTSIZE, &[9])], (4, BadTable, REL as u64)),
    // and they are thread-local
    (
        ALL,
        &[(REL + SH_FLAGS, &[0x40, 4]), (REL + SH_ENTSIZE, &[9])],
        (4, SectionKind, REL as u64),
    ),
    // a part of a relocation
    (ALL, &[(REL + SH_SIZE, &[9])], (4, BadTable, REL as u64)),
    // no symbols beside the relocations
    (ALL, &[(REL + SH_LINK, &[6])], (4, BadTable, REL as u64)),
    // relocations of a section that is not there
    (ALL, &[(REL + SH_INFO, &[8])], (4, BadTable, REL as u64)),
    // relocations of the same section before them
    (
        ALL,
        &[
            (MEMBER + SH_TYPE, &[9]),
            (MEMBER + SH_SIZE, &[0]),
            (MEMBER + SH_LINK, &[5]),
            (MEMBER + SH_INFO, &[2]),
            (MEMBER + SH_ENTSIZE, &[8]),
        ],
        (4, BadTable, REL as u64),
    ),
];

/// The conditions on every section, and those on carried ones, in their order.
pub(super) fn faults() -> &'static [Case] {
    &FAULTS
}

/// The conditions on groups.
pub(super) fn group_faults() -> &'static [Case] {
    &GROUP_FAULTS
}

/// The conditions on symbol tables and on relocation tables.
pub(super) fn table_faults() -> &'static [Case] {
    &TABLE_FAULTS
}
