//! Faults of section headers.
use super::objects::{
    ADDRESS, ALL, CLASS, COUNT, FLAGS, MAIN, NAME, NUMBER, R_ADDRESS, RAW, RELOCS, SECTION,
    SELECTION, SIZE,
};
use oc_base::Code::{BadAlign, BadName, BadTable, Group, LimitSection, SectionKind, Short};
use tests_cases::Case;

static FAULTS: [Case; 28] = [
    // a name that is no offset
    (ALL, &[(NAME, &[0x2F])], (1, BadName, 20)),
    // and copies, of which nothing is specified
    (
        ALL,
        &[(NAME, &[0x2F]), (FLAGS + 1, &[0x10])],
        (1, BadName, 20),
    ),
    // copies, of which nothing is specified
    (ALL, &[(FLAGS + 1, &[0x10])], (1, Group, 20)),
    // and an address
    (
        ALL,
        &[(FLAGS + 1, &[0x10]), (ADDRESS, &[1])],
        (1, Group, 20),
    ),
    // copies that are kept with the section itself, which is kept so
    (
        ALL,
        &[(FLAGS + 1, &[0x10]), (SELECTION, &[5])],
        (1, BadTable, 20),
    ),
    // copies that are kept with a section that is not there
    (
        ALL,
        &[(FLAGS + 1, &[0x10]), (NUMBER, &[2, 0, 5])],
        (1, BadTable, 20),
    ),
    // and an address
    (
        ALL,
        &[(FLAGS + 1, &[0x10]), (NUMBER, &[2, 0, 5]), (ADDRESS, &[1])],
        (1, BadTable, 20),
    ),
    // copies without a symbol for the key
    (
        ALL,
        &[
            (FLAGS + 1, &[0x10]),
            (SELECTION, &[2]),
            (MAIN + CLASS, &[3]),
        ],
        (1, Group, 20),
    ),
    // and an address
    (
        ALL,
        &[
            (FLAGS + 1, &[0x10]),
            (SELECTION, &[2]),
            (MAIN + CLASS, &[3]),
            (ADDRESS, &[1]),
        ],
        (1, Group, 20),
    ),
    // an address
    (ALL, &[(ADDRESS, &[1])], (1, SectionKind, 20)),
    // and an alignment that is none
    (
        ALL,
        &[(ADDRESS, &[1]), (FLAGS + 2, &[0xF0])],
        (1, SectionKind, 20),
    ),
    // an alignment that is none
    (ALL, &[(FLAGS + 2, &[0xF0])], (1, BadAlign, 20)),
    // and contents without a place
    (ALL, &[(FLAGS + 2, &[0xF0]), (RAW, &[0])], (1, BadAlign, 20)),
    // contents without a place
    (ALL, &[(RAW, &[0])], (1, BadTable, 20)),
    // and entries past the end
    (ALL, &[(RAW, &[0]), (COUNT, &[0xC8])], (1, BadTable, 20)),
    // contents past the end
    (ALL, &[(SIZE, &[0xC8])], (1, Short, 60)),
    // and entries past the end
    (ALL, &[(SIZE, &[0xC8]), (COUNT, &[0xC8])], (1, Short, 60)),
    // and a first entry past the end, which is to have the count
    (
        ALL,
        &[
            (SIZE, &[0xC8]),
            (FLAGS + 3, &[0x61]),
            (COUNT, &[0xFF, 0xFF]),
            (RELOCS, &[0xA8]),
        ],
        (1, Short, 60),
    ),
    // entries past the end
    (ALL, &[(COUNT, &[0xC8])], (1, Short, 66)),
    // and more than 2^31 - 1 bytes, all zeros
    (
        ALL,
        &[(COUNT, &[0xC8]), (FLAGS, &[0x80]), (SIZE + 3, &[0x80, 0])],
        (1, Short, 66),
    ),
    // a first entry past the end, which is to have the count
    (
        ALL,
        &[
            (FLAGS + 3, &[0x61]),
            (COUNT, &[0xFF, 0xFF]),
            (RELOCS, &[0xA8]),
        ],
        (1, Short, 168),
    ),
    // and no count
    (
        ALL,
        &[
            (FLAGS + 3, &[0x61]),
            (COUNT, &[0xFF, 0xFF]),
            (RELOCS + 1, &[1]),
        ],
        (1, Short, 322),
    ),
    // a count of 0
    (
        ALL,
        &[
            (FLAGS + 3, &[0x61]),
            (COUNT, &[0xFF, 0xFF]),
            (R_ADDRESS, &[0]),
        ],
        (1, BadTable, 20),
    ),
    // and more than 2^31 - 1 bytes, all zeros
    (
        ALL,
        &[
            (FLAGS + 3, &[0x61]),
            (COUNT, &[0xFF, 0xFF]),
            (R_ADDRESS, &[0]),
            (FLAGS, &[0x80]),
            (SIZE + 3, &[0x80, 0]),
        ],
        (1, BadTable, 20),
    ),
    // a count of more than there are
    (
        ALL,
        &[
            (FLAGS + 3, &[0x61]),
            (COUNT, &[0xFF, 0xFF]),
            (R_ADDRESS, &[0xC]),
        ],
        (1, Short, 66),
    ),
    // and more than 2^31 - 1 bytes, all zeros
    (
        ALL,
        &[
            (FLAGS + 3, &[0x61]),
            (COUNT, &[0xFF, 0xFF]),
            (R_ADDRESS, &[0xC]),
            (FLAGS, &[0x80]),
            (SIZE + 3, &[0x80, 0]),
        ],
        (1, Short, 66),
    ),
    // more than 2^31 - 1 bytes, all zeros
    (
        ALL,
        &[(FLAGS, &[0x80]), (SIZE + 3, &[0x80, 0])],
        (1, LimitSection, 0x8000_0006),
    ),
    // and a symbol of a section that is not there
    (
        ALL,
        &[
            (FLAGS, &[0x80]),
            (SIZE + 3, &[0x80, 0]),
            (MAIN + SECTION, &[2]),
        ],
        (1, LimitSection, 0x8000_0006),
    ),
];

/// The conditions on section headers, in their order.
pub(super) fn faults() -> &'static [Case] {
    &FAULTS
}
