//! Faults of the file header.
use super::objects::{ALL, SH_SIZE, TEXT};
use oc_base::Code::{BadHeader, BadTable, ExtendedNumbering, NotRelocatable, Short};
use tests_cases::Case;

static FAULTS: [Case; 23] = [
    // the header is cut
    (51, &[], (0, Short, 0)),
    // and big-endian
    (51, &[(5, &[2])], (0, Short, 0)),
    // big-endian
    (ALL, &[(5, &[2])], (0, BadHeader, 0)),
    // another version of the identification
    (ALL, &[(6, &[2])], (0, BadHeader, 0)),
    // another version of the file
    (ALL, &[(20, &[2])], (0, BadHeader, 0)),
    // a header of 51 bytes
    (ALL, &[(40, &[0x33])], (0, BadHeader, 0)),
    // and an executable
    (ALL, &[(40, &[0x33]), (16, &[2])], (0, BadHeader, 0)),
    // an executable
    (ALL, &[(16, &[2])], (0, NotRelocatable, 0)),
    // x86-64
    (ALL, &[(18, &[0x3E])], (0, NotRelocatable, 0)),
    // and no sections, but a place for them
    (ALL, &[(18, &[0x3E]), (48, &[0])], (0, NotRelocatable, 0)),
    // no sections, but a place for them
    (ALL, &[(48, &[0])], (0, ExtendedNumbering, 0)),
    // the number of the section of names is elsewhere
    (ALL, &[(50, &[0xFF, 0xFF])], (0, ExtendedNumbering, 0)),
    // also where there are no sections
    (
        ALL,
        &[(32, &[0]), (48, &[0]), (50, &[0xFF, 0xFF])],
        (0, ExtendedNumbering, 0),
    ),
    // and section headers of 41 bytes
    (ALL, &[(48, &[0]), (46, &[0x29])], (0, ExtendedNumbering, 0)),
    // section headers of 41 bytes
    (ALL, &[(46, &[0x29])], (0, BadHeader, 0)),
    // and they are cut
    (551, &[(46, &[0x29])], (0, BadHeader, 0)),
    // the section headers are cut
    (551, &[], (0, Short, 232)),
    // they begin past the end
    (ALL, &[(33, &[3])], (0, Short, 1000)),
    // and the names of sections are no string table
    (551, &[(50, &[5])], (0, Short, 232)),
    // the names of sections are no string table
    (ALL, &[(50, &[5])], (0, BadTable, 0)),
    // they are section 0
    (ALL, &[(50, &[0])], (0, BadTable, 0)),
    // they are a section that is not there
    (ALL, &[(50, &[8])], (0, BadTable, 0)),
    // and contents past the end
    (
        ALL,
        &[(50, &[5]), (TEXT + SH_SIZE + 1, &[0x10])],
        (0, BadTable, 0),
    ),
];

/// The conditions on the header, in their order.
pub(super) fn faults() -> &'static [Case] {
    &FAULTS
}
