//! Faults of the file header, and of what it places.
use super::objects::{ADDRESS, ALL, OPTIONAL_SIZE, SECTIONS, STRINGS, SYMBOL_TABLE};
use oc_base::Code::{BadHeader, NotRelocatable, Short};
use tests_cases::Case;

static FAULTS: [Case; 14] = [
    // a cut header
    (19, &[], (0, Short, 0)),
    // and an optional header
    (19, &[(OPTIONAL_SIZE, &[1])], (0, Short, 0)),
    // an optional header
    (ALL, &[(OPTIONAL_SIZE, &[1])], (0, NotRelocatable, 0)),
    // and symbols without a place
    (
        ALL,
        &[(OPTIONAL_SIZE, &[1]), (SYMBOL_TABLE, &[0])],
        (0, NotRelocatable, 0),
    ),
    // symbols without a place
    (ALL, &[(SYMBOL_TABLE, &[0])], (0, BadHeader, 0)),
    // and cut section headers
    (59, &[(SYMBOL_TABLE, &[0])], (0, BadHeader, 0)),
    // more section headers than there is room for
    (ALL, &[(SECTIONS, &[4])], (0, Short, 20)),
    // cut section headers, and no symbols after them
    (59, &[], (0, Short, 20)),
    // cut symbols
    (147, &[], (0, Short, 76)),
    // a cut size of the string table
    (151, &[], (0, Short, 148)),
    // and one of three bytes
    (149, &[(STRINGS, &[3])], (0, Short, 148)),
    // a string table of three bytes
    (ALL, &[(STRINGS, &[3])], (0, BadHeader, 0)),
    // one that passes the end
    (ALL, &[(STRINGS, &[0x19])], (0, Short, 148)),
    // and an address of the section
    (ALL, &[(STRINGS, &[0x19]), (ADDRESS, &[1])], (0, Short, 148)),
];

/// The conditions on the header, in their order.
pub(super) fn faults() -> &'static [Case] {
    &FAULTS
}
