//! Faults of symbols.
use super::objects::{ALL, AUXILIARIES, CLASS, FLAGS, FOO, MAIN, OWN, R_TYPE, SECTION, VALUE};
use oc_base::Code::{BadName, BadSymbol, DuplicateName, SymbolKind, SymbolPastEnd};
use tests_cases::Case;

static FAULTS: [Case; 26] = [
    // auxiliary entries that are not there
    (ALL, &[(MAIN + AUXILIARIES, &[2])], (2, BadSymbol, 112)),
    // and a name in the size of the string table
    (
        ALL,
        &[(MAIN + AUXILIARIES, &[2]), (MAIN, &[0, 0, 0, 0, 3])],
        (2, BadSymbol, 112),
    ),
    // a name in the size of the string table
    (ALL, &[(MAIN, &[0, 0, 0, 0, 3])], (2, BadName, 112)),
    // a name that no NUL ends
    (ALL, &[(MAIN, &[0, 0, 0, 0, 4])], (2, BadName, 112)),
    // and a section that is not there
    (
        ALL,
        &[(MAIN, &[0, 0, 0, 0, 3]), (MAIN + SECTION, &[2])],
        (2, BadName, 112),
    ),
    // a section that is not there
    (ALL, &[(MAIN + SECTION, &[2])], (2, BadSymbol, 112)),
    // section -3
    (ALL, &[(MAIN + SECTION, &[0xFD, 0xFF])], (2, BadSymbol, 112)),
    // and a class that is none
    (
        ALL,
        &[(MAIN + SECTION, &[2]), (MAIN + CLASS, &[4])],
        (2, BadSymbol, 112),
    ),
    // a class that is none
    (ALL, &[(MAIN + CLASS, &[4])], (2, SymbolKind, 112)),
    // and a value past the end of the section
    (
        ALL,
        &[(MAIN + CLASS, &[4]), (MAIN + VALUE, &[7])],
        (2, SymbolKind, 112),
    ),
    // a STATIC symbol without a section
    (ALL, &[(FOO + CLASS, &[3])], (3, SymbolKind, 130)),
    // a LABEL without a section
    (ALL, &[(FOO + CLASS, &[6])], (3, SymbolKind, 130)),
    // a weak external with a section
    (
        ALL,
        &[(MAIN + CLASS, &[0x69, 1]), (FOO, &[0, 0, 0])],
        (2, SymbolKind, 112),
    ),
    // and a value past the end of it
    (
        ALL,
        &[
            (MAIN + CLASS, &[0x69, 1]),
            (FOO, &[0, 0, 0]),
            (MAIN + VALUE, &[7]),
        ],
        (2, SymbolKind, 112),
    ),
    // and with no auxiliary entry
    (ALL, &[(MAIN + CLASS, &[0x69])], (2, SymbolKind, 112)),
    // a value past the end of the section
    (ALL, &[(MAIN + VALUE, &[7])], (2, SymbolPastEnd, 112)),
    // and a section that is not carried
    (
        ALL,
        &[(MAIN + VALUE, &[7]), (FLAGS + 1, &[8])],
        (2, SymbolPastEnd, 112),
    ),
    // a weak external without an auxiliary entry
    (ALL, &[(FOO + CLASS, &[0x69])], (3, BadSymbol, 130)),
    // one that tags no entry, with a name that occurs twice
    (
        ALL,
        &[
            (OWN + CLASS, &[2]),
            (MAIN, &[0x2E, 0x74, 0x65, 0x78, 0x74]),
            (MAIN + SECTION, &[0]),
            (MAIN + CLASS, &[0x69, 1]),
            (FOO, &[9, 0, 0]),
        ],
        (2, BadSymbol, 112),
    ),
    // one that tags itself, with such a name
    (
        ALL,
        &[
            (OWN + CLASS, &[2]),
            (MAIN, &[0x2E, 0x74, 0x65, 0x78, 0x74]),
            (MAIN + SECTION, &[0]),
            (MAIN + CLASS, &[0x69, 1]),
            (FOO, &[2, 0, 0]),
        ],
        (2, SymbolKind, 112),
    ),
    // an EXTERNAL symbol in a section that is not carried
    (ALL, &[(FLAGS + 1, &[8])], (2, SymbolKind, 112)),
    // one with a name that occurs twice
    (
        ALL,
        &[
            (FLAGS + 1, &[8]),
            (MAIN + SECTION, &[0]),
            (FOO, &[0x6D, 0x61, 0x69, 0x6E]),
            (FOO + SECTION, &[1]),
        ],
        (3, SymbolKind, 130),
    ),
    // an EXTERNAL symbol without a name
    (ALL, &[(MAIN, &[0, 0, 0, 0])], (2, SymbolKind, 112)),
    // a name that occurs twice
    (
        ALL,
        &[(FOO, &[0x6D, 0x61, 0x69, 0x6E])],
        (3, DuplicateName, 130),
    ),
    // and a type of a relocation that is none
    (
        ALL,
        &[(FOO, &[0x6D, 0x61, 0x69, 0x6E]), (R_TYPE, &[0x15])],
        (3, DuplicateName, 130),
    ),
    // an earlier symbol before a later one
    (
        ALL,
        &[(MAIN + VALUE, &[7]), (FOO + CLASS, &[3])],
        (2, SymbolPastEnd, 112),
    ),
];

/// The conditions on symbols, in their order.
pub(super) fn faults() -> &'static [Case] {
    &FAULTS
}
