//! Faults of symbols.
use super::objects::{ADDR, ALL, CALL, FOO, MAIN, N_SECT, N_TYPE, N_VALUE, R_TYPE, TEXT};
use oc_base::Code::{BadName, BadSymbol, DuplicateName, SymbolKind, SymbolPastEnd};
use tests_cases::Case;

static FAULTS: [Case; 23] = [
    // a name past the end of the strings
    (ALL, &[(MAIN, &[0x10])], (0, BadName, 304)),
    // a name without an end
    (ALL, &[(204, &[9])], (1, BadName, 320)),
    // the name of an indirect symbol past the end of the strings
    (
        ALL,
        &[(MAIN, &[0x10]), (MAIN + N_TYPE, &[0xB])],
        (0, BadName, 304),
    ),
    // a name past the end of the strings, in a section that does not exist
    (
        ALL,
        &[(MAIN, &[0x10]), (MAIN + N_SECT, &[2])],
        (0, BadName, 304),
    ),
    // an indirect symbol
    (ALL, &[(MAIN + N_TYPE, &[0xB])], (0, SymbolKind, 304)),
    // a prebound symbol
    (ALL, &[(MAIN + N_TYPE, &[0xD])], (0, SymbolKind, 304)),
    // type 4
    (ALL, &[(MAIN + N_TYPE, &[5])], (0, SymbolKind, 304)),
    // a Local that is undefined
    (ALL, &[(MAIN + N_TYPE, &[0])], (0, SymbolKind, 304)),
    // an absolute symbol that is weak
    (ALL, &[(MAIN + N_TYPE, &[3, 1, 0x80])], (0, SymbolKind, 304)),
    // and its name is empty
    (
        ALL,
        &[(MAIN, &[0]), (MAIN + N_TYPE, &[3, 1, 0x80])],
        (0, SymbolKind, 304),
    ),
    // section 0
    (ALL, &[(MAIN + N_SECT, &[0])], (0, BadSymbol, 304)),
    // section 2 of one
    (ALL, &[(MAIN + N_SECT, &[2])], (0, BadSymbol, 304)),
    // and an empty name
    (
        ALL,
        &[(MAIN, &[0]), (MAIN + N_SECT, &[2])],
        (0, BadSymbol, 304),
    ),
    // a value past the end of the section
    (ALL, &[(MAIN + N_VALUE, &[7])], (0, SymbolPastEnd, 304)),
    // a value before the section
    (ALL, &[(TEXT + ADDR, &[1])], (0, SymbolPastEnd, 304)),
    // of a Local, too
    (
        ALL,
        &[(MAIN + N_TYPE, &[0xE]), (MAIN + N_VALUE, &[7])],
        (0, SymbolPastEnd, 304),
    ),
    // a section at the last address, and a value before it
    (
        ALL,
        &[(
            TEXT + ADDR,
            &[0xFA, 0xFF, 0xFF, 0xFF, 0xFF, 0xFF, 0xFF, 0xFF],
        )],
        (0, SymbolPastEnd, 304),
    ),
    // a value past the end, and an empty name
    (
        ALL,
        &[(MAIN, &[0]), (MAIN + N_VALUE, &[7])],
        (0, SymbolPastEnd, 304),
    ),
    // an external symbol with an empty name
    (ALL, &[(MAIN, &[0])], (0, SymbolKind, 304)),
    // at the last NUL
    (ALL, &[(MAIN, &[0xF])], (0, SymbolKind, 304)),
    // a value past the end, and a name that came before
    (
        ALL,
        &[
            (FOO, &[1]),
            (FOO + N_TYPE, &[0xF, 1]),
            (FOO + N_VALUE, &[7]),
        ],
        (1, SymbolPastEnd, 320),
    ),
    // a name that came before
    (ALL, &[(FOO, &[1])], (1, DuplicateName, 320)),
    // and an entry of type 9
    (
        ALL,
        &[(FOO, &[1]), (CALL + R_TYPE, &[0x9D])],
        (1, DuplicateName, 320),
    ),
];

static FAULTS_32: [Case; 2] = [
    // a name past the end of the strings
    (ALL, &[(284, &[0xC])], (1, BadName, 284)),
    // a name that came before
    (ALL, &[(284, &[1])], (1, DuplicateName, 284)),
];

/// The conditions on the symbols of `CALLED`, in their order.
pub(super) fn faults() -> &'static [Case] {
    &FAULTS
}

/// Those of `CALLED32`, where they differ.
pub(super) fn faults_32() -> &'static [Case] {
    &FAULTS_32
}
