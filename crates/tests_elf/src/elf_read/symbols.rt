//! Faults of symbols.
use super::objects::{
    ALL, GROUP, MAIN, OWN_MEMBER, OWN_TEXT, R_TYPE, REL, SH_ENTSIZE, SH_INFO, SH_TYPE, ST_INFO,
    ST_NAME, ST_SHNDX, ST_VALUE, SYMTAB, T,
};
use oc_base::Code::{
    BadCommon, BadName, BadSymbol, DuplicateName, Group, SymbolKind, SymbolPastEnd,
};
use tests_cases::Case;

static FAULTS: [Case; 33] = [
    // a name past the end of its table
    (ALL, &[(MAIN + ST_NAME, &[0xC8])], (4, BadName, MAIN as u64)),
    // and a GLOBAL among the locals
    (
        ALL,
        &[(T + ST_NAME, &[0xC8]), (SYMTAB + SH_INFO, &[4])],
        (3, BadName, T as u64),
    ),
    // a GLOBAL among the locals
    (ALL, &[(SYMTAB + SH_INFO, &[4])], (3, BadSymbol, T as u64)),
    // a LOCAL after the locals
    (
        ALL,
        &[(SYMTAB + SH_INFO, &[2])],
        (2, BadSymbol, OWN_MEMBER as u64),
    ),
    // a GLOBAL among the locals, and thread-local
    (
        ALL,
        &[(SYMTAB + SH_INFO, &[4]), (T + ST_INFO, &[0x16])],
        (3, BadSymbol, T as u64),
    ),
    // an unknown binding
    (
        ALL,
        &[(MAIN + ST_INFO, &[0x32])],
        (4, SymbolKind, MAIN as u64),
    ),
    // a thread-local symbol
    (
        ALL,
        &[(MAIN + ST_INFO, &[0x16])],
        (4, SymbolKind, MAIN as u64),
    ),
    // a WEAK number
    (
        ALL,
        &[(MAIN + ST_INFO, &[0x22, 0, 0xF1, 0xFF])],
        (4, SymbolKind, MAIN as u64),
    ),
    // a WEAK common
    (
        ALL,
        &[
            (MAIN + ST_VALUE, &[4]),
            (MAIN + ST_INFO, &[0x22, 0, 0xF2, 0xFF]),
        ],
        (4, SymbolKind, MAIN as u64),
    ),
    // a LOCAL common
    (
        ALL,
        &[
            (OWN_MEMBER + ST_VALUE, &[4]),
            (OWN_MEMBER + ST_INFO, &[0, 0, 0xF2, 0xFF]),
        ],
        (2, SymbolKind, OWN_MEMBER as u64),
    ),
    // a LOCAL that is not defined
    (
        ALL,
        &[(OWN_MEMBER + ST_INFO, &[0, 0, 0])],
        (2, SymbolKind, OWN_MEMBER as u64),
    ),
    // a GLOBAL for a section
    (
        ALL,
        &[(MAIN + ST_INFO, &[0x13])],
        (4, SymbolKind, MAIN as u64),
    ),
    // an unknown number for a section
    (
        ALL,
        &[(MAIN + ST_SHNDX, &[0, 0xFF])],
        (4, SymbolKind, MAIN as u64),
    ),
    // thread-local, in a section that is not there
    (
        ALL,
        &[(MAIN + ST_INFO, &[0x16]), (MAIN + ST_SHNDX, &[8])],
        (4, SymbolKind, MAIN as u64),
    ),
    // a LOCAL in a section that is not there
    (
        ALL,
        &[(OWN_MEMBER + ST_SHNDX, &[8])],
        (2, BadSymbol, OWN_MEMBER as u64),
    ),
    // a GLOBAL in a section that is not there, which is not carried either
    (ALL, &[(MAIN + ST_SHNDX, &[8])], (4, BadSymbol, MAIN as u64)),
    // a GLOBAL in a string table
    (
        ALL,
        &[(MAIN + ST_SHNDX, &[6])],
        (4, SymbolKind, MAIN as u64),
    ),
    // and past its end
    (
        ALL,
        &[(MAIN + ST_SHNDX, &[6]), (MAIN + ST_VALUE, &[9])],
        (4, SymbolKind, MAIN as u64),
    ),
    // a value past the end of its section
    (
        ALL,
        &[(MAIN + ST_VALUE, &[7])],
        (4, SymbolPastEnd, MAIN as u64),
    ),
    // also that of a section's own symbol
    (
        ALL,
        &[(OWN_TEXT + ST_VALUE, &[7])],
        (1, SymbolPastEnd, OWN_TEXT as u64),
    ),
    // and without a name
    (
        ALL,
        &[(MAIN + ST_VALUE, &[7]), (MAIN + ST_NAME, &[0])],
        (4, SymbolPastEnd, MAIN as u64),
    ),
    // a common of alignment 3
    (
        ALL,
        &[(MAIN + ST_VALUE, &[3]), (MAIN + ST_SHNDX, &[0xF2, 0xFF])],
        (4, BadCommon, MAIN as u64),
    ),
    // a common of alignment 0
    (
        ALL,
        &[(MAIN + ST_SHNDX, &[0xF2, 0xFF])],
        (4, BadCommon, MAIN as u64),
    ),
    // a common of alignment 2^21
    (
        ALL,
        &[
            (MAIN + ST_VALUE, &[0, 0, 0x20]),
            (MAIN + ST_SHNDX, &[0xF2, 0xFF]),
        ],
        (4, BadCommon, MAIN as u64),
    ),
    // and without a name
    (
        ALL,
        &[
            (MAIN + ST_VALUE, &[3]),
            (MAIN + ST_SHNDX, &[0xF2, 0xFF]),
            (MAIN + ST_NAME, &[0]),
        ],
        (4, BadCommon, MAIN as u64),
    ),
    // a GLOBAL without a name
    (ALL, &[(MAIN + ST_NAME, &[0])], (4, SymbolKind, MAIN as u64)),
    // and a group without a key
    (ALL, &[(T + ST_NAME, &[0])], (3, SymbolKind, T as u64)),
    // a name twice
    (
        ALL,
        &[(MAIN + ST_NAME, &[1])],
        (4, DuplicateName, MAIN as u64),
    ),
    // also that of a source file
    (
        ALL,
        &[(MAIN + ST_NAME, &[1]), (MAIN + ST_INFO, &[0x14])],
        (4, DuplicateName, MAIN as u64),
    ),
    // and it is the key of two groups
    (
        ALL,
        &[
            (REL + SH_TYPE, &[0x11]),
            (REL + SH_INFO, &[4]),
            (REL + SH_ENTSIZE, &[4]),
            (84, &[1, 0, 0, 0, 2, 0]),
            (MAIN + ST_NAME, &[1]),
        ],
        (4, DuplicateName, MAIN as u64),
    ),
    // a group without a key
    (
        ALL,
        &[(GROUP + SH_INFO, &[2]), (OWN_MEMBER + ST_INFO, &[0])],
        (2, Group, OWN_MEMBER as u64),
    ),
    // two groups of one key
    (
        ALL,
        &[
            (REL + SH_TYPE, &[0x11]),
            (REL + SH_INFO, &[3]),
            (REL + SH_ENTSIZE, &[4]),
            (84, &[1, 0, 0, 0, 2, 0]),
        ],
        (3, Group, T as u64),
    ),
    // a group without a key, and an unknown type of relocation
    (
        ALL,
        &[
            (GROUP + SH_INFO, &[2]),
            (OWN_MEMBER + ST_INFO, &[0]),
            (R_TYPE, &[5]),
        ],
        (2, Group, OWN_MEMBER as u64),
    ),
];

/// The conditions on symbols, in their order.
pub(super) fn faults() -> &'static [Case] {
    &FAULTS
}
