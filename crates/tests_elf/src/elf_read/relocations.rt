//! Faults of relocation entries.
use super::objects::{
    ALL, OWN_MEMBER, R_OFFSET, R_SYM, R_TYPE, REL, SH_OFFSET, SH_SIZE, SH_TYPE, ST_INFO, ST_NAME,
    ST_SHNDX, TEXT,
};
use oc_base::Code::{BadOffset, BadTarget, Overlap, RelocKind, TargetKind};
use tests_cases::Case;

static FAULTS: [Case; 18] = [
    // an unknown type
    (ALL, &[(R_TYPE, &[5])], (2, RelocKind, 84)),
    // and a field past the end of its section
    (ALL, &[(R_TYPE, &[5]), (R_OFFSET, &[3])], (2, RelocKind, 84)),
    // a field past the end of its section
    (ALL, &[(R_OFFSET, &[3])], (2, BadOffset, 84)),
    // a field of zeros
    (ALL, &[(TEXT + SH_TYPE, &[8])], (2, BadOffset, 84)),
    // a field past the end of its section, against a symbol that does not exist
    (ALL, &[(R_OFFSET, &[3]), (R_SYM, &[5])], (2, BadOffset, 84)),
    // a symbol that is not there
    (ALL, &[(R_SYM, &[5])], (2, BadTarget, 84)),
    // a LOCAL without a name
    (
        ALL,
        &[(OWN_MEMBER + ST_INFO, &[0]), (R_SYM, &[2])],
        (2, BadTarget, 84),
    ),
    // a source file
    (
        ALL,
        &[(OWN_MEMBER + ST_INFO, &[4]), (R_SYM, &[2])],
        (2, BadTarget, 84),
    ),
    // a LOCAL in a string table
    (
        ALL,
        &[
            (OWN_MEMBER + ST_NAME, &[1]),
            (OWN_MEMBER + ST_INFO, &[0, 0, 6]),
            (R_SYM, &[2]),
        ],
        (2, BadTarget, 84),
    ),
    // the slot of a LOCAL without a name
    (
        ALL,
        &[(OWN_MEMBER + ST_INFO, &[0]), (R_TYPE, &[3]), (R_SYM, &[2])],
        (2, BadTarget, 84),
    ),
    // symbol 0
    (ALL, &[(R_SYM, &[0])], (2, TargetKind, 84)),
    // the slot of a section's own symbol
    (ALL, &[(R_TYPE, &[3]), (R_SYM, &[1])], (2, TargetKind, 84)),
    // the own symbol of a string table
    (
        ALL,
        &[(OWN_MEMBER + ST_SHNDX, &[6]), (R_SYM, &[2])],
        (2, TargetKind, 84),
    ),
    // a section's own symbol that is a number
    (
        ALL,
        &[(OWN_MEMBER + ST_SHNDX, &[0xF1, 0xFF]), (R_SYM, &[2])],
        (2, TargetKind, 84),
    ),
    // a LOCAL number
    (
        ALL,
        &[
            (OWN_MEMBER + ST_NAME, &[1]),
            (OWN_MEMBER + ST_INFO, &[0, 0, 0xF1, 0xFF]),
            (R_SYM, &[2]),
        ],
        (2, TargetKind, 84),
    ),
    // two fields that meet, the second against a symbol that is not there
    (
        ALL,
        &[
            (REL + SH_OFFSET, &[0x28, 2]),
            (REL + SH_SIZE, &[0x10]),
            (565, &[5]),
        ],
        (2, BadTarget, 560),
    ),
    // two fields that meet, the second against symbol 0
    (
        ALL,
        &[
            (REL + SH_OFFSET, &[0x28, 2]),
            (REL + SH_SIZE, &[0x10]),
            (565, &[0]),
        ],
        (2, TargetKind, 560),
    ),
    // two fields that meet
    (
        ALL,
        &[(REL + SH_OFFSET, &[0x28, 2]), (REL + SH_SIZE, &[0x10])],
        (2, Overlap, 560),
    ),
];

/// The conditions on entries, in their order.
pub(super) fn faults() -> &'static [Case] {
    &FAULTS
}
