//! Faults of relocation entries.
use super::objects::{
    ALL, COUNT, FLAGS, MAIN, R_ADDRESS, R_SYMBOL, R_TYPE, RELOCS, SECOND_SYMBOL, SECTION,
};
use oc_base::Code::{BadOffset, BadTarget, Overlap, RelocKind, TargetKind};
use tests_cases::Case;

static FAULTS: [Case; 11] = [
    // a type that is none
    (ALL, &[(R_TYPE, &[0x15])], (1, RelocKind, 66)),
    // and a field past the end of the section
    (
        ALL,
        &[(R_TYPE, &[0x15]), (R_ADDRESS, &[3])],
        (1, RelocKind, 66),
    ),
    // a field past the end of the section
    (ALL, &[(R_ADDRESS, &[3])], (1, BadOffset, 66)),
    // a field of zeros
    (ALL, &[(FLAGS, &[0x80])], (1, BadOffset, 66)),
    // a field past the end of the section, of a symbol that does not exist
    (
        ALL,
        &[(R_ADDRESS, &[3]), (R_SYMBOL, &[4])],
        (1, BadOffset, 66),
    ),
    // a symbol that is not there
    (ALL, &[(R_SYMBOL, &[4])], (1, BadTarget, 66)),
    // an auxiliary entry
    (ALL, &[(R_SYMBOL, &[1])], (1, BadTarget, 66)),
    // the place in its section of an absolute symbol
    (
        ALL,
        &[
            (R_SYMBOL, &[2]),
            (R_TYPE, &[0xB]),
            (MAIN + SECTION, &[0xFF, 0xFF]),
        ],
        (1, TargetKind, 66),
    ),
    // two fields that meet, the second of a symbol that is not there
    (
        ALL,
        &[(RELOCS, &[0x98]), (COUNT, &[2]), (SECOND_SYMBOL, &[4])],
        (1, BadTarget, 162),
    ),
    // and of the place of an absolute one
    (
        ALL,
        &[
            (RELOCS, &[0x98]),
            (COUNT, &[2]),
            (SECOND_SYMBOL, &[2, 0, 0, 0, 0xB]),
            (MAIN + SECTION, &[0xFF, 0xFF]),
        ],
        (1, TargetKind, 162),
    ),
    // two fields that meet
    (ALL, &[(RELOCS, &[0x98]), (COUNT, &[2])], (1, Overlap, 162)),
];

/// The conditions on entries, in their order.
pub(super) fn faults() -> &'static [Case] {
    &FAULTS
}
