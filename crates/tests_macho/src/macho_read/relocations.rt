//! Faults of relocation entries, alone and in pairs.
use super::objects::{ALL, CALL, FLAGS, MAIN, N_TYPE, R_HIGH, R_NUMBER, R_TYPE, TEXT};
use oc_base::Code::{BadOffset, BadPair, BadTarget, FoldTooWide, Overlap, RelocKind, TargetKind};
use tests_cases::Case;

static FAULTS: [Case; 21] = [
    // not self-relative
    (ALL, &[(CALL + R_TYPE, &[0x1C])], (1, RelocKind, 296)),
    // two bytes
    (ALL, &[(CALL + R_TYPE, &[0x1B])], (1, RelocKind, 296)),
    // type 9
    (ALL, &[(CALL + R_TYPE, &[0x9D])], (1, RelocKind, 296)),
    // scattered
    (ALL, &[(CALL + R_HIGH, &[0x80])], (1, RelocKind, 296)),
    // the slot of a section
    (ALL, &[(CALL + R_TYPE, &[0x45])], (1, RelocKind, 296)),
    // a SUBTRACTOR of a section
    (ALL, &[(CALL + R_TYPE, &[0x54])], (1, RelocKind, 296)),
    // type 9, and a field past the end of the section
    (
        ALL,
        &[(CALL + R_TYPE, &[0x9D]), (CALL, &[3])],
        (1, RelocKind, 296),
    ),
    // the first of a pair that has no second
    (ALL, &[(CALL + R_TYPE, &[0x5C])], (1, BadPair, 296)),
    // and a field past the end of the section
    (
        ALL,
        &[(CALL + R_TYPE, &[0x5C]), (CALL, &[3])],
        (1, BadPair, 296),
    ),
    // a field past the end of the section
    (ALL, &[(CALL, &[3])], (1, BadOffset, 296)),
    // a field that would wrap
    (
        ALL,
        &[(CALL, &[0xFF, 0xFF, 0xFF, 0x7F])],
        (1, BadOffset, 296),
    ),
    // a field of zeros
    (ALL, &[(TEXT + FLAGS, &[1])], (1, BadOffset, 296)),
    // a field past the end of the section, to a symbol that does not exist
    (
        ALL,
        &[(CALL, &[3]), (CALL + R_NUMBER, &[2])],
        (1, BadOffset, 296),
    ),
    // a symbol that is not there
    (ALL, &[(CALL + R_NUMBER, &[2])], (1, BadTarget, 296)),
    // an entry for debuggers
    (
        ALL,
        &[(CALL + R_NUMBER, &[0]), (MAIN + N_TYPE, &[0x2F])],
        (1, BadTarget, 296),
    ),
    // a Local without a name
    (
        ALL,
        &[
            (CALL + R_NUMBER, &[0]),
            (MAIN, &[0]),
            (MAIN + N_TYPE, &[0xE]),
        ],
        (1, BadTarget, 296),
    ),
    // the slot of a Local without a name
    (
        ALL,
        &[
            (CALL + R_TYPE, &[0x4D]),
            (CALL + R_NUMBER, &[0]),
            (MAIN, &[0]),
            (MAIN + N_TYPE, &[0xE]),
        ],
        (1, BadTarget, 296),
    ),
    // section 2 of one
    (
        ALL,
        &[(CALL + R_TYPE, &[0x15]), (CALL + R_NUMBER, &[2])],
        (1, BadTarget, 296),
    ),
    // section 0
    (
        ALL,
        &[(CALL + R_TYPE, &[0x15]), (CALL + R_NUMBER, &[0])],
        (1, TargetKind, 296),
    ),
    // an absolute Local
    (
        ALL,
        &[(CALL + R_NUMBER, &[0]), (MAIN + N_TYPE, &[2])],
        (1, TargetKind, 296),
    ),
    // the slot of a Local
    (
        ALL,
        &[
            (CALL + R_TYPE, &[0x4D]),
            (CALL + R_NUMBER, &[0]),
            (MAIN + N_TYPE, &[0xE]),
        ],
        (1, TargetKind, 296),
    ),
];

static PAIRS: [Case; 23] = [
    // a second that is self-relative
    (ALL, &[(423, &[0xD])], (2, RelocKind, 408)),
    // a second of two bytes
    (ALL, &[(423, &[0xA])], (2, RelocKind, 408)),
    // a second of another type
    (ALL, &[(423, &[0x1C])], (2, BadPair, 408)),
    // two firsts
    (ALL, &[(423, &[0x5C])], (2, BadPair, 408)),
    // a second that is scattered
    (ALL, &[(419, &[0x80])], (2, BadPair, 408)),
    // a second of eight bytes
    (ALL, &[(423, &[0xE])], (2, BadPair, 408)),
    // a second at another place
    (ALL, &[(416, &[9])], (2, BadPair, 408)),
    // no second after the last
    (ALL, &[(244, &[3])], (2, BadPair, 424)),
    // a first past the end of the section, and a second in it
    (ALL, &[(408, &[0x15])], (2, BadPair, 408)),
    // both past the end of the section
    (ALL, &[(408, &[0x15]), (416, &[0x15])], (2, BadOffset, 408)),
    // and nothing is taken
    (
        ALL,
        &[(408, &[0x15]), (416, &[0x15]), (412, &[2])],
        (2, BadOffset, 408),
    ),
    // nothing is taken
    (ALL, &[(412, &[2])], (2, BadTarget, 408)),
    // nothing is the target
    (ALL, &[(420, &[2])], (2, BadTarget, 408)),
    // and an undefined symbol is taken
    (ALL, &[(420, &[2]), (412, &[1])], (2, BadTarget, 408)),
    // an undefined symbol is taken
    (ALL, &[(412, &[1])], (2, TargetKind, 408)),
    // a weak symbol is taken
    (ALL, &[(444, &[0xF, 2, 0x80])], (2, TargetKind, 408)),
    // an absolute Local is taken
    (ALL, &[(444, &[2])], (2, TargetKind, 408)),
    // an absolute Global is taken
    (ALL, &[(444, &[3])], (2, TargetKind, 408)),
    // an undefined symbol is taken, and the field meets another
    (
        ALL,
        &[(424, &[8]), (432, &[8]), (428, &[1])],
        (2, TargetKind, 424),
    ),
    // a field that meets another by a byte
    (ALL, &[(424, &[0xB]), (432, &[0xB])], (2, Overlap, 424)),
    // a field at the place of another
    (ALL, &[(424, &[8]), (432, &[8])], (2, Overlap, 424)),
    // and it folds too wide
    (
        ALL,
        &[
            (424, &[8]),
            (432, &[8]),
            (431, &[0x5C]),
            (436, &[2, 0, 0, 4]),
            (216, &[0, 0, 0, 0, 1]),
            (448, &[0, 0, 0, 0, 1]),
        ],
        (2, Overlap, 424),
    ),
    // a difference of one section that folds too wide
    (
        ALL,
        &[
            (420, &[2, 0, 0, 4]),
            (216, &[0, 0, 0, 0, 1]),
            (448, &[0, 0, 0, 0, 1]),
        ],
        (2, FoldTooWide, 408),
    ),
];

static SCATTERED: [Case; 21] = [
    // a SECTDIFF that is not scattered
    (ALL, &[(367, &[0]), (371, &[0x24])], (2, RelocKind, 364)),
    // a LOCAL_SECTDIFF that is not scattered
    (ALL, &[(367, &[0]), (371, &[0x44])], (2, RelocKind, 364)),
    // a PAIR that is not scattered
    (ALL, &[(367, &[0]), (371, &[0x14])], (2, RelocKind, 364)),
    // a SECTDIFF that is self-relative
    (ALL, &[(367, &[0xE2])], (2, RelocKind, 364)),
    // type 3
    (ALL, &[(367, &[0xA3])], (2, RelocKind, 364)),
    // a PAIR of two bytes
    (ALL, &[(375, &[0x91])], (2, RelocKind, 364)),
    // a PAIR that is self-relative
    (ALL, &[(375, &[0xE1])], (2, RelocKind, 364)),
    // a PAIR alone that is self-relative
    (ALL, &[(367, &[0xE1])], (2, RelocKind, 364)),
    // a PAIR alone of two bytes
    (ALL, &[(367, &[0x91])], (2, RelocKind, 364)),
    // two SECTDIFFs
    (ALL, &[(375, &[0xA2])], (2, BadPair, 364)),
    // a PAIR that is not scattered after the SECTDIFF
    (ALL, &[(375, &[0x21])], (2, BadPair, 364)),
    // no PAIR after the last
    (ALL, &[(204, &[1])], (2, BadPair, 364)),
    // a PAIR alone
    (ALL, &[(367, &[0xA1])], (2, BadPair, 364)),
    // a PAIR after an entry that takes none
    (ALL, &[(367, &[0xA0])], (2, BadPair, 372)),
    // two SECTDIFFs, and a field past the end of the section
    (ALL, &[(375, &[0xA2]), (364, &[5])], (2, BadPair, 364)),
    // a field past the end of the section
    (ALL, &[(364, &[5])], (2, BadOffset, 364)),
    // and an address past the end of all sections
    (ALL, &[(364, &[5]), (368, &[0x29])], (2, BadOffset, 364)),
    // an address past the end of all sections
    (ALL, &[(368, &[0x29])], (2, BadTarget, 364)),
    // such an address is taken
    (ALL, &[(376, &[0x29])], (2, BadTarget, 364)),
    // a second field at the place of the first, to such an address
    (
        ALL,
        &[(367, &[0xA0]), (372, &[4]), (375, &[0xA0]), (376, &[0x29])],
        (2, BadTarget, 372),
    ),
    // a second field at the place of the first
    (
        ALL,
        &[(367, &[0xA0]), (372, &[4]), (375, &[0xA0])],
        (2, Overlap, 372),
    ),
];

/// The conditions on the entry of `CALLED`, in their order.
pub(super) fn faults() -> &'static [Case] {
    &FAULTS
}

/// Those on the pairs of `DIFFERENCE`.
pub(super) fn pairs() -> &'static [Case] {
    &PAIRS
}

/// Those on the pair of `FOLDED`.
pub(super) fn scattered() -> &'static [Case] {
    &SCATTERED
}
