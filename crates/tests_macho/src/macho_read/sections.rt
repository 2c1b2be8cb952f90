//! Faults of section headers.
use super::objects::{ADDR, ALIGN, ALL, FLAGS, MAIN, NRELOC, OFFSET, RELOFF, SEGNAME, SIZE, TEXT};
use oc_base::Code::{AlignRange, BadTable, LimitBytes, LimitSection, LimitSum, SectionKind, Short};
use tests_cases::Case;

static FAULTS: [Case; 20] = [
    // an alignment of 2^16
    (
        ALL,
        &[(TEXT + ALIGN, &[0x10])],
        (1, AlignRange, TEXT as u64),
    ),
    // an exponent whose low bits are those of 6
    (
        ALL,
        &[(TEXT + ALIGN, &[6, 0, 0, 0x80])],
        (1, AlignRange, TEXT as u64),
    ),
    // and a comma in the segment
    (
        ALL,
        &[(TEXT + ALIGN, &[0x10]), (TEXT + SEGNAME + 1, &[0x2C])],
        (1, AlignRange, TEXT as u64),
    ),
    // a comma in the segment
    (
        ALL,
        &[(TEXT + SEGNAME + 1, &[0x2C])],
        (1, SectionKind, TEXT as u64),
    ),
    // type 6
    (ALL, &[(TEXT + FLAGS, &[6])], (1, SectionKind, TEXT as u64)),
    // type 12
    (
        ALL,
        &[(TEXT + FLAGS, &[0xC])],
        (1, SectionKind, TEXT as u64),
    ),
    // and an end past the last address
    (
        ALL,
        &[
            (TEXT + FLAGS, &[6]),
            (
                TEXT + ADDR,
                &[0xFB, 0xFF, 0xFF, 0xFF, 0xFF, 0xFF, 0xFF, 0xFF],
            ),
        ],
        (1, SectionKind, TEXT as u64),
    ),
    // an end past the last address
    (
        ALL,
        &[(
            TEXT + ADDR,
            &[0xFB, 0xFF, 0xFF, 0xFF, 0xFF, 0xFF, 0xFF, 0xFF],
        )],
        (1, BadTable, TEXT as u64),
    ),
    // and bytes past the end
    (
        ALL,
        &[
            (
                TEXT + ADDR,
                &[0xFB, 0xFF, 0xFF, 0xFF, 0xFF, 0xFF, 0xFF, 0xFF],
            ),
            (TEXT + SIZE, &[0x41]),
        ],
        (1, BadTable, TEXT as u64),
    ),
    // bytes past the end
    (ALL, &[(TEXT + SIZE, &[0x41])], (1, Short, 288)),
    // bytes that begin past the end
    (ALL, &[(TEXT + OFFSET, &[0x61, 1])], (1, Short, 353)),
    // no bytes, but they begin past the end
    (
        ALL,
        &[(TEXT + OFFSET, &[0x61, 1]), (TEXT + SIZE, &[0])],
        (1, Short, 353),
    ),
    // bytes and entries past the end
    (
        ALL,
        &[(TEXT + SIZE, &[0x41]), (TEXT + NRELOC, &[8])],
        (1, Short, 288),
    ),
    // eight entries
    (ALL, &[(TEXT + NRELOC, &[8])], (1, Short, 296)),
    // entries that begin past the end
    (ALL, &[(TEXT + RELOFF, &[0x59, 1])], (1, Short, 345)),
    // no entries, but they begin past the end
    (
        ALL,
        &[(TEXT + RELOFF, &[0x61, 1]), (TEXT + NRELOC, &[0])],
        (1, Short, 353),
    ),
    // eight entries, and 2^31 zeros
    (
        ALL,
        &[
            (TEXT + NRELOC, &[8]),
            (TEXT + FLAGS, &[1]),
            (TEXT + SIZE, &[0, 0, 0, 0x80]),
        ],
        (1, Short, 296),
    ),
    // 2^31 zeros
    (
        ALL,
        &[(TEXT + FLAGS, &[1]), (TEXT + SIZE, &[0, 0, 0, 0x80])],
        (1, LimitSection, 2_147_483_648),
    ),
    // 2^31 - 1 zeros for unwinding, which are stored
    (
        ALL,
        &[
            (TEXT + FLAGS, &[1]),
            (TEXT + SIZE, &[0xFF, 0xFF, 0xFF, 0x7F]),
            (TEXT + SEGNAME, &[0x5F, 0x5F, 0x4C, 0x44, 0]),
        ],
        (1, LimitBytes, 2_147_483_647),
    ),
    // and a name past the end of the strings
    (
        ALL,
        &[
            (TEXT + FLAGS, &[1]),
            (TEXT + SIZE, &[0xFF, 0xFF, 0xFF, 0x7F]),
            (TEXT + SEGNAME, &[0x5F, 0x5F, 0x4C, 0x44, 0]),
            (MAIN, &[0x10]),
        ],
        (1, LimitBytes, 2_147_483_647),
    ),
];

static SUMS: [Case; 4] = [
    // 2^31 - 1 zeros, and 2^31
    (
        ALL,
        &[
            (168, &[1]),
            (144, &[0xFF, 0xFF, 0xFF, 0x7F]),
            (248, &[1]),
            (224, &[0, 0, 0, 0x80]),
        ],
        (2, LimitSection, 2_147_483_648),
    ),
    // 2^31 - 1 zeros, and two
    (
        ALL,
        &[
            (168, &[1]),
            (144, &[0xFF, 0xFF, 0xFF, 0x7F]),
            (248, &[1]),
            (224, &[2]),
        ],
        (2, LimitSum, 2_147_483_649),
    ),
    // 2^31 - 1 zeros, and as many for unwinding
    (
        ALL,
        &[
            (168, &[1]),
            (144, &[0xFF, 0xFF, 0xFF, 0x7F]),
            (248, &[1]),
            (224, &[0xFF, 0xFF, 0xFF, 0x7F]),
            (200, &[0x5F, 0x5F, 0x4C, 0x44, 0]),
        ],
        (2, LimitSum, 4_294_967_294),
    ),
    // 2^26 zeros for unwinding, and the bytes of the other
    (
        ALL,
        &[
            (168, &[1]),
            (144, &[0, 0, 0, 4]),
            (120, &[0x5F, 0x5F, 0x4C, 0x44, 0]),
        ],
        (2, LimitBytes, 67_108_888),
    ),
];

static FAULTS_32: [Case; 2] = [
    // an alignment of 2^16
    (ALL, &[(128, &[0x10])], (1, AlignRange, 84)),
    // an end past the last address
    (ALL, &[(116, &[0xFB, 0xFF, 0xFF, 0xFF])], (1, BadTable, 84)),
];

/// The conditions on the section of `CALLED`, in their order.
pub(super) fn faults() -> &'static [Case] {
    &FAULTS
}

/// The limits, on the sections of `DIFFERENCE`.
pub(super) fn sums() -> &'static [Case] {
    &SUMS
}

/// The conditions on the section of `CALLED32`, where they differ.
pub(super) fn faults_32() -> &'static [Case] {
    &FAULTS_32
}
