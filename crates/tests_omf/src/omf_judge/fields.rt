//! Fields that meet, and data that are iterated or not kept.
use super::Judged;
use oc_base::Code;

/// Each condition alone, and two where the earlier one is reported.
static FIELDS: [Judged; 21] = [
    // fields that meet
    (
        &[
            0xA0, 0x14, 0, 1, 0, 0, 0, 1, 2, 3, 4, 5, 6, 7, 8, 9, 0x0A, 0x0B, 0x0C, 0x0D, 0x0E,
            0x0F, 0, 0x9C, 0x0B, 0, 0xE4, 0, 0x16, 1, 1, 0xE4, 3, 0x16, 1, 1, 0,
        ],
        false,
        Some((11, Code::Overlap, 120)),
    ),
    // fields that meet the next
    (
        &[
            0xA0, 0x14, 0, 1, 0, 0, 0, 1, 2, 3, 4, 5, 6, 7, 8, 9, 0x0A, 0x0B, 0x0C, 0x0D, 0x0E,
            0x0F, 0, 0x9C, 0x0B, 0, 0xE4, 8, 0x16, 1, 1, 0xE4, 5, 0x16, 1, 1, 0,
        ],
        false,
        Some((11, Code::Overlap, 120)),
    ),
    // one field twice, in two records
    (
        &[
            0xA0, 0x14, 0, 1, 0, 0, 0, 1, 2, 3, 4, 5, 6, 7, 8, 9, 0x0A, 0x0B, 0x0C, 0x0D, 0x0E,
            0x0F, 0, 0x9C, 6, 0, 0xE4, 0, 0x16, 1, 1, 0, 0x9C, 6, 0, 0xE4, 0, 0x14, 1, 1, 0,
        ],
        false,
        Some((12, Code::Overlap, 124)),
    ),
    // fields at one offset of two segments
    (
        &[
            0xA0, 0x14, 0, 1, 0, 0, 0, 1, 2, 3, 4, 5, 6, 7, 8, 9, 0x0A, 0x0B, 0x0C, 0x0D, 0x0E,
            0x0F, 0, 0x9C, 6, 0, 0xE4, 0, 0x16, 1, 1, 0, 0xA0, 0x0C, 0, 2, 0, 0, 0, 1, 2, 3, 4, 5,
            6, 7, 0, 0x9C, 6, 0, 0xE4, 0, 0x16, 1, 1, 0,
        ],
        true,
        None,
    ),
    // fields next to each other, in no order
    (
        &[
            0xA0, 0x14, 0, 1, 0, 0, 0, 1, 2, 3, 4, 5, 6, 7, 8, 9, 0x0A, 0x0B, 0x0C, 0x0D, 0x0E,
            0x0F, 0, 0x9C, 0x15, 0, 0xE4, 8, 0x16, 1, 1, 0xE4, 0, 0x16, 1, 1, 0xE4, 4, 0x16, 1, 1,
            0xE4, 0x0C, 0x16, 1, 1, 0,
        ],
        false,
        None,
    ),
    // fields that meet, and one that is cut
    (
        &[
            0xA0, 0x14, 0, 1, 0, 0, 0, 1, 2, 3, 4, 5, 6, 7, 8, 9, 0x0A, 0x0B, 0x0C, 0x0D, 0x0E,
            0x0F, 0, 0x9C, 0x0C, 0, 0xE4, 0, 0x16, 1, 1, 0xE4, 1, 0x16, 1, 1, 0xE4, 0,
        ],
        false,
        Some((11, Code::Overlap, 120)),
    ),
    // a fixup that is cut
    (
        &[
            0xA0, 0x14, 0, 1, 0, 0, 0, 1, 2, 3, 4, 5, 6, 7, 8, 9, 0x0A, 0x0B, 0x0C, 0x0D, 0x0E,
            0x0F, 0, 0x9C, 0x0A, 0, 0xE4, 0, 0x16, 1, 1, 0xE4, 4, 0x16, 1, 0,
        ],
        false,
        Some((11, Code::BadTable, 120)),
    ),
    // a thread that is cut
    (
        &[0x9C, 4, 0, 0x44, 1, 0x44, 0],
        false,
        Some((10, Code::BadTable, 94)),
    ),
    // another type, in a section that is not kept
    (
        &[
            0xA0, 0x0C, 0, 2, 0, 0, 0, 1, 2, 3, 4, 5, 6, 7, 0, 0x9C, 6, 0, 0xC4, 0, 0x16, 1, 1, 0,
        ],
        false,
        None,
    ),
    // the same, where it is kept
    (
        &[
            0xA0, 0x0C, 0, 2, 0, 0, 0, 1, 2, 3, 4, 5, 6, 7, 0, 0x9C, 6, 0, 0xC4, 0, 0x16, 1, 1, 0,
        ],
        true,
        Some((11, Code::RelocKind, 107)),
    ),
    // a thread after data that are not kept
    (
        &[
            0xA0, 0x0C, 0, 2, 0, 0, 0, 1, 2, 3, 4, 5, 6, 7, 0, 0x9C, 8, 0, 0xC4, 0, 0x16, 1, 1,
            0x40, 3, 0,
        ],
        false,
        Some((11, Code::BadTarget, 112)),
    ),
    // a fixup that is cut after data that are not kept
    (
        &[
            0xA0, 0x0C, 0, 2, 0, 0, 0, 1, 2, 3, 4, 5, 6, 7, 0, 0x9C, 7, 0, 0xC4, 0, 0x16, 1, 1,
            0xE4, 0,
        ],
        false,
        Some((11, Code::BadTable, 112)),
    ),
    // threads that an earlier record sets
    (
        &[
            0x9C, 5, 0, 0x46, 1, 0x0B, 1, 0, 0xA0, 0x14, 0, 1, 0, 0, 0, 1, 2, 3, 4, 5, 6, 7, 8, 9,
            0x0A, 0x0B, 0x0C, 0x0D, 0x0E, 0x0F, 0, 0x9C, 8, 0, 0xE4, 0, 0xAF, 0xE4, 4, 0xA6, 1, 0,
        ],
        false,
        None,
    ),
    // a thread that is set again
    (
        &[
            0x9C, 5, 0, 0x46, 1, 0x0B, 1, 0, 0xA0, 0x14, 0, 1, 0, 0, 0, 1, 2, 3, 4, 5, 6, 7, 8, 9,
            0x0A, 0x0B, 0x0C, 0x0D, 0x0E, 0x0F, 0, 0x9C, 9, 0, 0xE4, 0, 0xAF, 0x42, 2, 0xE4, 4,
            0xAF, 0,
        ],
        false,
        Some((12, Code::TargetKind, 128)),
    ),
    // a thread of a frame is none of a target
    (
        &[
            0x9C, 5, 0, 0x41, 1, 1, 2, 0, 0xA0, 0x14, 0, 1, 0, 0, 0, 1, 2, 3, 4, 5, 6, 7, 8, 9,
            0x0A, 0x0B, 0x0C, 0x0D, 0x0E, 0x0F, 0, 0x9C, 5, 0, 0xE4, 0, 0x94, 1, 0,
        ],
        false,
        None,
    ),
    // iterated data
    (
        &[
            0xA2, 0x0F, 0, 1, 0, 0, 2, 0, 0, 0, 6, 1, 2, 3, 4, 5, 6, 0, 0x9C, 6, 0, 0xE4, 5, 0x16,
            1, 1, 0,
        ],
        false,
        None,
    ),
    // iterated data, and a field over a count
    (
        &[
            0xA2, 0x0F, 0, 1, 0, 0, 2, 0, 0, 0, 6, 1, 2, 3, 4, 5, 6, 0, 0x9C, 6, 0, 0xE4, 4, 0x16,
            1, 1, 0,
        ],
        false,
        Some((11, Code::BadOffset, 110)),
    ),
    // iterated data, and two fields that meet
    (
        &[
            0xA2, 0x0F, 0, 1, 0, 0, 2, 0, 0, 0, 6, 1, 2, 3, 4, 5, 6, 0, 0x9C, 0x0B, 0, 0xE4, 7,
            0x16, 1, 1, 0xE4, 5, 0x16, 1, 1, 0,
        ],
        false,
        Some((11, Code::Overlap, 115)),
    ),
    // bytes that are repeated 0 times, again and again
    (
        &[
            0xA2, 0x0F, 0, 1, 0, 0, 0, 0, 0, 0, 6, 1, 2, 3, 4, 5, 6, 0, 0x9C, 0x15, 0, 0xE4, 5,
            0x16, 1, 1, 0xE4, 5, 0x16, 1, 1, 0xE4, 7, 0x16, 1, 1, 0xE4, 5, 0x16, 1, 1, 0,
        ],
        false,
        None,
    ),
    // the same, and a target that is not there
    (
        &[
            0xA2, 0x0F, 0, 1, 0, 0, 0, 0, 0, 0, 6, 1, 2, 3, 4, 5, 6, 0, 0x9C, 0x0B, 0, 0xE4, 5,
            0x16, 1, 1, 0xE4, 5, 0x16, 1, 4, 0,
        ],
        false,
        Some((11, Code::BadTarget, 115)),
    ),
    // bytes that are repeated 0 times, and others after them
    (
        &[
            0xA2, 0x0F, 0, 1, 0, 0, 0, 0, 0, 0, 6, 1, 2, 3, 4, 5, 6, 0, 0x9C, 6, 0, 0xE4, 5, 0x16,
            1, 1, 0, 0xA0, 0x14, 0, 1, 0, 0, 0, 1, 2, 3, 4, 5, 6, 7, 8, 9, 0x0A, 0x0B, 0x0C, 0x0D,
            0x0E, 0x0F, 0, 0x9C, 0x0B, 0, 0xE4, 5, 0x16, 1, 1, 0xE4, 5, 0x16, 1, 1, 0,
        ],
        false,
        Some((13, Code::Overlap, 147)),
    ),
];

/// The cases.
pub(crate) fn cases() -> &'static [Judged] {
    &FIELDS
}
