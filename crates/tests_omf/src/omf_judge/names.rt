//! Threads, and what fixups name.
use super::Judged;
use oc_base::Code;

/// Each condition alone, and two where the earlier one is reported.
static NAMES: [Judged; 26] = [
    // whole: of frames and targets of each kind
    (
        &[
            0xA0, 0x20, 0, 1, 0, 0, 0, 1, 2, 3, 4, 5, 6, 7, 8, 9, 0x0A, 0x0B, 0x0C, 0x0D, 0x0E,
            0x0F, 0x10, 0x11, 0x12, 0x13, 0x14, 0x15, 0x16, 0x17, 0x18, 0x19, 0x1A, 0x1B, 0, 0x9C,
            0x21, 0, 0xE4, 0, 0x16, 1, 1, 0xE4, 4, 0x14, 1, 1, 0xE4, 8, 0x56, 1, 0xE4, 0x0C, 0x44,
            1, 0xE4, 0x10, 0x26, 1, 3, 0xE4, 0x14, 6, 1, 2, 0xA4, 0x18, 0x34, 2, 0,
        ],
        false,
        None,
    ),
    // displacements of two and four bytes
    (
        &[
            0xA0, 0x14, 0, 1, 0, 0, 0, 1, 2, 3, 4, 5, 6, 7, 8, 9, 0x0A, 0x0B, 0x0C, 0x0D, 0x0E,
            0x0F, 0, 0x9C, 8, 0, 0xE4, 0, 0x12, 1, 1, 9, 0, 0, 0x9D, 0x0A, 0, 0xE4, 4, 0x12, 1, 1,
            0x70, 0x11, 1, 0, 0,
        ],
        false,
        None,
    ),
    // a thread of a target that is not there
    (
        &[0x9C, 3, 0, 1, 3, 0],
        false,
        Some((10, Code::BadTarget, 92)),
    ),
    // a thread of a frame that does not exist, after one of a frame that does
    (
        &[0x9C, 5, 0, 0x44, 2, 0x44, 3, 0],
        false,
        Some((10, Code::BadTarget, 94)),
    ),
    // a thread of an external that is not there, and a fixup of another type
    (
        &[
            0xA0, 0x14, 0, 1, 0, 0, 0, 1, 2, 3, 4, 5, 6, 7, 8, 9, 0x0A, 0x0B, 0x0C, 0x0D, 0x0E,
            0x0F, 0, 0x9C, 8, 0, 8, 4, 0xC4, 0, 0x16, 1, 1, 0,
        ],
        false,
        Some((11, Code::BadTarget, 115)),
    ),
    // another type
    (
        &[
            0xA0, 0x14, 0, 1, 0, 0, 0, 1, 2, 3, 4, 5, 6, 7, 8, 9, 0x0A, 0x0B, 0x0C, 0x0D, 0x0E,
            0x0F, 0, 0x9C, 0x0B, 0, 0xE4, 0, 0x16, 1, 1, 0xC4, 4, 0x16, 1, 1, 0,
        ],
        false,
        Some((11, Code::RelocKind, 120)),
    ),
    // another type, and past the data
    (
        &[
            0xA0, 0x14, 0, 1, 0, 0, 0, 1, 2, 3, 4, 5, 6, 7, 8, 9, 0x0A, 0x0B, 0x0C, 0x0D, 0x0E,
            0x0F, 0, 0x9C, 6, 0, 0xC4, 0x0D, 0x16, 1, 1, 0,
        ],
        false,
        Some((11, Code::RelocKind, 115)),
    ),
    // at the end of the data, and past it
    (
        &[
            0xA0, 0x14, 0, 1, 0, 0, 0, 1, 2, 3, 4, 5, 6, 7, 8, 9, 0x0A, 0x0B, 0x0C, 0x0D, 0x0E,
            0x0F, 0, 0x9C, 0x0B, 0, 0xE4, 0x0C, 0x16, 1, 1, 0xE4, 0x0D, 0x16, 1, 1, 0,
        ],
        false,
        Some((11, Code::BadOffset, 120)),
    ),
    // past the data, and a target that is not there
    (
        &[
            0xA0, 0x14, 0, 1, 0, 0, 0, 1, 2, 3, 4, 5, 6, 7, 8, 9, 0x0A, 0x0B, 0x0C, 0x0D, 0x0E,
            0x0F, 0, 0x9C, 6, 0, 0xE5, 0x2C, 0x16, 1, 9, 0,
        ],
        false,
        Some((11, Code::BadOffset, 115)),
    ),
    // after no data
    (
        &[0x9C, 6, 0, 0xE4, 0, 0x16, 1, 1, 0],
        false,
        Some((10, Code::BadOffset, 92)),
    ),
    // a target that is not there
    (
        &[
            0xA0, 0x14, 0, 1, 0, 0, 0, 1, 2, 3, 4, 5, 6, 7, 8, 9, 0x0A, 0x0B, 0x0C, 0x0D, 0x0E,
            0x0F, 0, 0x9C, 6, 0, 0xE4, 0, 0x16, 1, 4, 0,
        ],
        false,
        Some((11, Code::BadTarget, 115)),
    ),
    // a segment of index 0 as a target
    (
        &[
            0xA0, 0x14, 0, 1, 0, 0, 0, 1, 2, 3, 4, 5, 6, 7, 8, 9, 0x0A, 0x0B, 0x0C, 0x0D, 0x0E,
            0x0F, 0, 0x9C, 6, 0, 0xE4, 0, 0x14, 1, 0, 0,
        ],
        false,
        Some((11, Code::BadTarget, 115)),
    ),
    // a frame that is not there
    (
        &[
            0xA0, 0x14, 0, 1, 0, 0, 0, 1, 2, 3, 4, 5, 6, 7, 8, 9, 0x0A, 0x0B, 0x0C, 0x0D, 0x0E,
            0x0F, 0, 0x9C, 6, 0, 0xE4, 0, 0x16, 3, 1, 0,
        ],
        false,
        Some((11, Code::BadTarget, 115)),
    ),
    // a target by a thread that is not in force
    (
        &[
            0xA0, 0x14, 0, 1, 0, 0, 0, 1, 2, 3, 4, 5, 6, 7, 8, 9, 0x0A, 0x0B, 0x0C, 0x0D, 0x0E,
            0x0F, 0, 0x9C, 7, 0, 9, 1, 0xE4, 0, 0x1E, 1, 0,
        ],
        false,
        Some((11, Code::BadTarget, 117)),
    ),
    // a frame by a thread that is only in force for targets
    (
        &[
            0xA0, 0x14, 0, 1, 0, 0, 0, 1, 2, 3, 4, 5, 6, 7, 8, 9, 0x0A, 0x0B, 0x0C, 0x0D, 0x0E,
            0x0F, 0, 0x9C, 7, 0, 9, 1, 0xE4, 0, 0x96, 1, 0,
        ],
        false,
        Some((11, Code::BadTarget, 117)),
    ),
    // a frame by thread 5
    (
        &[
            0xA0, 0x14, 0, 1, 0, 0, 0, 1, 2, 3, 4, 5, 6, 7, 8, 9, 0x0A, 0x0B, 0x0C, 0x0D, 0x0E,
            0x0F, 0, 0x9C, 7, 0, 0x45, 1, 0xE4, 0, 0xD6, 1, 0,
        ],
        false,
        Some((11, Code::BadTarget, 117)),
    ),
    // an external that comes only later
    (
        &[
            0xA0, 0x14, 0, 1, 0, 0, 0, 1, 2, 3, 4, 5, 6, 7, 8, 9, 0x0A, 0x0B, 0x0C, 0x0D, 0x0E,
            0x0F, 0, 0x9C, 6, 0, 0xE4, 0, 0x16, 1, 4, 0, 0x8C, 4, 0, 1, 0x79, 0, 0,
        ],
        false,
        Some((11, Code::BadTarget, 115)),
    ),
    // a frame that is not there, and a target that is a group
    (
        &[
            0xA0, 0x14, 0, 1, 0, 0, 0, 1, 2, 3, 4, 5, 6, 7, 8, 9, 0x0A, 0x0B, 0x0C, 0x0D, 0x0E,
            0x0F, 0, 0x9C, 6, 0, 0xE4, 0, 5, 9, 1, 0,
        ],
        false,
        Some((11, Code::BadTarget, 115)),
    ),
    // a group as a target
    (
        &[
            0xA0, 0x14, 0, 1, 0, 0, 0, 1, 2, 3, 4, 5, 6, 7, 8, 9, 0x0A, 0x0B, 0x0C, 0x0D, 0x0E,
            0x0F, 0, 0x9C, 6, 0, 0xE4, 0, 0x15, 1, 1, 0,
        ],
        false,
        Some((11, Code::TargetKind, 115)),
    ),
    // a frame number as a target
    (
        &[
            0xA0, 0x14, 0, 1, 0, 0, 0, 1, 2, 3, 4, 5, 6, 7, 8, 9, 0x0A, 0x0B, 0x0C, 0x0D, 0x0E,
            0x0F, 0, 0x9C, 6, 0, 0xE4, 0, 0x17, 1, 1, 0,
        ],
        false,
        Some((11, Code::TargetKind, 115)),
    ),
    // a group that is not FLAT as a frame
    (
        &[
            0xA0, 0x14, 0, 1, 0, 0, 0, 1, 2, 3, 4, 5, 6, 7, 8, 9, 0x0A, 0x0B, 0x0C, 0x0D, 0x0E,
            0x0F, 0, 0x9C, 6, 0, 0xE4, 0, 0x16, 2, 1, 0,
        ],
        false,
        Some((11, Code::TargetKind, 115)),
    ),
    // another segment as a frame
    (
        &[
            0xA0, 0x14, 0, 1, 0, 0, 0, 1, 2, 3, 4, 5, 6, 7, 8, 9, 0x0A, 0x0B, 0x0C, 0x0D, 0x0E,
            0x0F, 0, 0x9C, 6, 0, 0xE4, 0, 4, 2, 1, 0,
        ],
        false,
        Some((11, Code::TargetKind, 115)),
    ),
    // another external as a frame
    (
        &[
            0xA0, 0x14, 0, 1, 0, 0, 0, 1, 2, 3, 4, 5, 6, 7, 8, 9, 0x0A, 0x0B, 0x0C, 0x0D, 0x0E,
            0x0F, 0, 0x9C, 6, 0, 0xE4, 0, 0x26, 1, 2, 0,
        ],
        false,
        Some((11, Code::TargetKind, 115)),
    ),
    // the segment of the data as the frame of an external
    (
        &[
            0xA0, 0x14, 0, 1, 0, 0, 0, 1, 2, 3, 4, 5, 6, 7, 8, 9, 0x0A, 0x0B, 0x0C, 0x0D, 0x0E,
            0x0F, 0, 0x9C, 5, 0, 0xE4, 0, 0x46, 1, 0,
        ],
        false,
        Some((11, Code::TargetKind, 115)),
    ),
    // a self-relative fixup to a group
    (
        &[
            0xA0, 0x14, 0, 1, 0, 0, 0, 1, 2, 3, 4, 5, 6, 7, 8, 9, 0x0A, 0x0B, 0x0C, 0x0D, 0x0E,
            0x0F, 0, 0x9C, 6, 0, 0xA4, 0, 0x15, 1, 1, 0,
        ],
        false,
        Some((11, Code::TargetKind, 115)),
    ),
    // a frame that is not the target, and fields that meet
    (
        &[
            0xA0, 0x14, 0, 1, 0, 0, 0, 1, 2, 3, 4, 5, 6, 7, 8, 9, 0x0A, 0x0B, 0x0C, 0x0D, 0x0E,
            0x0F, 0, 0x9C, 0x0B, 0, 0xE4, 0, 0x16, 1, 1, 0xE4, 3, 4, 2, 1, 0,
        ],
        false,
        Some((11, Code::TargetKind, 120)),
    ),
];

/// The cases.
pub(crate) fn cases() -> &'static [Judged] {
    &NAMES
}
