//! Worked cases, and the borders of what fits. Expected values are by hand from the check table of
//! our profile and from two's complement.

use oc_algebra::{AddendTooWide, fold_difference, from_field, reduce, to_field};
use oc_base::Word::{self, W32, W64};
use oc_linking::Check::{self, Either, Signed, Unsigned, Wrap};
use oc_linking::Width::{self, Eight, Four, One, Two};
use std::process::Abort;

/// Where not all values fit: one below the least, the least, the greatest, one above, and then the
/// fields of the least and of the greatest. In words of 32 bits 2^32 - 128 counts as -128.
const LIMITED: [(Word, Width, Check, [i64; 4], [u64; 2]); 15] = [
    (
        W32,
        One,
        Signed,
        [0xFFFF_FF7F, 0xFFFF_FF80, 127, 128],
        [0x80, 0x7F],
    ),
    (W32, One, Unsigned, [-1, 0x1_0000_0000, 255, 256], [0, 0xFF]),
    (
        W32,
        One,
        Either,
        [-129, -128, 0x1_0000_00FF, 0x1_0000_0100],
        [0x80, 0xFF],
    ),
    (
        W32,
        Two,
        Signed,
        [-32769, -32768, 0x1_0000_7FFF, 0x1_0000_8000],
        [0x8000, 0x7FFF],
    ),
    (W32, Two, Unsigned, [-1, 0, 65535, 65536], [0, 0xFFFF]),
    (
        W32,
        Two,
        Either,
        [0xFFFF_7FFF, 0xFFFF_8000, 65535, 65536],
        [0x8000, 0xFFFF],
    ),
    (W64, One, Signed, [-129, -128, 127, 128], [0x80, 0x7F]),
    (W64, One, Unsigned, [-1, 0, 255, 256], [0, 0xFF]),
    (W64, One, Either, [-129, -128, 255, 256], [0x80, 0xFF]),
    (
        W64,
        Two,
        Signed,
        [-32769, -32768, 32767, 32768],
        [0x8000, 0x7FFF],
    ),
    (W64, Two, Unsigned, [-1, 0, 65535, 65536], [0, 0xFFFF]),
    (
        W64,
        Two,
        Either,
        [-32769, -32768, 65535, 65536],
        [0x8000, 0xFFFF],
    ),
    (
        W64,
        Four,
        Signed,
        [-0x8000_0001, -0x8000_0000, 0x7FFF_FFFF, 0x8000_0000],
        [0x8000_0000, 0x7FFF_FFFF],
    ),
    (
        W64,
        Four,
        Unsigned,
        [-1, 0, 0xFFFF_FFFF, 0x1_0000_0000],
        [0, 0xFFFF_FFFF],
    ),
    (
        W64,
        Four,
        Either,
        [-0x8000_0001, -0x8000_0000, 0xFFFF_FFFF, 0x1_0000_0000],
        [0x8000_0000, 0xFFFF_FFFF],
    ),
];

/// Where all values fit: the fields of -2^63, -1 and 2^63 - 1.
const UNLIMITED: [(Word, Width, Check, [u64; 3]); 17] = [
    (W32, One, Wrap, [0, 0xFF, 0xFF]),
    (W32, Two, Wrap, [0, 0xFFFF, 0xFFFF]),
    (W32, Four, Wrap, [0, 0xFFFF_FFFF, 0xFFFF_FFFF]),
    (W32, Four, Signed, [0, 0xFFFF_FFFF, 0xFFFF_FFFF]),
    (W32, Four, Unsigned, [0, 0xFFFF_FFFF, 0xFFFF_FFFF]),
    (W32, Four, Either, [0, 0xFFFF_FFFF, 0xFFFF_FFFF]),
    (W32, Eight, Wrap, [0, 0xFFFF_FFFF, 0xFFFF_FFFF]),
    (W32, Eight, Signed, [0, 0xFFFF_FFFF, 0xFFFF_FFFF]),
    (W32, Eight, Unsigned, [0, 0xFFFF_FFFF, 0xFFFF_FFFF]),
    (W32, Eight, Either, [0, 0xFFFF_FFFF, 0xFFFF_FFFF]),
    (W64, One, Wrap, [0, 0xFF, 0xFF]),
    (W64, Two, Wrap, [0, 0xFFFF, 0xFFFF]),
    (W64, Four, Wrap, [0, 0xFFFF_FFFF, 0xFFFF_FFFF]),
    (W64, Eight, Wrap, [1 << 63, u64::MAX, u64::MAX >> 1]),
    (W64, Eight, Signed, [1 << 63, u64::MAX, u64::MAX >> 1]),
    (W64, Eight, Unsigned, [1 << 63, u64::MAX, u64::MAX >> 1]),
    (W64, Eight, Either, [1 << 63, u64::MAX, u64::MAX >> 1]),
];

/// Addends with the fields that hold them, on both sides of each border.
const WRITTEN: [(Word, Width, i64, i64, Result<u64, AddendTooWide>); 27] = [
    (W32, One, -4, 123, Ok(0x7F)),
    (W32, One, -4, 124, Err(AddendTooWide)),
    (W32, One, -4, -132, Ok(0x80)),
    (W32, One, -4, -133, Err(AddendTooWide)),
    (W32, Two, 4, 0x1_0000_8003, Ok(0x7FFF)),
    (W32, Two, 4, 0x1_0000_8004, Err(AddendTooWide)),
    (W32, Two, 4, 0xFFFF_8004, Ok(0x8000)),
    (W32, Two, 4, 0xFFFF_8003, Err(AddendTooWide)),
    (W32, Four, -4, -0x8000_0000, Ok(0x8000_0004)),
    (W32, Four, 4, -0x8000_0000, Ok(0x7FFF_FFFC)),
    (W32, Four, -4, 0x7FFF_FFFF, Ok(0x8000_0003)),
    (W32, Eight, -1, 0x7FFF_FFFF, Ok(0xFFFF_FFFF_8000_0000)),
    (W64, One, 4, 131, Ok(0x7F)),
    (W64, One, 4, 132, Err(AddendTooWide)),
    (W64, One, 4, -124, Ok(0x80)),
    (W64, One, 4, -125, Err(AddendTooWide)),
    (W64, Two, 0, 32767, Ok(0x7FFF)),
    (W64, Two, 0, 32768, Err(AddendTooWide)),
    (W64, Two, 0, -32768, Ok(0x8000)),
    (W64, Two, 0, -32769, Err(AddendTooWide)),
    (W64, Four, -4, 0x7FFF_FFFB, Ok(0x7FFF_FFFF)),
    (W64, Four, -4, 0x7FFF_FFFC, Err(AddendTooWide)),
    (W64, Four, -4, 0x7FFF_FFFD, Err(AddendTooWide)),
    (W64, Four, -4, -0x8000_0004, Ok(0x8000_0000)),
    (W64, Four, -4, -0x8000_0005, Err(AddendTooWide)),
    (W64, Eight, -4, i64::MAX, Ok(0x8000_0000_0000_0003)),
    (W64, Eight, i64::MIN, -1, Ok(0x7FFF_FFFF_FFFF_FFFF)),
];

/// Fields with the addends that they hold. Bytes above the width do not count.
const READ: [(Word, Width, i64, u64, i64); 13] = [
    (W32, One, 0, 0x17F, 127),
    (W32, One, -4, 0x80, -132),
    (W32, Two, 4, 0x7FFF, 0x8003),
    (W32, Four, -4, 0, -4),
    (W32, Four, -4, 0x8000_0000, 0x7FFF_FFFC),
    (W32, Four, 4, 0x7FFF_FFFF, -0x7FFF_FFFD),
    (W32, Eight, 0, 0x1_8000_0000, -0x8000_0000),
    (W64, One, 0, 0xFF, -1),
    (W64, Two, -4, 0x1_8000, -0x8004),
    (W64, Four, -4, 0x8000_0000, -0x8000_0004),
    (W64, Four, 4, 0x7FFF_FFFF, 0x8000_0003),
    (W64, Eight, -4, 0x8000_0000_0000_0000, 0x7FFF_FFFF_FFFF_FFFC),
    (W64, Eight, 1, 0x7FFF_FFFF_FFFF_FFFF, i64::MIN),
];

/// Numbers with their representatives.
const REDUCED: [(Word, i128, i64); 12] = [
    (W32, 0x7FFF_FFFF, 0x7FFF_FFFF),
    (W32, 0x8000_0000, -0x8000_0000),
    (W32, -0x8000_0000, -0x8000_0000),
    (W32, -0x8000_0001, 0x7FFF_FFFF),
    (W32, i128::MAX, -1),
    (W32, i128::MIN, 0),
    (W64, 0x7FFF_FFFF_FFFF_FFFF, i64::MAX),
    (W64, 0x8000_0000_0000_0000, i64::MIN),
    (W64, -0x8000_0000_0000_0000, i64::MIN),
    (W64, -0x8000_0000_0000_0001, i64::MAX),
    (W64, i128::MAX, -1),
    (W64, i128::MIN, 0),
];

// expects these answers of the values
fn check_folds(
    rt: &impl Abort,
    (word, width, check): (Word, Width, Check),
    wants: &[(i64, Result<u64, AddendTooWide>)],
) {
    for (value, want) in wants {
        let got = fold_difference(word, width, check, *value);
        assert_eq!(rt; got, *want, "{word:?} {width:?} {check:?} {value}");
    }
}

#[test]
fn borders_where_some_fit(rt: HostRuntime) {
    for (word, width, check, [below, least, greatest, above], [low, high]) in LIMITED {
        let wants = [
            (below, Err(AddendTooWide)),
            (least, Ok(low)),
            (greatest, Ok(high)),
            (above, Err(AddendTooWide)),
        ];
        check_folds(&rt, (word, width, check), &wants);
    }
}

#[test]
fn borders_where_all_fit(rt: HostRuntime) {
    for (word, width, check, [least, last, greatest]) in UNLIMITED {
        let wants = [
            (i64::MIN, Ok(least)),
            (-1, Ok(last)),
            (i64::MAX, Ok(greatest)),
        ];
        check_folds(&rt, (word, width, check), &wants);
    }
}

#[test]
fn fields_written(rt: HostRuntime) {
    for (word, width, shift, addend, want) in WRITTEN {
        let got = to_field(word, width, shift, addend);
        assert_eq!(rt; got, want, "{word:?} {width:?} {shift} {addend}");
    }
}

#[test]
fn fields_read(rt: HostRuntime) {
    for (word, width, shift, field, want) in READ {
        let got = from_field(word, width, shift, field);
        assert_eq!(rt; got, want, "{word:?} {width:?} {shift} {field}");
    }
}

#[test]
fn representatives(rt: HostRuntime) {
    for (word, n, want) in REDUCED {
        assert_eq!(rt; reduce(word, n), want, "{word:?} {n}");
    }
}
