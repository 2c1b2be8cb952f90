//! Bytes put together by hand from TIS OMF 1.1, with the answers that it gives.

use oc_base::View;
use oc_omf_records::{BadIndex, Block, BlockFault, CopyFault, RecordFault, Records, index};
use std::alloc::{AllocError, Global};
use std::process::Abort;
use std::test::Fail;

/// A module of two entries: THEADR with the name `a`, and MODEND. Both checksums are true.
const MODULE: [u8; 11] = [
    0x80, 0x03, 0x00, 0x01, 0x61, 0x1B, 0x8A, 0x02, 0x00, 0x00, 0x74,
];

/// The blocks of the fixup to ELF: three times twice four bytes, with repeat counts of four bytes.
/// The content lies at place 13.
const THREE_OF_TWO: [u8; 17] = [3, 0, 0, 0, 1, 0, 2, 0, 0, 0, 0, 0, 4, 7, 8, 9, 10];

/// The content of those blocks, six times.
const SIX_TIMES: [u8; 24] = [
    7, 8, 9, 10, 7, 8, 9, 10, 7, 8, 9, 10, 7, 8, 9, 10, 7, 8, 9, 10, 7, 8, 9, 10,
];

/// The block of the lying repeat count: 0xFFFFFFFF times one byte.
const LYING_COUNT: [u8; 8] = [0xFF, 0xFF, 0xFF, 0xFF, 0, 0, 1, 0];

/// A block 0 times, which holds four levels of 0xFFFFFFFF times. The content lies at place 31.
const NO_TIME: [u8; 35] = [
    0, 0, 0, 0, 1, 0, 0xFF, 0xFF, 0xFF, 0xFF, 1, 0, 0xFF, 0xFF, 0xFF, 0xFF, 1, 0, 0xFF, 0xFF, 0xFF,
    0xFF, 1, 0, 0xFF, 0xFF, 0xFF, 0xFF, 0, 0, 4, 7, 8, 9, 10,
];

/// What is repeated 0 times in those blocks.
const MANY_TIMES: [u8; 29] = [
    0xFF, 0xFF, 0xFF, 0xFF, 1, 0, 0xFF, 0xFF, 0xFF, 0xFF, 1, 0, 0xFF, 0xFF, 0xFF, 0xFF, 1, 0, 0xFF,
    0xFF, 0xFF, 0xFF, 0, 0, 4, 7, 8, 9, 10,
];

/// 0xFFFFFFFF times 0xFFFFFFFF times a content that is repeated 0 times.
const OVER_NO_TIME: [u8; 23] = [
    0xFF, 0xFF, 0xFF, 0xFF, 1, 0, 0xFF, 0xFF, 0xFF, 0xFF, 1, 0, 0, 0, 0, 0, 0, 0, 4, 7, 8, 9, 10,
];

/// Twice a row of two contents, `ab` and three times `c`, and after it `d`, with repeat counts of
/// two bytes.
const ROWS: [u8; 23] = [
    2, 0, 2, 0, 1, 0, 0, 0, 2, 0x61, 0x62, 3, 0, 0, 0, 1, 0x63, 1, 0, 0, 0, 1, 0x64,
];

/// 0 times a row of `7 8 9 10` and three times `x`. The content lies at place 9.
const FIRST_NO_TIME: [u8; 19] = [0, 0, 2, 0, 1, 0, 0, 0, 4, 7, 8, 9, 10, 3, 0, 0, 0, 1, 0x78];

/// That row once.
const FIRST_ONCE: [u8; 19] = [1, 0, 2, 0, 1, 0, 0, 0, 4, 7, 8, 9, 10, 3, 0, 0, 0, 1, 0x78];

/// That row twice.
const FIRST_TWICE: [u8; 19] = [2, 0, 2, 0, 1, 0, 0, 0, 4, 7, 8, 9, 10, 3, 0, 0, 0, 1, 0x78];

/// 0 times a row of three times `x` and `7 8 9 10`. The content lies at place 15.
const LAST_NO_TIME: [u8; 19] = [0, 0, 2, 0, 3, 0, 0, 0, 1, 0x78, 1, 0, 0, 0, 4, 7, 8, 9, 10];

/// That row once.
const LAST_ONCE: [u8; 19] = [1, 0, 2, 0, 3, 0, 0, 0, 1, 0x78, 1, 0, 0, 0, 4, 7, 8, 9, 10];

/// That row twice.
const LAST_TWICE: [u8; 19] = [2, 0, 2, 0, 3, 0, 0, 0, 1, 0x78, 1, 0, 0, 0, 4, 7, 8, 9, 10];

/// Twice a row of a block and `y`; in the block once `7 8 9 10` and three times `x`. The content
/// lies at place 13.
const ONCE_IN_TWICE: [u8; 29] = [
    2, 0, 2, 0, 1, 0, 2, 0, 1, 0, 0, 0, 4, 7, 8, 9, 10, 3, 0, 0, 0, 1, 0x78, 1, 0, 0, 0, 1, 0x79,
];

/// Twice a row of `y` and a block; in the block twice `x` and `7 8 9 10`. The content lies at place
/// 25.
const TWICE_IN_TWICE: [u8; 29] = [
    2, 0, 2, 0, 1, 0, 0, 0, 1, 0x79, 2, 0, 2, 0, 1, 0, 0, 0, 1, 0x78, 1, 0, 0, 0, 4, 7, 8, 9, 10,
];

/// 0 times `7 8 9 10`, and after it `y`. The content lies at place 5.
const NOT_THERE: [u8; 15] = [0, 0, 0, 0, 4, 7, 8, 9, 10, 1, 0, 0, 0, 1, 0x79];

/// One byte in so many levels of blocks, each there once.
fn in_levels(alloc: Global, levels: u32) -> Result<Vec<u8>, AllocError> {
    let mut bytes = Vec::new(alloc);
    for _ in 1..levels {
        bytes.extend_from_slice(&[1, 0, 1, 0])?;
    }
    bytes.extend_from_slice(&[1, 0, 0, 0, 1, 0x61])?;
    Ok(bytes)
}

/// The kind, the place and the contents of an entry, or that there is none.
type Answer = Result<Option<(u8, u64, &'static [u8])>, RecordFault>;

/// The first entry of the module.
const NAMED: Answer = Ok(Some((0x80, 0, &[1, 0x61])));

/// What is refused is not passed.
const TRUNCATED: [Answer; 2] = [Err(RecordFault::Truncated); 2];

/// Modules with the answers of one call after the other.
const ENTRIES: [(&[u8], &[Answer]); 10] = [
    (
        &MODULE,
        &[NAMED, Ok(Some((0x8A, 6, &[0]))), Ok(None), Ok(None)],
    ),
    (&[0x80, 0x03, 0x00, 0x01, 0x61, 0x00], &[NAMED, Ok(None)]),
    (
        &[0x80, 0x03, 0x00, 0x01, 0x61, 0x1C],
        &[Err(RecordFault::BadChecksum); 2],
    ),
    (
        &[0x80, 0x03, 0x00, 0x01, 0x61, 0xFF],
        &[Err(RecordFault::BadChecksum); 2],
    ),
    (&[0x80], &TRUNCATED),
    (&[0x80, 0x03], &TRUNCATED),
    (&[0x80, 0x03, 0x00], &TRUNCATED),
    (&[0x80, 0x03, 0x00, 0x01], &TRUNCATED),
    (&[0x80, 0x03, 0x00, 0x01, 0x61], &TRUNCATED),
    // The length leaves no room for a checksum.
    (&[0x88, 0, 0, 0, 0, 0], &TRUNCATED),
];

/// Expects these answers.
fn check_entries(rt: &impl Abort, module: &[u8], wants: &[Answer]) {
    let mut records = Records::new(View::new(module));
    for want in wants {
        let got = match records.next() {
            Ok(Some(entry)) => Ok(Some((entry.kind, entry.place, entry.contents.bytes()))),
            Ok(None) => Ok(None),
            Err(fault) => Err(fault),
        };
        assert_eq!(rt; got, *want, "{module:?}");
    }
}

#[test]
fn entries_in_order(rt: HostRuntime) {
    for (module, wants) in &ENTRIES {
        check_entries(&rt, module, wants);
    }
}

#[test]
fn indexes_of_one_and_two_bytes(rt: HostRuntime) {
    let view = View::new(&[0x00, 0x7F, 0x80, 0x05, 0xFF, 0xFF, 0x81]);
    let cases = [
        (0, Ok((0, 1))),
        (1, Ok((0x7F, 2))),
        (2, Ok((5, 4))),
        (4, Ok((0x7FFF, 6))),
        (6, Err(BadIndex)),
        (7, Err(BadIndex)),
        (u64::MAX, Err(BadIndex)),
    ];
    for (at, want) in cases {
        assert_eq!(rt; index(&view, at), want, "at {at}");
    }
}

/// The size of what the blocks stand for.
fn size_of(alloc: Global, bytes: &[u8], wide: bool) -> Result<u64, BlockFault> {
    let block = Block::read(alloc, &View::new(bytes), wide)?;
    Ok(block.size())
}

/// Blocks, the width of their counts, and the size.
const SIZES: [(&[u8], bool, u64); 6] = [
    (&THREE_OF_TWO, true, 24),
    (&LYING_COUNT, true, 0xFFFF_FFFF),
    (&NO_TIME, true, 0),
    (&OVER_NO_TIME, true, 0),
    (&MANY_TIMES, true, 0x1_0000_0000),
    (&ROWS, false, 11),
];

#[test]
fn sizes_up_to_the_largest(rt: HostRuntime) {
    for (bytes, wide, want) in &SIZES {
        assert_eq!(rt; size_of(rt.alloc(), bytes, *wide), Ok(*want), "{bytes:?}");
    }
}

/// So many levels, cut after so many bytes: the counts of the level too many are not read.
#[test]
fn levels_up_to_32(rt: HostRuntime) -> Result<(), Fail> {
    for (levels, len, want) in [
        (32, 130, Ok(1)),
        (33, 134, Err(BlockFault::TooDeep)),
        (33, 128, Err(BlockFault::TooDeep)),
        (33, 127, Err(BlockFault::BadBlock)),
    ] {
        let bytes = in_levels(rt.alloc(), levels)?;
        let prefix = View::new(&bytes).sub(0, len)?;
        assert_eq!(rt; size_of(rt.alloc(), prefix.bytes(), false), want, "{len}");
    }
    Ok(())
}

#[test]
fn blocks_that_are_cut(rt: HostRuntime) {
    for len in 1..23 {
        let want = if len == 17 {
            Ok(10)
        } else {
            Err(BlockFault::BadBlock)
        };
        assert_eq!(rt; size_of(rt.alloc(), &ROWS[..len], false), want, "{len}");
    }
}

/// Blocks, the width of their counts, the bytes that they stand for, and a place with what becomes
/// of four bytes there.
const COPIES: [(&[u8], bool, &[u8], u32, Result<&[u32], CopyFault>); 16] = [
    (
        &THREE_OF_TWO,
        true,
        &SIX_TIMES,
        13,
        Ok(&[0, 4, 8, 12, 16, 20]),
    ),
    (
        &THREE_OF_TWO,
        true,
        &SIX_TIMES,
        12,
        Err(CopyFault::NotContent),
    ),
    (
        &THREE_OF_TWO,
        true,
        &SIX_TIMES,
        14,
        Err(CopyFault::NotContent),
    ),
    (&NO_TIME, true, &[], 31, Ok(&[])),
    (&OVER_NO_TIME, true, &[], 19, Ok(&[])),
    // No content here has four bytes.
    (&ROWS, false, b"abcccabcccd", 9, Err(CopyFault::NotContent)),
    (&FIRST_NO_TIME, false, b"", 9, Ok(&[])),
    (&FIRST_ONCE, false, b"\x07\x08\x09\x0Axxx", 9, Ok(&[0])),
    (
        &FIRST_TWICE,
        false,
        b"\x07\x08\x09\x0Axxx\x07\x08\x09\x0Axxx",
        9,
        Ok(&[0, 7]),
    ),
    (&LAST_NO_TIME, false, b"", 15, Ok(&[])),
    (&LAST_ONCE, false, b"xxx\x07\x08\x09\x0A", 15, Ok(&[3])),
    (
        &LAST_TWICE,
        false,
        b"xxx\x07\x08\x09\x0Axxx\x07\x08\x09\x0A",
        15,
        Ok(&[3, 10]),
    ),
    (
        &ONCE_IN_TWICE,
        false,
        b"\x07\x08\x09\x0Axxxy\x07\x08\x09\x0Axxxy",
        13,
        Ok(&[0, 8]),
    ),
    (
        &TWICE_IN_TWICE,
        false,
        b"yx\x07\x08\x09\x0Ax\x07\x08\x09\x0Ayx\x07\x08\x09\x0Ax\x07\x08\x09\x0A",
        25,
        Ok(&[2, 7, 13, 18]),
    ),
    (&NOT_THERE, false, b"y", 5, Ok(&[])),
    (
        &TWICE_IN_TWICE,
        false,
        b"yx\x07\x08\x09\x0Ax\x07\x08\x09\x0Ayx\x07\x08\x09\x0Ax\x07\x08\x09\x0A",
        26,
        Err(CopyFault::NotContent),
    ),
];

#[test]
fn omf_iterated_data(rt: HostRuntime) -> Result<(), Fail> {
    for (bytes, wide, expanded, at, copies) in &COPIES {
        let block = Block::read(rt.alloc(), &View::new(bytes), *wide)?;
        let size = block.size();
        assert!(rt; size <= 24);
        let whole = block.expand(rt.alloc())?;
        let places = block.copies(rt.alloc(), *at);
        let got = match &places {
            Ok(places) => Ok(places.as_slice()),
            Err(fault) => Err(*fault),
        };
        assert_eq!(rt; (whole.as_slice(), got), (*expanded, *copies), "at {at}");
    }
    Ok(())
}
