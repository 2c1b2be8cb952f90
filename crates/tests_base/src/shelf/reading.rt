//! Worked cases at the borders, worked out by hand.

use oc_shelf::{Bitmap, PlacedEntry, Rows, Spans, sort_by_place, text_at};
use std::test::Fail;

/// Tables of entries of 10 bytes from 20 on, in a file of 50 bytes, and numbers that lie.
#[test]
fn tables_at_the_end_of_a_file(rt: HostRuntime) -> Result<(), Fail> {
    let cases = [
        (20, 10, 3, true),
        (20, 10, 4, false),
        (50, 10, 0, true),
        (51, 10, 0, false),
        (0, u64::MAX, 2, false),
        (u64::MAX, 1, 1, false),
    ];
    for (at, size, count, want) in cases {
        let table = Rows { at, size, count };
        assert_eq!(rt;
            table.lies_in(50),
            want,
            "{count} entries of {size} at {at}"
        );
    }
    Ok(())
}

/// A text may begin within another, and ends in the bytes.
#[test]
fn texts_at_their_borders(rt: HostRuntime) -> Result<(), Fail> {
    let cases: [(usize, usize, Option<&[u8]>); 6] = [
        (1, 4, Some(b"main")),
        (1, 3, None),
        (2, 4, Some(b"ain")),
        (5, 0, Some(b"")),
        (6, 4, None),
        (usize::MAX, 4, None),
    ];
    for (at, most, want) in cases {
        assert_eq!(rt; text_at(b"\0main\0x", at, most), want, "at {at}");
    }
    Ok(())
}

/// Spans that come in no order: those that touch do not meet.
#[test]
fn spans_in_any_order(rt: HostRuntime) -> Result<(), Fail> {
    let mut spans = Spans::new(rt.alloc());
    let cases = [
        (8, 12, false),
        (0, 4, false),
        (4, 8, false),
        (11, 13, true),
        (3, 5, true),
        (12, 13, false),
        (0, 20, true),
    ];
    for (begin, end, want) in cases {
        let met = spans.is_met(begin, end);
        assert_eq!(rt; met, want, "from {begin} to {end}");
        if !met {
            spans.take(begin, end)?;
        }
    }
    Ok(())
}

/// Bytes that are taken in no order, on both sides of a word's end: those that touch do not meet.
#[test]
fn bytes_in_any_order(rt: HostRuntime) -> Result<(), Fail> {
    let mut bytes = Bitmap::new(rt.alloc(), 130)?;
    let cases = [
        (60, 68, false),
        (68, 72, false),
        (56, 60, false),
        (63, 64, true),
        (64, 65, true),
        (71, 79, true),
        (72, 73, false),
        (122, 130, false),
        (129, 130, true),
        (0, 56, false),
        (0, 1, true),
        (73, 122, false),
    ];
    for case in cases {
        let (begin, end, want) = case;
        let met = bytes.is_met(begin, end);
        assert_eq!(rt; met, want, "from {begin} to {end}");
        if !met && end <= 130 {
            bytes.take(begin, end);
        }
    }
    Ok(())
}

/// By place, and at one place by number.
#[test]
fn entries_by_their_places(rt: HostRuntime) -> Result<(), Fail> {
    let mut entries = Vec::new(rt.alloc());
    for (index, place) in [(0, 9), (1, 3), (2, 9), (3, 0)] {
        entries.push(PlacedEntry { place, index })?;
    }
    sort_by_place(&mut entries);
    for (entry, want) in entries.iter().zip([3, 1, 0, 2]) {
        assert_eq!(rt; entry.index, want);
    }
    Ok(())
}
