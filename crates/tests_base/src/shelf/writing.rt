//! Windows of a file of two parts and of a table.

use oc_shelf::{Layout, Parts, WritesRows, copy_window, rows_window, window_of};
use std::test::Fail;

/// Three bytes, twice.
#[derive(Drop)]
struct Twice {
    bytes: [u8; 3],
}

impl Parts for Twice {
    ghost use Rattle.std.specs.Prelude.{[], ◌∷◌};

    ghost parts = { λ t. t.bytes ∷ t.bytes ∷ [] };

    ghost sound = { λ t. Unit {0} };

    fn part_window(&self, _k: usize, from: u64, out: &mut [u8]) -> usize {
        copy_window(&self.bytes, from, out)
    }
}

/// Windows within a part, over the zeros between, and past the end: the bytes are at 0, and again at 5.
#[test]
fn windows_of_parts(rt: HostRuntime) -> Result<(), Fail> {
    let file = Twice { bytes: *b"abc" };
    let mut layout = Layout::new(rt.alloc());
    layout.lay(1, 3)?;
    layout.lay(5, 3)?;
    let cases: [(u64, [u8; 4], usize); 6] = [
        (0, *b"abc\0", 4),
        (1, *b"bc\0\0", 4),
        (3, *b"\0\0ab", 4),
        (6, *b"bc..", 2),
        (8, *b"....", 0),
        (u64::MAX, *b"....", 0),
    ];
    for (from, want, count) in cases {
        let mut out = *b"....";
        let got = window_of(&file, &layout, from, &mut out);
        assert_eq!(rt; (out, got), (want, count), "from {from}");
    }
    Ok(())
}

/// A table of two entries that are the same.
#[derive(Drop)]
struct Pair {
    row: [u8; 3],
}

impl WritesRows for Pair {
    ghost use Rattle.std.specs.Prelude.{[], ◌∷◌};

    ghost rows = { λ p. p.row ∷ p.row ∷ [] };

    fn count(&self) -> usize {
        2
    }

    fn size(&self) -> usize {
        3
    }

    fn put_row(&self, _k: usize, out: &mut [u8]) {
        out.copy_from_slice(&self.row);
    }
}

/// Windows within an entry, over two, and past the end.
#[test]
fn windows_of_a_table(rt: HostRuntime) -> Result<(), Fail> {
    let table = Pair { row: *b"abc" };
    let cases: [(u64, [u8; 4], usize); 4] = [
        (0, *b"abca", 4),
        (2, *b"cabc", 4),
        (4, *b"bc..", 2),
        (u64::MAX, *b"....", 0),
    ];
    for (from, want, count) in cases {
        let mut out = *b"....";
        let got = rows_window(&table, from, &mut out);
        assert_eq!(rt; (out, got), (want, count), "from {from}");
    }
    Ok(())
}
