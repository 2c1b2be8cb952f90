//! Small lists of names, with their first repeats worked out by hand.

use oc_strings::{Repeat, first_repeat};
use std::alloc::Global;
use std::process::Abort;
use std::test::Fail;

/// The first repeat of these names is this one.
fn check(rt: &impl Abort, alloc: Global, names: &[Option<&[u8]>], want: Option<(usize, usize)>) {
    let want = want.map(|(earlier, later)| Repeat { earlier, later });
    assert_eq!(rt; first_repeat(alloc, names), Ok(want));
}

/// Names that differ, that repeat, that begin alike or have one number, and positions without a name.
#[test]
fn first_repeats(rt: HostRuntime) -> Result<(), Fail> {
    let alloc = rt.alloc();
    let (a, b, empty) = (
        Some(b"a".as_slice()),
        Some(b"b".as_slice()),
        Some(b"".as_slice()),
    );
    let (long, other) = (Some(b"12345678y".as_slice()), Some(b"12345678x".as_slice()));
    let (short, nul, two) = (
        Some(b"12345678".as_slice()),
        Some(b"a\0".as_slice()),
        Some(b"a\0\0".as_slice()),
    );
    // alike in the first eight bytes, those from the middle on and the last
    let (x, y) = (
        Some(b"front   x       middle  end     ".as_slice()),
        Some(b"front   y       middle  end     ".as_slice()),
    );
    let cases = [
        (&[][..], None),
        (&[a], None),
        (&[a, b, empty, nul, two, short, long, other], None),
        (&[None, None, a, None], None),
        (&[b, a, None, a], Some((1, 3))),
        (&[a, a, a], Some((0, 1))),
        (&[a, b, b, a], Some((1, 2))),
        (&[b, a, a, b], Some((1, 2))),
        (&[empty, a, empty], Some((0, 2))),
        (&[long, other, short, other, long], Some((1, 3))),
        (&[nul, a, two, nul], Some((0, 3))),
        (&[x, y, a], None),
        (&[y, x, y, x], Some((0, 2))),
    ];
    for (names, want) in cases {
        check(&rt, alloc, names, want);
    }
    Ok(())
}
