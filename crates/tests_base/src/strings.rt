//! Names and their tables, by hand from the rule.

use oc_base::{Bytes, NoMemory};
use oc_strings::{Table, offsets};
use std::alloc::Global;
use std::process::Abort;
use std::test::Fail;

/// The head and the names, the bytes of the table, and names with their places.
type Case = (
    u32,
    &'static [&'static [u8]],
    &'static [u8],
    &'static [(&'static [u8], Option<u32>)],
);

/// The table of these names, if it fits.
fn table_of(alloc: Global, head: u32, names: &[&[u8]]) -> Result<Option<Table>, NoMemory> {
    let mut owned = Vec::new(alloc);
    for name in names {
        owned.push(Bytes::from_slice(alloc, name)?)?;
    }
    if !Table::fits(head, &owned) {
        return Ok(None);
    }
    Ok(Some(Table::of(alloc, head, &owned)?))
}

/// Expects each name at its place in the table, whichever given name is compared first.
fn expect(rt: &impl Abort, table: &Table, places: &[(&[u8], Option<u32>)]) {
    for (name, place) in places {
        assert_eq!(rt; table.offset(name), *place, "{name:?}");
        for near in [0, 1, 2, usize::MAX] {
            assert_eq!(rt;
                table.offset_near(near, name),
                *place,
                "{name:?} near {near}"
            );
        }
    }
}

/// Where `a`, `ba` and `cba` lie in their one text.
const CHAIN: &[(&[u8], Option<u32>)] = &[(b"cba", Some(1)), (b"ba", Some(2)), (b"a", Some(3))];

const CASES: [Case; 11] = [
    // The string table of a canonical COFF file with these two symbols: the first text comes after
    // the four bytes of the size.
    (
        4,
        &[b"my_function", b"_my_function"],
        b"_my_function\0",
        &[
            (b"my_function", Some(5)),
            (b"_my_function", Some(4)),
            (b"function", None),
        ],
    ),
    // A chain is one text in every order.
    (1, &[b"a", b"ba", b"cba"], b"cba\0", CHAIN),
    (1, &[b"a", b"cba", b"ba"], b"cba\0", CHAIN),
    (1, &[b"ba", b"a", b"cba"], b"cba\0", CHAIN),
    (1, &[b"ba", b"cba", b"a"], b"cba\0", CHAIN),
    (1, &[b"cba", b"a", b"ba"], b"cba\0", CHAIN),
    (1, &[b"cba", b"ba", b"a"], b"cba\0", CHAIN),
    // `bar` ends both texts, and lies in the one that is used first.
    (
        1,
        &[b"bar", b"foobar", b"xbar"],
        b"foobar\0xbar\0",
        &[(b"bar", Some(4)), (b"xbar", Some(8))],
    ),
    (
        1,
        &[b"xbar", b"bar", b"foobar"],
        b"xbar\0foobar\0",
        &[(b"bar", Some(2)), (b"foobar", Some(6))],
    ),
    // Equal names are stored once. A name of one byte and one with a NUL are names like any other.
    (
        0,
        &[b"b", b"a", b"b", b"x\0a", b"a", b"x\0a"],
        b"b\0x\0a\0",
        &[
            (b"b", Some(0)),
            (b"a", Some(4)),
            (b"x\0a", Some(2)),
            (b"x", None),
        ],
    ),
    // The largest head leaves room for no name.
    (u32::MAX, &[], b"", &[]),
];

#[test]
fn names_share_their_tails(rt: HostRuntime) -> Result<(), Fail> {
    for (head, names, bytes, places) in &CASES {
        let table = table_of(rt.alloc(), *head, names)?.ok_or("the names fit")?;
        assert_eq!(rt; table.bytes(), *bytes, "{names:?}");
        expect(&rt, &table, places);
    }
    Ok(())
}

/// The largest head leaves no room even for an empty name, and offsets have no limit.
#[test]
fn the_largest_head(rt: HostRuntime) -> Result<(), Fail> {
    let names = [b"".as_slice(), b"a"];
    let table = table_of(rt.alloc(), u32::MAX, &names[..1])?;
    let places = offsets(rt.alloc(), u32::MAX, &names)?;
    assert_eq!(rt;
        (table.is_none(), places.as_slice()),
        (true, [0x1_0000_0000, 0xFFFF_FFFF].as_slice())
    );
    Ok(())
}
