//! Worked cases. The texts of messages are those of the commands' description; the bytes are the
//! file header and a name of a small ELF32 object, read by hand.

use oc_base::{Bytes, Code, OutOfView, Phase, Spot, Text, View, message};
use std::test::Fail;

/// The first 20 bytes of an ELF32 file header: e_type is 1, e_machine 3 (i386).
const HEADER: [u8; 20] = [
    0x7F, 0x45, 0x4C, 0x46, 1, 1, 1, 0, 0, 0, 0, 0, 0, 0, 0, 0, 1, 0, 3, 0,
];

/// Two names, `main` and `foo`, after a NUL, and one byte that no NUL follows.
const NAMES: [u8; 11] = [0, 0x6D, 0x61, 0x69, 0x6E, 0, 0x66, 0x6F, 0x6F, 0, 0x78];

/// The numbers of one, two, four and eight bytes at an offset of the header, on both sides of the
/// last at which each exists.
const NUMBERS: [(u64, Option<u8>, Option<u16>, Option<u32>, Option<u64>); 9] = [
    (
        0,
        Some(0x7F),
        Some(0x457F),
        Some(0x464C_457F),
        Some(0x0001_0101_464C_457F),
    ),
    (
        1,
        Some(0x45),
        Some(0x4C45),
        Some(0x0146_4C45),
        Some(0x0000_0101_0146_4C45),
    ),
    (12, Some(0), Some(0), Some(0), Some(0x0003_0001_0000_0000)),
    (13, Some(0), Some(0), Some(0x0100_0000), None),
    (16, Some(1), Some(1), Some(0x0003_0001), None),
    (17, Some(0), Some(0x0300), None, None),
    (18, Some(3), Some(3), None, None),
    (20, None, None, None, None),
    (u64::MAX, None, None, None, None),
];

#[test]
fn numbers_up_to_the_end(rt: HostRuntime) {
    let view = View::new(&HEADER);
    for (at, one, two, four, eight) in NUMBERS {
        let got = (
            view.u8_at(at).ok(),
            view.u16_at(at).ok(),
            view.u32_at(at).ok(),
            view.u64_at(at).ok(),
        );
        assert_eq!(rt; got, (one, two, four, eight), "at {at}");
    }
}

#[test]
fn texts_end_at_their_first_nul(rt: HostRuntime) {
    let view = View::new(&NAMES);
    let cases: [(u64, Option<&[u8]>); 7] = [
        (0, Some(b"")),
        (1, Some(b"main")),
        (7, Some(b"oo")),
        (10, None),
        (11, None),
        (12, None),
        (u64::MAX, None),
    ];
    for (at, want) in &cases {
        assert_eq!(rt; view.text_at(*at).ok(), *want, "at {at}");
    }
}

#[test]
fn parts_of_a_view(rt: HostRuntime) {
    let view = View::new(&NAMES);
    // The bytes of each part, and whether it is empty.
    let cases: [(u64, u64, Option<(&[u8], bool)>); 6] = [
        (6, 3, Some((b"foo", false))),
        (10, 1, Some((b"x", false))),
        (11, 0, Some((b"", true))),
        (12, 0, None),
        (6, 6, None),
        (1, u64::MAX, None),
    ];
    for (at, len, want) in &cases {
        let got = match view.sub(*at, *len) {
            Ok(part) => Some((part.bytes(), part.is_empty())),
            Err(OutOfView) => None,
        };
        assert_eq!(rt; got, *want, "{len} at {at}");
    }
}

#[test]
fn messages(rt: HostRuntime) -> Result<(), Fail> {
    let cases = [
        (
            (Phase::TargetRelocation, 1, 1),
            Code::AddendTooWide,
            "objconv: refused: target relocation 1: AddendTooWide at 1\n",
        ),
        (
            (Phase::Header, 0, 192),
            Code::Short,
            "objconv: malformed: header 0: Short at 192\n",
        ),
        (
            (Phase::Header, 0, 67_108_865),
            Code::LimitInput,
            "objconv: limit: header 0: LimitInput at 67108865\n",
        ),
    ];
    for ((phase, index, place), code, want) in cases {
        let spot = Spot {
            phase,
            index,
            place,
        };
        let text = message(rt.alloc(), &spot.fault(code))?;
        assert_eq!(rt; text.as_slice(), want.as_bytes());
    }
    Ok(())
}

#[test]
fn bytes_and_texts(rt: HostRuntime) -> Result<(), Fail> {
    let mut bytes = Bytes::from_slice(rt.alloc(), b"hello")?;
    bytes.set(4, b'!');
    let text = Text::from_str(rt.alloc(), "a.o")?;
    assert_eq!(rt;
        (bytes.as_slice(), text.as_str()),
        (b"hell!".as_slice(), "a.o")
    );
    Ok(())
}
