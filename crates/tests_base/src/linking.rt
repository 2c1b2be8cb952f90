//! Links worked out by hand.

use oc_base::{NoMemory, Word};
use oc_linking::{Check, Outcome, Patch, PlacedPatch, Width, image, link, minus};
use std::alloc::Global;
use std::test::Fail;

/// The bytes of `call foo` and `ret`, as GNU as writes them for i386.
const CALL: [u8; 6] = [0xE8, 0xFC, 0xFF, 0xFF, 0xFF, 0xC3];

/// A field of four bytes at an offset of a section.
fn four_bytes(section: u32, offset: u64, check: Check, residue: u64) -> PlacedPatch {
    PlacedPatch {
        section,
        offset,
        patch: Patch {
            width: Width::Four,
            check,
            residue,
        },
    }
}

/// The call alone, linked: its section lies at `text`, and `foo` at `foo`.
fn linked_call(
    alloc: Global,
    (word, check): (Word, Check),
    text: u32,
    foo: u32,
) -> Result<Outcome, NoMemory> {
    // The value is S + A - P, the addend A is -4, and the place P is one byte after the start.
    let residue = minus(word, u64::from(foo), u64::from(text) + 5);
    let fields = [four_bytes(0, 1, check, residue)];
    let sections = [Vec::from_array(alloc, CALL)?];
    link(alloc, word, &fields, &sections)
}

/// What linking the call gives where its bytes are these, or where its field overflows.
fn outcome(alloc: Global, bytes: Option<[u8; 6]>) -> Result<Outcome, NoMemory> {
    let Some(bytes) = bytes else {
        return Ok(Outcome::Overflow {
            section: 0,
            offset: 1,
        });
    };
    let image = Vec::from_array(alloc, bytes)?;
    Ok(Outcome::Image(vec![in alloc; image]?))
}

#[test]
fn one_call_at_placements(rt: HostRuntime) -> Result<(), Fail> {
    let alloc = rt.alloc();
    // R_386_PC32 wraps (i386 psABI), and R_X86_64_PC32 is signed (x86-64 psABI)
    let near = (Word::W32, Check::Wrap);
    let far = (Word::W64, Check::Signed);
    let cases = [
        // 0x2000 - 0x1005 = 0x0FFB
        (near, 0x1000, 0x2000, Some([0xE8, 0xFB, 0x0F, 0, 0, 0xC3])),
        // 0x1000 - 0x2005 = -0x1005, which is 0xFFFF_EFFB modulo 2^32
        (
            near,
            0x2000,
            0x1000,
            Some([0xE8, 0xFB, 0xEF, 0xFF, 0xFF, 0xC3]),
        ),
        // 0x10 - 0xFFFF_FFF5 = 0x1B modulo 2^32: the call runs past the end of the addresses
        (near, 0xFFFF_FFF0, 0x10, Some([0xE8, 0x1B, 0, 0, 0, 0xC3])),
        // 0x8000_1004 - 0x1005 = 2^31 - 1, and one more is 2^31
        (
            far,
            0x1000,
            0x8000_1004,
            Some([0xE8, 0xFF, 0xFF, 0xFF, 0x7F, 0xC3]),
        ),
        (far, 0x1000, 0x8000_1005, None),
        // 0x1005 - 0x8000_1005 = -2^31, and one less is -2^31 - 1
        (far, 0x8000_1000, 0x1005, Some([0xE8, 0, 0, 0, 0x80, 0xC3])),
        (far, 0x8000_1000, 0x1004, None),
    ];
    for (format, text, foo, bytes) in cases {
        let want = outcome(alloc, bytes)?;
        assert_eq!(rt;
            linked_call(alloc, format, text, foo)?,
            want,
            "section at {text}, foo at {foo}"
        );
    }
    Ok(())
}

#[test]
fn least_of_the_overflows(rt: HostRuntime) -> Result<(), Fail> {
    let alloc = rt.alloc();
    let sections = [
        Vec::from_array(alloc, [0; 10])?,
        Vec::from_array(alloc, [0; 10])?,
    ];
    // a signed field of four bytes holds 2^31 - 1, and not 2^31
    let fit = 0x7FFF_FFFF;
    let unfit = 0x8000_0000;
    let cases = [
        (unfit, unfit, unfit, (0, 2)),
        (fit, unfit, unfit, (0, 6)),
        (fit, fit, unfit, (1, 0)),
    ];
    for (first, second, third, (section, offset)) in cases {
        // the fields are in no order
        let fields = [
            four_bytes(1, 0, Check::Signed, third),
            four_bytes(0, 6, Check::Signed, second),
            four_bytes(0, 2, Check::Signed, first),
        ];
        let want = Outcome::Overflow { section, offset };
        assert_eq!(rt; link(alloc, Word::W64, &fields, &sections)?, want);
    }
    Ok(())
}

#[test]
fn each_width_stores_its_bytes(rt: HostRuntime) -> Result<(), Fail> {
    let cases = [
        (Width::One, [9, 0x11, 9, 9, 9, 9, 9, 9, 9, 9]),
        (Width::Two, [9, 0x11, 0x22, 9, 9, 9, 9, 9, 9, 9]),
        (Width::Four, [9, 0x11, 0x22, 0x33, 0x44, 9, 9, 9, 9, 9]),
        (
            Width::Eight,
            [9, 0x11, 0x22, 0x33, 0x44, 0x55, 0x66, 0x77, 0x88, 9],
        ),
    ];
    for (width, want) in cases {
        let patch = Patch {
            width,
            check: Check::Wrap,
            residue: 0x8877_6655_4433_2211,
        };
        let fields = [PlacedPatch {
            section: 3,
            offset: 1,
            patch,
        }];
        let bytes = image(rt.alloc(), &[9; 10], &fields, 3)?;
        assert_eq!(rt; bytes.as_slice(), want.as_slice());
    }
    Ok(())
}
