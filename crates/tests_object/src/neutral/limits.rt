//! The limits on sections, with the numbers of the documentation.
ghost use Rattle.std.specs.Prelude.{◌≡◌, IfOk, None};
ghost use Rattle.oc_neutral.specs.Invariants.{HasItsBytes};

use oc_base::{Bytes, Code, Format, MOST_CONTENTS, NoMemory};
use oc_neutral::{BuildFault, Builder, Kind, Section};
use std::alloc::Global;
use std::process::Abort;
use std::test::Fail;

/// A section of code of so many zeros.
fn code(alloc: Global, size: u32) -> Result<Section, NoMemory>
    ensures bytes { IfOk result HasItsBytes }
    ensures alone { IfOk result (λ s. s.group ≡ None) }
{
    Ok(Section {
        name: Bytes::from_slice(alloc, b".text")?,
        kind: Kind::Code,
        align: 16,
        size,
        bytes: Bytes::from_vec(vec![in alloc; 0u8; size as usize]?),
        tag: 6,
        number: 1,
        group: None,
    })
}

/// A section of zeros, which has no bytes.
fn zeros(alloc: Global, size: u32) -> Result<Section, NoMemory>
    ensures bytes { IfOk result HasItsBytes }
    ensures alone { IfOk result (λ s. s.group ≡ None) }
{
    Ok(Section {
        name: Bytes::from_slice(alloc, b".bss")?,
        kind: Kind::Zero,
        align: 16,
        size,
        bytes: Bytes::from_slice(alloc, &[])?,
        tag: 3,
        number: 2,
        group: None,
    })
}

/// A section of so many bytes that is added.
#[derive(Clone, Copy, Debug)]
enum Added {
    Code(u32),
    Zeros(u32),
}

/// Sections that are added, each with the position that it gets, or the limit that it passes.
type Case = &'static [(Added, Result<u32, (Code, u64)>)];

/// Each limit at its number and one above, in the order in which they decide.
const CASES: [Case; 6] = [
    // The sum is at its limit, and nothing is stored.
    &[
        (Added::Zeros(1), Ok(0)),
        (Added::Zeros(2_147_483_647), Ok(1)),
    ],
    &[
        (Added::Zeros(2), Ok(0)),
        (
            Added::Zeros(2_147_483_647),
            Err((Code::LimitSum, 2_147_483_649)),
        ),
        // Both limits are passed.
        (
            Added::Zeros(2_147_483_648),
            Err((Code::LimitSection, 2_147_483_648)),
        ),
    ],
    // The stored bytes are at their limit, and zeros are not counted.
    &[
        (Added::Code(67_108_862), Ok(0)),
        (Added::Code(2), Ok(1)),
        (Added::Zeros(1), Ok(2)),
    ],
    &[
        (Added::Code(67_108_863), Ok(0)),
        (Added::Code(2), Err((Code::LimitBytes, 67_108_865))),
    ],
    &[
        (Added::Code(MOST_CONTENTS as u32), Ok(0)),
        (Added::Zeros(2_080_374_784), Ok(1)),
    ],
    // A refused section is not counted.
    &[
        (Added::Zeros(2_147_483_647), Ok(0)),
        (Added::Code(2), Err((Code::LimitSum, 2_147_483_649))),
        (Added::Code(1), Ok(1)),
    ],
];

// adds a section, one of fewer than nine, with this answer
fn add_section(
    rt: &impl Abort,
    builder: &mut Builder,
    section: Section,
    want: Result<u32, (Code, u64)>,
)
    requires bytes { HasItsBytes section }
    requires alone { section.group ≡ None }
{
    let want = want.map_err(|(code, counted)| BuildFault::Limit { code, counted });
    let count = builder.section_count();
    assert!(rt; count < 9);
    assert_eq!(rt; builder.add_section(section), want);
}

// adds the sections of a case to a new object
fn check_case(rt: &impl Abort, alloc: Global, case: Case) -> Result<(), NoMemory> {
    let mut builder = Builder::new(alloc, Format::Elf32);
    for (added, want) in case {
        match *added {
            Added::Code(size) => add_section(rt, &mut builder, code(alloc, size)?, *want),
            Added::Zeros(size) => add_section(rt, &mut builder, zeros(alloc, size)?, *want),
        }
    }
    Ok(())
}

#[test]
fn limits_at_both_sides(rt: HostRuntime) -> Result<(), Fail> {
    for case in CASES {
        check_case(&rt, rt.alloc(), case)?;
    }
    Ok(())
}
