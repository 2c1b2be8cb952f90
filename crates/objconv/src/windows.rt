//! Windows of planned files. The inputs come from builders that follow the canonical layout, the planned
//! files from an independent model of the conversion.
mod objects;

ghost use Rattle.std.specs.Prelude.{◌<◌};

use objects::{CALL, CALL_COFF, END, GROUP, GROUP_COFF, TEXT};
use oc_base::Format;
use oc_dispatch::{AnyPlan, dispatch};
use oc_names::Edits;
use oc_target::Emits;
use std::alloc::Global;
use std::test::Fail;

/// A place, in bytes, after the end of each file; windows begin before it and are shorter.
const BEHIND: usize = 250;

/// The plan of the file of an object as COFF for i386.
fn plan_of(alloc: Global, bytes: &[u8]) -> Result<AnyPlan, Fail> {
    if bytes.len() > 1000 {
        return Err("a worked object is small".into());
    }
    let edits = Edits::new(alloc);
    Ok(dispatch(alloc, Format::Coff32, bytes, &edits)?)
}

/// Whether the window at `at` of a plan fills the start of a buffer of `len` bytes with that part
/// of the file, as far as both go, and leaves the rest.
fn is_window(plan: &AnyPlan, file: &[u8], at: usize, len: usize) -> bool
    requires { len < 250 }
{
    let mut bytes = [0x5A; BEHIND];
    let to = &mut bytes[..len];
    let count = plan.window(at as u64, to);
    let want = &file[at.min(file.len())..];
    count == want.len().min(to.len())
        && to.iter().zip(want).all(|(a, b)| a == b)
        && to.iter().skip(count).all(|byte| *byte == 0x5A)
}

/// Of two files, each length at each place, and past the end.
#[test]
fn windows_of_each_length_at_each_place(rt: HostRuntime) -> Result<(), Fail> {
    for (input, file) in [(CALL, CALL_COFF), (GROUP, GROUP_COFF)] {
        let plan = plan_of(rt.alloc(), input)?;
        for at in 0..BEHIND {
            for len in 0..BEHIND {
                assert!(rt; is_window(&plan, file, at, len), "{len} bytes at {at}");
            }
        }
    }
    Ok(())
}

/// The six bytes of the call, and what is left after the last two bytes of the file.
#[test]
fn windows_of_a_plan(rt: HostRuntime) -> Result<(), Fail> {
    let plan = plan_of(rt.alloc(), CALL)?;
    for (at, count, want) in [
        (TEXT, 6, [0xE8, 0, 0, 0, 0, 0xC3]),
        (END - 2, 2, [0, 0, 0xAA, 0xAA, 0xAA, 0xAA]),
    ] {
        let mut to = [0xAA; 6];
        assert_eq!(rt; plan.window(at, &mut to), count, "at {at}");
        assert_eq!(rt; to, want, "at {at}");
    }
    Ok(())
}
