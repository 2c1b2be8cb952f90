//! Calls in their order, with walks worked by hand.
ghost use Rattle.std.specs.Prelude.{◌<◌, length};

use oc_chains::{ChainFault, Chains, Field};
use std::alloc::Global;
use std::fmt::Debug;
use std::process::Abort;
use std::test::Fail;

// a walk of the section gives fields with these offsets, and no others
fn check_walk<T: Copy>(rt: &impl Abort, chains: &Chains<T>, section: u32, offsets: &[u32])
    requires { section < length chains.now.lists }
{
    assert_eq!(rt; chains.walk(section).count(), offsets.len());
    for (field, at) in chains.walk(section).zip(offsets) {
        assert_eq!(rt; field.at, *at);
    }
}

/// The last field ends at 2^31 = 2147483648; a neighbour may touch it, and none may meet it.
#[test]
fn fields_at_the_end(rt: HostRuntime) -> Result<(), Fail> {
    let mut chains = Chains::new(rt.alloc());
    let section = chains.add_section()?;
    chains.insert(section, 2147483640, 8, ())?;
    let inside = chains.insert(section, 2147483647, 1, ());
    let across = chains.insert(section, 2147483639, 2, ());
    let meets = chains.is_free(section, 2147483633, 8);
    let touches = chains.is_free(section, 2147483632, 8);
    assert_eq!(rt;
        (inside, across, meets, touches),
        (
            Err(ChainFault::Overlap),
            Err(ChainFault::Overlap),
            false,
            true
        )
    );
    chains.insert(section, 2147483632, 8, ())?;
    check_walk(&rt, &chains, section, &[2147483632, 2147483640]);
    Ok(())
}

// two items go in against their order, and come out in order
fn check_items<T: Copy + PartialEq + Debug>(
    rt: &impl Abort,
    alloc: Global,
    early: T,
    late: T,
) -> Result<(), Fail> {
    let mut chains = Chains::new(alloc);
    let section = chains.add_section()?;
    chains.insert(section, 4, 1, late)?;
    chains.insert(section, 0, 4, early)?;
    let mut walk = chains.walk(section);
    let first = Field {
        at: 0,
        width: 4,
        item: early,
    };
    let second = Field {
        at: 4,
        width: 1,
        item: late,
    };
    let walked = (walk.next(), walk.next(), walk.next());
    assert_eq!(rt; walked, (Some(first), Some(second), None));
    Ok(())
}

/// The same at two types of items.
#[test]
fn items_of_two_types(rt: HostRuntime) -> Result<(), Fail> {
    check_items(&rt, rt.alloc(), 7u64, 9u64)?;
    check_items(&rt, rt.alloc(), ("b", false), ("a", true))
}

/// Three fields of one section are dropped, and a field of another takes one of their entries.
#[test]
fn dropped_entries_are_reused(rt: HostRuntime) -> Result<(), Fail> {
    let mut chains = Chains::new(rt.alloc());
    let numbers = (chains.add_section()?, chains.add_section()?);
    chains.insert(0, 8, 4, 'a')?;
    chains.insert(0, 0, 4, 'b')?;
    chains.insert(0, 4, 4, 'c')?;
    let refused = chains.insert(0, 6, 4, 'd');
    assert_eq!(rt; (numbers, refused), ((0, 1), Err(ChainFault::Overlap)));
    check_walk(&rt, &chains, 0, &[0, 4, 8]);
    let before = chains.spare();
    chains.drop_section(0);
    check_walk(&rt, &chains, 0, &[]);
    let dropped = chains.spare();
    chains.insert(1, 0, 4, 'e')?;
    check_walk(&rt, &chains, 0, &[]);
    check_walk(&rt, &chains, 1, &[0]);
    assert_eq!(rt; (before, dropped, chains.spare()), (0, 3, 2));
    Ok(())
}
