//! Lists of relocations that are left, and free entries, counted by hand.

use oc_chains::Chains;
use oc_neutral::{Base, Check, Form, Hint, Less, Reloc, Relocs, Target, Width};
use std::process::Abort;
use std::test::Fail;

/// The address of the symbol at position 0, in four bytes.
const ADDRESS: Reloc = Reloc {
    target: Target::Symbol(0),
    form: Form {
        base: Base::Address,
        less: Less::Zero,
        width: Width::Four,
        check: Check::Wrap,
    },
    addend: 0,
    hint: Hint::Plain,
};

// the list of a section that is there begins with a field at this offset, and has so many fields
fn check_list(rt: &impl Abort, relocs: &Relocs, section: u32, first: u32, count: usize) {
    assert!(rt; section < relocs.section_count());
    let begin = relocs.walk(section).next().map(|field| field.at);
    assert_eq!(rt; (begin, relocs.walk(section).count()), (Some(first), count));
}

/// Of three sections with one, two and two relocations the second goes, then the first.
#[test]
fn lists_go_with_their_sections(rt: HostRuntime) -> Result<(), Fail> {
    let mut chains = Chains::new(rt.alloc());
    let _numbers = (
        chains.add_section()?,
        chains.add_section()?,
        chains.add_section()?,
    );
    chains.insert(2, 8, 4, ADDRESS)?;
    chains.insert(0, 4, 4, ADDRESS)?;
    chains.insert(1, 0, 4, ADDRESS)?;
    chains.insert(2, 0, 4, ADDRESS)?;
    chains.insert(1, 4, 4, ADDRESS)?;
    let mut relocs = Relocs::of(chains);
    relocs.leave(rt.alloc(), &[true, false, true])?;
    assert_eq!(rt; (relocs.section_count(), relocs.spare()), (2, 2));
    check_list(&rt, &relocs, 0, 4, 1);
    check_list(&rt, &relocs, 1, 0, 2);
    relocs.leave(rt.alloc(), &[false, true])?;
    assert_eq!(rt; (relocs.section_count(), relocs.spare()), (1, 3));
    check_list(&rt, &relocs, 0, 0, 2);
    Ok(())
}
