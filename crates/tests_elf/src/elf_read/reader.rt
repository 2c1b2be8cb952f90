//! Objects of both classes, which were laid out by hand after the standard.
use super::objects::{GROUPED, WEAK};
use oc_elf_read::{ElfReader32, ElfReader64};
use oc_neutral::{Binding, Fallback, Target};
use oc_shows::Reads;
use std::test::Fail;
use tests_cases::KEEP;

/// The call in `.text` is against the second symbol, with the addend of its field, which is zero
/// then; `.text.t` is in the one group.
#[test]
fn elf32_group_is_read(rt: HostRuntime) -> Result<(), Fail> {
    let object = ElfReader32.read(rt.alloc(), &GROUPED, &KEEP)?;
    let counts = (
        object.group_count(),
        object.section_count(),
        object.symbol_count(),
    );
    assert_eq!(rt; counts, (1, 2, 2));
    assert_eq!(rt;
        (object.section(0).group, object.section(1).group),
        (None, Some(0))
    );
    assert_eq!(rt;
        object.section(0).bytes.as_slice(),
        [0xE8, 0, 0, 0, 0, 0xC3].as_slice()
    );
    let call = object.relocs(0).next().ok_or("one relocation")?;
    assert_eq!(rt;
        (call.at, call.item.target, call.item.addend),
        (1, Target::Symbol(0), -4)
    );
    Ok(())
}

/// The one symbol is weak, at the start of the one section, and the target of the one relocation, whose
/// addend is that of its entry.
#[test]
fn elf64_weak_is_read(rt: HostRuntime) -> Result<(), Fail> {
    let object = ElfReader64.read(rt.alloc(), &WEAK, &KEEP)?;
    let counts = (object.section_count(), object.symbol_count());
    assert_eq!(rt; counts, (1, 1));
    assert_eq!(rt;
        (
            object.symbol(0).name.as_slice(),
            object.symbol(0).binding,
            object.symbol(0).number
        ),
        (
            b"f".as_slice(),
            Binding::Weak(Fallback::Place {
                section: 0,
                offset: 0
            }),
            2
        )
    );
    let field = object.relocs(0).next().ok_or("one relocation")?;
    assert_eq!(rt;
        (field.at, field.item.target, field.item.addend),
        (0, Target::Symbol(0), 5)
    );
    Ok(())
}
