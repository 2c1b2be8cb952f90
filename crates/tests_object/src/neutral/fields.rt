//! Relocations that are added to small objects, with bytes and refusals worked by hand.
ghost use Rattle.std.specs.Prelude.{false, IfOk};
ghost use Rattle.oc_neutral.specs.Invariants.{IsHinted};
ghost use Rattle.tests_object.specs.Small.{IsCalling, IsPlain};

use crate::small::{add_first, begun, code, plain};
use oc_base::{Format, NoMemory};
use oc_neutral::{
    Base, Binding, BuildFault, Builder, Check, Form, Hint, Less, Neutral, Reloc, Symbol, Target,
    Value, Width,
};
use std::alloc::Global;
use std::process::Abort;
use std::test::Fail;

/// The Undefined `foo`, or the Local `label` at offset 4 of section 0.
#[derive(Clone, Copy, Debug)]
enum Of {
    Foo,
    Label,
}

/// The symbol that all fields are about.
fn symbol(alloc: Global, of: Of) -> Result<Symbol, NoMemory>
    ensures { IfOk result (IsPlain false) }
{
    let place = Value::Place {
        section: 0,
        offset: 4,
    };
    match of {
        Of::Foo => plain(alloc, b"foo", Binding::Undefined, 1),
        Of::Label => plain(alloc, b"label", Binding::Local(place), 1),
    }
}

/// The distance of a call from its field, in four bytes.
fn call(target: Target, addend: i64) -> Reloc
    ensures { IsHinted result }
{
    Reloc {
        target,
        form: Form {
            base: Base::Address,
            less: Less::Place,
            width: Width::Four,
            check: Check::Signed,
        },
        addend,
        hint: Hint::Call,
    }
}

/// The first section less itself, in one byte.
fn constant(addend: i64) -> Reloc
    ensures { IsHinted result }
{
    Reloc {
        target: Target::Section(0),
        form: Form {
            base: Base::Address,
            less: Less::Section(0),
            width: Width::One,
            check: Check::Signed,
        },
        addend,
        hint: Hint::Plain,
    }
}

/// A relocation that is added.
#[derive(Clone, Copy, Debug)]
enum Added {
    /// A call of the symbol.
    Call,
    /// A constant of that value.
    Constant(i64),
}

/// That relocation.
fn reloc_of(added: Added) -> Reloc
    ensures { IsHinted result }
{
    match added {
        Added::Call => call(Target::Symbol(0), -4),
        Added::Constant(addend) => constant(addend),
    }
}

/// Adds a relocation to the section, with this answer.
fn add_reloc(
    rt: &impl Abort,
    builder: &mut Builder,
    at: u32,
    added: Added,
    want: Result<(), BuildFault>,
)
    requires { IsCalling builder.old.object }
    ensures { IsCalling builder.new.object }
{
    let reloc = reloc_of(added);
    let can = builder.can_add(0, at, reloc);
    assert!(rt; can);
    builder.is_draft();
    let got = builder.add_reloc(0, at, reloc);
    assert_eq!(rt; got, want, "at {at}");
}

/// Offsets, what is added there, and the answer.
type Steps = &'static [(u32, Added, Result<(), BuildFault>)];

/// Adds relocations to the section.
fn add_relocs(rt: &impl Abort, builder: &mut Builder, steps: Steps)
    requires { IsCalling builder.old.object }
    ensures { IsCalling builder.new.object }
{
    for (at, added, want) in steps {
        add_reloc(rt, builder, *at, *added, *want);
    }
}

/// A section with these bytes, a symbol, and what is added; and then the bytes, and the one call, with its
/// target and addend, or none.
struct Case {
    format: Format,
    bytes: &'static [u8],
    of: Of,
    steps: Steps,
    after: &'static [u8],
    call: Option<(Target, i64)>,
}

/// The object of a case.
fn object(rt: &impl Abort, alloc: Global, case: &Case) -> Result<Neutral, Fail> {
    let size = case.bytes.len();
    assert!(rt; size >= 4 && size < 100);
    let mut builder = begun(alloc, case.format, code(alloc, case.bytes)?)?;
    add_first(&mut builder, symbol(alloc, case.of)?)?;
    add_relocs(rt, &mut builder, case.steps);
    builder.is_draft();
    Ok(builder.finish())
}

/// Expects the bytes of the section, and its relocation.
fn check(rt: &impl Abort, object: &Neutral, bytes: &[u8], want: Option<(Target, i64)>) {
    let want = want.map(|(target, addend)| call(target, addend));
    assert_eq!(rt; object.section_count(), 1);
    assert_eq!(rt; object.section(0).bytes.as_slice(), bytes);
    let mut walk = object.relocs(0);
    let (first, second) = (walk.next(), walk.next());
    assert_eq!(rt;
        (first.map(|field| field.item), second.is_none()),
        (want, true)
    );
}

const CASES: [Case; 3] = [
    // The bytes under a field become zero, the others stay, and no second field may meet it.
    Case {
        format: Format::Elf32,
        bytes: &[0xe8, 0xfc, 0xff, 0xff, 0xff, 0xc3],
        of: Of::Foo,
        steps: &[
            (1, Added::Call, Ok(())),
            (2, Added::Call, Err(BuildFault::Overlap)),
        ],
        after: &[0xe8, 0, 0, 0, 0, 0xc3],
        call: Some((Target::Symbol(0), -4)),
    },
    // A constant is stored where it fits, and its field is taken.
    Case {
        format: Format::Mac32,
        bytes: &[0x90, 0x90, 0x90, 0x90, 0xc3],
        of: Of::Foo,
        steps: &[
            (2, Added::Constant(128), Err(BuildFault::FoldTooWide)),
            (2, Added::Constant(127), Ok(())),
            (1, Added::Constant(-128), Ok(())),
            (0, Added::Call, Err(BuildFault::Overlap)),
        ],
        after: &[0x90, 0x80, 0x7f, 0x90, 0xc3],
        call: None,
    },
    // A relocation against a Local at offset 4 of a section is one against the section.
    Case {
        format: Format::Coff64,
        bytes: &[0xe8, 0, 0, 0, 0, 0xc3],
        of: Of::Label,
        steps: &[(1, Added::Call, Ok(()))],
        after: &[0xe8, 0, 0, 0, 0, 0xc3],
        call: Some((Target::Section(0), 0)),
    },
];

#[test]
fn relocations_in_small_objects(rt: HostRuntime) -> Result<(), Fail> {
    for case in &CASES {
        let object = object(&rt, rt.alloc(), case)?;
        check(&rt, &object, case.after, case.call);
    }
    Ok(())
}
