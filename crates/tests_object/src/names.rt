//! Edits of small lists of symbols. What they become is worked out by hand; two cases are among the
//! worked cases of the whole program.
ghost use Rattle.std.specs.Prelude.{◌≡◌, IfOk, IfSome, OnOk};
ghost use Rattle.tests_object.specs.Small.{IsBare, IsPlain, Speaks};

use crate::small::{add_first, add_symbol, begun, code, plain};
use Ask::{Alias, AliasPrefix, AliasSuffix, Local, Prefix, Rename, Suffix, Under, Weaken};
use oc_base::{Bytes, Code, Fault, Format, NoMemory, Phase, Stop};
use oc_names::{Edit, Edits, apply};
use oc_neutral::{Binding, Builder, Fallback, Neutral, Symbol, Value};
use std::alloc::Global;
use std::process::Abort;
use std::test::Fail;

/// One edit, as a user writes it.
#[derive(Clone, Copy, Debug)]
enum Ask {
    Rename(&'static str, &'static str),
    Prefix(&'static str, &'static str),
    Suffix(&'static str, &'static str),
    Alias(&'static str, &'static str),
    AliasPrefix(&'static str, &'static str),
    AliasSuffix(&'static str, &'static str),
    Weaken(&'static str),
    Local(&'static str),
    Under,
}

/// The bytes of a text.
fn bytes(alloc: Global, text: &str) -> Result<Bytes, NoMemory> {
    Bytes::from_slice(alloc, text.as_bytes())
}

/// The edit that is asked for.
fn edit(alloc: Global, ask: Ask) -> Result<Edit, NoMemory> {
    Ok(match ask {
        Rename(from, to) => Edit::Rename {
            from: bytes(alloc, from)?,
            to: bytes(alloc, to)?,
        },
        Prefix(from, to) => Edit::Prefix {
            from: bytes(alloc, from)?,
            to: bytes(alloc, to)?,
        },
        Suffix(from, to) => Edit::Suffix {
            from: bytes(alloc, from)?,
            to: bytes(alloc, to)?,
        },
        Alias(from, to) => Edit::Alias {
            from: bytes(alloc, from)?,
            to: bytes(alloc, to)?,
        },
        AliasPrefix(from, to) => Edit::AliasPrefix {
            from: bytes(alloc, from)?,
            to: bytes(alloc, to)?,
        },
        AliasSuffix(from, to) => Edit::AliasSuffix {
            from: bytes(alloc, from)?,
            to: bytes(alloc, to)?,
        },
        Weaken(name) => Edit::Weaken {
            name: bytes(alloc, name)?,
        },
        Local(name) => Edit::MakeLocal {
            name: bytes(alloc, name)?,
        },
        Under => Edit::Underscore,
    })
}

/// A symbol, as a listing shows it: `G` a Global, `P` a pinned one, `A` an absolute one, `U` an
/// Undefined, `W` a Weak with a place, `Z` one without, `N` one with symbol 0 as its fallback, and
/// `L` a Local.
type Shown = (char, &'static str);

/// The binding that a letter means, where the first symbol may be strong; places are offset 4 of
/// section 0.
fn binding_of(letter: char, strong: bool) -> Option<Binding>
    ensures { IfSome result (Speaks strong) }
{
    let place = Value::Place {
        section: 0,
        offset: 4,
    };
    match letter {
        'G' | 'P' => Some(Binding::Global(place)),
        'A' => Some(Binding::Global(Value::Absolute(7))),
        'U' => Some(Binding::Undefined),
        'W' => Some(Binding::Weak(Fallback::Place {
            section: 0,
            offset: 4,
        })),
        'Z' => Some(Binding::Weak(Fallback::Zero)),
        'N' if strong => Some(Binding::Weak(Fallback::Name(0))),
        'L' => Some(Binding::Local(place)),
        _ => None,
    }
}

/// The symbol that is shown, with that number.
fn symbol_of(
    rt: &impl Abort,
    alloc: Global,
    strong: bool,
    shown: Shown,
    number: u32,
) -> Result<Symbol, NoMemory>
    ensures { IfOk result (IsPlain strong) }
{
    let (letter, name) = shown;
    let Some(binding) = binding_of(letter, strong) else {
        panic!(rt; "there is no binding {letter}");
    };
    let is_empty = name.is_empty();
    assert!(rt; !is_empty);
    let mut symbol = plain(alloc, name.as_bytes(), binding, number)?;
    symbol.pinned = letter == 'P';
    Ok(symbol)
}

/// Adds these symbols, numbered from 2 on.
fn add_symbols(
    rt: &impl Abort,
    alloc: Global,
    builder: &mut Builder,
    strong: bool,
    shown: &[Shown],
) -> Result<(), Fail>
    requires { IsBare strong builder.old.object }
    ensures { OnOk result (IsBare strong builder.new.object) }
{
    let mut number: u32 = 2;
    for shown in shown {
        let symbol = symbol_of(rt, alloc, strong, *shown, number)?;
        add_symbol(rt, builder, strong, symbol)?;
        number = number.wrapping_add(1);
    }
    Ok(())
}

/// An object of code and these symbols, numbered from 1.
fn object_of(
    rt: &impl Abort,
    alloc: Global,
    format: Format,
    shown: &[Shown],
) -> Result<Neutral, Fail> {
    let (first, further) = shown.split_first().ok_or("there is no symbol")?;
    let mut builder = begun(alloc, format, code(alloc, &[0x90; 8])?)?;
    let first = symbol_of(rt, alloc, false, *first, 1)?;
    let strong = add_first(&mut builder, first)?;
    add_symbols(rt, alloc, &mut builder, strong, further)?;
    Ok(builder.finish())
}

/// What the edits make of the object of these symbols.
fn edited(
    rt: &impl Abort,
    alloc: Global,
    asks: &[Ask],
    from: Format,
    to: Format,
    shown: &[Shown],
) -> Result<Result<Neutral, Stop>, Fail> {
    let mut edits = Edits::new(alloc);
    for ask in asks {
        edits.push(edit(alloc, *ask)?)?;
    }
    let object = object_of(rt, alloc, from, shown)?;
    Ok(apply(alloc, object, &edits, to))
}

/// Whether a symbol has the binding and the name that are shown.
fn is_shown(symbol: &Symbol, shown: &Shown) -> bool {
    Some(symbol.binding) == binding_of(shown.0, true)
        && symbol.name.as_slice() == shown.1.as_bytes()
}

/// Whether these are the symbols that are shown.
fn are_shown(symbols: &[Symbol], shown: &[Shown]) -> bool {
    symbols.len() == shown.len() && symbols.iter().zip(shown).all(|(s, x)| is_shown(s, x))
}

/// A fault of the Edit phase.
fn fault(code: Code, index: u32, place: u64) -> Stop {
    Stop::Refused(Fault {
        phase: Phase::Edit,
        index,
        code,
        place,
    })
}

/// Edits, symbols, and what becomes of them.
type Case = (
    &'static [Ask],
    &'static [Shown],
    Result<&'static [Shown], (Code, u32, u64)>,
);

/// From ELF to COFF for i386, which has underscores.
const CASES: [Case; 31] = [
    // each edit alone
    (
        &[],
        &[('G', "a"), ('U', "b")],
        Ok(&[('G', "a"), ('U', "b")]),
    ),
    (
        &[Rename("a", "c")],
        &[('G', "a"), ('L', "a")],
        Ok(&[('G', "c"), ('L', "a")]),
    ),
    (
        &[Prefix("a", "")],
        &[('U', "ab"), ('G', "ba")],
        Ok(&[('U', "b"), ('G', "ba")]),
    ),
    (
        &[Suffix("b", "xy")],
        &[('W', "ab"), ('G', "b")],
        Ok(&[('W', "axy"), ('G', "xy")]),
    ),
    (
        &[Alias("a", "c")],
        &[('G', "a"), ('U', "b")],
        Ok(&[('G', "a"), ('U', "b"), ('G', "c")]),
    ),
    (
        &[AliasPrefix("a", "c")],
        &[('W', "ab"), ('U', "ac")],
        Ok(&[('W', "ab"), ('U', "ac"), ('W', "cb")]),
    ),
    (
        &[AliasSuffix("b", "c")],
        &[('A', "ab")],
        Ok(&[('A', "ab"), ('A', "ac")]),
    ),
    (
        &[Weaken("a")],
        &[('G', "a"), ('U', "b")],
        Ok(&[('W', "a"), ('U', "b")]),
    ),
    (
        &[Weaken("b")],
        &[('A', "a"), ('U', "b")],
        Ok(&[('A', "a"), ('Z', "b")]),
    ),
    (
        &[Local("a")],
        &[('G', "a"), ('W', "b")],
        Ok(&[('L', "a"), ('W', "b")]),
    ),
    (
        &[Under],
        &[('G', "a"), ('U', "_b"), ('L', "c")],
        Ok(&[('G', "_a"), ('U', "__b"), ('L', "c")]),
    ),
    // pairs in both orders
    (&[Local("a"), Weaken("a")], &[('P', "a")], Ok(&[('L', "a")])),
    (
        &[Weaken("a"), Local("a")],
        &[('P', "a")],
        Err((Code::PinnedWeak, 1, 0)),
    ),
    (&[Weaken("a"), Local("a")], &[('G', "a")], Ok(&[('L', "a")])),
    (
        &[Rename("a", "b"), Prefix("a", "c")],
        &[('G', "a")],
        Ok(&[('G', "b")]),
    ),
    (
        &[Prefix("a", "c"), Rename("a", "b")],
        &[('G', "a")],
        Ok(&[('G', "c")]),
    ),
    (
        &[Rename("a", "b"), Under],
        &[('G', "a")],
        Ok(&[('G', "_b")]),
    ),
    (
        &[Under, Under, Rename("a", "b")],
        &[('G', "a")],
        Ok(&[('G', "_b")]),
    ),
    (
        &[Local("a"), Rename("a", "b")],
        &[('G', "a")],
        Ok(&[('L', "a")]),
    ),
    (
        &[Rename("a", "b"), Local("b")],
        &[('G', "a")],
        Ok(&[('G', "b")]),
    ),
    (
        &[Local("a"), Alias("a", "b")],
        &[('G', "a")],
        Ok(&[('L', "a")]),
    ),
    (
        &[Alias("a", "b"), Under],
        &[('G', "a")],
        Ok(&[('G', "_a"), ('G', "b")]),
    ),
    (
        &[Alias("a", "b"), Alias("b", "c")],
        &[('G', "a")],
        Ok(&[('G', "a"), ('G', "b")]),
    ),
    (
        &[Alias("a", "b"), Rename("a", "c")],
        &[('G', "a")],
        Ok(&[('G', "c"), ('G', "b")]),
    ),
    // clashes and names that are gone
    (
        &[Rename("a", "b")],
        &[('L', "x"), ('G', "a"), ('G', "b")],
        Err((Code::NameClash, 3, 2)),
    ),
    (
        &[Alias("b", "a")],
        &[('G', "a"), ('G', "b")],
        Err((Code::NameClash, 2, 1)),
    ),
    (
        &[Rename("a", "x")],
        &[('L', "x"), ('G', "a")],
        Ok(&[('L', "x"), ('G', "x")]),
    ),
    (
        &[Prefix("a", "")],
        &[('G', "b"), ('G', "a")],
        Err((Code::EmptyName, 2, 0)),
    ),
    // fallbacks
    (
        &[Local("a")],
        &[('G', "a"), ('N', "b")],
        Ok(&[('L', "a"), ('W', "b")]),
    ),
    (
        &[Weaken("a")],
        &[('G', "a"), ('N', "b")],
        Err((Code::PinnedWeak, 2, 0)),
    ),
    (
        &[Local("a")],
        &[('A', "a"), ('N', "b")],
        Err((Code::TargetKind, 2, 0)),
    ),
];

#[test]
fn edits_of_symbols(rt: HostRuntime) -> Result<(), Fail> {
    let (from, to) = (Format::Elf32, Format::Coff32);
    for (asks, shown, want) in CASES {
        let got = edited(&rt, rt.alloc(), asks, from, to, shown)?;
        match (got, want) {
            (Ok(object), Ok(want)) => {
                assert!(rt; are_shown(object.symbols(), want), "{asks:?} {shown:?}");
            }
            (Err(got), Err((code, index, place))) => {
                assert_eq!(rt; got, fault(code, index, place), "{asks:?} {shown:?}");
            }
            _ => panic!(rt; "{asks:?} {shown:?}"),
        }
    }
    Ok(())
}

/// The worked case: a Global `my_f` for Mach-O, with underscores, another prefix, and a further name.
#[test]
fn underscores_prefix_and_alias(rt: HostRuntime) -> Result<(), Fail> {
    let asks = [Under, Prefix("my_", "your_"), Alias("my_f", "start")];
    let (from, to) = (Format::Elf64, Format::Mac64);
    let object = edited(&rt, rt.alloc(), &asks, from, to, &[('G', "my_f")])??;
    assert!(rt; are_shown(object.symbols(), &[('G', "_your_f"), ('G', "start")]));
    Ok(())
}
