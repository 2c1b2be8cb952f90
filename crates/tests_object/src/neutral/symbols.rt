//! Names of symbols that are added, worked out by hand.

use oc_base::{Bytes, Format, NoMemory};
use oc_neutral::{Binding, BuildFault, Builder, Mark, Symbol, Value, Visibility};
use std::alloc::Global;
use std::process::Abort;
use std::test::Fail;

/// A Local, a Global and an Undefined.
const LOCAL: Binding = Binding::Local(Value::Absolute(1));

const GLOBAL: Binding = Binding::Global(Value::Absolute(2));

const UNDEFINED: Binding = Binding::Undefined;

/// A symbol of that name.
fn symbol(alloc: Global, name: &[u8], binding: Binding) -> Result<Symbol, NoMemory> {
    Ok(Symbol {
        name: Bytes::from_slice(alloc, name)?,
        binding,
        mark: Mark::NoType,
        vis: Visibility::Default,
        size: 0,
        pinned: false,
        number: 1,
    })
}

/// Adds a symbol, one of fewer than nine, with this answer.
fn add_symbol(
    rt: &impl Abort,
    builder: &mut Builder,
    symbol: Symbol,
    want: Result<u32, BuildFault>,
) {
    let count = builder.symbol_count();
    assert!(rt; count < 9);
    assert_eq!(rt; builder.add_symbol(symbol), want);
}

/// Only nonlocal names differ.
#[test]
fn names_differ(rt: HostRuntime) -> Result<(), Fail> {
    let mut builder = Builder::new(rt.alloc(), Format::Elf64);
    let cases: [(&[u8], Binding, Result<u32, BuildFault>); 5] = [
        (b"f", LOCAL, Ok(0)),
        (b"f", GLOBAL, Ok(1)),
        (b"f", LOCAL, Ok(2)),
        (b"f", UNDEFINED, Err(BuildFault::DuplicateName)),
        (b"ff", GLOBAL, Ok(3)),
    ];
    for (name, binding, want) in cases {
        let next = symbol(rt.alloc(), name, binding)?;
        add_symbol(&rt, &mut builder, next, want);
    }
    Ok(())
}

/// A new name is recorded before the next one is compared.
#[test]
fn new_names_are_taken_up(rt: HostRuntime) -> Result<(), Fail> {
    let mut builder = Builder::new(rt.alloc(), Format::Elf32);
    let new = symbol(rt.alloc(), b"a", UNDEFINED)?;
    assert_eq!(rt; builder.add_new_symbol(new), Ok(0));
    let names = [b"a".as_slice(), b"b", b"b"];
    let wanted = [
        Err(BuildFault::DuplicateName),
        Ok(1),
        Err(BuildFault::DuplicateName),
    ];
    for (name, want) in names.iter().zip(wanted) {
        let next = symbol(rt.alloc(), name, UNDEFINED)?;
        add_symbol(&rt, &mut builder, next, want);
    }
    Ok(())
}
