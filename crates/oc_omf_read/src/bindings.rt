//! Symbols of the object.
ghost use Rattle.std.specs.Prelude.{◌≡◌, IfOk};
ghost use Rattle.oc_neutral.specs.Powers as powers;
ghost use Rattle.oc_omf_read.specs.Bindings as bindings;
ghost use Rattle.oc_omf_read.specs.Mentioned.{seen_of};

use crate::mentioned::Mentioned;
use oc_base::{Bytes, NoMemory};
use oc_neutral::{Binding, Mark, Symbol, Value, Visibility};
use std::alloc::Global;

// the alignment of a common of that size
fn natural_align(size: u32) -> u32
    ensures { result ≡ powers.natural_align size }
{
    if size <= 1 {
        1
    } else if size <= 2 {
        2
    } else if size <= 4 {
        4
    } else if size <= 8 {
        8
    } else if size <= 16 {
        16
    } else {
        32
    }
}

// the binding of a symbol that is defined at an offset of the segment of an index
fn place_binding(local: bool, segment: u16, offset: u32) -> Binding
    ensures { result ≡ bindings.place_binding local (segment, offset) }
{
    let section = u32::from(segment).saturating_sub(1);
    let value = Value::Place { section, offset };
    if local {
        Binding::Local(value)
    } else {
        Binding::Global(value)
    }
}

// the binding of a symbol: defined, else communal, else undefined
fn binding_of(symbol: &Mentioned) -> Binding
    ensures { result ≡ bindings.binding_seen (seen_of symbol.now) }
{
    match (symbol.place, symbol.length) {
        (Some((segment, offset)), _) => place_binding(symbol.local, segment, offset),
        (None, Some(length)) => Binding::Common {
            size: length.into(),
            align: natural_align(length),
        },
        (None, None) => Binding::Undefined,
    }
}

/// The symbol of that number in the object. `NoMemory` where memory ran out. Linear in its name.
pub(crate) fn symbol_of(alloc: Global, symbol: &Mentioned, number: u32) -> Result<Symbol, NoMemory>
    ensures { IfOk result (λ y. y ≡ bindings.symbol_seen number (seen_of symbol.now)) }
{
    Ok(Symbol {
        name: Bytes::from_slice(alloc, symbol.name)?,
        binding: binding_of(symbol),
        mark: Mark::NoType,
        vis: Visibility::Default,
        size: 0,
        pinned: false,
        number,
    })
}
