//! The symbols: one for each function, and those that the functions call outside.
ghost use Rattle.std.specs.Prelude.{◌≡◌, ◌+◌, ◌*◌, ◌^◌, ◌<◌, ◌≤◌, ◌++◌, length, map, min, IfOk, OnOk};
ghost use Rattle.std.specs.List.{range_with_len};
ghost use Rattle.oc_made.specs.Functions as functions;

use crate::code::FUNCTION_SIZE;
use oc_base::{Bytes, NoMemory};
use oc_neutral::{Binding, Mark, Symbol, Value, Visibility};
use std::alloc::Global;

/// How many symbols are called outside, where there are as many functions.
pub(crate) const MOST_OUTSIDE: u32 = 10;

// the symbol at a position
fn symbol(
    alloc: Global,
    name: &str,
    binding: Binding,
    mark: Mark,
    position: u32,
) -> Result<Symbol, NoMemory>
    requires { position < 2 ^ 31 }
    ensures { IfOk result (λ symbol. symbol ≡ functions.symbol name.now binding mark position) }
{
    let name = Bytes::from_slice(alloc, name.as_bytes())?;
    Ok(Symbol {
        name,
        binding,
        mark,
        vis: Visibility::Default,
        size: 0,
        pinned: false,
        number: position + 2,
    })
}

// the symbol of function `i`
fn function_symbol(alloc: Global, i: u32) -> Result<Symbol, NoMemory>
    requires { i < 100000 }
    ensures { IfOk result (λ symbol. symbol ≡ functions.function_symbol i) }
{
    let name = format!(in alloc; "f_{i}")?;
    let place = Value::Place {
        section: 0,
        offset: FUNCTION_SIZE * i,
    };
    symbol(
        alloc,
        name.as_str(),
        Binding::Global(place),
        Mark::Function,
        i,
    )
}

// the symbol with number `k` of those outside, after those of so many functions
fn outside_symbol(alloc: Global, count: u32, k: u32) -> Result<Symbol, NoMemory>
    requires functions { count ≤ 100000 }
    requires outside { k < 10 }
    ensures { IfOk result (λ symbol. symbol ≡ functions.outside_symbol count k) }
{
    let name = format!(in alloc; "x_{k}")?;
    symbol(
        alloc,
        name.as_str(),
        Binding::Undefined,
        Mark::NoType,
        count + k,
    )
}

// the symbols of so many functions
fn function_symbols(alloc: Global, count: u32) -> Result<Vec<Symbol>, NoMemory>
    requires { count ≤ 100000 }
    ensures { IfOk result (λ symbols. symbols.items ≡ map functions.function_symbol (range_with_len 0 count)) }
{
    let mut symbols = Vec::new(alloc);
    for i in 0..count {
        symbols.push(function_symbol(alloc, i)?)?;
    }
    Ok(symbols)
}

/// All symbols: those of so many functions, and then those outside. `NoMemory` where memory ran out.
/// Linear in them.
pub(crate) fn symbols_of(alloc: Global, count: u32) -> Result<Vec<Symbol>, NoMemory>
    requires { count ≤ 100000 }
    ensures { IfOk result (λ symbols. symbols.items ≡ functions.symbols_of count) }
{
    let mut symbols = function_symbols(alloc, count)?;
    let outside = count.min(MOST_OUTSIDE);
    for k in 0..outside {
        symbols.push(outside_symbol(alloc, count, k)?)?;
    }
    Ok(symbols)
}
