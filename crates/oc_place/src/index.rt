//! The positions of symbols by their names.
ghost use Rattle.std.specs.Prelude.{◌≡◌, ◌<◌, ◌^◌, length, IfOk, IfSome, OnOk};
ghost use Rattle.std.specs.List.Sorted.{IsPermutation, IsSorted};
ghost use Rattle.oc_linking.specs.Parts as parts;
ghost use Rattle.oc_neutral.specs.Faces.{shown_symbols};
ghost use Rattle.oc_place.specs.Indexes as indexes;
ghost use Rattle.oc_place.specs.Indexes.{IsIndex};
ghost use Rattle.oc_place.specs.Written.{names_of, symbol_named};

use oc_base::NoMemory;
use oc_linking::Binding;
use oc_neutral::{Neutral, Symbol};
use std::alloc::Global;

/// A name, and the position of its symbol.
#[derive(Clone, Copy, Debug, Drop)]
pub struct NamedSymbol<'a> {
    /// The name.
    pub name: &'a [u8],
    /// The position of its symbol, from 0.
    pub at: u32,
}

// whether a binding is Local
fn is_local(binding: Binding) -> bool
    ensures { result ≡ parts.is_local binding }
{
    matches!(binding, Binding::Local(_))
}

// lists the name of the symbol at a position, where it is not Local
fn list_name<'a>(
    names: &mut Vec<NamedSymbol<'a>>,
    symbol: &'a Symbol,
    at: u32,
) -> Result<(), NoMemory>
    ensures { OnOk result (indexes.AddsName (parts.is_local symbol.now.binding) symbol.now.name at names.old.items names.new.items) }
{
    if is_local(symbol.binding) {
        return Ok(());
    }
    names.push(NamedSymbol {
        name: symbol.name.as_slice(),
        at,
    })?;
    Ok(())
}

// the names of all symbols that are not Local
fn list_names(alloc: Global, object: &Neutral) -> Result<Vec<NamedSymbol<'_>>, NoMemory>
    ensures { IfOk result (λ names. indexes.AreListed (names_of (shown_symbols object.now)) (length object.now.symbols) names.items) }
{
    let mut names = Vec::new(alloc);
    for at in 0..object.symbol_count() {
        list_name(&mut names, object.symbol(at), at)?;
    }
    Ok(names)
}

// puts names in order
fn sort(names: &mut Vec<NamedSymbol<'_>>)
    ensures same { IsPermutation names.old.items names.new.items }
    ensures sorted { IsSorted indexes.compared names.new.items }
{
    names.sort_unstable_by(|x, y| x.name.cmp(y.name));
}

/// The names of an object's symbols that are not Local, in order. Time is that of a sort; takes
/// memory for a slice and a number of each.
pub fn index_of(alloc: Global, object: &Neutral) -> Result<Vec<NamedSymbol<'_>>, NoMemory>
    ensures { IfOk result (λ names. IsIndex (names_of (shown_symbols object.now)) names.items) }
{
    let mut names = list_names(alloc, object)?;
    sort(&mut names);
    Ok(names)
}

/// The position of the symbol with a name, among the names of an object. Time is logarithmic in
/// their number, and linear in the name; no memory.
pub(crate) fn position_of(object: &Neutral, names: &[NamedSymbol<'_>], name: &[u8]) -> Option<u32>
    requires { IsIndex (names_of (shown_symbols object.now)) names.now }
    ensures position { result ≡ symbol_named (shown_symbols object.now) name.now }
    ensures there { IfSome result (λ at. at < length object.now.symbols) }
{
    object.is_object();
    match names.binary_search_by(|named| named.name.cmp(name)) {
        Ok(index) => Some(names[index].at),
        Err(_) => None,
    }
}
