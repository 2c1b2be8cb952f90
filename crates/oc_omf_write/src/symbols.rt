//! The entries of symbols (TIS OMF 1.1, "EXTDEF", "COMDEF" and "PUBDEF").
ghost use Rattle.std.specs.Prelude.{◌≡◌, ◌++◌, [], ◌∷◌, IfOk, OnOk, map, filter_map};
ghost use Rattle.std.specs.List.{enumerate_from};
ghost use Rattle.std.specs.Option.{option_map, option_map_or};
ghost use Rattle.oc_neutral.specs.declared.symbol.Symbol.{Symbol as HeldSymbol};
ghost use Rattle.oc_omf_file.specs.Outputs.{communal_by, communal_output, external_by, external_output, public_by, public_output, symbol_outputs};
ghost use Rattle.oc_omf_write.specs.Entries.{entry_for};

use crate::entries::Entry;
use oc_base::NoMemory;
use oc_neutral::{Binding, Neutral};
use std::alloc::Global;

// the entry of a symbol that is defined elsewhere
fn external(k: u32, binding: Binding) -> Option<Entry>
    ensures { (s : HeldSymbol) → result ≡ option_map entry_for (external_by binding k s) }
{
    match binding {
        Binding::Undefined => Some(Entry::External(k)),
        Binding::Local(_) | Binding::Global(_) | Binding::Common { .. } | Binding::Weak(_) => None,
    }
}

// that of a communal
fn communal(k: u32, binding: Binding) -> Option<Entry>
    ensures { (s : HeldSymbol) → result ≡ option_map entry_for (communal_by binding k s) }
{
    match binding {
        Binding::Common { .. } => Some(Entry::Communal(k)),
        Binding::Local(_) | Binding::Global(_) | Binding::Undefined | Binding::Weak(_) => None,
    }
}

// that of a symbol that is defined here, and seen from elsewhere
fn public(k: u32, binding: Binding) -> Option<Entry>
    ensures { (s : HeldSymbol) → result ≡ option_map entry_for (public_by binding k s) }
{
    match binding {
        Binding::Global(_) => Some(Entry::Public(k)),
        Binding::Local(_) | Binding::Undefined | Binding::Common { .. } | Binding::Weak(_) => None,
    }
}

// adds an entry, where there is one
fn give(entries: &mut Vec<Entry>, entry: Option<Entry>) -> Result<(), NoMemory>
    ensures { OnOk result (entries.new.items ≡ entries.old.items ++ option_map_or (λ e. e ∷ []) entry []) }
{
    if let Some(entry) = entry {
        entries.push(entry)?;
    }
    Ok(())
}

// adds the entries of externals
fn add_externals(entries: &mut Vec<Entry>, neutral: &Neutral) -> Result<(), NoMemory>
    ensures { OnOk result (entries.new.items ≡ entries.old.items ++ map entry_for (filter_map external_output (enumerate_from 0 neutral.now.symbols))) }
{
    for k in 0..neutral.symbol_count() {
        let entry = external(k, neutral.symbol(k).binding);
        give(entries, entry)?;
    }
    Ok(())
}

// adds those of communals
fn add_communals(entries: &mut Vec<Entry>, neutral: &Neutral) -> Result<(), NoMemory>
    ensures { OnOk result (entries.new.items ≡ entries.old.items ++ map entry_for (filter_map communal_output (enumerate_from 0 neutral.now.symbols))) }
{
    for k in 0..neutral.symbol_count() {
        let entry = communal(k, neutral.symbol(k).binding);
        give(entries, entry)?;
    }
    Ok(())
}

// adds those of publics
fn add_publics(entries: &mut Vec<Entry>, neutral: &Neutral) -> Result<(), NoMemory>
    ensures { OnOk result (entries.new.items ≡ entries.old.items ++ map entry_for (filter_map public_output (enumerate_from 0 neutral.now.symbols))) }
{
    for k in 0..neutral.symbol_count() {
        let entry = public(k, neutral.symbol(k).binding);
        give(entries, entry)?;
    }
    Ok(())
}

/// The entries of the symbols of an object: the externals, the communals and the publics. `NoMemory`
/// where memory ran out. Linear in the symbols.
pub(crate) fn symbol_entries(alloc: Global, neutral: &Neutral) -> Result<Vec<Entry>, NoMemory>
    ensures { IfOk result (λ entries. entries.items ≡ map entry_for (symbol_outputs neutral.now)) }
{
    let mut entries = Vec::new(alloc);
    add_externals(&mut entries, neutral)?;
    add_communals(&mut entries, neutral)?;
    add_publics(&mut entries, neutral)?;
    Ok(entries)
}
