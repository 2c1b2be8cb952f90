//! The groups whose signature is a symbol of their own (gABI, "Section Groups").
ghost use Rattle.std.specs.Prelude.{◌≡◌, ◌++◌, [], ◌∷◌, if◌then◌else◌, ℕ, List, IfOk, OnOk};
ghost use Rattle.oc_base.specs.Strings.{is_given};
ghost use Rattle.oc_linking.specs.Parts as parts;
ghost use Rattle.oc_strings.specs.Tables.{texts};
ghost use Rattle.oc_neutral.specs.Building.{has_name};
ghost use Rattle.oc_neutral.specs.Elf.Family as elf;
ghost use Rattle.oc_target.specs.Sorting as sorting;
ghost use Rattle.oc_target.specs.Sorting.{IsInOrder};

use crate::locals::is_local;
use oc_base::NoMemory;
use oc_neutral::{Neutral, Symbol};
use std::alloc::Global;

// adds the name of a symbol that is not Local
fn add_nonlocal<'a>(names: &mut Vec<&'a [u8]>, symbol: &'a Symbol) -> Result<(), NoMemory>
    ensures { OnOk result (texts names.new.items ≡ texts names.old.items ++ (if parts.is_local symbol.now.binding then [] else symbol.now.name ∷ [])) }
{
    if !is_local(symbol.binding) {
        names.push(symbol.name.as_slice())?;
    }
    Ok(())
}

// the names of the symbols that are not Local
fn nonlocal_names(alloc: Global, neutral: &Neutral) -> Result<Vec<&[u8]>, NoMemory>
    ensures { IfOk result (λ names. texts names.items ≡ sorting.nonlocal_names neutral.now.symbols) }
{
    let mut names = Vec::new(alloc);
    for k in 0..neutral.symbol_count() {
        add_nonlocal(&mut names, neutral.symbol(k))?;
    }
    Ok(names)
}

// the same in ascending order
fn sorted_names(alloc: Global, neutral: &Neutral) -> Result<Vec<&[u8]>, NoMemory>
    ensures sorted { IfOk result (λ names. IsInOrder names.items) }
    ensures same { IfOk result (λ names. (q : List ℕ) → is_given (texts names.items) q ≡ has_name neutral.now.symbols q) }
{
    let mut names = nonlocal_names(alloc, neutral)?;
    names.sort_unstable();
    Ok(names)
}

// whether the name is among these
fn is_among(names: &[&[u8]], name: &[u8]) -> bool
    requires { IsInOrder names.now }
    ensures { result ≡ is_given (texts names.now) name.now }
{
    names.binary_search(&name).is_ok()
}

// how many keys of groups are not among the names
fn missing_keys(neutral: &Neutral, names: &[&[u8]]) -> u32
    requires sorted { IsInOrder names.now }
    requires same { (q : List ℕ) → is_given (texts names.now) q ≡ has_name neutral.now.symbols q }
    ensures { result ≡ elf.signature_count neutral.now }
{
    let mut count = 0;
    for k in 0..neutral.group_count() {
        count += u32::from(!is_among(names, neutral.group(k).key.as_slice()));
    }
    count
}

/// How many groups have a key that is no nonlocal name. `NoMemory` where memory ran out.
///
/// Where there are groups, the time is that of sorting the names of the symbols.
pub fn signature_count(alloc: Global, neutral: &Neutral) -> Result<u32, NoMemory>
    ensures { IfOk result (λ count. count ≡ elf.signature_count neutral.now) }
{
    if neutral.group_count() == 0 {
        return Ok(0);
    }
    let names = sorted_names(alloc, neutral)?;
    Ok(missing_keys(neutral, &names))
}
