//! Which groups have their key symbol in the object, and which sections have it in them.
ghost use Rattle.std.specs.Prelude.{◌≡◌, ℕ, ◌&&◌, not, IfOk, length, nat_eq, false, slice_index_or};
ghost use Rattle.std.specs.List.{list_any};
ghost use Rattle.std.specs.Option.{option_map_or};
ghost use Rattle.oc_linking.specs.Parts as parts;
ghost use Rattle.oc_neutral.specs.KeySymbols.{is_key_at, lies_in};
ghost use Rattle.oc_neutral.specs.KeySymbols as keys;
ghost use Rattle.oc_neutral.specs.Faces as faces;
ghost use Rattle.oc_neutral.specs.KindRules as rules;
ghost use Rattle.oc_target.specs.Found.{held};
ghost use Rattle.oc_target.specs.Keyed as places;
ghost use Rattle.oc_target.specs.Marks.{AreCut, AreKeyed, AreMarkedAlso, AreMarkedBelow};

use crate::locals::is_local;
use oc_base::NoMemory;
use oc_neutral::{Binding, Neutral, Symbol, Value};
use std::alloc::Global;

/// The section and the offset in it where a Global lies, if its value is a place. Constant time.
pub fn global_place(binding: Binding) -> Option<(u32, u32)>
    ensures { result ≡ keys.global_place binding }
{
    match binding {
        Binding::Global(Value::Place { section, offset }) => Some((section, offset)),
        _ => None,
    }
}

/// The group of the section at a position, where there is one. Constant time.
pub fn group_at(neutral: &Neutral, section: u32) -> Option<u32>
    ensures { result ≡ keys.group_at neutral.now section }
{
    if section >= neutral.section_count() {
        return None;
    }
    neutral.section(section).group
}

// the group whose key symbol this is
fn keyed_group(neutral: &Neutral, symbol: &Symbol) -> Option<u32>
    ensures { (g : ℕ) → (lies_in neutral.now g symbol.now && keys.is_key_name neutral.now symbol.now.name g) ≡ option_map_or (nat_eq g) result false }
{
    let (section, _) = global_place(symbol.binding)?;
    let group = group_at(neutral, section)?;
    let key = key_of(neutral, group)?;
    if key == symbol.name.as_slice() {
        Some(group)
    } else {
        None
    }
}

// whether the name is the key of the group of the section at a position
fn is_key_in(neutral: &Neutral, section: u32, name: &[u8]) -> bool
    ensures { result ≡ option_map_or (keys.is_key_name neutral.now name.now) (keys.group_at neutral.now section) false }
{
    let Some(group) = group_at(neutral, section) else {
        return false;
    };
    match key_of(neutral, group) {
        Some(key) => name == key,
        None => false,
    }
}

/// Whether a symbol is the key symbol of the group of its section. Linear in its name, no memory.
pub fn is_key(neutral: &Neutral, symbol: &Symbol) -> bool
    ensures { result ≡ keys.is_key neutral.now symbol.now }
{
    match global_place(symbol.binding) {
        Some((section, _)) => is_key_in(neutral, section, symbol.name.as_slice()),
        None => false,
    }
}

/// Whether a symbol is not Local, and no key symbol. Linear in its name, no memory.
pub fn is_unkeyed(neutral: &Neutral, symbol: &Symbol) -> bool
    ensures { result ≡ (not (parts.is_local symbol.now.binding) && not (keys.is_key neutral.now symbol.now)) }
{
    !is_local(symbol.binding) && !is_key(neutral, symbol)
}

/// The section in which a symbol is the key symbol of the section's group. Linear in its name, no memory.
#[tactic(auto, using(crate::proofs::KeyPlaces::key_at_place))]
pub fn key_place(neutral: &Neutral, symbol: &Symbol) -> Option<u32>
    ensures place { result ≡ places.key_place neutral.now symbol.now }
    ensures test { (k : ℕ) → option_map_or (nat_eq k) result false ≡ is_key_at neutral.now k symbol.now }
{
    let (section, _) = global_place(symbol.binding)?;
    if is_key_in(neutral, section, symbol.name.as_slice()) {
        Some(section)
    } else {
        None
    }
}

/// Marks the one at a position, where it exists. Constant time, no memory.
pub(crate) fn mark(marked: &mut Vec<bool>, group: Option<u32>)
    ensures marked { AreMarkedAlso (λ g. option_map_or (nat_eq g) group false) marked.old.items marked.new.items }
    ensures counted { length marked.new.items ≡ length marked.old.items }
{
    let Some(group) = group else {
        return;
    };
    if let Some(slot) = marked.get_mut(group as usize) {
        *slot = true;
    }
}

/// For each group whether it has its key symbol: a Global with a place in a member, whose name is the
/// key. `NoMemory` where memory ran out. Time is linear in the symbols and their names.
pub fn keyed_groups(alloc: Global, neutral: &Neutral) -> Result<Vec<bool>, NoMemory>
    ensures { IfOk result (λ keyed. AreKeyed neutral.now keyed.items) }
{
    let mut keyed = vec![in alloc; false; neutral.group_count() as usize]?;
    for k in 0..neutral.symbol_count() {
        mark(&mut keyed, keyed_group(neutral, neutral.symbol(k)));
    }
    Ok(keyed)
}

/// For each section whether the key symbol of its group lies in it. `NoMemory` where memory ran out.
/// Time is linear in the symbols and their names.
pub fn keyed_sections(alloc: Global, neutral: &Neutral) -> Result<Vec<bool>, NoMemory>
    ensures { IfOk result (λ keyed. AreMarkedBelow (length neutral.now.sections) (λ k. list_any (is_key_at neutral.now k) neutral.now.symbols) keyed.items) }
{
    let mut keyed = vec![in alloc; false; neutral.section_count() as usize]?;
    for k in 0..neutral.symbol_count() {
        mark(&mut keyed, key_place(neutral, neutral.symbol(k)));
    }
    Ok(keyed)
}

/// For each group whether its key has a NUL. `NoMemory` where memory ran out. Time is linear in the
/// keys.
pub fn cut_keys(alloc: Global, neutral: &Neutral) -> Result<Vec<bool>, NoMemory>
    ensures { IfOk result (λ cut. AreCut neutral.now cut.items) }
{
    let mut cut = Vec::new(alloc);
    for k in 0..neutral.group_count() {
        cut.push(has_nul(neutral.group(k).key.as_slice()))?;
    }
    Ok(cut)
}

/// Whether a NUL is among the bytes. Linear time, no memory.
pub fn has_nul(name: &[u8]) -> bool
    ensures { result ≡ rules.has_nul name.now }
{
    name.iter().any(|byte| 0 == *byte)
}

/// The key of the group at a position, where it exists. Constant time, no memory.
pub fn key_of(neutral: &Neutral, group: u32) -> Option<&[u8]>
    ensures { held result ≡ faces.key_of neutral.now.groups group }
{
    if group >= neutral.group_count() {
        return None;
    }
    Some(neutral.group(group).key.as_slice())
}

/// Whether that one is marked; none past the end is. Constant time.
pub fn is_marked(marked: &[bool], at: usize) -> bool
    ensures { result ≡ slice_index_or marked.now at false }
{
    at < marked.len() && marked[at]
}
