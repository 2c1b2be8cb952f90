//! What is left of an object without some of its sections.
ghost use Rattle.std.specs.Prelude.{◌≡◌, IfOk, OnOk, length, map};
ghost use Rattle.std.specs.List.{AllByRecursion};
ghost use Rattle.oc_linking.specs.Keeping.{kept_of};
ghost use Rattle.oc_neutral.specs.Invariants.{IsMember, groups_of};
ghost use Rattle.oc_neutral.specs.Without as without;
ghost use Rattle.oc_neutral.specs.Without.{IsDetached, without_of};

mod groups_left;
mod kept;
mod moves;
mod positions;

use crate::neutral::Neutral;
use crate::relocs::Relocs;
use crate::section::Section;
use crate::symbol::Symbol;
use crate::without::groups_left::{Begun, groups_left, picked, regroup};
use crate::without::kept::keep_only;
use crate::without::moves::{Moves, moved_binding, moved_reloc};
use oc_base::NoMemory;
use oc_linking::{Binding, Fallback, Value};
use std::alloc::Global;

/// Whether the position is that of a section that does not stay. Constant time, no memory.
///
/// A position past the flags is that of no section.
pub fn is_dropped(stay: &[bool], at: u32) -> bool
    ensures { result ≡ without.is_dropped stay.now at }
{
    match stay.get(at as usize) {
        Some(stays) => !*stays,
        None => false,
    }
}

// the section in which a symbol of this binding lies
fn binding_section(binding: Binding) -> Option<u32>
    ensures { result ≡ without.binding_section binding }
{
    match binding {
        Binding::Local(Value::Place { section, .. })
        | Binding::Global(Value::Place { section, .. })
        | Binding::Weak(Fallback::Place { section, .. }) => Some(section),
        _ => None,
    }
}

/// Whether the symbol lies in a section that does not stay. Constant time, no memory.
pub fn lies_in_dropped(stay: &[bool], symbol: &Symbol) -> bool
    ensures { result ≡ without.lies_in_dropped stay.now symbol.now }
{
    match binding_section(symbol.binding) {
        Some(section) => is_dropped(stay, section),
        None => false,
    }
}

// of each symbol, whether it stays; `NoMemory` where memory ran out
fn symbols_stay(alloc: Global, stay: &[bool], symbols: &[Symbol]) -> Result<Vec<bool>, NoMemory>
    ensures { IfOk result (λ flags. flags.items ≡ without.symbols_stay stay.now symbols.now) }
{
    let mut flags = Vec::with_capacity(alloc, symbols.len())?;
    for symbol in symbols {
        flags.push(!lies_in_dropped(stay, symbol))?;
    }
    Ok(flags)
}

// leaves the relocations of the sections that stay, with the new positions of what they name;
// `NoMemory` where memory ran out, and then all is as it was
fn moved_relocs(
    alloc: Global,
    stay: &[bool],
    sections: &Moves,
    symbols: &Moves,
    relocs: &mut Relocs,
) -> Result<(), NoMemory>
    requires { length stay.now ≡ length relocs.old.lists }
    ensures { OnOk result (relocs.new.lists ≡ map (map (without.moved_field sections.now symbols.now)) (kept_of stay.now relocs.old.lists)) }
{
    relocs.leave(alloc, stay)?;
    relocs.change_items(&|reloc| moved_reloc(sections, symbols, reloc));
    Ok(())
}

// gives each symbol its binding at the new positions
fn rebind(sections: &Moves, moves: &Moves, symbols: &mut [Symbol])
    ensures { symbols.new ≡ map (without.moved_symbol sections.now moves.now) symbols.old }
{
    for symbol in symbols.iter_mut() {
        symbol.binding = moved_binding(sections, moves, symbol.binding);
    }
}

// leaves the symbols that stay, with new positions
fn symbols_left(sections: &Moves, moves: &Moves, stay: &[bool], symbols: &mut Vec<Symbol>)
    requires { length stay.now ≡ length symbols.old.items }
    ensures { symbols.new.items ≡ map (without.moved_symbol sections.now moves.now) (kept_of stay.now symbols.old.items) }
{
    keep_only(stay, symbols);
    rebind(sections, moves, symbols.as_mut_slice());
}

// leaves the sections that stay, in the groups that are left
fn sections_left(stay: &[bool], left: &Begun, sections: &mut Vec<Section>)
    requires stay { length stay.now ≡ length sections.old.items }
    requires places { without.ArePlaces left.now.groups.items left.now.places.items }
    requires members { AllByRecursion (IsMember (length left.now.places.items)) (groups_of sections.old.items) }
    ensures { sections.new.items ≡ map (without.regrouped left.now.groups.items) (kept_of stay.now sections.old.items) }
{
    keep_only(stay, sections);
    regroup(left, sections.as_mut_slice());
}

// what is left of an object; `NoMemory` where memory ran out, which is taken before anything changes
fn left_of(
    alloc: Global,
    stay: &[bool],
    flags: &[bool],
    neutral: Neutral,
) -> Result<Neutral, NoMemory>
    requires sections { length neutral.sections ≡ length stay.now }
    requires symbols { flags.now ≡ without.symbols_stay stay.now neutral.symbols }
    requires clean { IsDetached stay.now neutral }
    ensures { IfOk result (λ left. left ≡ without.left_of stay.now flags.now neutral) }
{
    neutral.is_object();
    let format = neutral.format();
    let moves = Moves::new(alloc, stay)?;
    let renamed = Moves::new(alloc, flags)?;
    let (groups, mut sections, mut symbols, mut relocs) = neutral.into_parts();
    let left = groups_left(alloc, groups.len(), stay, sections.as_slice())?;
    let groups = picked(alloc, groups.as_slice(), left.groups.as_slice())?;
    moved_relocs(alloc, stay, &moves, &renamed, &mut relocs)?;
    sections_left(stay, &left, &mut sections);
    symbols_left(&moves, &renamed, flags, &mut symbols);
    Ok(Neutral::new(format, groups, sections, symbols, relocs))
}

impl Neutral {
    /// The object with the sections whose flag is set and their relocations, and without the Locals
    /// that lie in the others. What stays keeps its order and gets new positions; groups come in
    /// the order of their first members.
    ///
    /// `NoMemory` where memory ran out: all of it is taken before anything changes. Linear in the
    /// object; sections, symbols and relocations are not copied.
    pub fn without(self, alloc: Global, kept: &[bool]) -> Result<Neutral, NoMemory>
        requires counted { length kept.now ≡ length self.sections }
        requires detached { IsDetached kept.now self }
        ensures { IfOk result (λ out. out ≡ without_of kept.now self) }
    {
        let flags = symbols_stay(alloc, kept, self.symbols())?;
        left_of(alloc, kept, flags.as_slice(), self)
    }
}
