//! The stage of symbols.
ghost use Rattle.std.specs.Prelude.{◌≡◌, ◌<◌, length, None, Some, MatchOption, IfErr, IfOk, OnOk};
ghost use Rattle.oc_base.specs.Stops.{IsStop};
ghost use Rattle.oc_linking.specs.FirstFault.{stage_fault};
ghost use Rattle.oc_strings.specs.Repeats as repeats;
ghost use Rattle.oc_macho_judge.specs.Judged as judged;
ghost use Rattle.oc_macho.specs.SymbolFaults as rules;

use crate::symbols::{entry_fault, is_external, is_stab, name_of};
use oc_base::{NoMemory, Stop};
use oc_macho::{Frame, Nlist};
use oc_strings::{Repeat, first_repeat};
use std::alloc::Global;

// the name of a symbol, where it is external
fn public_name<'a>(frame: &Frame<'a>, s: &Nlist) -> Option<&'a [u8]>
    ensures { MatchOption result (rules.public_name frame.now s.now ≡ None) (λ name. rules.public_name frame.now s.now ≡ Some name.now) }
{
    if is_stab(s) || !is_external(s) {
        return None;
    }
    Some(name_of(frame, s))
}

// those of all symbols
fn public_names<'a>(alloc: Global, frame: &Frame<'a>) -> Result<Vec<Option<&'a [u8]>>, NoMemory>
    ensures { IfOk result (λ names. repeats.names_of names.items ≡ rules.public_names frame.now) }
{
    let count = frame.symbol_count();
    let mut names = Vec::with_capacity(alloc, count as usize)?;
    for j in 0..count {
        names.push(public_name(frame, &frame.symbol(j)))?;
    }
    Ok(names)
}

// the first repeat of these
fn repeat_of(alloc: Global, frame: &Frame) -> Result<Option<Repeat>, NoMemory>
    ensures { IfOk result (λ found. found ≡ repeats.first_repeat (rules.public_names frame.now)) }
{
    let names = public_names(alloc, frame)?;
    first_repeat(alloc, names.as_slice())
}

// whether a repeat ends at a position
fn ends_at(found: Option<Repeat>, j: u32) -> bool
    ensures { result ≡ judged.ends_at found j }
{
    match found {
        Some(repeat) => repeat.later == j as usize,
        None => false,
    }
}

/// Judges the symbols.
///
/// Stops exactly where a symbol has a fault, with the first; or where memory ran out. The time is
/// linear in the symbols and their names, and that of `first_repeat` over the names.
pub(crate) fn check_symbols(alloc: Global, frame: &Frame) -> Result<(), Stop>
    ensures clean { OnOk result (stage_fault (rules.symbol_stage frame.now) ≡ None) }
    ensures stop { IfErr result (IsStop (stage_fault (rules.symbol_stage frame.now))) }
{
    let found = repeat_of(alloc, frame)?;
    let count = frame.symbol_count();
    for j in 0..count {
        match entry_fault(frame, j, &frame.symbol(j), ends_at(found, j)) {
            Some(fault) => return Err(Stop::Refused(fault)),
            None => (),
        }
    }
    Ok(())
}
