//! The stage of symbols.
ghost use Rattle.std.specs.Prelude.{◌≡◌, ◌<◌, ◌+◌, length, map, nat_eq, is_some, if◌then◌else◌, None, Some, MatchOption, IfErr, IfOk, OnOk};
ghost use Rattle.std.specs.List.{range_with_len};
ghost use Rattle.oc_base.specs.Stops.{IsStop};
ghost use Rattle.oc_linking.specs.FirstFault.{first_broken, stage_fault};
ghost use Rattle.oc_strings.specs.Repeats as repeats;
ghost use Rattle.oc_elf_judge.specs.Known.{IsSymtab, AreSigned};
ghost use Rattle.oc_elf_judge.specs.Marks.{AreMarks};
ghost use Rattle.oc_elf.specs.SectionRules.{section_stage};
ghost use Rattle.oc_elf.specs.SymbolRules as rules;
ghost use Rattle.oc_elf.specs.Tables as tables;

use crate::signatures::bad_signatures;
use crate::symbols::{
    entry_fault, entry_of, is_local, name_of, symbol_count, symbol_fault, symbol_place,
};
use oc_base::{Code, Fault, NoMemory, Stop};
use oc_elf::{Frame, Shdr};
use oc_shelf::{Slots, earlier};
use oc_strings::{Repeat, first_repeat};
use std::alloc::Global;

// the name of symbol `k`, where it is nonlocal
fn public_name<'a>(frame: &Frame<'a>, table: &Shdr, k: u32) -> Option<&'a [u8]>
    requires table { IsSymtab frame.now table.now }
    requires there { k < tables.symbol_count frame.now }
    ensures { MatchOption result (rules.public_name frame.now k ≡ None) (λ name. rules.public_name frame.now k ≡ Some name.now) }
{
    if k == 0 {
        return None;
    }
    let s = entry_of(frame, table, k);
    if is_local(&s) {
        return None;
    }
    Some(name_of(frame, table, &s))
}

// those of all symbols
fn public_names<'a>(
    alloc: Global,
    frame: &Frame<'a>,
    table: &Shdr,
) -> Result<Vec<Option<&'a [u8]>>, NoMemory>
    requires { IsSymtab frame.now table.now }
    ensures { IfOk result (λ names. repeats.names_of names.items ≡ rules.public_names frame.now) }
{
    let count = symbol_count(frame, table);
    let mut names = Vec::with_capacity(alloc, count as usize)?;
    for k in 0..count {
        names.push(public_name(frame, table, k))?;
    }
    Ok(names)
}

// the first repeat of a name of nonlocal symbols
fn repeat_of(alloc: Global, frame: &Frame, table: &Shdr) -> Result<Option<Repeat>, NoMemory>
    requires { IsSymtab frame.now table.now }
    ensures { IfOk result (λ found. found ≡ repeats.first_repeat (rules.public_names frame.now)) }
{
    let names = public_names(alloc, frame, table)?;
    first_repeat(alloc, names.as_slice())
}

// whether a repeat ends at a position
fn ends_at(found: Option<Repeat>, k: u32) -> bool
    ensures { result ≡ rules.ends_at found k }
{
    match found {
        Some(repeat) => repeat.later == k as usize,
        None => false,
    }
}

// the fault of the conditions that symbol `k` meets beside others, where none before it has a fault
fn other_fault(
    frame: &Frame,
    table: &Shdr,
    found: Option<Repeat>,
    marks: &Slots,
    k: u32,
) -> Option<Fault>
    requires table { IsSymtab frame.now table.now }
    requires there { k < tables.symbol_count frame.now }
    requires repeat { rules.ends_at found k ≡ is_some (repeats.repeat_at (rules.public_names frame.now) k) }
    requires marks { AreMarks frame.now (length frame.now.headers) marks.now }
    ensures { result ≡ (if nat_eq k 0 then None else first_broken (rules.other_conditions frame.now k (tables.symbol_place frame.now k))) }
{
    if k == 0 {
        return None;
    }
    let place = symbol_place(frame, table, k);
    if ends_at(found, k) {
        return Some(symbol_fault(Code::DuplicateName, k, place));
    }
    if marks.get(k).is_some() {
        return Some(symbol_fault(Code::Group, k, place));
    }
    None
}

/// Judges the symbols.
///
/// Stops exactly where a symbol has a fault, with the first; or where memory ran out. The time is
/// linear in the symbols and that of `first_repeat` over the names, where each name is also read;
/// and that of `bad_signatures`.
pub(crate) fn check_symbols(alloc: Global, frame: &Frame, table: &Shdr) -> Result<(), Stop>
    requires sections { stage_fault (section_stage frame.now) ≡ None }
    requires table { IsSymtab frame.now table.now }
    requires signed { AreSigned frame.now }
    ensures clean { OnOk result (stage_fault (rules.symbol_stage frame.now) ≡ None) }
    ensures stop { IfErr result (IsStop (stage_fault (rules.symbol_stage frame.now))) }
{
    let found = repeat_of(alloc, frame, table)?;
    let marks = bad_signatures(alloc, frame, table)?;
    let count = symbol_count(frame, table);
    for k in 0..count {
        let own = entry_fault(frame, table, k);
        let other = other_fault(frame, table, found, &marks, k);
        match earlier(own, other) {
            Some(fault) => return Err(Stop::Refused(fault)),
            None => (),
        }
    }
    Ok(())
}
