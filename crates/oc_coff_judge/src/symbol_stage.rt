//! The stage of symbols.
ghost use Rattle.std.specs.Prelude.{◌≡◌, ◌+◌, ◌<◌, length, None, Some, MatchOption, IfErr, IfOk, OnOk};
ghost use Rattle.oc_base.specs.Stops.{IsStop};
ghost use Rattle.oc_linking.specs.FirstFault.{first_broken, stage_fault};
ghost use Rattle.oc_strings.specs.Repeats as repeats;
ghost use Rattle.oc_coff.specs.Entries as entries;
ghost use Rattle.oc_coff.specs.Sections as sections;
ghost use Rattle.oc_coff.specs.SymbolFaults as rules;
ghost use Rattle.oc_coff.specs.Symbols as symbols;
ghost use Rattle.oc_coff.specs.Files as files;
ghost use Rattle.oc_coff_judge.specs.Classed as classed;
ghost use Rattle.oc_coff_judge.specs.Found.{ArePositions, IsFound};
ghost use Rattle.oc_coff_judge.specs.Numbered.{AreNumbers, entry_by};

use crate::copies::has_section;
use crate::found::{Found, tagged_by};
use crate::owners::number_at;
use crate::symbols::{
    class_fault, has_home, is_external, is_weak, name_of, place_fault, symbol_fault,
};
use oc_base::{Code, Fault, NoMemory, Stop};
use oc_coff::{
    Coff, IMAGE_SYM_ABSOLUTE, IMAGE_SYM_CLASS_EXTERNAL, IMAGE_SYM_CLASS_STATIC, IMAGE_SYM_DEBUG,
    SymbolEntry,
};
use oc_shelf::{Slots, earlier};
use oc_strings::{Repeat, first_repeat};
use std::alloc::Global;

// whether a weak external may tag a symbol
fn can_be_tagged(positions: &Slots, s: &SymbolEntry) -> bool
    ensures { (file : files.CoffFile) → ArePositions file positions.now
        → result ≡ rules.can_be_tagged (sections.sections_in (files.tables_in file)) s.now }
{
    let placed = has_home(positions, s);
    s.StorageClass == IMAGE_SYM_CLASS_STATIC
        && (s.SectionNumber == IMAGE_SYM_ABSOLUTE && s.Value == 0 || placed)
        || s.StorageClass == IMAGE_SYM_CLASS_EXTERNAL && s.SectionNumber != IMAGE_SYM_DEBUG
}

// the fault of the conditions on what symbol `j` tags, where it is a weak external
fn tag_fault(coff: &Coff, found: &Found, j: u32) -> Option<Fault>
    requires found { IsFound coff.now found.now }
    requires there { j < length (files.tables_in coff.now).entries }
    ensures { result ≡ first_broken (classed.tags_of (files.tables_in coff.now) (entry_by coff.now j)) }
{
    let s = coff.symbol(j);
    if !is_weak(&s) {
        return None;
    }
    match tagged_by(coff, &found.starts, j) {
        Some(d) => {
            let tagged = coff.symbol(d);
            if can_be_tagged(&found.sections, &tagged) {
                None
            } else {
                symbol_fault(coff, j, Code::SymbolKind)
            }
        }
        None => symbol_fault(coff, j, Code::BadSymbol),
    }
}

// the fault of the conditions on the section and the name of symbol `j`, whose name occurred before
// or did not
fn name_fault(coff: &Coff, positions: &Slots, j: u32, s: &SymbolEntry, again: bool) -> Option<Fault>
    requires positions { ArePositions coff.now positions.now }
    requires there { j < length (files.tables_in coff.now).entries }
    ensures { result ≡ first_broken (classed.names_of (files.tables_in coff.now) j s.now
        (entries.name_of (files.tables_in coff.now).strings (entry_by coff.now j)) again) }
{
    let external = s.StorageClass == IMAGE_SYM_CLASS_EXTERNAL;
    if external && has_section(s) && !has_home(positions, s) {
        return symbol_fault(coff, j, Code::SymbolKind);
    }
    if is_external(s) && name_of(coff, j).is_empty() {
        return symbol_fault(coff, j, Code::SymbolKind);
    }
    if again {
        return symbol_fault(coff, j, Code::DuplicateName);
    }
    None
}

// the fault of symbol `j`, whose name occurred before or did not
fn judge_symbol(coff: &Coff, found: &Found, j: u32, again: bool) -> Option<Fault>
    requires found { IsFound coff.now found.now }
    requires there { j < length (files.tables_in coff.now).entries }
    ensures { result ≡ first_broken (classed.parts_of (files.tables_in coff.now) (entry_by coff.now j) again) }
{
    let s = coff.symbol(j);
    let name = name_fault(coff, &found.sections, j, &s, again);
    let tag = earlier(tag_fault(coff, found, j), name);
    let class = earlier(class_fault(coff, j, &s), tag);
    earlier(place_fault(coff, j, &s), class)
}

// the name of symbol `j`, where it takes part in the test for names that occur twice
#[tactic(auto, unfolding(crate::specs::Numbered::entry_by))]
fn public_name<'a>(coff: &Coff<'a>, j: u32) -> Option<&'a [u8]>
    requires { j < length (files.tables_in coff.now).entries }
    ensures { MatchOption result (classed.public_name_by coff.now j ≡ None) (λ name. classed.public_name_by coff.now j ≡ Some name.now) }
{
    let s = coff.symbol(j);
    if is_external(&s) && s.SectionNumber != IMAGE_SYM_DEBUG {
        return Some(name_of(coff, j));
    }
    None
}

// those of all symbols, by position
fn public_names<'a>(
    alloc: Global,
    coff: &Coff<'a>,
    numbers: &[u32],
) -> Result<Vec<Option<&'a [u8]>>, NoMemory>
    requires { AreNumbers coff.now numbers.now }
    ensures { IfOk result (λ names. repeats.names_of names.items ≡ classed.public_names (files.tables_in coff.now)) }
{
    let end = numbers.len();
    let mut names = Vec::with_capacity(alloc, end)?;
    for i in 0..end {
        let j = number_at(numbers, i);
        names.push(public_name(coff, j))?;
    }
    Ok(names)
}

// the first repeat of these
fn repeat_of(alloc: Global, coff: &Coff, numbers: &[u32]) -> Result<Option<Repeat>, NoMemory>
    requires { AreNumbers coff.now numbers.now }
    ensures { IfOk result (λ found. found ≡ repeats.first_repeat (classed.public_names (files.tables_in coff.now))) }
{
    let names = public_names(alloc, coff, numbers)?;
    first_repeat(alloc, names.as_slice())
}

// whether a repeat ends at a position
fn ends_at(found: Option<Repeat>, i: usize) -> bool
    ensures { result ≡ classed.ends_at found i }
{
    match found {
        Some(repeat) => repeat.later == i,
        None => false,
    }
}

/// Judges the symbols.
///
/// Stops exactly where a symbol has a fault, with the first; or where memory ran out. The time is
/// linear in the symbols and their names, and that of `first_repeat` over the names.
pub(crate) fn check_symbols(alloc: Global, coff: &Coff, found: &Found) -> Result<(), Stop>
    requires { IsFound coff.now found.now }
    ensures clean { OnOk result (stage_fault (rules.symbol_stage (files.tables_in coff.now)) ≡ None) }
    ensures stop { IfErr result (IsStop (stage_fault (rules.symbol_stage (files.tables_in coff.now)))) }
{
    let numbers = found.numbers.as_slice();
    let end = numbers.len();
    let repeat = repeat_of(alloc, coff, numbers)?;
    for i in 0..end {
        let j = number_at(numbers, i);
        match judge_symbol(coff, found, j, ends_at(repeat, i)) {
            Some(fault) => return Err(Stop::Refused(fault)),
            None => (),
        }
    }
    Ok(())
}
