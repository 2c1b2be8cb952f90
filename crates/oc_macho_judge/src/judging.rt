//! Judging a file: the first of its faults.
ghost use Rattle.std.specs.Prelude.{◌≡◌, ◌<◌, ◌≤◌, length, None, Some, IfErr, IfOk, OnOk};
ghost use Rattle.oc_base.specs.declared.limits.TheConstants.{MOST_INPUT};
ghost use Rattle.oc_base.specs.Stops.{IsStop};
ghost use Rattle.oc_linking.specs.FirstFault.{first_fault, stage_fault};
ghost use Rattle.oc_macho.specs.Framed as framed;
ghost use Rattle.oc_macho_judge.specs.Holders.{AreHolders};
ghost use Rattle.oc_macho.specs.RelocationFaults as rules;
ghost use Rattle.oc_macho.specs.Rules.{fault_of, rest_stages};
ghost use Rattle.oc_macho.specs.SectionFaults.{section_stage};
ghost use Rattle.oc_macho.specs.Tables.{tables_of};

use crate::holders::Holders;
use crate::relocs::check_table;
use crate::section_stage::check_sections;
use crate::symbol_stage::check_symbols;
use crate::weight::{weigh_relocs, weigh_symbols};
use oc_base::{Fault, Stop, Word};
use oc_macho::{Frame, kind_of, read_frame};
use oc_neutral::Keep;
use std::alloc::Global;

/// What judging finds in a file that has no fault.
#[derive(Drop)]
pub struct Found<'a> {
    /// The tables of the file.
    pub frame: Frame<'a>,
    /// The sections by the addresses that the file gives to them.
    pub holders: Holders,
}

// judges the relocations of section `i`, counted from 0, where it is kept
fn check_relocs_of(
    alloc: Global,
    frame: &Frame,
    holders: &Holders,
    keep: &Keep,
    i: u32,
) -> Result<(), Stop>
    requires holders { AreHolders frame.now holders.now }
    requires sections { stage_fault (section_stage frame.now) ≡ None }
    requires there { i < length frame.now.sections }
    ensures clean { OnOk result (stage_fault (rules.relocation_stage frame.now keep.now i) ≡ None) }
    ensures stop { IfErr result (IsStop (stage_fault (rules.relocation_stage frame.now keep.now i))) }
{
    let h = frame.section(i);
    if !keep.keeps(kind_of(&h)) {
        return Ok(());
    }
    frame.has_entries(i, &h);
    match check_table(alloc, frame, holders, i, &h) {
        Err(stop) => Err(stop),
        Ok(()) => Ok(()),
    }
}

// the sections by their addresses, where the relocations of all sections that are kept have no fault
fn check_relocs(alloc: Global, frame: &Frame, keep: &Keep) -> Result<Holders, Stop>
    requires sections { stage_fault (section_stage frame.now) ≡ None }
    ensures clean { OnOk result (first_fault (rules.relocation_stages frame.now keep.now) ≡ None) }
    ensures holders { IfOk result (λ h. AreHolders frame.now h) }
    ensures stop { IfErr result (IsStop (first_fault (rules.relocation_stages frame.now keep.now))) }
{
    let holders = Holders::of(alloc, frame)?;
    let count = frame.section_count();
    for i in 0..count {
        match check_relocs_of(alloc, frame, &holders, keep, i) {
            Err(stop) => return Err(stop),
            Ok(()) => (),
        }
    }
    Ok(holders)
}

// the sections by their addresses, where what comes after the header has no fault
fn check_rest(alloc: Global, frame: &Frame, keep: &Keep) -> Result<Holders, Stop>
    ensures clean { OnOk result (first_fault (rest_stages frame.now keep.now) ≡ None) }
    ensures holders { IfOk result (λ h. AreHolders frame.now h) }
    ensures stop { IfErr result (IsStop (first_fault (rest_stages frame.now keep.now))) }
{
    weigh_relocs(frame)?;
    weigh_symbols(frame)?;
    match check_sections(frame) {
        Err(fault) => return Err(Stop::Refused(fault)),
        Ok(()) => (),
    }
    match check_symbols(alloc, frame) {
        Err(stop) => return Err(stop),
        Ok(()) => (),
    }
    match check_relocs(alloc, frame, keep) {
        Err(stop) => Err(stop),
        Ok(holders) => Ok(holders),
    }
}

/// What is found in a file of at most 67,108,864 bytes, where it is a well formed object of the
/// word when it is read under `keep`: an error exactly where it is not, with its first fault;
/// `NoMemory` where memory ran out.
///
/// The time is linear in the relocations and in the bytes of their sections, in any order of
/// offsets, and that of n log2(n) steps for n sections or symbols, in any order of names and
/// addresses; each scattered relocation takes the logarithm of the number of sections. Each name is
/// read a few times for each symbol that has it, and compared as `first_repeat` says. Strings after
/// the last NUL are read once. Names that weigh more than 1 GiB, and tables of more than 2^23
/// relocations, count as lack of memory before any is judged (`oc_weight`). What the worst files
/// known take is written in docs/SAFETY.md.
pub fn judged<'a>(
    alloc: Global,
    word: Word,
    bytes: &'a [u8],
    keep: &Keep,
) -> Result<Found<'a>, Stop>
    requires { length bytes.now ≤ MOST_INPUT }
    ensures well_formed { OnOk result (fault_of word bytes.now keep.now ≡ None) }
    ensures frame { IfOk result (λ found. found.frame ≡ tables_of word bytes.now) }
    ensures holders { IfOk result (λ found. AreHolders found.frame found.holders) }
    ensures rest { IfOk result (λ found. first_fault (rest_stages found.frame keep.now) ≡ None) }
    ensures fault { IfErr result (IsStop (fault_of word bytes.now keep.now)) }
{
    let frame = match read_frame(word, bytes) {
        Err(fault) => return Err(Stop::Refused(fault)),
        Ok(frame) => frame,
    };
    match check_rest(alloc, &frame, keep) {
        Err(stop) => Err(stop),
        Ok(holders) => Ok(Found { frame, holders }),
    }
}
