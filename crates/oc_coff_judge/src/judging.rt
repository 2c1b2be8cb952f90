//! Judging a file: the first of its faults.
ghost use Rattle.std.specs.Prelude.{◌≡◌, ℕ, ◌+◌, ◌<◌, length, slice_get, None, Some, IfErr, IfOk, OnOk};
ghost use Rattle.oc_base.specs.Stops.{IsStop};
ghost use Rattle.oc_linking.specs.FirstFault.{first_fault, stage_fault};
ghost use Rattle.oc_coff.specs.RelocationFaults.{relocation_stage};
ghost use Rattle.oc_coff.specs.SectionFaults.{section_stage};
ghost use Rattle.oc_coff.specs.Sections as sections;
ghost use Rattle.oc_coff.specs.Tables as tables;
ghost use Rattle.oc_coff.specs.Files as files;
ghost use Rattle.oc_coff_judge.specs.Aimed.{aims_in};
ghost use Rattle.oc_coff_judge.specs.Found.{IsFound};
ghost use Rattle.oc_coff_judge.specs.Relocs as relocs;

use crate::aims::aims_of;
use crate::found::{Found, found_in};
use crate::relocs::{Aims, RelocTable, check_table};
use crate::section_stage::check_sections;
use crate::sections::kind_in;
use crate::symbol_stage::check_symbols;
use crate::weight::{section_weight, weigh_relocs, weigh_symbols};
use oc_base::{Stop, Word, u32_in};
use oc_coff::{Coff, RELOCATION_SIZE, SectionHeader, Shape, is_overflowed, is_stored};
use oc_neutral::{Keep, Kind};
use std::alloc::Global;

// where the relocation entries of a section begin in the file, after the one that has their count
fn relocs_place(h: &SectionHeader) -> u64
    ensures { result ≡ tables.relocs_place h.now }
{
    let at = u64::from(h.PointerToRelocations);
    if is_overflowed(h) {
        return at + RELOCATION_SIZE as u64;
    }
    at
}

/// How many a section of the file with that header has, without the one that has their count. Constant
/// time.
pub(crate) fn reloc_count(coff: &Coff, h: &SectionHeader) -> u32
    requires clean { stage_fault (section_stage coff.now.bytes (files.tables_in coff.now)) ≡ None }
    requires here { (i : ℕ) × (slice_get (files.tables_in coff.now).sections i ≡ Some (tables.section_table coff.now.bytes h.now)) }
    ensures { result ≡ tables.reloc_count coff.now.bytes h.now }
{
    if !is_overflowed(h) {
        return h.NumberOfRelocations.into();
    }
    u32_in(coff.file(), h.PointerToRelocations as usize) - 1
}

/// The relocation table of section `i`, counted from 0, which has that header and kind. Constant time.
#[tactic(auto, unfolding(oc_coff::specs::Tables::tables_of))]
pub fn table_of(coff: &Coff, i: u32, h: &SectionHeader, kind: Kind) -> RelocTable
    requires clean { stage_fault (section_stage coff.now.bytes (files.tables_in coff.now)) ≡ None }
    requires here { slice_get (files.tables_in coff.now).sections i ≡ Some (tables.section_table coff.now.bytes h.now) }
    requires carried { sections.kind_in (files.tables_in coff.now).strings h.now ≡ Some kind }
    ensures { relocs.IsTable coff.now i result }
{
    coff.is_headed();
    RelocTable {
        size: h.SizeOfRawData,
        stored: is_stored(Some(kind), h),
        place: relocs_place(h),
        count: reloc_count(coff, h),
    }
}

// judges the relocation entries of section `i`, counted from 0, where it is kept
fn check_relocs_of(alloc: Global, coff: &Coff, keep: &Keep, aims: &Aims, i: u32) -> Result<(), Stop>
    requires clean { stage_fault (section_stage coff.now.bytes (files.tables_in coff.now)) ≡ None }
    requires aims { aims.now.symbols.now ≡ aims_in (files.tables_in coff.now) }
    requires there { i < length (files.tables_in coff.now).sections }
    ensures clean { OnOk result (relocs.relocs_fault aims.now.word (files.tables_in coff.now) keep.now i ≡ None) }
    ensures stop { IfErr result (IsStop (relocs.relocs_fault aims.now.word (files.tables_in coff.now) keep.now i)) }
{
    coff.has_few();
    let h = coff.section(i);
    match kind_in(coff, &h) {
        Some(kind) => {
            if !keep.keeps(kind) {
                return Ok(());
            }
            let table = table_of(coff, i, &h, kind);
            match check_table(alloc, coff, aims, i, &table) {
                Err(stop) => Err(stop),
                Ok(()) => Ok(()),
            }
        }
        None => Ok(()),
    }
}

// judges those of all sections that are kept
fn check_relocs(alloc: Global, coff: &Coff, keep: &Keep, aims: &Aims) -> Result<(), Stop>
    requires clean { stage_fault (section_stage coff.now.bytes (files.tables_in coff.now)) ≡ None }
    requires aims { aims.now.symbols.now ≡ aims_in (files.tables_in coff.now) }
    ensures clean { OnOk result (stage_fault (relocation_stage aims.now.word (files.tables_in coff.now) keep.now) ≡ None) }
    ensures stop { IfErr result (IsStop (stage_fault (relocation_stage aims.now.word (files.tables_in coff.now) keep.now))) }
{
    let count = coff.section_count();
    for i in 0..count {
        match check_relocs_of(alloc, coff, keep, aims, i) {
            Err(stop) => return Err(stop),
            Ok(()) => (),
        }
    }
    Ok(())
}

// judges the sections
fn check_headers(coff: &Coff, found: &Found) -> Result<(), Stop>
    requires { IsFound coff.now found.now }
    ensures clean { OnOk result (stage_fault (section_stage coff.now.bytes (files.tables_in coff.now)) ≡ None) }
    ensures stop { IfErr result (IsStop (stage_fault (section_stage coff.now.bytes (files.tables_in coff.now)))) }
{
    match check_sections(coff, &found.owners()) {
        Err(fault) => Err(Stop::Refused(fault)),
        Ok(()) => Ok(()),
    }
}

/// Judges what comes after the file header, under `keep`, and gives what was found on the way.
///
/// Stops exactly where there is a fault, with the first; or where memory ran out. The time is that
/// of n log2(n) steps for n symbols or relocations, in any order of names and offsets. Each name is
/// read a few times for each section and symbol that has it, and compared as `first_repeat` says.
/// Where no NUL ends a name, that is known in constant time. Names that weigh more than 1 GiB, and
/// tables of more than 2^23 relocations, count as lack of memory before any is judged
/// (`oc_weight`).
pub fn check_rest(alloc: Global, word: Word, coff: &Coff, keep: &Keep) -> Result<Found, Stop>
    ensures clean { OnOk result (first_fault (relocs.rest_stages word coff.now keep.now) ≡ None) }
    ensures stop { IfErr result (IsStop (first_fault (relocs.rest_stages word coff.now keep.now))) }
    ensures found { IfOk result (λ x. IsFound coff.now x) }
{
    let names = section_weight(coff)?;
    let found = found_in(alloc, coff)?;
    weigh_symbols(coff, &found, names)?;
    match check_headers(coff, &found) {
        Err(stop) => return Err(stop),
        Ok(()) => (),
    }
    weigh_relocs(coff)?;
    match check_symbols(alloc, coff, &found) {
        Err(stop) => return Err(stop),
        Ok(()) => (),
    }
    let symbols = aims_of(alloc, coff, &found)?;
    let aims = Aims {
        word,
        symbols: symbols.as_slice(),
    };
    match check_relocs(alloc, coff, keep, &aims) {
        Err(stop) => Err(stop),
        Ok(()) => Ok(found),
    }
}
