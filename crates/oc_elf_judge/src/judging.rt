//! Judging a file: the first of its faults.
ghost use Rattle.std.specs.Prelude.{◌≡◌, ◌+◌, ◌<◌, ◌≤◌, ◌∷◌, length, None, Some, IfErr, IfOk, OnOk};
ghost use Rattle.oc_base.specs.declared.limits.TheConstants.{MOST_INPUT};
ghost use Rattle.oc_base.specs.Stops.{IsStop};
ghost use Rattle.oc_linking.specs.FirstFault.{first_fault, stage_fault};
ghost use Rattle.oc_shelf.specs.Reading.Slots.{AreSlots};
ghost use Rattle.oc_elf.specs.Elf.{fault_in, rest_stages};
ghost use Rattle.oc_elf.specs.Frames.{framed};
ghost use Rattle.oc_elf_judge.specs.Known.{IsAimed, IsFound};
ghost use Rattle.oc_elf.specs.RelocRules.{is_kept_section, reloc_stage, reloc_stages};
ghost use Rattle.oc_elf.specs.Sections.{table_among};
ghost use Rattle.oc_elf.specs.SectionRules.{section_stage};
ghost use Rattle.oc_elf.specs.SymbolRules.{symbol_stage};

use crate::positions::{section_positions, symbol_positions};
use crate::relocs::{Aims, check_table};
use crate::section_stage::{FoundTables, check_sections, table_header};
use crate::sections::kind_of;
use crate::symbol_stage::check_symbols;
use crate::weight::{header_weight, weigh_symbols};
use oc_base::{Fault, Stop};
use oc_elf::{ElfClass, Frame, is_carried_type, read_frame};
use oc_neutral::Keep;
use oc_shelf::Slots;
use std::alloc::Global;

/// Whether section `i` is carried and kept. Linear in its name.
pub fn is_kept(frame: &Frame, keep: &Keep, i: u32) -> bool
    ensures { result ≡ is_kept_section frame.now keep.now i }
{
    let s = frame.header(i);
    is_carried_type(s.sh_type) && keep.keeps(kind_of(frame, &s))
}

// judges the relocations of section `i`
fn check_relocs_of(
    alloc: Global,
    frame: &Frame,
    keep: &Keep,
    tables: &Slots,
    aims: &Aims,
    i: u32,
) -> Result<(), Stop>
    requires sections { stage_fault (section_stage frame.now) ≡ None }
    requires tables { AreSlots (table_among frame.now (length frame.now.headers)) (length frame.now.headers) tables.now }
    requires aims { IsAimed frame.now aims.now.table.now aims.now.sections.now aims.now.symbols.now }
    requires there { i < length frame.now.headers }
    ensures clean { OnOk result (stage_fault (reloc_stage frame.now keep.now i) ≡ None) }
    ensures stop { IfErr result (IsStop (stage_fault (reloc_stage frame.now keep.now i))) }
{
    frame.is_frame();
    if !is_kept(frame, keep, i) {
        return Ok(());
    }
    let table = table_header(frame, tables.get(i));
    match check_table(alloc, frame, aims, i, &table) {
        Err(stop) => Err(stop),
        Ok(()) => Ok(()),
    }
}

// judges the relocations of all sections that are kept
fn check_relocs(
    alloc: Global,
    frame: &Frame,
    keep: &Keep,
    tables: &Slots,
    aims: &Aims,
) -> Result<(), Stop>
    requires sections { stage_fault (section_stage frame.now) ≡ None }
    requires tables { AreSlots (table_among frame.now (length frame.now.headers)) (length frame.now.headers) tables.now }
    requires aims { IsAimed frame.now aims.now.table.now aims.now.sections.now aims.now.symbols.now }
    ensures clean { OnOk result (first_fault (reloc_stages frame.now keep.now) ≡ None) }
    ensures stop { IfErr result (IsStop (first_fault (reloc_stages frame.now keep.now))) }
{
    let count = frame.count();
    for i in 0..count {
        match check_relocs_of(alloc, frame, keep, tables, aims, i) {
            Err(stop) => return Err(stop),
            Ok(()) => (),
        }
    }
    Ok(())
}

/// What is found in a file without faults, by the numbers of section headers and of symbols.
#[derive(Drop)]
pub struct Found {
    /// What the section headers describe beside sections.
    pub tables: FoundTables,
    /// The position of each section among the carried ones.
    pub sections: Slots,
    /// The position of each symbol among the carried ones.
    pub symbols: Slots,
}

/// Judges what comes after the file header, and gives what was found on the way.
///
/// Stops exactly where there is a fault, with the first; or where memory ran out, or the names or the
/// tables weigh too much (`judge`). The time is that of `judge`.
pub fn check_rest(alloc: Global, frame: &Frame, keep: &Keep) -> Result<Found, Stop>
    ensures clean { OnOk result (first_fault (rest_stages frame.now keep.now) ≡ None) }
    ensures stop { IfErr result (IsStop (first_fault (rest_stages frame.now keep.now))) }
    ensures found { IfOk result (λ x. IsFound frame.now x.tables.symtab x.tables.relocs x.tables.owners x.sections x.symbols) }
{
    frame.is_frame();
    let names = header_weight(frame)?;
    let tables = match check_sections(alloc, frame) {
        Err(stop) => return Err(stop),
        Ok(tables) => tables,
    };
    let table = table_header(frame, tables.symtab);
    weigh_symbols(frame, &table, names)?;
    match check_symbols(alloc, frame, &table) {
        Err(stop) => return Err(stop),
        Ok(()) => (),
    }
    let sections = section_positions(alloc, frame)?;
    let symbols = symbol_positions(alloc, frame, &table, &sections)?;
    let aims = Aims {
        table: &table,
        sections: &sections,
        symbols: &symbols,
    };
    match check_relocs(alloc, frame, keep, &tables.relocs, &aims) {
        Err(stop) => Err(stop),
        Ok(()) => Ok(Found {
            tables,
            sections,
            symbols,
        }),
    }
}

/// Whether a file of at most 67,108,864 bytes is a well formed object of a class, when it is read
/// under `keep`: an error exactly where it is not, with its first fault; `NoMemory` where memory
/// ran out, or where the names weigh more than 1 GiB, or all relocation tables have more than 2^23
/// entries (`oc_weight`).
///
/// The time is linear in the sections, their bytes and their relocations, in any order of offsets,
/// and that of n log2(n) steps for n symbols, in any order of names; each name is read as often as
/// headers and symbols have it. What the worst files known take is written in docs/SAFETY.md.
pub fn judge(alloc: Global, class: ElfClass, bytes: &[u8], keep: &Keep) -> Result<(), Stop>
    requires { length bytes.now ≤ MOST_INPUT }
    ensures well_formed { OnOk result (fault_in class bytes.now keep.now ≡ None) }
    ensures fault { IfErr result (IsStop (fault_in class bytes.now keep.now)) }
{
    let frame = match read_frame(alloc, class, bytes) {
        Err(stop) => return Err(stop),
        Ok(frame) => frame,
    };
    match check_rest(alloc, &frame, keep) {
        Err(stop) => Err(stop),
        Ok(_) => Ok(()),
    }
}
