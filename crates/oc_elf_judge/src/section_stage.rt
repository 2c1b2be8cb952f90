//! The stage of section headers.
ghost use Rattle.std.specs.Prelude.{◌≡◌, ◌+◌, ◌<◌, ◌≤◌, length, if◌then◌else◌, true, None, Some, slice_set, IfErr, IfOk, IfNone, OnOk};
ghost use Rattle.std.specs.Option.{unwrap_or};
ghost use Rattle.oc_base.specs.declared.limits.TheConstants.{MOST_CONTENTS};
ghost use Rattle.oc_base.specs.Stops.{IsStop};
ghost use Rattle.oc_linking.specs.Numbers.{or_else};
ghost use Rattle.oc_linking.specs.FirstFault.{first_broken, stage_fault};
ghost use Rattle.oc_shelf.specs.Reading.Slots.{AreSlots};
ghost use Rattle.oc_shelf.specs.Reading.Sums.{sum_upto};
ghost use Rattle.oc_elf.specs.Classes.{reloc_type, word_of};
ghost use Rattle.oc_elf.specs.Frames.{header_at};
ghost use Rattle.oc_elf.specs.Groups.{owner_among};
ghost use Rattle.oc_elf.specs.Sections as sections;
ghost use Rattle.oc_elf.specs.SectionRules as rules;

use crate::groups::group_fault;
use crate::sections::{Sums, carried_fault, counted, form_fault, table_fault};
use oc_base::{Fault, Stop};
use oc_elf::{Frame, SHT_SYMTAB, Shdr, first_of, reloc_type};
use oc_shelf::{Slots, earlier};
use std::alloc::Global;

/// What the section headers of a file describe beside sections, by the numbers of headers.
#[derive(Drop)]
pub struct FoundTables {
    /// The symbol table.
    pub symtab: Option<u32>,
    /// The relocation table of each section.
    pub relocs: Slots,
    /// The group of each section.
    pub owners: Slots,
}

/// The header of a table that may be absent: header 0, which describes nothing, where it is. Constant
/// time.
pub fn table_header(frame: &Frame, number: Option<u32>) -> Shdr
    ensures { result ≡ header_at frame.now.headers (unwrap_or number 0) }
{
    frame.header(number.unwrap_or(0))
}

// the fault of the conditions on section `k`, where `first` is the first symbol table before, and
// `before` the relocation table of the same section before; records the members of a group without
// a fault
#[tactic(auto, unfolding(oc_elf::specs::SectionRules::section_conditions, oc_elf::specs::SectionRules::conditions_on))]
fn judge_section(
    frame: &Frame,
    owners: &mut Slots,
    first: Option<u32>,
    before: Option<u32>,
    sums: Sums,
    k: u32,
) -> Option<Fault>
    requires there { k < length frame.now.headers }
    requires owners { AreSlots (owner_among frame.now k) (length frame.now.headers) owners.old }
    requires first { first ≡ sections.symtab_among frame.now k }
    requires before { (header_at frame.now.headers k).sh_info < length frame.now.headers
        → before ≡ sections.table_among frame.now k (header_at frame.now.headers k).sh_info }
    requires sizes { (sums.sizes ≡ sum_upto (rules.size_counted frame.now) k) × (sums.sizes ≤ 2147483648) }
    requires bytes { (sums.bytes ≡ sum_upto (rules.bytes_counted frame.now) k) × (sums.bytes ≤ MOST_CONTENTS) }
    ensures verdict { result ≡ first_broken (rules.section_conditions frame.now k) }
    ensures taken { IfNone result (AreSlots (owner_among frame.now (k + 1)) (length frame.now.headers) owners.new) }
{
    frame.is_frame();
    if k == 0 {
        return None;
    }
    let (s, place) = (frame.header(k), frame.place(k));
    match form_fault(frame, k, place, &s) {
        Some(fault) => return Some(fault),
        None => (),
    }
    match group_fault(frame, owners, k, place, &s) {
        Some(fault) => return Some(fault),
        None => (),
    }
    let table = table_fault(frame, first, before, k, place, &s);
    let carried = carried_fault(frame, sums, k, place, &s);
    earlier(table, carried)
}

// records a relocation table
fn take_table(frame: &Frame, tables: &mut Slots, k: u32)
    requires long { length tables.old ≡ length frame.now.headers }
    requires inside { sections.is_type (reloc_type (word_of frame.now.class)) (header_at frame.now.headers k) ≡ true
        → (header_at frame.now.headers k).sh_info < length frame.now.headers }
    ensures { tables.new ≡ (if sections.is_type (reloc_type (word_of frame.now.class)) (header_at frame.now.headers k)
        then slice_set tables.old (header_at frame.now.headers k).sh_info (Some k) else tables.old) }
{
    let s = frame.header(k);
    if s.sh_type == reloc_type(frame.word()) {
        tables.fill(s.sh_info, k);
    }
}

/// The tables and groups of a file.
///
/// Stops exactly where a section header has a fault, with the first; or where memory ran out.
/// Linear in the section headers, the names of sections and the members of groups.
pub(crate) fn check_sections(alloc: Global, frame: &Frame) -> Result<FoundTables, Stop>
    ensures clean { OnOk result (stage_fault (rules.section_stage frame.now) ≡ None) }
    ensures stop { IfErr result (IsStop (stage_fault (rules.section_stage frame.now))) }
    ensures symtab { IfOk result (λ t. t.symtab ≡ sections.symtab_among frame.now (length frame.now.headers)) }
    ensures relocs { IfOk result (λ t. AreSlots (sections.table_among frame.now (length frame.now.headers)) (length frame.now.headers) t.relocs) }
    ensures owners { IfOk result (λ t. AreSlots (owner_among frame.now (length frame.now.headers)) (length frame.now.headers) t.owners) }
{
    frame.is_frame();
    let count = frame.count();
    let mut relocs = Slots::empty(alloc, count)?;
    let mut owners = Slots::empty(alloc, count)?;
    let mut symtab = None;
    let mut sums = Sums { sizes: 0, bytes: 0 };
    for k in 0..count {
        let s = frame.header(k);
        let before = relocs.get(s.sh_info);
        match judge_section(frame, &mut owners, symtab, before, sums, k) {
            Some(fault) => return Err(Stop::Refused(fault)),
            None => (),
        }
        symtab = first_of(symtab, s.sh_type == SHT_SYMTAB, k);
        take_table(frame, &mut relocs, k);
        sums = counted(frame, sums, k);
    }
    Ok(FoundTables {
        symtab,
        relocs,
        owners,
    })
}
