//! The stage of sections.
ghost use Rattle.std.specs.Prelude.{◌≡◌, ◌+◌, ◌<◌, ◌≤◌, length, None, Some, IfErr, IfOk, OnOk, ◌^◌};
ghost use Rattle.oc_linking.specs.FirstFault.{first_broken, stage_fault};
ghost use Rattle.oc_coff.specs.SectionFaults as rules;
ghost use Rattle.oc_coff.specs.Tables as tables;
ghost use Rattle.oc_coff.specs.Files as files;
ghost use Rattle.oc_coff_judge.specs.Judged as judged;
ghost use Rattle.oc_coff_judge.specs.Numbered.{AreOwners};

use crate::copies::{is_known, names_another, selects};
use crate::owners::{Owners, definition_in, lacks_key};
use crate::sections::{header_place, kind_in, raw_fault, section_fault, table_fault};
use oc_base::{Code, Fault, MOST_CONTENTS};
use oc_coff::{
    Coff, IMAGE_COMDAT_SELECT_ANY, IMAGE_COMDAT_SELECT_ASSOCIATIVE, SectionAux, SectionHeader,
    align_bits, is_comdat, section_name,
};
use oc_neutral::Kind;
use oc_shelf::earlier;

/// The most bytes that a section may take, that all take, and that all store.
const MOST_SIZE: u64 = 2_147_483_647;

const MOST_SIZES: u64 = 2_147_483_648;

// whether the section with which another is kept is itself kept with one
fn follows_follower(coff: &Coff, owners: &Owners, d: Option<SectionAux>) -> bool
    requires owners { AreOwners (files.tables_in coff.now) owners.now.firsts.now owners.now.seconds.now }
    ensures { result ≡ rules.follows_follower (files.tables_in coff.now) d }
{
    match d {
        Some(aux) => selects(
            IMAGE_COMDAT_SELECT_ASSOCIATIVE,
            definition_in(coff, owners, aux.Number),
        ),
        None => false,
    }
}

// the number of section `i` of so many, counted from 0
fn number_of(count: u32, i: u32) -> u32
    requires { i < count }
    ensures { result ≡ i + 1 }
{
    i + 1
}

// the fault of the conditions on section `i`, of which there are copies and whose definition is `d`
#[tactic(auto, unfolding(oc_coff::specs::Tables::tables_of))]
fn copy_fault(
    coff: &Coff,
    owners: &Owners,
    i: u32,
    h: &SectionHeader,
    d: Option<SectionAux>,
) -> Option<Fault>
    requires owners { AreOwners (files.tables_in coff.now) owners.now.firsts.now owners.now.seconds.now }
    requires there { i < length (files.tables_in coff.now).sections }
    ensures { result ≡ first_broken (rules.copy_conditions (files.tables_in coff.now) (i + 1, tables.section_table coff.now.bytes h.now) d) }
{
    coff.has_few();
    let place = header_place(coff.shape(), i);
    let k = number_of(coff.section_count(), i);
    if !is_known(d) {
        return section_fault(i, place, Code::Group);
    }
    let follows = selects(IMAGE_COMDAT_SELECT_ASSOCIATIVE, d);
    if follows && !names_another(coff, k, d) {
        return section_fault(i, place, Code::BadTable);
    }
    if follows && follows_follower(coff, owners, d) {
        return section_fault(i, place, Code::Group);
    }
    if selects(IMAGE_COMDAT_SELECT_ANY, d) && lacks_key(coff, owners, k) {
        return section_fault(i, place, Code::Group);
    }
    None
}

// the fault of the conditions on the name of section `i`
#[tactic(auto, unfolding(oc_coff::specs::Tables::tables_of))]
fn name_fault(coff: &Coff, i: u32, h: &SectionHeader) -> Option<Fault>
    requires low { i < 2 ^ 21 }
    ensures { result ≡ first_broken (judged.names_of (files.tables_in coff.now) (i + 1, tables.section_table coff.now.bytes h.now) h.now) }
{
    if section_name(coff.strings(), &h.Name).is_none() {
        return section_fault(i, header_place(coff.shape(), i), Code::BadName);
    }
    None
}

// that of the conditions on copies of section `i`, where there are any
fn copies_fault(coff: &Coff, owners: &Owners, i: u32, h: &SectionHeader) -> Option<Fault>
    requires owners { AreOwners (files.tables_in coff.now) owners.now.firsts.now owners.now.seconds.now }
    requires there { i < length (files.tables_in coff.now).sections }
    ensures { result ≡ first_broken (judged.copies_of (files.tables_in coff.now) (i + 1, tables.section_table coff.now.bytes h.now) h.now) }
{
    if !is_comdat(h) {
        return None;
    }
    let k = number_of(coff.section_count(), i);
    copy_fault(coff, owners, i, h, definition_in(coff, owners, k))
}

// that of the conditions on the address and the alignment
#[tactic(auto, unfolding(oc_coff::specs::Tables::tables_of))]
fn form_fault(coff: &Coff, i: u32, h: &SectionHeader) -> Option<Fault>
    requires low { i < 2 ^ 21 }
    ensures { result ≡ first_broken (judged.forms_of (files.tables_in coff.now) (i + 1, tables.section_table coff.now.bytes h.now) h.now) }
{
    if h.VirtualAddress != 0 {
        return section_fault(i, header_place(coff.shape(), i), Code::SectionKind);
    }
    if align_bits(h.Characteristics) == 15 {
        return section_fault(i, header_place(coff.shape(), i), Code::BadAlign);
    }
    None
}

/// How much the sections so far count against the limits.
#[derive(Clone, Copy)]
pub(crate) struct Sums {
    /// The bytes that they take.
    pub(crate) sizes: u64,
    /// The bytes that they store.
    pub(crate) bytes: u64,
}

// how many bytes a section of that kind takes, where it is carried
fn size_of(kind: Option<Kind>, h: &SectionHeader) -> u64
    ensures size { result ≡ judged.size_by kind h.now }
    ensures few { result < 4294967296 }
{
    match kind {
        Some(_) => h.SizeOfRawData.into(),
        None => 0,
    }
}

// and how many it stores
fn stored_of(kind: Option<Kind>, h: &SectionHeader) -> u64
    ensures size { result ≡ judged.stored_by kind h.now }
    ensures few { result ≤ judged.size_by kind h.now }
{
    match kind {
        Some(Kind::Zero) | None => 0,
        Some(_) => h.SizeOfRawData.into(),
    }
}

// the fault of the limits, with the sums
fn limit_fault(i: u32, size: u64, sizes: u64, bytes: u64) -> Option<Fault>
    requires low { i < 2 ^ 21 }
    ensures { result ≡ first_broken (judged.limits_by i size sizes bytes) }
{
    if size > MOST_SIZE {
        return section_fault(i, size, Code::LimitSection);
    }
    if sizes > MOST_SIZES {
        return section_fault(i, sizes, Code::LimitSum);
    }
    if bytes > MOST_CONTENTS {
        return section_fault(i, bytes, Code::LimitBytes);
    }
    None
}

// the fault of section `i`, where the sums are those of the sections before; and the sums with it
fn judge_section(coff: &Coff, owners: &Owners, i: u32, sums: Sums) -> Result<Sums, Fault>
    requires owners { AreOwners (files.tables_in coff.now) owners.now.firsts.now owners.now.seconds.now }
    requires there { i < length (files.tables_in coff.now).sections }
    requires sums { judged.AreSums (files.tables_in coff.now) i sums.sizes sums.bytes }
    ensures clean { OnOk result (judged.section_fault_of coff.now i ≡ None) }
    ensures sums { IfOk result (λ s. judged.AreSums (files.tables_in coff.now) (i + 1) s.sizes s.bytes) }
    ensures fault { IfErr result (λ fault. judged.section_fault_of coff.now i ≡ Some fault) }
{
    coff.has_few();
    let h = coff.section(i);
    let kind = kind_in(coff, &h);
    let size = size_of(kind, &h);
    let sizes = sums.sizes + size;
    let bytes = sums.bytes + stored_of(kind, &h);
    let tables = earlier(table_fault(coff, i, &h), limit_fault(i, size, sizes, bytes));
    let raw = earlier(raw_fault(coff, i, &h, kind), tables);
    let forms = earlier(form_fault(coff, i, &h), raw);
    let copies = earlier(copies_fault(coff, owners, i, &h), forms);
    match earlier(name_fault(coff, i, &h), copies) {
        Some(fault) => Err(fault),
        None => Ok(Sums { sizes, bytes }),
    }
}

/// Judges the sections.
///
/// Stops exactly where a section has a fault, with the first. Linear in the sections and their names.
pub(crate) fn check_sections(coff: &Coff, owners: &Owners) -> Result<(), Fault>
    requires owners { AreOwners (files.tables_in coff.now) owners.now.firsts.now owners.now.seconds.now }
    ensures clean { OnOk result (stage_fault (rules.section_stage coff.now.bytes (files.tables_in coff.now)) ≡ None) }
    ensures fault { IfErr result (λ fault. stage_fault (rules.section_stage coff.now.bytes (files.tables_in coff.now)) ≡ Some fault) }
{
    let count = coff.section_count();
    let mut sums = Sums { sizes: 0, bytes: 0 };
    for i in 0..count {
        match judge_section(coff, owners, i, sums) {
            Ok(more) => sums = more,
            Err(fault) => return Err(fault),
        }
    }
    Ok(())
}
