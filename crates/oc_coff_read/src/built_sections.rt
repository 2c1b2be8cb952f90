//! The sections of the object.
ghost use Rattle.std.specs.Prelude.{◌≡◌, ◌+◌, ◌*◌, ◌<◌, ◌≤◌, ◌^◌, true, is_some, bytes_eq, None, Some, [], length, take, drop, replicate, IfOk, OnOk};
ghost use Rattle.std.specs.Option.{option_map, unwrap_or};
ghost use Rattle.std.specs.List.{position_or_len};
ghost use Rattle.oc_linking.specs.FirstFault.{stage_fault};
ghost use Rattle.oc_neutral.specs.Coff.Kinds as kinds;
ghost use Rattle.oc_neutral.specs.KindRules.{without};
ghost use Rattle.oc_shows.specs.Started.{stored_section};
ghost use Rattle.oc_coff.specs.Comdat.{key_in};
ghost use Rattle.oc_coff.specs.Names as names;
ghost use Rattle.oc_coff.specs.Sections as sections;
ghost use Rattle.oc_coff.specs.SectionFaults.{section_stage};
ghost use Rattle.oc_coff.specs.Tables as tables;
ghost use Rattle.oc_coff.specs.Files.{tables_in};
ghost use Rattle.oc_coff_read.specs.Built as built;
ghost use Rattle.oc_coff_judge.specs.Led as led;
ghost use Rattle.oc_coff_judge.specs.Numbered.{AreOwners};

use crate::built_groups::held_by;
use oc_base::{Bytes, NoMemory, Word};
use oc_coff::{Coff, SectionHeader, align_bits, is_stored, section_name};
use oc_coff_judge::{Owners, kind_in};
use oc_neutral::coff::{IMAGE_SCN_ALIGN_1BYTES, IMAGE_SCN_LNK_COMDAT, IMAGE_SCN_LNK_NRELOC_OVFL};
use oc_neutral::{Builder, Kind, Section};
use oc_shelf::Slots;
use std::alloc::Global;

/// The alignment of a section whose flags say none (PE/COFF, "Section Flags").
const DEFAULT_ALIGN: u32 = 16;

// the alignment of a section with these flags
fn align_of(flags: u32) -> u32
    ensures { result ≡ sections.align_of flags }
{
    let bits = align_bits(flags);
    if bits == 0 {
        return DEFAULT_ALIGN;
    }
    1 << (bits - 1)
}

// flags without IMAGE_SCN_LNK_COMDAT
fn without_comdat(flags: u64) -> u64
    requires { flags < 2 ^ 40 }
    ensures value { result ≡ without IMAGE_SCN_LNK_COMDAT 2 flags }
    ensures few { result < flags + 2 * IMAGE_SCN_LNK_NRELOC_OVFL }
{
    let unit = IMAGE_SCN_LNK_COMDAT as u64;
    flags / (unit * 2) * (unit * 2) + flags % unit
}

// flags without IMAGE_SCN_LNK_NRELOC_OVFL
fn without_overflow(flags: u64) -> u64
    requires { flags < 2 ^ 40 }
    ensures value { result ≡ without IMAGE_SCN_LNK_NRELOC_OVFL 2 flags }
    ensures few { result < flags + 2 * IMAGE_SCN_LNK_NRELOC_OVFL }
{
    let unit = IMAGE_SCN_LNK_NRELOC_OVFL as u64;
    flags / (unit * 2) * (unit * 2) + flags % unit
}

// flags without the alignment
fn without_align(flags: u64) -> u64
    requires { flags < 2 ^ 40 }
    ensures { result ≡ without IMAGE_SCN_ALIGN_1BYTES 16 flags }
{
    let unit = IMAGE_SCN_ALIGN_1BYTES as u64;
    flags / (unit * 16) * (unit * 16) + flags % unit
}

// what is kept of a section's flags
#[tactic(auto, unfolding(oc_neutral::specs::Coff::Kinds::coff_tag))]
fn tag_of(flags: u32) -> u64
    ensures { result ≡ kinds.coff_tag flags }
{
    without_align(without_overflow(without_comdat(flags.into())))
}

// zeros
fn zeros(alloc: Global, count: u32) -> Result<Bytes, NoMemory>
    ensures { IfOk result (λ b. b ≡ replicate count 0) }
{
    Ok(Bytes::from_vec(vec![in alloc; 0; count as usize]?))
}

// so many bytes of the file from a place on
fn copied(alloc: Global, file: &[u8], at: u32, size: u32) -> Result<Bytes, NoMemory>
    requires { at + size ≤ length file.now }
    ensures { IfOk result (λ b. b ≡ take size (drop at file.now)) }
{
    Bytes::from_slice(alloc, &file[at as usize..at as usize + size as usize])
}

// the bytes that a carried section of that kind has in the object
#[tactic(auto, unfolding(oc_coff::specs::Tables::section_table))]
fn bytes_of(alloc: Global, coff: &Coff, h: &SectionHeader, kind: Kind) -> Result<Bytes, NoMemory>
    requires { sections.is_stored (Some kind) h.now ≡ true → h.now.PointerToRawData + h.now.SizeOfRawData ≤ length coff.now.bytes }
    ensures { IfOk result (λ b. b ≡ built.bytes_by coff.now.bytes h.now kind) }
{
    if kind == Kind::Zero {
        return Bytes::from_slice(alloc, &[]);
    }
    if !is_stored(Some(kind), h) {
        return zeros(alloc, h.SizeOfRawData);
    }
    copied(alloc, coff.file(), h.PointerToRawData, h.SizeOfRawData)
}

// the position of the group of section `i`
fn group_of(coff: &Coff, owners: &Owners, begun: &Slots, i: u32) -> Option<u32>
    requires owners { AreOwners (tables_in coff.now) owners.now.firsts.now owners.now.seconds.now }
    requires begun { built.AreBegunGroups (tables_in coff.now) (built.keys_of (tables_in coff.now)) begun.now }
    requires there { i < length (tables_in coff.now).sections }
    requires carried { is_some (led.section_at (tables_in coff.now) i) ≡ true }
    ensures { result ≡ option_map (λ key. position_or_len (bytes_eq key) (built.keys_of (tables_in coff.now))) (key_in (tables_in coff.now) (i + 1)) }
{
    match held_by(coff, owners, i) {
        Some((g, _)) => begun.get(g),
        None => None,
    }
}

/// What is known of groups, by the numbers of sections.
#[derive(Clone, Copy)]
pub(crate) struct Memberships<'a> {
    /// The first symbols of each section.
    pub(crate) owners: &'a Owners<'a>,
    /// The position of each group, by the section that leads it.
    pub(crate) begun: &'a Slots,
}

// the name of a section, empty where it cannot be read
fn name_of<'a>(coff: &'a Coff, h: &'a SectionHeader) -> &'a [u8]
    ensures { result.now ≡ unwrap_or (names.section_name (tables_in coff.now).strings h.now.Name) [] }
{
    match section_name(coff.strings(), &h.Name) {
        Some(name) => name,
        None => &[],
    }
}

// section `i` of the object
#[tactic(auto, unfolding(oc_coff::specs::Tables::section_table))]
fn section_of(
    alloc: Global,
    coff: &Coff,
    known: &Memberships,
    i: u32,
    h: &SectionHeader,
    kind: Kind,
) -> Result<Section, NoMemory>
    requires owners { AreOwners (tables_in coff.now) known.now.owners.now.firsts.now known.now.owners.now.seconds.now }
    requires begun { built.AreBegunGroups (tables_in coff.now) (built.keys_of (tables_in coff.now)) known.now.begun.now }
    requires there { i < length (tables_in coff.now).sections }
    requires carried { is_some (led.section_at (tables_in coff.now) i) ≡ true }
    requires lies { sections.is_stored (Some kind) h.now ≡ true → h.now.PointerToRawData + h.now.SizeOfRawData ≤ length coff.now.bytes }
    ensures { IfOk result (λ x. x ≡ stored_section (built.keys_of (tables_in coff.now))
        (sections.section_of (tables_in coff.now) (i + 1) (tables.section_table coff.now.bytes h.now) kind)) }
{
    coff.has_few();
    Ok(Section {
        name: Bytes::from_slice(alloc, name_of(coff, h))?,
        kind,
        align: align_of(h.Characteristics),
        size: h.SizeOfRawData,
        bytes: bytes_of(alloc, coff, h, kind)?,
        tag: tag_of(h.Characteristics),
        number: i + 1,
        group: group_of(coff, known.owners, known.begun, i),
    })
}

// adds section `i`, where it is carried
fn add_section(
    alloc: Global,
    word: Word,
    coff: &Coff,
    known: &Memberships,
    builder: &mut Builder,
    i: u32,
) -> Result<(), NoMemory>
    requires clean { stage_fault (section_stage coff.now.bytes (tables_in coff.now)) ≡ None }
    requires owners { AreOwners (tables_in coff.now) known.now.owners.now.firsts.now known.now.owners.now.seconds.now }
    requires begun { built.AreBegunGroups (tables_in coff.now) (built.keys_of (tables_in coff.now)) known.now.begun.now }
    requires there { i < length (tables_in coff.now).sections }
    requires before { builder.old ≡ built.sectioned word (tables_in coff.now) i }
    ensures { OnOk result (builder.new ≡ built.sectioned word (tables_in coff.now) (i + 1)) }
{
    coff.has_few();
    let h = coff.section(i);
    match kind_in(coff, &h) {
        None => Ok(()),
        Some(kind) => {
            let section = section_of(alloc, coff, known, i, &h, kind)?;
            builder.add_clean_section(section)?;
            Ok(())
        }
    }
}

/// Adds the carried sections. `NoMemory` where memory ran out. Linear in the sections, their names
/// and their bytes.
pub(crate) fn add_sections(
    alloc: Global,
    word: Word,
    coff: &Coff,
    known: &Memberships,
    builder: &mut Builder,
) -> Result<(), NoMemory>
    requires clean { stage_fault (section_stage coff.now.bytes (tables_in coff.now)) ≡ None }
    requires owners { AreOwners (tables_in coff.now) known.now.owners.now.firsts.now known.now.owners.now.seconds.now }
    requires begun { built.AreBegunGroups (tables_in coff.now) (built.keys_of (tables_in coff.now)) known.now.begun.now }
    requires before { builder.old ≡ built.sectioned word (tables_in coff.now) 0 }
    ensures { OnOk result (builder.new ≡ built.sectioned word (tables_in coff.now) (length (tables_in coff.now).sections)) }
{
    for i in 0..coff.section_count() {
        add_section(alloc, word, coff, known, builder, i)?;
    }
    Ok(())
}
