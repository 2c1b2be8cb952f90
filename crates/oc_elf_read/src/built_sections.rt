//! The sections of the object.
ghost use Rattle.std.specs.Prelude.{◌≡◌, ◌+◌, ◌<◌, ◌≤◌, true, bytes_eq, None, Some, [], length, map, replicate, if◌then◌else◌, IfOk, OnOk};
ghost use Rattle.std.specs.Option.{option_map};
ghost use Rattle.std.specs.List.{position_or_len};
ghost use Rattle.oc_linking.specs.FirstFault.{stage_fault};
ghost use Rattle.oc_neutral.specs.Building.{is_zero};
ghost use Rattle.oc_shows.specs.Started.{stored_section};
ghost use Rattle.oc_shelf.specs.Reading.Slots.{AreSlots};
ghost use Rattle.oc_elf_read.specs.Built as built;
ghost use Rattle.oc_elf.specs.CarriedSections as carried;
ghost use Rattle.oc_elf.specs.Frames.{header_at};
ghost use Rattle.oc_elf.specs.Groups as groups;
ghost use Rattle.oc_elf.specs.Sections as sections;
ghost use Rattle.oc_elf.specs.SectionRules.{section_stage};
ghost use Rattle.oc_elf.specs.SymbolRules.{symbol_stage};

use crate::built_groups::holder_of;
use oc_base::{Bytes, NoMemory};
use oc_elf::{Frame, Shdr, is_carried_type};
use oc_elf_judge::{is_zero, kind_of, section_name};
use oc_neutral::elf::SHT_NOBITS;
use oc_neutral::{Builder, Kind, Section};
use oc_shelf::Slots;
use std::alloc::Global;

// zeros
fn zeros(alloc: Global, count: u32) -> Result<Bytes, NoMemory>
    ensures { IfOk result (λ b. b ≡ replicate count 0) }
{
    Ok(Bytes::from_vec(vec![in alloc; 0; count as usize]?))
}

// the bytes that a carried section of that kind has in the object
fn bytes_of(alloc: Global, frame: &Frame, s: &Shdr, kind: Kind) -> Result<Bytes, NoMemory>
    requires { built.IsPlaced frame.now s.now }
    ensures { IfOk result (λ b. b ≡ (if is_zero kind then [] else sections.contents_of frame.now s.now)) }
{
    if is_zero(kind) {
        return Bytes::from_slice(alloc, &[]);
    }
    if s.sh_type == SHT_NOBITS {
        return zeros(alloc, s.sh_size as u32);
    }
    let start = s.sh_offset as usize;
    let file = frame.file();
    Bytes::from_slice(alloc, &file[start..start + s.sh_size as usize])
}

// the position of the group of section `k`
fn group_of(frame: &Frame, owners: &Slots, begun: &Slots, k: u32) -> Option<u32>
    requires sections { stage_fault (section_stage frame.now) ≡ None }
    requires symbols { stage_fault (symbol_stage frame.now) ≡ None }
    requires owners { AreSlots (groups.owner_among frame.now (length frame.now.headers)) (length frame.now.headers) owners.now }
    requires begun { built.AreBegunGroups frame.now (built.keys_of frame.now) begun.now }
    requires there { k < length frame.now.headers }
    requires carried { sections.is_carried (header_at frame.now.headers k) ≡ true }
    ensures { result ≡ option_map (λ key. position_or_len (bytes_eq key) (built.keys_of frame.now)) (groups.group_key frame.now k) }
{
    frame.is_frame();
    match holder_of(frame, owners, k) {
        Some(g) => begun.get(g),
        None => None,
    }
}

/// What is known of groups, by the numbers of headers.
#[derive(Clone, Copy)]
pub(crate) struct Memberships<'a> {
    /// The group of each section.
    pub(crate) owners: &'a Slots,
    /// The position of each group that is begun.
    pub(crate) begun: &'a Slots,
}

// section `k` of the object
#[tactic(auto, unfolding(oc_elf::specs::CarriedSections::section_with))]
fn section_of(
    alloc: Global,
    frame: &Frame,
    known: &Memberships,
    k: u32,
    s: &Shdr,
) -> Result<Section, NoMemory>
    requires placed { built.IsPlaced frame.now s.now }
    requires sections { stage_fault (section_stage frame.now) ≡ None }
    requires symbols { stage_fault (symbol_stage frame.now) ≡ None }
    requires owners { AreSlots (groups.owner_among frame.now (length frame.now.headers)) (length frame.now.headers) known.now.owners.now }
    requires begun { built.AreBegunGroups frame.now (built.keys_of frame.now) known.now.begun.now }
    requires there { k < length frame.now.headers }
    requires carried { sections.is_carried (header_at frame.now.headers k) ≡ true }
    ensures { IfOk result (λ x. x ≡ stored_section (built.keys_of frame.now) (carried.section_with frame.now k s.now)) }
{
    let kind = kind_of(frame, s);
    Ok(Section {
        name: Bytes::from_slice(alloc, section_name(frame, s))?,
        kind,
        align: s.sh_addralign.max(1) as u32,
        size: s.sh_size as u32,
        bytes: bytes_of(alloc, frame, s, kind)?,
        tag: 8 * u64::from(s.sh_type) + s.sh_flags % 8,
        number: k,
        group: group_of(frame, known.owners, known.begun, k),
    })
}

// adds section `k`, where it is carried
fn add_section(
    alloc: Global,
    frame: &Frame,
    known: &Memberships,
    builder: &mut Builder,
    k: u32,
) -> Result<(), NoMemory>
    requires sections { stage_fault (section_stage frame.now) ≡ None }
    requires symbols { stage_fault (symbol_stage frame.now) ≡ None }
    requires owners { AreSlots (groups.owner_among frame.now (length frame.now.headers)) (length frame.now.headers) known.now.owners.now }
    requires begun { built.AreBegunGroups frame.now (built.keys_of frame.now) known.now.begun.now }
    requires there { k < length frame.now.headers }
    requires before { builder.old ≡ built.sectioned frame.now k }
    ensures { OnOk result (builder.new ≡ built.sectioned frame.now (k + 1)) }
{
    frame.is_frame();
    let s = frame.header(k);
    if !is_carried_type(s.sh_type) {
        return Ok(());
    }
    let section = section_of(alloc, frame, known, k, &s)?;
    builder.add_clean_section(section)?;
    Ok(())
}

/// Adds the carried sections. `NoMemory` where memory ran out. Linear in the sections, their names
/// and their bytes.
pub(crate) fn add_sections(
    alloc: Global,
    frame: &Frame,
    known: &Memberships,
    builder: &mut Builder,
) -> Result<(), NoMemory>
    requires sections { stage_fault (section_stage frame.now) ≡ None }
    requires symbols { stage_fault (symbol_stage frame.now) ≡ None }
    requires owners { AreSlots (groups.owner_among frame.now (length frame.now.headers)) (length frame.now.headers) known.now.owners.now }
    requires begun { built.AreBegunGroups frame.now (built.keys_of frame.now) known.now.begun.now }
    requires before { builder.old ≡ built.sectioned frame.now 0 }
    ensures { OnOk result (builder.new ≡ built.sectioned frame.now (length frame.now.headers)) }
{
    for k in 0..frame.count() {
        add_section(alloc, frame, known, builder, k)?;
    }
    Ok(())
}
