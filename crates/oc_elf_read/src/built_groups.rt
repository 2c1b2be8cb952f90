//! The groups of the object.
ghost use Rattle.std.specs.Prelude.{◌≡◌, ◌+◌, ◌<◌, None, length, IfOk, OnOk, MatchOption};
ghost use Rattle.oc_linking.specs.FirstFault.{stage_fault};
ghost use Rattle.oc_neutral.specs.Building.{empty_draft};
ghost use Rattle.oc_shelf.specs.Reading.Slots.{AreSlots};
ghost use Rattle.oc_elf_read.specs.Built as built;
ghost use Rattle.oc_elf.specs.Classes.{format_of};
ghost use Rattle.oc_elf.specs.Groups as groups;
ghost use Rattle.oc_elf_judge.specs.Known.{IsSymtab, AreSigned};
ghost use Rattle.oc_elf.specs.SectionRules.{section_stage};
ghost use Rattle.oc_elf.specs.SymbolRules.{symbol_stage};

use oc_base::{Bytes, NoMemory};
use oc_elf::{Frame, Shdr, is_carried_type};
use oc_elf_judge::{comdat_key, is_comdat};
use oc_neutral::{Builder, Group};
use oc_shelf::Slots;
use std::alloc::Global;

/// The one-definition group of section `k`, by its header. Constant time.
pub(crate) fn holder_of(frame: &Frame, owners: &Slots, k: u32) -> Option<u32>
    requires sections { stage_fault (section_stage frame.now) ≡ None }
    requires owners { AreSlots (groups.owner_among frame.now (length frame.now.headers)) (length frame.now.headers) owners.now }
    requires there { k < length frame.now.headers }
    ensures { result ≡ built.holder_of frame.now k }
{
    match owners.get(k) {
        Some(g) => { if is_comdat(frame, g) { Some(g) } else { None } }
        None => None,
    }
}

// the one-definition group of section `k`, by its header, and its key
fn held_by<'a>(frame: &Frame<'a>, table: &Shdr, owners: &Slots, k: u32) -> Option<(u32, &'a [u8])>
    requires sections { stage_fault (section_stage frame.now) ≡ None }
    requires table { IsSymtab frame.now table.now }
    requires signed { AreSigned frame.now }
    requires owners { AreSlots (groups.owner_among frame.now (length frame.now.headers)) (length frame.now.headers) owners.now }
    requires there { k < length frame.now.headers }
    ensures { MatchOption result (groups.group_key frame.now k ≡ None) (λ p. built.IsHeld frame.now k p.0 p.1.now) }
{
    match holder_of(frame, owners, k) {
        Some(g) => match comdat_key(frame, table, g) {
            Some(key) => Some((g, key)),
            None => None,
        },
        None => None,
    }
}

// the same, where the section is carried and the group is not begun
fn next_group<'a>(
    frame: &Frame<'a>,
    table: &Shdr,
    owners: &Slots,
    begun: &Slots,
    k: u32,
) -> Option<(u32, &'a [u8])>
    requires sections { stage_fault (section_stage frame.now) ≡ None }
    requires symbols { stage_fault (symbol_stage frame.now) ≡ None }
    requires table { IsSymtab frame.now table.now }
    requires signed { AreSigned frame.now }
    requires owners { AreSlots (groups.owner_among frame.now (length frame.now.headers)) (length frame.now.headers) owners.now }
    requires there { k < length frame.now.headers }
    requires begun { built.AreBegunGroups frame.now (built.keys_upto frame.now k) begun.now }
    ensures { MatchOption result (built.keys_upto frame.now (k + 1) ≡ built.keys_upto frame.now k) (λ p. built.IsNextGroup frame.now k p.0 p.1.now) }
{
    frame.is_frame();
    if !is_carried_type(frame.header(k).sh_type) {
        return None;
    }
    match held_by(frame, table, owners, k) {
        Some((g, key)) => {
            if begun.get(g).is_some() {
                return None;
            }
            Some((g, key))
        }
        None => None,
    }
}

// begins the group of section `k`, where that is carried and its group is not begun
fn begin_group(
    alloc: Global,
    frame: &Frame,
    table: &Shdr,
    owners: &Slots,
    builder: &mut Builder,
    begun: &mut Slots,
    k: u32,
) -> Result<(), NoMemory>
    requires sections { stage_fault (section_stage frame.now) ≡ None }
    requires symbols { stage_fault (symbol_stage frame.now) ≡ None }
    requires table { IsSymtab frame.now table.now }
    requires signed { AreSigned frame.now }
    requires owners { AreSlots (groups.owner_among frame.now (length frame.now.headers)) (length frame.now.headers) owners.now }
    requires there { k < length frame.now.headers }
    requires before { builder.old ≡ built.grouped frame.now k }
    requires begun { built.AreBegunGroups frame.now (built.keys_upto frame.now k) begun.old }
    ensures added { OnOk result (builder.new ≡ built.grouped frame.now (k + 1)) }
    ensures begun { OnOk result (built.AreBegunGroups frame.now (built.keys_upto frame.now (k + 1)) begun.new) }
{
    frame.is_frame();
    match next_group(frame, table, owners, begun, k) {
        None => Ok(()),
        Some((g, key)) => {
            let group = Group {
                key: Bytes::from_slice(alloc, key)?,
            };
            let position = builder.add_group(group)?;
            begun.fill(g, position);
            Ok(())
        }
    }
}

/// Adds the groups of carried sections in the order in which they begin, and gives the position of
/// each by the number of its header. `NoMemory` where memory ran out. Linear in the sections and the
/// keys.
pub(crate) fn add_groups(
    alloc: Global,
    frame: &Frame,
    table: &Shdr,
    owners: &Slots,
    builder: &mut Builder,
) -> Result<Slots, NoMemory>
    requires sections { stage_fault (section_stage frame.now) ≡ None }
    requires symbols { stage_fault (symbol_stage frame.now) ≡ None }
    requires table { IsSymtab frame.now table.now }
    requires signed { AreSigned frame.now }
    requires owners { AreSlots (groups.owner_among frame.now (length frame.now.headers)) (length frame.now.headers) owners.now }
    requires empty { builder.old ≡ empty_draft (format_of frame.now.class) }
    ensures added { OnOk result (builder.new ≡ built.sectioned frame.now 0) }
    ensures begun { IfOk result (λ b. built.AreBegunGroups frame.now (built.keys_of frame.now) b) }
{
    let count = frame.count();
    let mut begun = Slots::empty(alloc, count)?;
    for k in 0..count {
        begin_group(alloc, frame, table, owners, builder, &mut begun, k)?;
    }
    Ok(begun)
}
