//! The groups of the object.
ghost use Rattle.oc_coff.specs.Forms.{symbol_size, format_by};
ghost use Rattle.std.specs.Prelude.{◌≡◌, ◌+◌, ◌<◌, ◌*◌, None, length, is_some, [], IfOk, OnOk, MatchOption};
ghost use Rattle.std.specs.Option.{unwrap_or};
ghost use Rattle.oc_linking.specs.FirstFault.{stage_fault};
ghost use Rattle.oc_neutral.specs.Building.{empty_draft};
ghost use Rattle.oc_coff.specs.Comdat.{key_in};
ghost use Rattle.oc_coff.specs.Names as names;
ghost use Rattle.oc_coff.specs.SymbolFaults.{symbol_stage};
ghost use Rattle.oc_coff.specs.Files as files;
ghost use Rattle.oc_coff_read.specs.Built as built;
ghost use Rattle.oc_coff_judge.specs.Numbered.{AreOwners};

use oc_base::{Bytes, NoMemory, Word};
use oc_coff::Coff;
use oc_coff_judge::{Owners, is_carried, leader_of, led_symbol, name_by};
use oc_neutral::{Builder, Group};
use oc_shelf::Slots;
use std::alloc::Global;

/// The number of the section that leads the group of section `i`, counted from 0, and the entry with
/// the key. Constant time.
pub(crate) fn held_by(coff: &Coff, owners: &Owners, i: u32) -> Option<(u32, u32)>
    requires owners { AreOwners (files.tables_in coff.now) owners.now.firsts.now owners.now.seconds.now }
    requires there { i < length (files.tables_in coff.now).sections }
    ensures { MatchOption result (key_in (files.tables_in coff.now) (i + 1) ≡ None) (λ p. built.IsHeld coff.now i p.0 p.1) }
{
    coff.has_few();
    match leader_of(coff, owners, i + 1) {
        Some(g) => match led_symbol(coff, owners, g) {
            Some(j) => Some((g, j)),
            None => None,
        },
        None => None,
    }
}

// the same, where the section is carried and the group is not begun
fn next_group(coff: &Coff, owners: &Owners, begun: &Slots, i: u32) -> Option<(u32, u32)>
    requires owners { AreOwners (files.tables_in coff.now) owners.now.firsts.now owners.now.seconds.now }
    requires there { i < length (files.tables_in coff.now).sections }
    requires begun { built.AreBegunGroups (files.tables_in coff.now) (built.keys_upto (files.tables_in coff.now) i) begun.now }
    ensures { MatchOption result (built.keys_upto (files.tables_in coff.now) (i + 1) ≡ built.keys_upto (files.tables_in coff.now) i)
        (λ p. built.IsNextGroup coff.now i p.0 p.1) }
{
    if !is_carried(coff, i) {
        return None;
    }
    match held_by(coff, owners, i) {
        Some((g, j)) => {
            if begun.get(g).is_some() {
                return None;
            }
            Some((g, j))
        }
        None => None,
    }
}

// the group whose key is the name of a symbol
fn group_named(alloc: Global, coff: &Coff, j: u32) -> Result<Group, NoMemory>
    requires { j < length (files.tables_in coff.now).entries }
    ensures { IfOk result (λ g. g.key ≡ unwrap_or (names.symbol_name (files.tables_in coff.now).strings
        (files.slot_in coff.now ((files.tables_in coff.now).entries_at + symbol_size coff.now.shape * j)).symbol.Name) []) }
{
    let s = coff.symbol(j);
    Ok(Group {
        key: Bytes::from_slice(alloc, name_by(coff, &s))?,
    })
}

// begins the group of section `i`, where that is carried and its group is not begun
fn begin_group(
    alloc: Global,
    word: Word,
    coff: &Coff,
    owners: &Owners,
    builder: &mut Builder,
    begun: &mut Slots,
    i: u32,
) -> Result<(), NoMemory>
    requires symbols { stage_fault (symbol_stage (files.tables_in coff.now)) ≡ None }
    requires owners { AreOwners (files.tables_in coff.now) owners.now.firsts.now owners.now.seconds.now }
    requires there { i < length (files.tables_in coff.now).sections }
    requires before { builder.old ≡ built.grouped word (files.tables_in coff.now) i }
    requires begun { built.AreBegunGroups (files.tables_in coff.now) (built.keys_upto (files.tables_in coff.now) i) begun.old }
    ensures added { OnOk result (builder.new ≡ built.grouped word (files.tables_in coff.now) (i + 1)) }
    ensures begun { OnOk result (built.AreBegunGroups (files.tables_in coff.now) (built.keys_upto (files.tables_in coff.now) (i + 1)) begun.new) }
{
    coff.has_few();
    match next_group(coff, owners, begun, i) {
        None => Ok(()),
        Some((g, j)) => {
            let group = group_named(alloc, coff, j)?;
            let position = builder.add_group(group)?;
            begun.fill(g, position);
            Ok(())
        }
    }
}

/// Adds the groups of carried sections in the order in which they begin, and gives the position of
/// each by the number of the section that leads it. `NoMemory` where memory ran out. Linear in the
/// sections, their names and the keys.
pub(crate) fn add_groups(
    alloc: Global,
    word: Word,
    coff: &Coff,
    owners: &Owners,
    builder: &mut Builder,
) -> Result<Slots, NoMemory>
    requires symbols { stage_fault (symbol_stage (files.tables_in coff.now)) ≡ None }
    requires owners { AreOwners (files.tables_in coff.now) owners.now.firsts.now owners.now.seconds.now }
    requires empty { builder.old ≡ empty_draft (format_by word (files.tables_in coff.now).shape) }
    ensures added { OnOk result (builder.new ≡ built.sectioned word (files.tables_in coff.now) 0) }
    ensures begun { IfOk result (λ b. built.AreBegunGroups (files.tables_in coff.now) (built.keys_of (files.tables_in coff.now)) b) }
{
    coff.has_few();
    let count = coff.section_count();
    let mut begun = Slots::empty(alloc, count + 1)?;
    for i in 0..count {
        begin_group(alloc, word, coff, owners, builder, &mut begun, i)?;
    }
    Ok(begun)
}
