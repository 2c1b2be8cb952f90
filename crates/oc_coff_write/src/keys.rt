//! The symbols that have the keys of groups (PE/COFF, "COMDAT Sections"; our profile).
ghost use Rattle.std.specs.Prelude.{◌≡◌, length, IfOk};
ghost use Rattle.oc_coff_write.specs.Keys as places;

use oc_base::NoMemory;
use oc_neutral::{Neutral, Symbol};
use oc_target::{group_at, key_place};
use std::alloc::Global;

// gives a value to the entry at a position, where that exists and has none yet
fn note(table: &mut Vec<Option<u32>>, at: Option<u32>, value: u32)
    ensures noted { places.AreNoted (places.value_for at value) table.old.items table.new.items }
    ensures counted { length table.new.items ≡ length table.old.items }
{
    let Some(at) = at else {
        return;
    };
    if let Some(slot) = table.get_mut(at as usize) {
        *slot = slot.or(Some(value));
    }
}

/// For each section the position of the key symbol that lies in it, where one does. `NoMemory` where
/// memory ran out. Linear in the symbols and their names.
pub(crate) fn keys_of(alloc: Global, neutral: &Neutral) -> Result<Vec<Option<u32>>, NoMemory>
    ensures { IfOk result (λ keys. places.AreKeys neutral.now keys.items) }
{
    let mut keys = vec![in alloc; None; neutral.section_count() as usize]?;
    for k in 0..neutral.symbol_count() {
        note(&mut keys, key_place(neutral, neutral.symbol(k)), k);
    }
    Ok(keys)
}

// notes the section of a symbol for the group whose key symbol it is
fn note_leader(leaders: &mut Vec<Option<u32>>, neutral: &Neutral, symbol: &Symbol)
    ensures noted { places.AreNoted (λ g. places.led_by neutral.now g symbol.now) leaders.old.items leaders.new.items }
    ensures counted { length leaders.new.items ≡ length leaders.old.items }
{
    if let Some(section) = key_place(neutral, symbol) {
        note(leaders, group_at(neutral, section), section);
    }
}

/// For each group the position of the section that leads it, where one does. `NoMemory` where memory
/// ran out. Linear in the symbols and their names.
pub(crate) fn leaders_of(alloc: Global, neutral: &Neutral) -> Result<Vec<Option<u32>>, NoMemory>
    ensures { IfOk result (λ leaders. places.AreLeaders neutral.now leaders.items) }
{
    let mut leaders = vec![in alloc; None; neutral.group_count() as usize]?;
    for k in 0..neutral.symbol_count() {
        note_leader(&mut leaders, neutral, neutral.symbol(k));
    }
    Ok(leaders)
}
