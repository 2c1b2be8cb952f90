//! The keys of the groups that sections lead.
ghost use Rattle.std.specs.Prelude.{◌≡◌, ◌≤◌, length, None, Some, MatchOption};
ghost use Rattle.oc_coff.specs.Comdat as comdat;
ghost use Rattle.oc_coff.specs.Entries as entries;
ghost use Rattle.oc_coff.specs.Files as files;
ghost use Rattle.oc_coff_judge.specs.Led as led;
ghost use Rattle.oc_coff_judge.specs.Numbered.{AreOwners};

use crate::copies::selects;
use crate::owners::{Owners, definition_in};
use oc_coff::{
    Coff, IMAGE_COMDAT_SELECT_ANY, IMAGE_COMDAT_SELECT_ASSOCIATIVE, IMAGE_SYM_CLASS_EXTERNAL,
};

/// The entry of the second symbol of section number `k`, where it is EXTERNAL. Constant time.
pub(crate) fn key_symbol(coff: &Coff, owners: &Owners, k: u32) -> Option<u32>
    requires owners { AreOwners (files.tables_in coff.now) owners.now.firsts.now owners.now.seconds.now }
    requires low { k ≤ length (files.tables_in coff.now).sections }
    ensures { MatchOption result (comdat.key_symbol (entries.entries_in (files.tables_in coff.now)) k ≡ None) (λ j. led.IsKeySymbol coff.now k j) }
{
    coff.is_headed();
    match owners.seconds.get(k) {
        Some(j) => {
            if coff.symbol(j).StorageClass != IMAGE_SYM_CLASS_EXTERNAL {
                return None;
            }
            Some(j)
        }
        None => None,
    }
}

/// The entry whose name is the key of the group that section number `k` leads, where it leads one.
/// Constant time.
#[tactic(auto, unfolding(oc_coff::specs::Comdat::led_key))]
pub fn led_symbol(coff: &Coff, owners: &Owners, k: u32) -> Option<u32>
    requires owners { AreOwners (files.tables_in coff.now) owners.now.firsts.now owners.now.seconds.now }
    ensures { MatchOption result (comdat.led_key (files.tables_in coff.now) k ≡ None) (λ j. led.IsLed coff.now k j) }
{
    if !selects(IMAGE_COMDAT_SELECT_ANY, definition_in(coff, owners, k)) {
        return None;
    }
    key_symbol(coff, owners, k)
}

/// The number of the section that leads the group of section number `k`, where that says so. Constant
/// time.
pub fn leader_of(coff: &Coff, owners: &Owners, k: u32) -> Option<u32>
    requires owners { AreOwners (files.tables_in coff.now) owners.now.firsts.now owners.now.seconds.now }
    ensures { result ≡ led.leader_of (files.tables_in coff.now) k }
{
    match definition_in(coff, owners, k) {
        Some(d) => Some(if d.Selection == IMAGE_COMDAT_SELECT_ASSOCIATIVE {
            d.Number
        } else {
            k
        }),
        None => None,
    }
}
