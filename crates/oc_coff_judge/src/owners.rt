//! The first two symbols of each section, and what they say of it.
ghost use Rattle.std.specs.Prelude.{◌≡◌, ◌+◌, ◌<◌, ◌≤◌, length, true, is_none, if◌then◌else◌, None, Some, IfOk, slice_index_or, slice_set};
ghost use Rattle.oc_coff.specs.Comdat as comdat;
ghost use Rattle.oc_coff.specs.Entries as entries;
ghost use Rattle.oc_coff.specs.Files as files;
ghost use Rattle.oc_coff_judge.specs.Judged as judged;
ghost use Rattle.oc_coff_judge.specs.Numbered.{AreNumbers, AreOwners, entry_by};

use crate::copies::{has_section, own_definition};
use oc_base::NoMemory;
use oc_coff::{Coff, IMAGE_SYM_CLASS_EXTERNAL, SectionAux, SymbolEntry, is_comdat};
use oc_shelf::Slots;
use std::alloc::Global;

/// The first and the second symbol of each section, by the number of the section.
#[derive(Clone, Copy)]
pub struct Owners<'a> {
    /// The first ones.
    pub firsts: &'a Slots,
    /// The second ones.
    pub seconds: &'a Slots,
}

/// The tables of these.
#[derive(Drop)]
pub struct OwnerTables {
    /// The first ones.
    pub firsts: Slots,
    /// The second ones.
    pub seconds: Slots,
}

// whether a symbol has a section that exists
fn is_owner(coff: &Coff, s: &SymbolEntry) -> bool
    ensures { result ≡ judged.is_owner (files.tables_in coff.now) s.now }
{
    has_section(s) && s.SectionNumber <= coff.section_count()
}

// puts entry `j` into the slot of section `k`, where that is to be
fn put(slots: &mut Slots, free: bool, k: u32, j: u32)
    requires { free ≡ true → k < length slots.old }
    ensures { slots.new ≡ (if free then slice_set slots.old k (Some j) else slots.old) }
{
    if free {
        slots.fill(k, j);
    }
}

// whether the slot of section `k` has nothing
fn is_free(slots: &Slots, k: u32) -> bool
    ensures { result ≡ is_none (slice_index_or slots.now k None) }
{
    slots.get(u32::from(k)).is_none()
}

// records entry `j`, which is that symbol
fn take_entry(coff: &Coff, firsts: &mut Slots, seconds: &mut Slots, s: &SymbolEntry, j: u32)
    requires first { length firsts.old ≡ length (files.tables_in coff.now).sections + 1 }
    requires second { length seconds.old ≡ length (files.tables_in coff.now).sections + 1 }
    ensures firsts { firsts.new ≡ judged.firsts_with (files.tables_in coff.now) s.now j firsts.old }
    ensures seconds { seconds.new ≡ judged.seconds_with (files.tables_in coff.now) s.now j firsts.old seconds.old }
{
    let k = s.SectionNumber;
    let owns = is_owner(coff, s);
    let first = is_free(firsts, k);
    let second = is_free(seconds, k);
    put(firsts, owns && first, k, j);
    put(seconds, owns && !first && second, k, j);
}

// records entry `j`
#[tactic(auto, unfolding(crate::specs::Numbered::entry_by))]
fn take_symbol(coff: &Coff, firsts: &mut Slots, seconds: &mut Slots, j: u32)
    requires there { j < length (files.tables_in coff.now).entries }
    requires first { length firsts.old ≡ length (files.tables_in coff.now).sections + 1 }
    requires second { length seconds.old ≡ length (files.tables_in coff.now).sections + 1 }
    ensures firsts { firsts.new ≡ judged.firsts_with (files.tables_in coff.now) (entry_by coff.now j).symbol j firsts.old }
    ensures seconds { seconds.new ≡ judged.seconds_with (files.tables_in coff.now) (entry_by coff.now j).symbol j firsts.old seconds.old }
{
    let s = coff.symbol(j);
    take_entry(coff, firsts, seconds, &s, j);
}

// one more than the sections, as they are numbered from 1
fn slot_count(coff: &Coff) -> u32
    ensures { result ≡ length (files.tables_in coff.now).sections + 1 }
{
    coff.has_few();
    coff.section_count() + 1
}

/// Number `i` of a list. Constant time.
pub(crate) fn number_at(numbers: &[u32], i: usize) -> u32
    requires { i < length numbers.now }
    ensures { result ≡ slice_index_or numbers.now i 0 }
{
    numbers[i]
}

/// The first and the second symbol of each section. `NoMemory` where memory ran out. Linear in the
/// sections and symbols.
pub(crate) fn owners_of(
    alloc: Global,
    coff: &Coff,
    numbers: &[u32],
) -> Result<OwnerTables, NoMemory>
    requires { AreNumbers coff.now numbers.now }
    ensures { IfOk result (λ o. AreOwners (files.tables_in coff.now) o.firsts o.seconds) }
{
    coff.is_headed();
    let count = slot_count(coff);
    let end = numbers.len();
    let mut firsts = Slots::empty(alloc, count)?;
    let mut seconds = Slots::empty(alloc, count)?;
    for i in 0..end {
        let j = number_at(numbers, i);
        take_symbol(coff, &mut firsts, &mut seconds, j);
    }
    Ok(OwnerTables { firsts, seconds })
}

/// What the first symbol of section number `k` says of it, where there may be copies of it. Constant
/// time.
#[tactic(auto, unfolding(oc_coff::specs::Comdat::definition_in))]
pub(crate) fn definition_in(coff: &Coff, owners: &Owners, k: u32) -> Option<SectionAux>
    requires owners { AreOwners (files.tables_in coff.now) owners.now.firsts.now owners.now.seconds.now }
    ensures { result ≡ comdat.definition_in (files.tables_in coff.now) k }
{
    coff.is_headed();
    let count = coff.section_count();
    if k == 0 {
        return None;
    }
    if count < k {
        return None;
    }
    if !is_comdat(&coff.section(k - 1)) {
        return None;
    }
    match owners.firsts.get(u32::from(k)) {
        Some(j) => own_definition(coff, j),
        None => None,
    }
}

// whether entry `j` is EXTERNAL
#[tactic(auto, unfolding(crate::specs::Numbered::entry_by))]
fn is_key(coff: &Coff, j: u32) -> bool
    requires { j < length (files.tables_in coff.now).entries }
    ensures { result ≡ entries.is_class IMAGE_SYM_CLASS_EXTERNAL (entry_by coff.now j).symbol }
{
    coff.symbol(j).StorageClass == IMAGE_SYM_CLASS_EXTERNAL
}

/// Whether the second symbol of section number `k` is not there, or not EXTERNAL. Constant time.
pub(crate) fn lacks_key(coff: &Coff, owners: &Owners, k: u32) -> bool
    requires owners { AreOwners (files.tables_in coff.now) owners.now.firsts.now owners.now.seconds.now }
    requires low { k ≤ length (files.tables_in coff.now).sections }
    ensures { result ≡ is_none (comdat.key_symbol (entries.entries_in (files.tables_in coff.now)) k) }
{
    coff.is_headed();
    match owners.seconds.get(u32::from(k)) {
        Some(j) => !is_key(coff, j),
        None => true,
    }
}
