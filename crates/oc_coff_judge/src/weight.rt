//! What the names and the relocation tables of a file weigh, before any of them is taken.
ghost use Rattle.std.specs.Prelude.{◌≡◌, ◌<◌, length, None};
ghost use Rattle.oc_linking.specs.FirstFault.{stage_fault};
ghost use Rattle.oc_coff.specs.SectionFaults.{section_stage};
ghost use Rattle.oc_coff.specs.Files as files;
ghost use Rattle.oc_coff_judge.specs.Found.{IsFound};

use crate::found::Found;
use crate::judging::reloc_count;
use crate::keys::key_symbol;
use crate::symbols::name_of;
use oc_base::NoMemory;
use oc_coff::{Coff, section_name};
use oc_weight::{with_entries, with_name};

// how many bytes the name of section `i` has, counted from 0
fn section_cost(coff: &Coff, i: u32) -> u64
    requires { i < length (files.tables_in coff.now).sections }
{
    match section_name(coff.strings(), &coff.section(i).Name) {
        Some(name) => name.len() as u64,
        None => 0,
    }
}

/// What the names of the sections weigh. `NoMemory` where that is above 1 GiB. Linear in them.
pub(crate) fn section_weight(coff: &Coff) -> Result<u64, NoMemory> {
    let count = coff.section_count();
    let mut weight = 0;
    for i in 0..count {
        weight = with_name(weight, section_cost(coff, i))?;
    }
    Ok(weight)
}

// how many bytes the name of entry `j` has, where that is a symbol
fn symbol_cost(coff: &Coff, j: u32) -> u64 {
    let count = coff.entry_count();
    if j >= count {
        return 0;
    }
    name_of(coff, j).len() as u64
}

// what the names of symbols weigh, added to the weight of others
fn with_symbols(coff: &Coff, numbers: &[u32], weight: u64) -> Result<u64, NoMemory> {
    let mut weight = weight;
    for j in numbers {
        weight = with_name(weight, symbol_cost(coff, *j))?;
    }
    Ok(weight)
}

// how many bytes the key has that section number `k` can lead a group by
fn key_cost(coff: &Coff, found: &Found, k: u32) -> u64
    requires found { IsFound coff.now found.now }
    requires there { k < length (files.tables_in coff.now).sections }
{
    match key_symbol(coff, &found.owners(), k) {
        Some(j) => symbol_cost(coff, j),
        None => 0,
    }
}

/// Weighs the names of symbols and the keys of groups, added to names of sections that weigh so
/// much.
///
/// `NoMemory` where all together are above 1 GiB. Linear in symbols and sections and in what they
/// weigh.
pub(crate) fn weigh_symbols(coff: &Coff, found: &Found, names: u64) -> Result<(), NoMemory>
    requires { IsFound coff.now found.now }
{
    let count = coff.section_count();
    let mut weight = with_symbols(coff, found.numbers.as_slice(), names)?;
    for k in 0..count {
        weight = with_name(weight, key_cost(coff, found, k))?;
    }
    Ok(())
}

/// Weighs the relocation tables of sections without faults.
///
/// `NoMemory` where they have together more entries than 2^23. Linear in the sections.
pub(crate) fn weigh_relocs(coff: &Coff) -> Result<(), NoMemory>
    requires { stage_fault (section_stage coff.now.bytes (files.tables_in coff.now)) ≡ None }
{
    let count = coff.section_count();
    let mut weight = 0;
    for i in 0..count {
        let h = coff.section(i);
        weight = with_entries(weight, reloc_count(coff, &h).into())?;
    }
    Ok(())
}
