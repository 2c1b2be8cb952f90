//! What the names and the relocation tables of a file weigh, before any of them is taken.
ghost use Rattle.std.specs.Prelude.{◌≡◌, ◌<◌, length};
ghost use Rattle.oc_elf_judge.specs.Known.{IsSymtab};
ghost use Rattle.oc_elf.specs.Tables as tables;

use crate::symbols::{entry_of, is_section_symbol, symbol_count};
use oc_base::NoMemory;
use oc_elf::{Frame, SHT_GROUP, Shdr, name_cost, rel_size, reloc_type};
use oc_weight::{with_entries, with_name};

// whether the contents of a section end past the end of the file
fn passes_end(frame: &Frame, s: &Shdr) -> bool {
    let size = frame.file().len() as u64;
    size < s.sh_offset || size - s.sh_offset < s.sh_size
}

// how many entries a section has as a relocation table; none where it is no such table, or does not lie
// in the file, which is a fault
fn entry_weight(frame: &Frame, s: &Shdr) -> u64 {
    if s.sh_type != reloc_type(frame.word()) || passes_end(frame, s) {
        return 0;
    }
    s.sh_size / rel_size(frame.word())
}

/// What the names of the section headers weigh.
///
/// `NoMemory` where that is above 1 GiB, or where the relocation tables in the file have together more
/// entries than 2^23. Linear in the headers and in what they weigh.
pub(crate) fn header_weight(frame: &Frame) -> Result<u64, NoMemory> {
    let strings = frame.names();
    let (mut names, mut entries) = (0, 0);
    for k in 0..frame.count() {
        let s = frame.header(k);
        names = with_name(names, name_cost(frame.file(), &strings, s.sh_name))?;
        entries = with_entries(entries, entry_weight(frame, &s))?;
    }
    Ok(names)
}

// what the name of symbol `k` weighs, where there is one
fn symbol_cost(frame: &Frame, table: &Shdr, k: u32) -> u64
    requires { IsSymtab frame.now table.now }
{
    if k >= symbol_count(frame, table) {
        return 0;
    }
    let s = entry_of(frame, table, k);
    name_cost(frame.file(), &frame.header(table.sh_link), s.st_name)
}

// what the names of symbols weigh, added to the weight of others
fn with_symbols(frame: &Frame, table: &Shdr, weight: u64) -> Result<u64, NoMemory>
    requires { IsSymtab frame.now table.now }
{
    let mut weight = weight;
    for k in 0..symbol_count(frame, table) {
        weight = with_name(weight, symbol_cost(frame, table, k))?;
    }
    Ok(weight)
}

// what the name of the section of symbol `k` weighs, where the symbol is a section's own
fn home_cost(frame: &Frame, table: &Shdr, k: u32) -> u64
    requires { IsSymtab frame.now table.now }
{
    if k >= symbol_count(frame, table) {
        return 0;
    }
    let s = entry_of(frame, table, k);
    if !is_section_symbol(&s) {
        return 0;
    }
    let home = frame.header(s.st_shndx);
    name_cost(frame.file(), &frame.names(), home.sh_name)
}

// what the key of header `g` weighs, where it is a group
fn key_cost(frame: &Frame, table: &Shdr, g: u32) -> u64
    requires { IsSymtab frame.now table.now }
{
    let s = frame.header(g);
    if s.sh_type != SHT_GROUP {
        return 0;
    }
    symbol_cost(frame, table, s.sh_info).saturating_add(home_cost(frame, table, s.sh_info))
}

/// Weighs the names of symbols and the keys of groups, added to names of sections that weigh so
/// much.
///
/// `NoMemory` where all together are above 1 GiB. Linear in symbols and headers and in what they
/// weigh.
pub(crate) fn weigh_symbols(frame: &Frame, table: &Shdr, names: u64) -> Result<(), NoMemory>
    requires { IsSymtab frame.now table.now }
{
    let mut weight = with_symbols(frame, table, names)?;
    for g in 0..frame.count() {
        weight = with_name(weight, key_cost(frame, table, g))?;
    }
    Ok(())
}
