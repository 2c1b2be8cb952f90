//! What is found in a file before its symbols are judged.
ghost use Rattle.std.specs.Prelude.{◌≡◌, ◌<◌, length, None, IfOk, MatchOption};
ghost use Rattle.oc_shelf.specs.Reading.Slots.{AreSlots};
ghost use Rattle.oc_coff.specs.Entries as entries;
ghost use Rattle.oc_coff.specs.Symbols as symbols;
ghost use Rattle.oc_coff.specs.Files.{tables_in};
ghost use Rattle.oc_coff_judge.specs.Found as found;
ghost use Rattle.oc_coff_judge.specs.Numbered.{AreNumbers, entry_by};

use crate::numbers::symbol_numbers;
use crate::owners::{OwnerTables, Owners, number_at, owners_of};
use crate::positions::section_positions;
use crate::tagged::{tag_of, tagged_of};
use oc_base::NoMemory;
use oc_coff::Coff;
use oc_shelf::Slots;
use std::alloc::Global;

/// Tables of a file, by the numbers of sections and of entries of the symbol table.
#[derive(Drop)]
pub struct Found {
    /// The numbers of the symbols, auxiliary entries passed over.
    pub numbers: Vec<u32>,
    /// The first two symbols of each section.
    pub owners: OwnerTables,
    /// The position of each section among the carried ones, where a symbol can name it.
    pub sections: Slots,
    /// Each entry that is a symbol, and no auxiliary one, has its own number.
    pub starts: Slots,
    /// The entries that weak externals tag.
    pub tagged: Slots,
}

impl Found {
    /// The first two symbols of each section, borrowed. Constant time.
    pub fn owners(&self) -> Owners<'_>
        ensures firsts { result.firsts.now ≡ self.now.owners.firsts }
        ensures seconds { result.seconds.now ≡ self.now.owners.seconds }
    {
        Owners {
            firsts: &self.owners.firsts,
            seconds: &self.owners.seconds,
        }
    }
}

/// The entry of the symbol that the auxiliary entry of symbol `j` tags, by the entries that are
/// symbols. Constant time.
pub(crate) fn tagged_by(coff: &Coff, starts: &Slots, j: u32) -> Option<u32>
    requires there { j < length (tables_in coff.now).entries }
    requires starts { AreSlots (found.start_of (tables_in coff.now)) (length (tables_in coff.now).entries) starts.now }
    ensures { MatchOption result (symbols.tagged_by (entries.entries_in (tables_in coff.now)) (entry_by coff.now j) ≡ None) (found.IsTagOf coff.now j) }
{
    coff.is_headed();
    match tag_of(coff, j) {
        Some(tag) => match starts.get(tag) {
            Some(d) => Some(d),
            None => None,
        },
        None => None,
    }
}

// each entry that is a symbol
fn starts_of(alloc: Global, coff: &Coff, numbers: &[u32]) -> Result<Slots, NoMemory>
    requires { AreNumbers coff.now numbers.now }
    ensures { IfOk result (λ starts. AreSlots (found.start_of (tables_in coff.now)) (length (tables_in coff.now).entries) starts) }
{
    let count = coff.entry_count();
    let end = numbers.len();
    let mut starts = Slots::empty(alloc, count)?;
    for i in 0..end {
        let j = number_at(numbers, i);
        starts.fill(j, j);
    }
    Ok(starts)
}

/// What is found in a file. `NoMemory` where memory ran out. Linear in the entries of the symbol
/// table, and in the sections and their names.
pub(crate) fn found_in(alloc: Global, coff: &Coff) -> Result<Found, NoMemory>
    ensures { IfOk result (λ x. found.IsFound coff.now x) }
{
    let numbers = symbol_numbers(alloc, coff)?;
    let owners = owners_of(alloc, coff, numbers.as_slice())?;
    let sections = section_positions(alloc, coff)?;
    let starts = starts_of(alloc, coff, numbers.as_slice())?;
    let tagged = tagged_of(alloc, coff, numbers.as_slice())?;
    Ok(Found {
        numbers,
        owners,
        sections,
        starts,
        tagged,
    })
}
