//! The numbers of symbols, by which fixups name externals (TIS OMF 1.1, "EXTDEF").
ghost use Rattle.std.specs.Prelude.{◌≡◌, ◌^◌, ◌<◌, ℕ, IfOk, length, slice_index_or};
ghost use Rattle.std.specs.List.{AllByRecursion, position_or_len};
ghost use Rattle.oc_plans.specs.Slots.{IsSetWhere};
ghost use Rattle.oc_omf_write.specs.Numbers.{is_of_symbol, HasPlace};

use crate::entries::Entry;
use oc_base::NoMemory;
use std::alloc::Global;

// sets the number of the symbol of an entry
fn set(numbers: &mut Vec<u32>, entry: Entry, number: u32)
    requires { HasPlace (length numbers.old.items) entry }
    ensures set { IsSetWhere (λ k. is_of_symbol k entry) number 0 numbers.old.items numbers.new.items }
    ensures counted { length numbers.new.items ≡ length numbers.old.items }
{
    match entry {
        Entry::External(k) | Entry::Communal(k) | Entry::Public(k) => numbers[k as usize] = number,
        Entry::Header
        | Entry::Names { .. }
        | Entry::Segment(_)
        | Entry::Group
        | Entry::Data { .. }
        | Entry::Fixups { .. }
        | Entry::End => {}
    }
}

// the same number for each of so many symbols
fn same_numbers(alloc: Global, symbols: u32, number: u32) -> Result<Vec<u32>, NoMemory>
    ensures counted { IfOk result (λ numbers. length numbers.items ≡ symbols) }
    ensures each { IfOk result (λ numbers. (k : ℕ) → k < symbols → slice_index_or numbers.items k 0 ≡ number) }
{
    let numbers = vec![in alloc; number; symbols as usize]?;
    Ok(numbers)
}

/// The number of each of so many symbols: the position of its entry among these, and their count where
/// it has none. `NoMemory` where memory ran out. Linear in the symbols and entries.
pub(crate) fn numbers_of(
    alloc: Global,
    symbols: u32,
    entries: &[Entry],
) -> Result<Vec<u32>, NoMemory>
    requires few { length entries.now < 2 ^ 32 }
    requires places { AllByRecursion (HasPlace symbols) entries.now }
    ensures counted { IfOk result (λ numbers. length numbers.items ≡ symbols) }
    ensures each { IfOk result (λ numbers. (k : ℕ) → k < symbols → slice_index_or numbers.items k 0 ≡ position_or_len (is_of_symbol k) entries.now) }
{
    let mut left = entries.len();
    let mut numbers = same_numbers(alloc, symbols, left as u32)?;
    'entries: while left > 0 {
        left -= 1;
        set(&mut numbers, entries[left], left as u32);
    }
    Ok(numbers)
}
