//! The symbols among the entries of the symbol table.
ghost use Rattle.std.specs.Prelude.{◌≡◌, ◌+◌, ◌-◌, ◌<◌, ◌++◌, [], ◌∷◌, nat_eq, if◌then◌else◌, IfOk, OnOk};
ghost use Rattle.oc_coff_judge.specs.Numbered.{AreNumbers};

use oc_base::NoMemory;
use oc_coff::Coff;
use std::alloc::Global;

// records entry `j`, which says that so many auxiliary entries follow it, where it is none of the
// `auxiliary` ones that are still left; gives how many are left after it
fn take_entry(numbers: &mut Vec<u32>, auxiliary: u8, j: u32, follow: u8) -> Result<u8, NoMemory>
    ensures numbers { OnOk result (numbers.new.items ≡ (if nat_eq auxiliary 0 then numbers.old.items ++ j ∷ [] else numbers.old.items)) }
    ensures left { IfOk result (λ left. left ≡ (if nat_eq auxiliary 0 then follow else auxiliary - 1)) }
{
    if auxiliary != 0 {
        return Ok(auxiliary - 1);
    }
    numbers.push(j)?;
    Ok(follow)
}

/// The numbers of all symbols, auxiliary entries passed over. `NoMemory` where memory ran out. Linear
/// in the entries of the symbol table.
pub(crate) fn symbol_numbers(alloc: Global, coff: &Coff) -> Result<Vec<u32>, NoMemory>
    ensures { IfOk result (λ numbers. AreNumbers coff.now numbers.items) }
{
    coff.is_headed();
    let count = coff.entry_count();
    let mut numbers = Vec::new(alloc);
    let mut auxiliary = 0;
    for j in 0..count {
        let follow = coff.symbol(j).NumberOfAuxSymbols;
        auxiliary = take_entry(&mut numbers, auxiliary, j, follow)?;
    }
    Ok(numbers)
}
