//! Names that came before, each with a number.
ghost use Rattle.std.specs.Prelude.{◌≡◌, ℕ, List, bytes_eq, Some, IfOk, OnOk};
ghost use Rattle.std.specs.Map.{update};
ghost use Rattle.oc_omf_judge.specs.NameNumbers.{value_at};

use oc_base::NoMemory;
use std::collections::BTreeMap;

/// Takes up a name with a number, in place of the one that it had, which it gives. `NoMemory` where
/// memory ran out. The time is that of about log2(n) comparisons of names.
pub(crate) fn take_up<'a>(
    held: &mut BTreeMap<&'a [u8], u32>,
    name: &'a [u8],
    number: u32,
) -> Result<Option<u32>, NoMemory>
    ensures before { IfOk result (λ before. before ≡ value_at held.old name.now) }
    ensures taken { OnOk result ((other : List ℕ) → value_at held.new other ≡ update bytes_eq (value_at held.old) name.now (Some number) other) }
{
    let before = held.insert(name, number)?;
    Ok(before)
}

/// The number of a name, if it is held. The time is that of about log2(n) comparisons of names.
pub(crate) fn value_of(held: &BTreeMap<&[u8], u32>, name: &[u8]) -> Option<u32>
    ensures { result ≡ value_at held.now name.now }
{
    match held.get(name) {
        Some(number) => Some(*number),
        None => None,
    }
}
