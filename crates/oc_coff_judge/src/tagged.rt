//! Which symbols weak externals tag.
ghost use Rattle.std.specs.Prelude.{◌≡◌, ◌<◌, length, IfOk};
ghost use Rattle.oc_coff.specs.Symbols as symbols;
ghost use Rattle.oc_coff.specs.Files as files;
ghost use Rattle.oc_coff_judge.specs.Numbered as numbered;
ghost use Rattle.oc_coff_judge.specs.Tagged as tagged;

use crate::bindings::default_behind;
use crate::symbols::is_weak;
use oc_base::NoMemory;
use oc_coff::Coff;
use oc_shelf::Slots;
use std::alloc::Global;

/// The number of the entry that entry `j` tags, where it has an auxiliary entry. Constant time.
pub(crate) fn tag_of(coff: &Coff, j: u32) -> Option<u32>
    requires { j < length (files.tables_in coff.now).entries }
    ensures { result ≡ symbols.tag_of (numbered.entry_by coff.now j) }
{
    match default_behind(coff, j) {
        Some(aux) => Some(aux.TagIndex),
        None => None,
    }
}

// the same, where it is a weak external
#[tactic(auto, unfolding(crate::specs::Numbered::entry_by))]
fn tag_by(coff: &Coff, j: u32) -> Option<u32>
    requires { j < length (files.tables_in coff.now).entries }
    ensures { result ≡ tagged.tag_by (numbered.entry_by coff.now j) }
{
    if is_weak(&coff.symbol(j)) {
        return tag_of(coff, j);
    }
    None
}

// marks what entry `j` tags, where that is an entry
fn mark(coff: &Coff, slots: &mut Slots, j: u32)
    requires there { j < length (files.tables_in coff.now).entries }
    requires long { length slots.old ≡ length (files.tables_in coff.now).entries }
    ensures { slots.new ≡ tagged.marked slots.old (tagged.tag_by (numbered.entry_by coff.now j)) j }
{
    match tag_by(coff, j) {
        Some(tag) => {
            if tag < coff.entry_count() {
                slots.fill(tag, j);
            }
        }
        None => (),
    }
}

/// The entries that weak externals tag, each with one that does. `NoMemory` where memory ran out.
/// Linear in the entries of the symbol table.
pub(crate) fn tagged_of(alloc: Global, coff: &Coff, numbers: &[u32]) -> Result<Slots, NoMemory>
    requires { numbered.AreNumbers coff.now numbers.now }
    ensures { IfOk result (λ slots. tagged.AreTagged (files.tables_in coff.now) slots) }
{
    let mut slots = Slots::empty(alloc, coff.entry_count())?;
    for i in 0..numbers.len() {
        mark(coff, &mut slots, numbers[i]);
    }
    Ok(slots)
}
