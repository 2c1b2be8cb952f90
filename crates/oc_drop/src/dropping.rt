//! Sections that are not kept are dropped, and Locals with them.
ghost use Rattle.std.specs.Prelude.{◌≡◌, Ok, IfErr, IfOk};
ghost use Rattle.std.specs.List.{list_all};
ghost use Rattle.oc_drop.specs.Refusals.{IsStepRefusal};
ghost use Rattle.oc_drop.specs.Dropping as dropping;

use crate::fault::unless;
use crate::judging::{references_fault, symbols_fault};
use oc_base::{NoMemory, Stop};
use oc_neutral::{Keep, Neutral, Section};
use std::alloc::Global;

// of each section, whether it stays; `NoMemory` where memory ran out
fn sections_stay(alloc: Global, keep: Keep, sections: &[Section]) -> Result<Vec<bool>, NoMemory>
    ensures { IfOk result (λ stay. stay.items ≡ dropping.sections_stay keep sections.now) }
{
    let mut stay = Vec::with_capacity(alloc, sections.len())?;
    for section in sections {
        stay.push(keep.keeps(section.kind))?;
    }
    Ok(stay)
}

// whether every section stays
fn all_stay(stay: &[bool]) -> bool
    ensures { result ≡ list_all (λ stays. stays) stay.now }
{
    stay.iter().all(|stays| *stays)
}

/// The object without the sections that are not kept, and without the Locals in them.
///
/// What stays has new positions. Where every section is kept, the object is given back as it is.
///
/// `Refused` with the first of these, whose index is a number of the input: `SymbolInDropped`, a
/// nonlocal symbol in a dropped section, in order of symbols; `RelocToDropped`, a field of a section
/// that stays and refers to a dropped one, by sections and offsets, where the place is the offset.
/// `NoMemory` where memory ran out. A refusal gives nothing back.
///
/// Linear in the object, and no relocation is moved; where every section is kept, a flag a section.
pub fn dropped(alloc: Global, keep: Keep, neutral: Neutral) -> Result<Neutral, Stop>
    ensures ok { IfOk result (λ left. dropping.dropped keep neutral ≡ Ok left) }
    ensures refused { IfErr result (IsStepRefusal (dropping.dropped keep neutral)) }
{
    neutral.is_object();
    let stay = sections_stay(alloc, keep, neutral.sections())?;
    let stay = stay.as_slice();
    if all_stay(stay) {
        return Ok(neutral);
    }
    unless(symbols_fault(stay, neutral.symbols()))?;
    unless(references_fault(stay, &neutral))?;
    Ok(neutral.without(alloc, stay)?)
}
