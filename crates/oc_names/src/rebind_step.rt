//! The second step: symbols become Weak or Local, and what rests on them is settled.
ghost use Rattle.std.specs.Prelude.{◌≡◌, Ok, IfErr, IfOk};
ghost use Rattle.oc_drop.specs.Steps.{then_by};
ghost use Rattle.oc_drop.specs.Refusals.{IsStepRefusal};
ghost use Rattle.oc_names.specs.Rebinding as rebinding;

use crate::edit::Edit;
use crate::fallbacks::after_fallbacks;
use crate::places::edit_places;
use crate::rebinding::after_words;
use crate::reloc_step::relocs_left;
use oc_base::{Stop, word_of};
use oc_neutral::{Neutral, Symbol};
use std::alloc::Global;

/// The symbols after all words, with settled fallbacks. Refused as `rebound` is.
pub(crate) fn symbols_after(
    alloc: Global,
    edits: &[Edit],
    symbols: Vec<Symbol>,
) -> Result<Vec<Symbol>, Stop>
    ensures ok { IfOk result (λ out. then_by rebinding.after_fallbacks (rebinding.after_words edits.now symbols.items) ≡ Ok out.items) }
    ensures refused { IfErr result (IsStepRefusal (then_by rebinding.after_fallbacks (rebinding.after_words edits.now symbols.items))) }
{
    let mut symbols = symbols;
    let places = edit_places(alloc, edits, symbols.as_slice())?;
    if let Err(fault) = after_words(edits, places.as_slice(), symbols.as_mut_slice()) {
        return Err(Stop::Refused(fault));
    }
    after_fallbacks(alloc, symbols.as_mut_slice())?;
    Ok(symbols)
}

/// The object with symbols that became Weak or Local.
///
/// Refused with the first of these: a pinned Global that is to become Weak, by words and then by
/// symbols; a Weak whose fallback became Weak, or a Local with a number, in order of symbols; a
/// constant that does not fit its field, by sections and offsets. `NoMemory` where memory ran out.
/// Linear in the object; without edits it is given back as it is.
pub(crate) fn rebound(alloc: Global, edits: &[Edit], neutral: Neutral) -> Result<Neutral, Stop>
    ensures ok { IfOk result (λ out. rebinding.rebound_object edits.now neutral ≡ Ok out) }
    ensures refused { IfErr result (IsStepRefusal (rebinding.rebound_object edits.now neutral)) }
{
    neutral.is_object();
    if edits.is_empty() {
        return Ok(neutral);
    }
    let format = neutral.format();
    let (groups, mut sections, symbols, relocs) = neutral.into_parts();
    let symbols = symbols_after(alloc, edits, symbols)?;
    let (word, places) = (word_of(format), sections.as_mut_slice());
    let relocs = relocs_left(alloc, word, symbols.as_slice(), places, &relocs)?;
    Ok(Neutral::new(format, groups, sections, symbols, relocs))
}
