//! An object is edited for a target.
ghost use Rattle.std.specs.Prelude.{◌≡◌, ◌^◌, ◌<◌, ◌≤◌, Ok, IfErr, IfOk, length};
ghost use Rattle.oc_names.specs.Edited.{edited};
ghost use Rattle.oc_names.specs.Naming as naming;
ghost use Rattle.oc_drop.specs.Refusals.{IsStepRefusal};

use crate::checks::{keys_are_bytes, names_are_bytes};
use crate::edit::Edit;
use crate::edits::Edits;
use crate::keep::keep_for;
use crate::name_step::{MOST_SYMBOLS, named_parts};
use crate::rebind_step::rebound;
use oc_base::{Format, Stop};
use oc_drop::dropped;
use oc_neutral::Neutral;
use std::alloc::Global;

// the object with further symbols, new names and new keys; without edits as it is, unless it has too
// many symbols
fn named(alloc: Global, edits: &[Edit], to: Format, neutral: Neutral) -> Result<Neutral, Stop>
    requires { length edits.now < 2 ^ 32 }
    ensures ok { IfOk result (λ out. naming.named_object edits.now to neutral ≡ Ok out) }
    ensures few { IfOk result (λ out. length out.symbols ≤ 16777216) }
    ensures refused { IfErr result (IsStepRefusal (naming.named_object edits.now to neutral)) }
{
    neutral.is_object();
    if edits.is_empty() && u64::from(neutral.symbol_count()) <= MOST_SYMBOLS {
        return Ok(neutral);
    }
    let from = neutral.format();
    let (groups, sections, symbols, relocs) = neutral.into_parts();
    let (groups, symbols) = named_parts(
        alloc,
        edits,
        from,
        to,
        sections.as_slice(),
        groups,
        symbols,
    )?;
    keys_are_bytes(groups.as_slice());
    names_are_bytes(symbols.as_slice());
    Ok(Neutral::new(from, groups, sections, symbols, relocs))
}

/// The object as the user wants it for a target: sections that the target does not take are
/// dropped, then symbols become Weak or Local, then they get further names and new ones.
///
/// `Refused` with the first fault of the Edit phase, where there is one, in this order. Its index
/// is the number of the symbol or the section in the input.
///
/// 1. `SymbolInDropped`: a nonlocal symbol in a dropped section, in order of symbols.
/// 2. `RelocToDropped`: a field of a section that stays and refers to a dropped one, by sections
///    and offsets; the place is the offset.
/// 3. `PinnedWeak`: a pinned Global that is to become Weak, by edits and then by symbols.
/// 4. `PinnedWeak` and `TargetKind`: a Weak whose fallback became Weak, or a Local with a number,
///    in order of symbols.
/// 5. `FoldTooWide`: a constant that does not fit its field, by sections and offsets; the place is
///    the offset.
/// 6. `LimitSymbols`: more than 16,777,216 symbols, with the further ones; the index is 0 and the
///    place their number. They are counted before any is made.
/// 7. `EmptyName` and `NameClash`: a nonlocal symbol without a name, or with the name of an earlier
///    one, whose number is the place, in order of symbols.
/// 8. `NameClash`: a group with the key of an earlier one; the numbers are those of their first
///    members.
///
/// `NoMemory` where memory ran out. A refusal gives nothing back. Time is that of a sort of the
/// names and of looking up each among those of the edits, of a comparison for each symbol and edit
/// of a prefix or a suffix, and else linear in the object. What is not asked for is not paid for:
/// where every section is kept and there is no edit, the object is given back as it is, at the cost
/// of a flag a section.
pub fn apply(alloc: Global, neutral: Neutral, edits: &Edits, to: Format) -> Result<Neutral, Stop>
    ensures ok { IfOk result (λ out. edited edits.now to neutral ≡ Ok out) }
    ensures refused { IfErr result (IsStepRefusal (edited edits.now to neutral)) }
    ensures few { IfOk result (λ out. length out.symbols ≤ 16777216) }
{
    let keep = keep_for(edits, neutral.format(), to);
    let neutral = dropped(alloc, keep, neutral)?;
    let neutral = rebound(alloc, edits.as_slice(), neutral)?;
    named(alloc, edits.as_slice(), to, neutral)
}
