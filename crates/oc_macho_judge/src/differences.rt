//! Differences of one section, whose constants must fit their fields.
ghost use Rattle.std.specs.Prelude.{◌≡◌, ◌+◌, ◌≤◌, false, IfOk};
ghost use Rattle.std.specs.Option.{option_and_then};
ghost use Rattle.oc_algebra.specs.Fields.{extended};
ghost use Rattle.oc_base.specs.Numbers.{number_at};
ghost use Rattle.oc_linking.specs.declared.terms.Width.TheVariants.{Four};
ghost use Rattle.oc_macho_judge.specs.Anchors as anchors;
ghost use Rattle.oc_macho.specs.Entries as entries;
ghost use Rattle.oc_macho.specs.Framed as framed;
ghost use Rattle.oc_macho.specs.Framed.{IsTable};
ghost use Rattle.oc_macho_judge.specs.Holders.{AreHolders};
ghost use Rattle.oc_macho.specs.RelocationFaults as rules;
ghost use Rattle.oc_macho.specs.Sections.{contents_of};

use crate::anchors::{Anchor, anchor_of};
use crate::holders::Holders;
use oc_algebra::residue;
use oc_base::{NoMemory, Word, u32_in};
use oc_linking::fits;
use oc_macho::{Frame, Item, RelocationInfo, SectionHeader, meaning_of};
use oc_neutral::{Check, Less, Width};
use std::alloc::Global;

// whether the type of an entry takes the address of a section, and not every constant fits its field
fn is_narrow(word: Word, e: &RelocationInfo) -> bool
    ensures { result ≡ anchors.is_narrow (entries.row_for word e.now) }
{
    match meaning_of(word, e) {
        Some(meaning) => {
            matches!(meaning.form.less, Less::Section(_)) && meaning.form.check != Check::Wrap
        }
        None => false,
    }
}

// the signed number of four bytes
#[tactic(auto, unfolding(oc_algebra::specs::Fields::extended))]
fn signed(number: u32) -> i64
    ensures { result ≡ extended Four number }
{
    i64::from(number.cast_signed())
}

// the number in the four bytes of a field
fn number_of(frame: &Frame, i: u32, h: &SectionHeader, item: &Item) -> i64
    requires table { IsTable frame.now i h.now }
    requires inside { rules.is_outside h.now item.now ≡ false }
    requires length { item.now.first.r_length ≡ 2 }
    ensures { result ≡ extended Four (number_at (contents_of (framed.table_at frame.now i)) item.now.first.r_address 4) }
{
    frame.has_bytes(i, h);
    signed(u32_in(frame.raw(i, h), item.first.r_address as usize))
}

// where what a pair takes lies
fn taken_anchor(
    alloc: Global,
    frame: &Frame,
    holders: &Holders,
    item: &Item,
) -> Result<Option<Anchor>, NoMemory>
    requires { AreHolders frame.now holders.now }
    ensures { IfOk result (λ x. x ≡ option_and_then (anchors.anchor_in frame.now) (entries.taken_reference frame.now.word item.now)) }
{
    match item.taken(frame.word()) {
        Some(r) => {
            let anchor = anchor_of(alloc, frame, holders, r)?;
            Ok(anchor)
        }
        None => Ok(None),
    }
}

// whether a target less what is taken is a constant that four bytes cannot hold
fn is_wide(word: Word, number: i64, target: &Anchor, taken: &Anchor) -> bool
    ensures { result ≡ anchors.is_wide word number target.now taken.now }
{
    if !target.is_fixed_from(taken) {
        return false;
    }
    let constant = residue(word, target.less(taken, number));
    !fits(word, Width::Four, Check::Signed, constant)
}

/// Whether a field that meets the conditions before is a difference of one section whose constant
/// does not fit. `NoMemory` where memory ran out. The time is that of `anchor_of`.
pub(crate) fn is_too_wide(
    alloc: Global,
    frame: &Frame,
    holders: &Holders,
    i: u32,
    h: &SectionHeader,
    item: &Item,
) -> Result<bool, NoMemory>
    requires holders { AreHolders frame.now holders.now }
    requires table { IsTable frame.now i h.now }
    requires inside { rules.is_outside h.now item.now ≡ false }
    requires kinds { rules.refers_wrongly frame.now item.now ≡ false }
    ensures { IfOk result (λ wide. wide ≡ rules.is_too_wide frame.now i (framed.table_at frame.now i) item.now) }
{
    let word = frame.word();
    if !is_narrow(word, &item.first) {
        return Ok(false);
    }
    let target = anchor_of(alloc, frame, holders, item.target(word))?;
    let taken = taken_anchor(alloc, frame, holders, item)?;
    match (target, taken) {
        (Some(target), Some(taken)) => {
            let number = number_of(frame, i, h, item);
            Ok(is_wide(word, number, &target, &taken))
        }
        (None, _) | (Some(_), None) => Ok(false),
    }
}
