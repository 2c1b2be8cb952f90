//! Differences that are constants, and what they leave in their fields.
ghost use Rattle.std.specs.Prelude.{◌≡◌, IfOk};
ghost use Rattle.oc_algebra.specs.Residues.{residue_of};
ghost use Rattle.oc_algebra.specs.Folds.{low_of, fold_of};
ghost use Rattle.oc_algebra.specs.Promises.{IsStored};

use crate::fields::AddendTooWide;
use crate::residues;
use oc_base::Word;
use oc_linking::{Check, Width, fits};

/// The number of the low `width` bytes of a residue. Constant time.
fn low(width: Width, residue: u64) -> u64
    ensures { result ≡ low_of width residue }
{
    match width {
        Width::One => residue & 0xff,
        Width::Two => residue & 0xffff,
        Width::Four => residue & 0xffff_ffff,
        Width::Eight => residue,
    }
}

/// The field that a constant leaves: the low `width` bytes of its residue, from 0 to 2^32 - 1 or to
/// 2^64 - 1 by the word. `AddendTooWide` comes exactly where the residue doesn't fit the check.
/// Constant time.
#[tactic(auto, unfolding(crate::specs::Folds::fold_of))]
pub fn fold_difference(
    word: Word,
    width: Width,
    check: Check,
    value: i64,
) -> Result<u64, AddendTooWide>
    ensures field { result ≡ fold_of word width check value }
    ensures stored { IfOk result (IsStored width check (residue_of word value)) }
{
    let residue = residues::residue(word, i128::from(value));
    if fits(word, width, check, residue) {
        Ok(low(width, residue))
    } else {
        Err(AddendTooWide)
    }
}
