//! Whether a residue fits a field (our profile, after the psABIs and PE/COFF).
ghost use Rattle.std.specs.Prelude.{◌≡◌, ◌^◌, ◌<◌};
ghost use Rattle.oc_linking.specs.Fits as fitting;

use crate::residues::modulus;
use crate::terms::{Check, Width};
use oc_base::Word;

/// 2^(w - 1), for a field of w bits.
fn half_of(width: Width) -> u64
    ensures { result ≡ fitting.half width }
{
    match width {
        Width::One => 1 << 7,
        Width::Two => 1 << 15,
        Width::Four => 1 << 31,
        Width::Eight => 1 << 63,
    }
}

/// Whether a residue fits as a signed number: one that is negative is near 2^W.
///
/// `residue` is modulo 2^W, and below it. Constant time, no memory.
pub fn fits_signed(word: Word, width: Width, residue: u64) -> bool
    ensures { result ≡ fitting.fits_signed word width residue }
{
    let half = half_of(width);
    residue < half || u128::from(residue) + u128::from(half) >= modulus(word)
}

/// Whether a residue fits as an unsigned number. Constant time, no memory.
pub fn fits_unsigned(width: Width, residue: u64) -> bool
    ensures { result ≡ fitting.fits_unsigned width residue }
{
    match width {
        Width::One => residue < 1 << 8,
        Width::Two => residue < 1 << 16,
        Width::Four => residue < 1 << 32,
        Width::Eight => true,
    }
}

/// Whether a residue fits a field by its check.
///
/// `residue` is modulo 2^W, and below it. Constant time, no memory.
pub fn fits(word: Word, width: Width, check: Check, residue: u64) -> bool
    ensures { result ≡ fitting.fits word width check residue }
{
    match check {
        Check::Wrap => true,
        Check::Signed => fits_signed(word, width, residue),
        Check::Unsigned => fits_unsigned(width, residue),
        Check::Either => fits_signed(word, width, residue) || fits_unsigned(width, residue),
    }
}
