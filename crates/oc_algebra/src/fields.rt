//! Addends, and the fields that hold them.
ghost use Rattle.std.specs.Prelude.{◌≡◌, ◌+◌, ◌≤◌, length};
ghost use Rattle.oc_base.specs.Numbers.{number_at};
ghost use Rattle.oc_linking.specs.Fits.{bytes_of};
ghost use Rattle.oc_algebra.specs.Fields.{extended, field_for, from_field_of, to_field_of};

use crate::residues::reduce;
use oc_base::{Word, u8_in, u16_in, u32_in, u64_in};
use oc_linking::Width;
use thiserror::Error;

/// No field of the width holds the addend, or the constant doesn't fit its check.
#[derive(Clone, Copy, Debug, PartialEq, Eq, Error)]
#[error("the addend is too wide for its field")]
pub struct AddendTooWide;

/// The number in the bytes of a field, from `at` on. Constant time.
pub fn field_at(contents: &[u8], at: usize, width: Width) -> u64
    requires { at + bytes_of width ≤ length contents.now }
    ensures { result ≡ number_at contents.now at (bytes_of width) }
{
    match width {
        Width::One => u8_in(contents, at).into(),
        Width::Two => u16_in(contents, at).into(),
        Width::Four => u32_in(contents, at).into(),
        Width::Eight => u64_in(contents, at),
    }
}

/// The number of the low `width` bytes of `field`, the highest of whose bits is the sign. Constant time.
#[tactic(auto, unfolding(crate::specs::Fields::extended))]
pub fn extend(width: Width, field: u64) -> i64
    ensures { result ≡ extended width field }
{
    match width {
        Width::One => i64::from(((field & 0xff) as u8).cast_signed()),
        Width::Two => i64::from(((field & 0xffff) as u16).cast_signed()),
        Width::Four => i64::from(((field & 0xffff_ffff) as u32).cast_signed()),
        Width::Eight => field.cast_signed(),
    }
}

/// The field of `width` bytes that holds `n`, or `AddendTooWide` exactly where `n` is not a signed
/// number of that width. Constant time.
#[tactic(auto, unfolding(crate::specs::Fields::field_for))]
fn hold(width: Width, n: i64) -> Result<u64, AddendTooWide>
    ensures { result ≡ field_for width n }
{
    match width {
        Width::One => Ok(u64::from(i8::try_from(n).map_err(|_| AddendTooWide)?.cast_unsigned())),
        Width::Two => Ok(u64::from(i16::try_from(n).map_err(|_| AddendTooWide)?.cast_unsigned())),
        Width::Four => Ok(u64::from(i32::try_from(n).map_err(|_| AddendTooWide)?.cast_unsigned())),
        Width::Eight => Ok(n.cast_unsigned()),
    }
}

/// The addend that a field holds: the sign-extended low `width` bytes of `field`, plus `shift`,
/// reduced. `shift` is the constant by which the format's formula differs from the field, as -4
/// where the value is taken from the end of a field of four bytes. Constant time.
#[tactic(auto, unfolding(crate::specs::Fields::from_field_of))]
pub fn from_field(word: Word, width: Width, shift: i64, field: u64) -> i64
    ensures { result ≡ from_field_of word width shift field }
{
    reduce(word, i128::from(extend(width, field)) + i128::from(shift))
}

/// The field that holds an addend: `addend - shift`, reduced, modulo 2^8, 2^16, 2^32 or 2^64 by
/// the width. `from_field` gives the reduced addend for it. `AddendTooWide` comes exactly where
/// the reduced `addend - shift` is not a signed number of that width; then no field has this
/// addend, whatever the check of the field is. Constant time.
#[tactic(auto, unfolding(crate::specs::Fields::to_field_of))]
pub fn to_field(word: Word, width: Width, shift: i64, addend: i64) -> Result<u64, AddendTooWide>
    ensures { result ≡ to_field_of word width shift addend }
{
    hold(width, reduce(word, i128::from(addend) - i128::from(shift)))
}
