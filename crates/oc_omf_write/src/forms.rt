//! How the form and the addend of a relocation are written (TIS OMF 1.1, "FIXUPP: Fixup Record").
ghost use Rattle.std.specs.Prelude.{◌≡◌};
ghost use Rattle.oc_base.specs.declared.format.Format.TheVariants.{Omf};
ghost use Rattle.oc_neutral.specs.Objects.{Object};
ghost use Rattle.oc_neutral.specs.Spelling.{written_row};
ghost use Rattle.oc_omf_file.specs.Fixups as fixups;
ghost use Rattle.oc_omf_write.specs.Raws.{CanWrite};
ghost use Rattle.oc_omf_write.specs.Written.{HasRow, number_in, number_with, shift_by};
ghost use Rattle.oc_target.specs.Meets.{HoldsAddend};

use crate::fixups::written_reloc;
use oc_algebra::{Form, to_field};
use oc_base::{Format, Word};
use oc_linking::Hint;
use oc_neutral::{Reloc, Symbol};
use oc_target::{Spelling, lookup};

/// The row of a fixup that counts from the home of its target.
pub(crate) const BY_TARGET: u16 = 1;
/// The row of a self-relative fixup.
pub(crate) const BY_SELF: u16 = 2;

/// How many bytes after its field a self-relative fixup counts from (TIS OMF 1.1, "FIXUPP").
const SELF_BEHIND: u8 = 4;

/// The row of a form that OMF has. Constant time.
pub(crate) fn row_number(form: Form, hint: Hint) -> u16
    requires { HasRow form hint }
    ensures { result ≡ number_in (written_row Omf form hint) }
{
    match lookup(Format::Omf, form, hint).unwrap() {
        Spelling::One(number) | Spelling::Pair(number, _) => number,
    }
}

// what the addend has beyond the field
fn shift_of(row: u16) -> i64
    ensures { result ≡ shift_by row }
{
    if row == BY_SELF {
        -i64::from(SELF_BEHIND)
    } else {
        0
    }
}

// the number in the field of a relocation that is written by a row
fn number_with(written: Reloc, row: u16) -> u64
    requires { HoldsAddend Omf written (shift_by row) }
    ensures { result ≡ number_with written row }
{
    to_field(Word::W32, written.form.width, shift_of(row), written.addend).unwrap()
}

/// The number in the field of a relocation that can be written, in an object with these symbols.
/// Constant time.
pub(crate) fn field_number(symbols: &[Symbol], reloc: Reloc) -> u64
    requires { CanWrite symbols.now reloc }
    ensures { (n : Object) → n.symbols ≡ symbols.now → result ≡ fixups.field_number n reloc }
{
    let row = row_number(reloc.form, reloc.hint);
    number_with(written_reloc(symbols, reloc), row)
}
