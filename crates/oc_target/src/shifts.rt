//! What an addend has beyond the number in its field.
ghost use Rattle.std.specs.Prelude.{◌≡◌, ◌&&◌};
ghost use Rattle.std.specs.Option.{option_map};
ghost use Rattle.oc_neutral.specs.Families.{family_of};
ghost use Rattle.oc_neutral.specs.Rows.{TakesPlace, TakesSection, same_taken, taken_of};
ghost use Rattle.oc_neutral.specs.Shifts as shifts;
ghost use Rattle.oc_neutral.specs.Spelling as spelling;
ghost use Rattle.oc_target.specs.Tables.{meant, meant_taken};

use crate::rows::{Row, Taken};
use oc_base::Format;
use oc_neutral::{Less, Reloc};

// whether there is a field for every addend: in elf64 it is in the entry, and in mac32 and omf all
// fields have as many bits as an address
fn holds_all_addends(target: Format) -> bool
    ensures { result ≡ (family_of target).holds_all_addends }
{
    match target {
        Format::Elf64 | Format::BigElf64 | Format::Mac32 | Format::Omf => true,
        Format::Elf32
        | Format::BigElf32
        | Format::Coff32
        | Format::Coff64
        | Format::BigCoff32
        | Format::BigCoff64
        | Format::Mac64 => false,
    }
}

// whether a difference is written where the field's place is taken: from the start of the section
fn is_from_start(taken: Taken, less: Less) -> bool
    ensures { result ≡ (same_taken (meant_taken taken) TakesSection && same_taken (taken_of less) TakesPlace) }
{
    match (taken, less) {
        (Taken::Section, Less::Place) => true,
        _ => false,
    }
}

// the shift of a field at an offset that is written by that row
fn written_shift(at: u32, less: Less, row: Row) -> i64
    ensures { result ≡ shifts.written_shift at less (meant row) }
{
    if is_from_start(row.taken, less) {
        i64::from(at)
    } else {
        -i64::from(row.behind)
    }
}

/// What a target adds to the number in a field at an offset, where not every addend has a field and the
/// target has the form, which it writes by this row. Constant time.
#[tactic(auto, unfolding(oc_neutral::specs::Shifts::field_shift))]
pub fn field_shift(target: Format, at: u32, reloc: Reloc, row: Option<Row>) -> Option<i64>
    requires { option_map meant row ≡ spelling.written_row target reloc.form reloc.hint }
    ensures { result ≡ shifts.field_shift target at reloc }
{
    if holds_all_addends(target) {
        return None;
    }
    let row = row?;
    Some(written_shift(at, reloc.form.less, row))
}
