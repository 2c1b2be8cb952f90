//! How a target writes the form of a relocation.
ghost use Rattle.std.specs.Prelude.{◌≡◌, if◌then◌else◌, None, find, map};
ghost use Rattle.std.specs.Option.{option_map};
ghost use Rattle.oc_neutral.specs.Rows as rows;
ghost use Rattle.oc_neutral.specs.Rows.{TakesPlace, TakesSection};
ghost use Rattle.oc_neutral.specs.Spelling as spelling;
ghost use Rattle.oc_neutral.specs.Spelling.{spelling_of};
ghost use Rattle.oc_target.specs.Tables.{meant, meant_taken};
ghost use Rattle.oc_target.specs.Lookup.{answer_of};

use crate::rows::{Row, Taken};
use crate::tables::table_of;
use oc_base::Format;
use oc_neutral::{Base, Check, Form, Hint, Less, Width};
use thiserror::Error;

/// How a format writes a form.
#[derive(Clone, Copy, Debug, PartialEq, Eq)]
pub enum Spelling {
    /// The type number of one entry.
    One(u16),
    /// The type numbers of two entries, as they follow one another in the file.
    Pair(u16, u16),
}

/// The format has no such form.
#[derive(Clone, Copy, Debug, PartialEq, Eq, Error)]
#[error("the format has no such form")]
pub struct NoForm;

// what a form takes, but for which section
fn taken_of(less: Less) -> Taken
    ensures { meant_taken result ≡ rows.taken_of less }
{
    match less {
        Less::Zero => Taken::Zero,
        Less::Place => Taken::Place,
        Less::GotBase => Taken::GotBase,
        Less::ImageBase => Taken::ImageBase,
        Less::Home => Taken::Home,
        Less::Section(_) => Taken::Section,
    }
}

// whether two widths are one
fn same_width(a: Width, b: Width) -> bool
    ensures { result ≡ rows.same_width a b }
{
    a == b
}

// whether two checks are one
fn same_check(a: Check, b: Check) -> bool
    ensures { result ≡ rows.same_check a b }
{
    a == b
}

// whether two bases are one
fn same_base(a: Base, b: Base) -> bool
    ensures { result ≡ rows.same_base a b }
{
    a == b
}

// whether the same is taken, but for the section
fn same_taken(a: Taken, b: Taken) -> bool
    ensures { result ≡ rows.same_taken (meant_taken a) (meant_taken b) }
{
    a == b
}

// whether two hints are one
fn same_hint(a: Hint, b: Hint) -> bool
    ensures { result ≡ rows.same_hint a b }
{
    a == b
}

// whether the row is the one that is written for this form and hint, where this is taken, by which rows
// differ most
fn is_written(form: Form, hint: Hint, taken: Taken, row: &Row) -> bool
    ensures { result ≡ spelling.is_written form hint (meant_taken taken) (meant row.now) }
{
    same_taken(row.taken, taken)
        && same_width(row.width, form.width)
        && same_check(row.check, form.check)
        && same_base(row.base, form.base)
        && same_hint(row.hint, hint)
}

// that row of a table
fn row_among(table: &[Row], form: Form, hint: Hint, taken: Taken) -> Option<Row>
    ensures { option_map meant result ≡ find (spelling.is_written form hint (meant_taken taken)) (map meant table.now) }
{
    for row in table {
        if is_written(form, hint, taken, row) {
            return Some(*row);
        }
    }
    None
}

// that row of a format; where it has none for a call, the one without a hint
#[tactic(auto, using(crate::proofs::Finding::find_written))]
fn row_taking(target: Format, form: Form, hint: Hint, taken: Taken) -> Option<Row>
    ensures { option_map meant result ≡ spelling.row_taking target form hint (meant_taken taken) }
{
    let table = table_of(target);
    match row_among(table, form, hint, taken) {
        None => row_among(table, form, Hint::Plain, taken),
        row => row,
    }
}

// of what takes the field's place, the row that takes the start of its section, from which the place is
// known
fn row_from_start(target: Format, form: Form, hint: Hint, taken: Taken) -> Option<Row>
    ensures { option_map meant result ≡ (if rows.same_taken (meant_taken taken) TakesPlace then spelling.row_taking target form hint TakesSection else None) }
{
    match taken {
        Taken::Place => row_taking(target, form, hint, Taken::Section),
        Taken::Zero | Taken::GotBase | Taken::ImageBase | Taken::Home | Taken::Section => None,
    }
}

/// The row that a format writes for a form and hint. Where none takes the field's place, the start of
/// the field's own section is taken, from which the place is known. Constant time, no memory.
#[tactic(auto, unfolding(oc_neutral::specs::Spelling::written_row))]
pub fn written_row(target: Format, form: Form, hint: Hint) -> Option<Row>
    ensures { option_map meant result ≡ spelling.written_row target form hint }
{
    let taken = taken_of(form.less);
    match row_taking(target, form, hint, taken) {
        None => row_from_start(target, form, hint, taken),
        row => row,
    }
}

/// How a target writes a form for a hint: the type number, or the two of a pair. For OMF, which has no
/// type numbers, 0 is an address, 1 a distance from the target's home and 2 one from the field.
///
/// `NoForm` exactly where the target has no such form. Constant time, no memory.
pub fn lookup(target: Format, form: Form, hint: Hint) -> Result<Spelling, NoForm>
    ensures { result ≡ answer_of (spelling_of target form hint) }
{
    match written_row(target, form, hint) {
        Some(
            Row {
                number,
                second: Some(second),
                ..
            },
        ) => Ok(Spelling::Pair(number, second)),
        Some(row) => Ok(Spelling::One(row.number)),
        None => Err(NoForm),
    }
}
