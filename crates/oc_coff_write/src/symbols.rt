//! The symbol table and the string table of an object (PE/COFF, "COFF Symbol Table" and "COFF String
//! Table"; our profile).
ghost use Rattle.std.specs.Prelude.{◌≡◌, IfOk, length};
ghost use Rattle.oc_coff_write.specs.FormFor.{form_for};
ghost use Rattle.oc_neutral.specs.Families.{container_of};
ghost use Rattle.oc_neutral.specs.Family.{IsCoff};
ghost use Rattle.oc_target.specs.Fitted.{IsFitted};
ghost use Rattle.oc_coff_file.specs.Canonical.{entry_rows};
ghost use Rattle.oc_coff.specs.Forms.{format_of};
ghost use Rattle.oc_coff_file.specs.Lines.{entry_count};
ghost use Rattle.oc_coff_write.specs.Entries.{rows_in};
ghost use Rattle.oc_coff_write.specs.Keys.{AreKeys};
ghost use Rattle.oc_coff_write.specs.Lines.{AreLines};
ghost use Rattle.oc_coff_write.specs.Numbers.{IsNumbered};
ghost use Rattle.oc_coff_write.specs.Strings.{table_for};

use crate::entries::{Entry, EntryInputs, entries_of};
use crate::keys::{keys_of, leaders_of};
use crate::lines::{Line, lines_of};
use crate::numbers::Numbers;
use crate::strings::table_of;
use oc_base::NoMemory;
use oc_coff::CoffForm;
use oc_neutral::Neutral;
use oc_strings::Table;
use std::alloc::Global;

/// The symbol table of an object.
#[derive(Drop)]
pub(crate) struct Symbols {
    /// The string table.
    pub(crate) names: Table,
    /// The numbers of the symbols.
    pub(crate) numbers: Numbers,
    /// The entries in their order.
    pub(crate) entries: Vec<Entry>,
}

// the numbers of the symbols, and the entries of these lines
fn numbered_entries(
    alloc: Global,
    neutral: &Neutral,
    keys: &[Option<u32>],
    names: &Table,
    lines: &[Line],
) -> Result<(Numbers, Vec<Entry>), NoMemory>
    requires coff { container_of neutral.now.format ≡ IsCoff }
    requires fitted { IsFitted neutral.now.format neutral.now }
    requires keys { AreKeys neutral.now keys.now }
    requires names { names.now ≡ table_for (form_for neutral.now.format) neutral.now }
    requires lines { AreLines (form_for neutral.now.format) neutral.now lines.now }
    ensures numbers { IfOk result (λ made. IsNumbered (form_for neutral.now.format) neutral.now made.0) }
    ensures rows { IfOk result (λ made. rows_in (form_for neutral.now.format) made.1.items ≡ entry_rows (form_for neutral.now.format) neutral.now) }
    ensures count { IfOk result (λ made. length made.1.items ≡ entry_count (form_for neutral.now.format) neutral.now) }
{
    let leaders = leaders_of(alloc, neutral)?;
    let numbers = Numbers::of(alloc, neutral, lines)?;
    let made = EntryInputs {
        keys,
        leaders: &leaders,
        names,
        numbers: &numbers,
    };
    let entries = entries_of(alloc, neutral, made, lines)?;
    Ok((numbers, entries))
}

/// The symbol table of an object that is ready for COFF. `NoMemory` where memory ran out. Linear in the
/// object, but for the string table and the look-ups in it.
pub(crate) fn symbols_of(
    alloc: Global,
    form: CoffForm,
    neutral: &Neutral,
) -> Result<Symbols, NoMemory>
    requires { IsFitted (format_of form) neutral.now }
    ensures names { IfOk result (λ made. made.names ≡ table_for form neutral.now) }
    ensures numbers { IfOk result (λ made. IsNumbered form neutral.now made.numbers) }
    ensures rows { IfOk result (λ made. rows_in form made.entries.items ≡ entry_rows form neutral.now) }
    ensures count { IfOk result (λ made. length made.entries.items ≡ entry_count form neutral.now) }
{
    let keys = keys_of(alloc, neutral)?;
    let lines = lines_of(alloc, form, neutral, &keys)?;
    let names = table_of(alloc, neutral)?;
    let (numbers, entries) = numbered_entries(alloc, neutral, &keys, &names, &lines)?;
    Ok(Symbols {
        names,
        numbers,
        entries,
    })
}
