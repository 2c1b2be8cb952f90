//! The string table (PE/COFF, "COFF String Table"; our profile).
ghost use Rattle.std.specs.Prelude.{◌≡◌, IfOk};
ghost use Rattle.oc_coff_write.specs.FormFor.{form_for};
ghost use Rattle.oc_neutral.specs.Families.{container_of};
ghost use Rattle.oc_neutral.specs.Family.{IsCoff};
ghost use Rattle.oc_target.specs.Fitted.{IsFitted};
ghost use Rattle.oc_coff_write.specs.Strings.{table_for};

use oc_base::NoMemory;
use oc_neutral::Neutral;
use oc_neutral::coff::STRINGS_HEAD;
use oc_strings::Table;
use oc_target::{default_names, given_names, output_names};
use std::alloc::Global;

/// The string table of an object that is ready for COFF. `NoMemory` where memory ran out. Time as for
/// `Table::of_slices`.
pub(crate) fn table_of(alloc: Global, neutral: &Neutral) -> Result<Table, NoMemory>
    requires coff { container_of neutral.now.format ≡ IsCoff }
    requires fitted { IsFitted neutral.now.format neutral.now }
    ensures { IfOk result (λ table. table ≡ table_for (form_for neutral.now.format) neutral.now) }
{
    let format = neutral.format();
    let sections = output_names(alloc, format, neutral)?;
    let defaults = default_names(alloc, neutral)?;
    let given = given_names(alloc, format, neutral, &sections, &defaults)?;
    Table::of_slices(alloc, STRINGS_HEAD as u32, &given.names)
}
