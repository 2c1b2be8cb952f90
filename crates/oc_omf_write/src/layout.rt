//! Where the entries of a file begin.
ghost use Rattle.std.specs.Prelude.{◌^◌, ◌<◌, IfOk, length};
ghost use Rattle.std.specs.List.{AllByRecursion};
ghost use Rattle.oc_omf_write.specs.Plans.{AreLaid};
ghost use Rattle.oc_omf_write.specs.Tables.{AreSound, CanPut};

use crate::entries::Entry;
use crate::tables::WrittenTables;
use crate::windows::entry_size;
use oc_base::NoMemory;
use oc_shelf::Layout;
use std::alloc::Global;

/// Where these entries begin, one after another. `NoMemory` where memory ran out. Linear in the
/// file, but for the logarithm of a section's fixups.
pub(crate) fn layout_of(
    alloc: Global,
    tables: &WrittenTables,
    entries: &[Entry],
) -> Result<Layout, NoMemory>
    requires few { length entries.now < 2 ^ 50 }
    requires sound { AreSound tables.now }
    requires fits { AllByRecursion (CanPut tables.now) entries.now }
    ensures { IfOk result (λ layout. AreLaid tables.now layout entries.now) }
{
    let mut layout = Layout::new(alloc);
    for entry in entries {
        let size = entry_size(&tables.contents(*entry));
        layout.lay(1, size)?;
    }
    Ok(layout)
}
