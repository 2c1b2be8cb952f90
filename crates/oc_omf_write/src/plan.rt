//! Planned files.
ghost use Rattle.std.specs.Prelude.{◌≡◌, ◌<◌, Some, length, slice_get};

use crate::entries::Entry;
use crate::tables::WrittenTables;
use crate::windows::entry_window;
use oc_shelf::Parts;

/// A planned file of OMF.
pub type Plan = oc_plans::Plan<OmfParts>;

/// The entries of a file, and what they are made of.
#[derive(Debug, Drop)]
pub struct OmfParts {
    /// What they are made of.
    pub(crate) tables: WrittenTables,
    /// The entries, in their order.
    pub(crate) entries: Vec<Entry>,
}

// entry `k`
fn entry_at(entries: &[Entry], k: usize) -> Entry
    requires { k < length entries.now }
    ensures { slice_get entries.now k ≡ Some result }
{
    entries[k]
}

impl Parts for OmfParts {
    ghost use Rattle.oc_omf_write.specs.Plans.{ArePut, parts_by};

    ghost parts = { λ p. parts_by p.tables p.entries.items };

    ghost sound = { λ p. ArePut p.tables p.entries.items };

    fn part_window(&self, k: usize, from: u64, out: &mut [u8]) -> usize {
        let entry = entry_at(&self.entries, k);
        entry_window(entry.record_type(), &self.tables.contents(entry), from, out)
    }
}
