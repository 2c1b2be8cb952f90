//! Planned files.
ghost use Rattle.std.specs.Prelude.{◌<◌, ◌^◌, [], length, map, slice_index_or};
ghost use Rattle.oc_outside.specs.Windows.{IsFilled};
ghost use Rattle.oc_shelf.specs.Writing.Parts.{table_of};
ghost use Rattle.oc_coff_write.specs.Plans.{relocation_rows};

use crate::entries::Entry;
use crate::tables::{entries_window, headers_window, relocations_window, strings_window};
use oc_coff::{FileHeader, Relocation, SectionHeader, Shape, pack_file_header};
use oc_neutral::Section;
use oc_shelf::{Parts, copy_window};
use oc_strings::Table;

/// A planned file of COFF.
pub type Plan = oc_plans::Plan<CoffParts>;

/// What a file is made of: its headers, the bytes and the relocations of its sections, the entries of its
/// symbol table, and its string table.
#[derive(Debug, Drop)]
pub struct CoffParts {
    /// The shape of its structures.
    pub(crate) shape: Shape,
    /// The file header.
    pub(crate) header: FileHeader,
    /// The section headers.
    pub(crate) headers: Vec<SectionHeader>,
    /// With the numbers in their fields.
    pub(crate) sections: Vec<Section>,
    /// Of each section.
    pub(crate) relocs: Vec<Vec<Relocation>>,
    /// Of the symbol table.
    pub(crate) entries: Vec<Entry>,
    /// The string table.
    pub(crate) names: Table,
}

// a window of the bytes of the section at a position
fn raw_window(sections: &[Section], k: usize, from: u64, out: &mut [u8]) -> usize
    requires { k < length sections.now }
    ensures { IsFilled (slice_index_or (map (λ s. s.bytes) sections.now) k []) from out.old out.new result }
{
    copy_window(sections[k].bytes.as_slice(), from, out)
}

// a window of its relocation entries
fn table_window(relocs: &[Vec<Relocation>], k: usize, from: u64, out: &mut [u8]) -> usize
    requires there { k < length relocs.now }
    requires small { length (table_of (relocation_rows (slice_index_or (map (λ v. v.items) relocs.now) k []))) < 2 ^ 32 }
    ensures { IsFilled (table_of (relocation_rows (slice_index_or (map (λ v. v.items) relocs.now) k []))) from out.old out.new result }
{
    relocations_window(&relocs[k], from, out)
}

impl Parts for CoffParts {
    ghost use Rattle.oc_coff_write.specs.Plans.{AreSound, parts_by};

    ghost parts = { parts_by };

    ghost sound = { AreSound };

    fn part_window(&self, k: usize, from: u64, out: &mut [u8]) -> usize {
        if k == 0 {
            return copy_window(
                pack_file_header(self.shape, &self.header).as_slice(),
                from,
                out,
            );
        }
        if k == 1 {
            return headers_window(&self.headers, from, out);
        }
        let part = k - 2;
        let section = part / 2;
        if section == self.sections.len() {
            if part % 2 == 0 {
                return entries_window(self.shape, &self.entries, from, out);
            }
            return strings_window(&self.names, from, out);
        }
        if part % 2 == 0 {
            return raw_window(&self.sections, section, from, out);
        }
        table_window(&self.relocs, section, from, out)
    }
}
