//! The relocations of the object.
ghost use Rattle.std.specs.Prelude.{◌≡◌, ◌+◌, ◌<◌, ◌≤◌, length, OnOk};
ghost use Rattle.std.specs.List.Sorted.{IsPermutation};
ghost use Rattle.oc_base.specs.Numbers.{number_at};
ghost use Rattle.oc_shows.specs.Built.{HasAdded};
ghost use Rattle.oc_omf.specs.Entries.{entries_in};
ghost use Rattle.oc_omf_read.specs.Adding.{IsReady};
ghost use Rattle.oc_omf_read.specs.Aims.{Sees};
ghost use Rattle.oc_omf_read.specs.Built.{started};
ghost use Rattle.oc_omf_read.specs.Contents.{items_at};
ghost use Rattle.oc_omf_read.specs.Given.{given_at};

use crate::fields::{FixupField, fields_in};
use crate::fix::reloc_of;
use crate::fixes::FixupContext;
use oc_base::{NoMemory, u32_in};
use oc_neutral::Builder;
use std::alloc::Global;

// the number that is written in a field
fn number_in(contents: &[Vec<u8>], field: FixupField) -> u32
    requires there { field.section < length contents.now }
    requires inside { field.at + 4 ≤ length (items_at contents.now field.section) }
    ensures { result ≡ number_at (items_at contents.now field.section) field.at 4 }
{
    u32_in(
        contents[field.section as usize].as_slice(),
        field.at as usize,
    )
}

// where a field comes among all: those of one section come together, in the order of their offsets
fn place_of(field: &FixupField) -> u64 {
    u64::from(field.section) * 4_294_967_296 + u64::from(field.at)
}

// puts fields in the order of their places
fn sort_by_place(fields: &mut Vec<FixupField>)
    ensures { IsPermutation fields.old.items fields.new.items }
{
    fields.sort_unstable_by_key(|field| place_of(field));
}

/// Adds the relocations of all fields, in the order of their places. `NoMemory` where memory ran out.
/// The time is that of `fields_in`, and of n log2(n) steps for n fields, in any order.
pub(crate) fn add_relocations(
    alloc: Global,
    context: &FixupContext,
    builder: &mut Builder,
    contents: &[Vec<u8>],
) -> Result<(), NoMemory>
    requires sees { Sees context.now }
    requires ready { IsReady context.now contents.now }
    requires before { builder.old ≡ started context.now.omf.now }
    ensures { OnOk result (HasAdded (started context.now.omf.now) builder.new (given_at (entries_in context.now.omf.now) context.now.keep)) }
{
    let mut fields = fields_in(alloc, context)?;
    sort_by_place(&mut fields);
    for j in 0..fields.len() {
        let field = fields[j];
        let number = number_in(contents, field);
        builder.add_clean_reloc(field.section, field.at, reloc_of(&field.fix, number))?;
    }
    Ok(())
}
