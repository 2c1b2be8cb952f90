//! The sections of the object.
ghost use Rattle.std.specs.Prelude.{◌≡◌, ◌+◌, ◌<◌, ◌^◌, None, Some, IfOk, OnOk, length, slice_get};
ghost use Rattle.oc_linking.specs.FirstFault.{stage_fault};
ghost use Rattle.oc_omf.specs.declared.structures.Segment.{Segment as SegmentRecord};
ghost use Rattle.oc_omf.specs.Entries.{entries_in};
ghost use Rattle.oc_omf.specs.SectionFaults.{section_stage};
ghost use Rattle.oc_omf.specs.Sections as sections;
ghost use Rattle.oc_omf.specs.Tables.{tables_of};
ghost use Rattle.oc_omf_judge.specs.Defined.{IsDefined};
ghost use Rattle.oc_omf_read.specs.Built as built;
ghost use Rattle.oc_omf_read.specs.Contents.{AreStored};

use crate::known::{align_of, kind_in, name_in};
use oc_base::{Bytes, NoMemory};
use oc_neutral::{Builder, Section};
use oc_omf::Module;
use oc_omf_judge::{Defined, segment_size};
use std::alloc::Global;

// segment `k`, counted from 0, as a section with these bytes
fn section_of(alloc: Global, known: &Defined, bytes: &[u8], k: usize) -> Result<Section, NoMemory>
    requires covered { k < length known.now.covered.items }
    requires there { k < length known.now.segments.items }
    requires few { k < 2 ^ 31 }
    requires small { (s : SegmentRecord) → slice_get known.now.segments.items k ≡ Some s → sections.segment_size s < 2 ^ 32 }
    ensures { IfOk result (λ x. built.section_by known.now k bytes.now ≡ Some x) }
{
    let segment = known.segments[k];
    let kind = kind_in(known, k);
    let size = segment_size(&segment) as u32;
    Ok(Section {
        name: Bytes::from_slice(alloc, name_in(known, segment.name))?,
        kind,
        align: align_of(&segment),
        size,
        bytes: Bytes::from_slice(alloc, bytes)?,
        tag: 0,
        number: k as u32 + 1,
        group: None,
    })
}

// adds segment `k`, counted from 0, with these bytes
fn add_section(
    alloc: Global,
    omf: &Module,
    known: &Defined,
    bytes: &[u8],
    builder: &mut Builder,
    k: usize,
) -> Result<(), NoMemory>
    requires clean { stage_fault (section_stage (entries_in omf.now)) ≡ None }
    requires known { IsDefined (tables_of (entries_in omf.now)) known.now }
    requires there { k < length (tables_of (entries_in omf.now)).segments }
    requires bytes { built.AreBytesOf (tables_of (entries_in omf.now)) k bytes.now }
    requires long { built.HasLength (tables_of (entries_in omf.now)) k bytes.now }
    requires before { builder.old ≡ built.sectioned (tables_of (entries_in omf.now)) k }
    ensures { OnOk result (builder.new ≡ built.sectioned (tables_of (entries_in omf.now)) (k + 1)) }
{
    omf.is_module();
    let section = section_of(alloc, known, bytes, k)?;
    builder.add_clean_section(section)?;
    Ok(())
}

/// Adds the sections, which have these bytes. `NoMemory` where memory ran out. Linear in the
/// sections, their names and their bytes.
pub(crate) fn add_sections(
    alloc: Global,
    omf: &Module,
    known: &Defined,
    contents: &[Vec<u8>],
    builder: &mut Builder,
) -> Result<(), NoMemory>
    requires clean { stage_fault (section_stage (entries_in omf.now)) ≡ None }
    requires known { IsDefined (tables_of (entries_in omf.now)) known.now }
    requires contents { AreStored (tables_of (entries_in omf.now)) (tables_of (entries_in omf.now)) contents.now }
    requires before { builder.old ≡ built.sectioned (tables_of (entries_in omf.now)) 0 }
    ensures { OnOk result (builder.new ≡ built.sectioned (tables_of (entries_in omf.now)) (length (tables_of (entries_in omf.now)).segments)) }
{
    for k in 0..contents.len() {
        add_section(alloc, omf, known, contents[k].as_slice(), builder, k)?;
    }
    Ok(())
}
