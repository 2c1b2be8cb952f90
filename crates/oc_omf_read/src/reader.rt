//! The reader.
ghost use Rattle.std.specs.Prelude.{◌≡◌, ◌≤◌, length, None, IfErr, IfOk, OnOk};
ghost use Rattle.oc_base.specs.declared.limits.TheConstants.{MOST_INPUT};
ghost use Rattle.oc_base.specs.Stops.{IsStop};
ghost use Rattle.oc_linking.specs.FirstFault.{first_fault, stage_fault};
ghost use Rattle.oc_shows.specs.Readable.{IsReadable};
ghost use Rattle.oc_shows.specs.Shows.{Shows};
ghost use Rattle.oc_omf.specs.Entries.{entries_in};
ghost use Rattle.oc_omf.specs.RelocationFaults.{relocation_stages};
ghost use Rattle.oc_omf.specs.Rules.{fault_of, omf_dialect};
ghost use Rattle.oc_omf.specs.SectionFaults.{section_stage};
ghost use Rattle.oc_omf.specs.SymbolFaults.{symbol_stages};
ghost use Rattle.oc_omf.specs.Tables.{tables_of};
ghost use Rattle.oc_omf_judge.specs.Defined.{IsDefined};

use crate::added_relocs::add_relocations;
use crate::contents::contents_in;
use crate::declarations::declared_in;
use crate::fixes::FixupContext;
use crate::mentioned::mentions_of;
use crate::started::start;
use crate::weight::weigh_segments;
use oc_base::{NoMemory, Stop};
use oc_neutral::{Keep, Neutral, are_bytes};
use oc_omf::Module;
use oc_omf_judge::{Defined, judged};
use oc_shows::Reads;
use std::alloc::Global;

// the object of a module without faults, by what it defines
pub(crate) fn object_of<'f>(
    alloc: Global,
    file: &[u8],
    omf: &Module<'f>,
    known: &Defined<'f>,
    keep: &Keep,
) -> Result<Neutral, NoMemory>
    requires module { omf.now ≡ file.now }
    requires known { IsDefined (tables_of (entries_in omf.now)) known.now }
    requires sections { stage_fault (section_stage (entries_in omf.now)) ≡ None }
    requires symbols { first_fault (symbol_stages (entries_in omf.now)) ≡ None }
    requires relocs { first_fault (relocation_stages (entries_in omf.now) keep.now) ≡ None }
    ensures shows { IfOk result (Shows omf_dialect omf.now keep.now) }
    ensures readable { IfOk result IsReadable }
{
    omf.is_module();
    are_bytes(file);
    weigh_segments(known)?;
    let contents = contents_in(alloc, omf, known)?;
    let declarations = declared_in(alloc, omf)?;
    let mentions = mentions_of(alloc, declarations.as_slice())?;
    let mut builder = start(alloc, omf, known, contents.as_slice(), &mentions)?;
    builder.is_draft();
    let context = FixupContext {
        omf,
        known,
        mentions: &mentions,
        keep: *keep,
    };
    add_relocations(alloc, &context, &mut builder, contents.as_slice())?;
    Ok(builder.finish())
}

// reads a file
fn read_bytes(alloc: Global, bytes: &[u8], keep: &Keep) -> Result<Neutral, Stop>
    requires { length bytes.now ≤ MOST_INPUT }
    ensures well_formed { OnOk result (fault_of bytes.now keep.now ≡ None) }
    ensures shows { IfOk result (Shows omf_dialect bytes.now keep.now) }
    ensures readable { IfOk result IsReadable }
    ensures fault { IfErr result (IsStop (fault_of bytes.now keep.now)) }
{
    let found = judged(alloc, bytes, keep)?;
    Ok(object_of(alloc, bytes, &found.omf, &found.defined, keep)?)
}

/// The reader of OMF object modules, for i386.
///
/// The time is that of `judged`, and that of n log2(n) steps for n bytes of the file and of its
/// segments, in any order of names and fields. Names of segments that weigh more than 1 GiB are want of
/// memory before any is taken, and so are more than 9,586,980 relocated fields (`oc_weight`).
#[derive(Clone, Copy, Debug)]
pub struct OmfReader;

impl Reads for OmfReader {
    ghost use Rattle.oc_omf.specs.Rules.{omf_dialect};
    ghost use Rattle.oc_omf_read.specs.Shown.{omf_is_dialect};

    ghost dialect = { omf_dialect };

    fn read(&self, alloc: Global, bytes: &[u8], keep: &Keep) -> Result<Neutral, Stop> {
        read_bytes(alloc, bytes, keep)
    }

    ghost law = { omf_is_dialect };
}
