//! The sections and symbols of the object, before its relocations.
ghost use Rattle.std.specs.Prelude.{◌≡◌, None, IfOk};
ghost use Rattle.oc_linking.specs.FirstFault.{first_fault, stage_fault};
ghost use Rattle.oc_omf.specs.Entries.{entries_in};
ghost use Rattle.oc_omf.specs.SectionFaults.{section_stage};
ghost use Rattle.oc_omf.specs.SymbolFaults.{symbol_stages};
ghost use Rattle.oc_omf.specs.Tables.{tables_of};
ghost use Rattle.oc_omf_judge.specs.Defined.{IsDefined};
ghost use Rattle.oc_omf_read.specs.Built.{started};
ghost use Rattle.oc_omf_read.specs.Contents.{AreStored};
ghost use Rattle.oc_omf_read.specs.Declarations.{declarations_in};
ghost use Rattle.oc_omf_read.specs.Mentioned.{HasDeclarations};

use crate::built_sections::add_sections;
use crate::built_symbols::add_symbols;
use crate::mentioned::Mentions;
use oc_base::{Format, NoMemory};
use oc_neutral::Builder;
use oc_omf::Module;
use oc_omf_judge::Defined;
use std::alloc::Global;

/// The sections, which have these bytes, and the symbols of a module. `NoMemory` where memory ran
/// out. Linear in the sections and the symbols, their names, and the bytes of sections.
pub(crate) fn start(
    alloc: Global,
    omf: &Module,
    known: &Defined,
    contents: &[Vec<u8>],
    mentions: &Mentions,
) -> Result<Builder, NoMemory>
    requires sections { stage_fault (section_stage (entries_in omf.now)) ≡ None }
    requires symbols { first_fault (symbol_stages (entries_in omf.now)) ≡ None }
    requires known { IsDefined (tables_of (entries_in omf.now)) known.now }
    requires contents { AreStored (tables_of (entries_in omf.now)) (tables_of (entries_in omf.now)) contents.now }
    requires declarations { HasDeclarations (declarations_in (entries_in omf.now)) mentions.now }
    ensures { IfOk result (λ b. b ≡ started omf.now) }
{
    let mut builder = Builder::new(alloc, Format::Omf);
    add_sections(alloc, omf, known, contents, &mut builder)?;
    add_symbols(alloc, omf, mentions, &mut builder)?;
    Ok(builder)
}
