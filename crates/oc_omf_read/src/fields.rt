//! The fields of fixups: one for each copy of the content that is fixed up.
ghost use Rattle.std.specs.Prelude.{◌≡◌, ◌+◌, ◌-◌, ◌<◌, ◌^◌, ◌++◌, ℕ, get_or, length, slice_get, None, Some, IfOk, OnOk};
ghost use Rattle.oc_linking.specs.FirstFault.{stage_fault};
ghost use Rattle.oc_omf.specs.Entries.{all_read, entries_in, places_in};
ghost use Rattle.oc_omf.specs.Fields.{fixups_in};
ghost use Rattle.oc_omf.specs.SectionFaults.{section_stage};
ghost use Rattle.oc_omf_read.specs.declared.class.EntryClass.TheVariants as class;
ghost use Rattle.oc_omf_read.specs.Aims.{Sees, meaning_seen};
ghost use Rattle.oc_omf_read.specs.Classes as classes;
ghost use Rattle.oc_omf_read.specs.Defined.{said};
ghost use Rattle.oc_omf_read.specs.Fields.{AreLow, HasData, HasFields, IsLow, fields_at, fields_behind, fields_in, fields_of, fix_behind, held};

use crate::class::{EntryClass, class_of};
use crate::fix::Fix;
use crate::fixes::{FixupContext, fix_of};
use crate::pieces::piece_of;
use crate::searched::Searched;
use oc_base::NoMemory;
use oc_omf::{Fixup, Subrecord, Threads, is_wide, read_subrecord};
use oc_omf_records::Entry;
use std::alloc::Global;

/// A field of a fixup.
#[derive(Clone, Copy, Drop)]
pub struct FixupField {
    /// The position of its section.
    pub section: u32,
    /// Its offset in the section, in bytes.
    pub at: u32,
    /// What the fixup does to it.
    pub fix: Fix,
}

/// What comes before an entry.
#[derive(Drop)]
pub struct Behind<'a> {
    // the threads in force
    threads: Threads,
    // the last data
    piece: Option<Searched<'a>>,
}

// adds the fields of a fixup of data at that offset of a section, one for each copy
fn add_copies(
    fields: &mut Vec<FixupField>,
    section: u32,
    offset: u32,
    fix: Fix,
    copies: &[u32],
) -> Result<(), NoMemory>
    requires { (k : ℕ) → k < length copies.now → offset + get_or copies.now k 0 < 2 ^ 32 }
    ensures { OnOk result (fields.new.items ≡ fields.old.items ++ fields_at section offset fix copies.now) }
{
    for k in 0..copies.len() {
        let at = offset + copies[k];
        fields.push(FixupField { section, at, fix })?;
    }
    Ok(())
}

// adds the fields of a fixup of some data
fn add_fields(
    alloc: Global,
    fields: &mut Vec<FixupField>,
    searched: &mut Searched,
    fix: Fix,
    at: u16,
) -> Result<(), NoMemory>
    requires { IsLow searched.old.piece }
    ensures piece { OnOk result (searched.new.piece ≡ searched.old.piece) }
    ensures fields { OnOk result (fields.new.items ≡ fields.old.items ++ fields_in searched.old.piece fix at) }
{
    let section = u32::from(searched.piece.segment).saturating_sub(1);
    let offset = searched.piece.offset;
    let copies = searched.copies(alloc, at)?;
    add_copies(fields, section, offset, fix, copies.as_slice())
}

// what a fixup does
fn fix_behind(context: &FixupContext, behind: &Behind, fixup: &Fixup) -> Option<Fix>
    requires { Sees context.now }
    ensures { result ≡ fix_behind (meaning_seen context.now) context.now.keep behind.now fixup.now }
{
    match &behind.piece {
        Some(searched) => fix_of(context, &behind.threads, searched.piece.segment, fixup),
        None => None,
    }
}

// records a fixup
fn take_fixup(
    alloc: Global,
    context: &FixupContext,
    fields: &mut Vec<FixupField>,
    behind: &mut Behind,
    fixup: &Fixup,
) -> Result<(), NoMemory>
    requires sees { Sees context.now }
    requires low { AreLow (held behind.old) }
    ensures threads { OnOk result (behind.new.threads ≡ behind.old.threads) }
    ensures piece { OnOk result (held behind.new ≡ held behind.old) }
    ensures fields { OnOk result (fields.new.items ≡ fields.old.items ++ fields_behind (meaning_seen context.now) context.now.keep behind.old fixup.now) }
{
    match fix_behind(context, behind, fixup) {
        Some(fix) => match &mut behind.piece {
            Some(searched) => {
                add_fields(alloc, fields, searched, fix, fixup.offset)?;
                Ok(())
            }
            None => Ok(()),
        },
        None => Ok(()),
    }
}

// records the threads and fixups of an entry
fn take_subrecords(
    alloc: Global,
    context: &FixupContext,
    fields: &mut Vec<FixupField>,
    behind: &mut Behind,
    entry: &Entry,
) -> Result<(), NoMemory>
    requires sees { Sees context.now }
    requires class { classes.class_of entry.now.kind ≡ class.Fixups }
    requires low { AreLow (held behind.old) }
    ensures { OnOk result ((i : ℕ) → slice_get (entries_in context.now.omf.now) i ≡ Some (said entry.now)
        → HasFields context.now i fields.old.items behind.old → HasFields context.now (i + 1) fields.new.items behind.new) }
{
    let wide = is_wide(entry.kind);
    let mut at = 0;
    while at < entry.contents.len() {
        match read_subrecord(&entry.contents, wide, at) {
            Ok((Subrecord::Thread(thread), after)) => {
                behind.threads.take_up(thread);
                at = after;
            }
            Ok((Subrecord::Fixup(fixup), after)) => {
                take_fixup(alloc, context, fields, behind, &fixup)?;
                at = after;
            }
            Err(_) => at = entry.contents.len(),
        }
    }
    Ok(())
}

// records the data of an entry, if it has some
fn take_data<'a>(alloc: Global, behind: &mut Behind<'a>, entry: &Entry<'a>) -> Result<(), NoMemory>
    ensures { OnOk result (HasData (all_read (said entry.now).pieces) behind.old behind.new) }
{
    match piece_of(alloc, entry)? {
        Some(piece) => {
            behind.piece = Some(Searched::new(alloc, piece));
            Ok(())
        }
        None => Ok(()),
    }
}

// records entry `i`
fn take_entry<'f>(
    alloc: Global,
    context: &FixupContext<'_, 'f>,
    fields: &mut Vec<FixupField>,
    behind: &mut Behind<'f>,
    i: u32,
) -> Result<(), NoMemory>
    requires sees { Sees context.now }
    requires clean { stage_fault (section_stage (entries_in context.now.omf.now)) ≡ None }
    requires there { i < length (places_in context.now.omf.now) }
    requires before { HasFields context.now i fields.old.items behind.old }
    ensures { OnOk result (HasFields context.now (i + 1) fields.new.items behind.new) }
{
    let entry = context.omf.entry(i);
    match class_of(entry.kind) {
        EntryClass::Fixups => take_subrecords(alloc, context, fields, behind, &entry),
        EntryClass::Names
        | EntryClass::Segment
        | EntryClass::Group
        | EntryClass::Publics
        | EntryClass::LocalPublics
        | EntryClass::Externals
        | EntryClass::LocalExternals
        | EntryClass::Communals
        | EntryClass::Plain
        | EntryClass::Iterated
        | EntryClass::Nothing => take_data(alloc, behind, &entry),
    }
}

/// The fields of a module's fixups, as far as their sections are kept. `NoMemory` where memory ran
/// out. Linear in the module and the fields; for each of at most 1,024 places in the data of an entry
/// the blocks of iterated data are walked once more.
pub(crate) fn fields_in(alloc: Global, context: &FixupContext) -> Result<Vec<FixupField>, NoMemory>
    requires sees { Sees context.now }
    requires clean { stage_fault (section_stage (entries_in context.now.omf.now)) ≡ None }
    ensures { IfOk result (λ fields. fields.items ≡ fields_of (meaning_seen context.now) context.now.keep (fixups_in (entries_in context.now.omf.now))) }
{
    let mut fields = Vec::new(alloc);
    let mut behind = Behind {
        threads: Threads::new(),
        piece: None,
    };
    for i in 0..context.omf.count() {
        take_entry(alloc, context, &mut fields, &mut behind, i)?;
    }
    Ok(fields)
}
