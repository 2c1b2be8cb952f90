//! The segments of the symbols that a module alone sees.
ghost use Rattle.std.specs.Prelude.{ℕ, IfOk, OnOk};
ghost use Rattle.oc_omf.specs.Cursor.{each_read};
ghost use Rattle.oc_omf.specs.Entries.{all_read, entries_in};
ghost use Rattle.oc_omf.specs.Structures.{public_read};
ghost use Rattle.oc_omf.specs.Tables.{tables_of};
ghost use Rattle.oc_omf.specs.Topics.{said_on};
ghost use Rattle.oc_omf_judge.specs.Locals.{AreLocals, AreLocated, IsLocated};

use crate::held::{take_up, value_of};
use oc_base::{NoMemory, View};
use oc_omf::{Module, Topic, is_wide, read_base, read_public, topic_of};
use std::alloc::Global;
use std::collections::BTreeMap;

// records the segment of a definition, if this module alone sees it and its name is new
fn locate<'a>(
    locals: &mut BTreeMap<&'a [u8], u32>,
    local: bool,
    segment: u16,
    name: &'a [u8],
) -> Result<(), NoMemory>
    ensures { OnOk result (IsLocated locals.old local segment name.now locals.new) }
{
    if !local {
        return Ok(());
    }
    if value_of(locals, name).is_some() {
        return Ok(());
    }
    let _before = take_up(locals, name, u32::from(segment))?;
    Ok(())
}

// records the segments of the definitions from `at` on, up to the first that is cut
fn locate_publics<'a>(
    locals: &mut BTreeMap<&'a [u8], u32>,
    wide: bool,
    local: bool,
    segment: u16,
    contents: &View<'a>,
    at: u64,
) -> Result<(), NoMemory>
    ensures { OnOk result (AreLocated locals.old (all_read (each_read (public_read wide local segment) contents.now at)) locals.new) }
{
    let mut at = at;
    while at < contents.len() {
        match read_public(contents, wide, at) {
            Ok((public, after)) => {
                locate(locals, local, segment, public.name)?;
                at = after;
            }
            Err(_) => return Ok(()),
        }
    }
    Ok(())
}

// records the segments of the definitions of an entry
fn locate_entry<'a>(
    locals: &mut BTreeMap<&'a [u8], u32>,
    topic: Topic,
    wide: bool,
    contents: &View<'a>,
) -> Result<(), NoMemory>
    ensures { OnOk result ((place : ℕ) → AreLocated locals.old (all_read (said_on topic place wide contents.now).publics) locals.new) }
{
    match topic {
        Topic::Publics(local) => match read_base(contents) {
            Ok((base, at)) => locate_publics(locals, wide, local, base.segment, contents, at),
            Err(_cut) => Ok(()),
        },
        Topic::Names => Ok(()),
        Topic::Segment => Ok(()),
        Topic::Group => Ok(()),
        Topic::Externals(_local) => Ok(()),
        Topic::Communals => Ok(()),
        Topic::Data(_iterated) => Ok(()),
        Topic::Fixups => Ok(()),
        Topic::Others(_ends) => Ok(()),
    }
}

/// The names of all definitions that a module alone sees, each with the index of the segment of the
/// first of that name. `NoMemory` where memory ran out. Linear in the file, and for each name the time
/// of about log2(n) comparisons.
pub(crate) fn local_segments<'a>(
    alloc: Global,
    omf: &Module<'a>,
) -> Result<BTreeMap<&'a [u8], u32>, NoMemory>
    ensures { IfOk result (λ locals. AreLocals (tables_of (entries_in omf.now)).publics locals) }
{
    let mut locals = BTreeMap::new(alloc);
    for i in 0..omf.count() {
        let entry = omf.entry(i);
        let topic = topic_of(entry.kind);
        let wide = is_wide(entry.kind);
        locate_entry(&mut locals, topic, wide, &entry.contents)?;
    }
    Ok(locals)
}
