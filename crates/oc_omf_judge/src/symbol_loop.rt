//! Judging symbols, entry by entry.
ghost use Rattle.std.specs.Prelude.{◌≡◌, ◌+◌, ◌≤◌, Bool, length, None, IfErr, IfOk, OnOk};
ghost use Rattle.oc_base.specs.declared.limits.TheConstants.{MOST_INPUT};
ghost use Rattle.oc_base.specs.Stops.{IsStop};
ghost use Rattle.oc_linking.specs.FirstFault.{first_fault};
ghost use Rattle.oc_omf.specs.Entries.{entries_in};
ghost use Rattle.oc_omf_judge.specs.EarlierSymbols as specs;
ghost use Rattle.oc_omf.specs.SymbolFaults.{symbol_stages};
ghost use Rattle.oc_omf.specs.Tables.{tables_of};
ghost use Rattle.oc_omf.specs.declared.topics.Topic.TheVariants as topic;

use crate::earlier::EarlierSymbols;
use crate::externals::{take_communals, take_externals};
use crate::locals::local_segments;
use crate::publics::take_public_entry;
use crate::section_stage::EntryPlace;
use oc_base::{Stop, View};
use oc_omf::{Module, Topic, is_wide, read_index, read_segment, topic_of};
use std::alloc::Global;
use std::collections::BTreeMap;

// records the segment in the contents of an entry, if one is read
fn see_segment(seen: &mut EarlierSymbols<'_>, wide: bool, contents: &View<'_>) -> Result<(), Stop>
    ensures taken { OnOk result (specs.IsSeenAnywhere seen.old topic.Segment wide contents.now seen.new) }
    ensures stop { IfErr result (specs.IsStoppedAnywhere seen.old topic.Segment wide contents.now) }
{
    match read_segment(contents, wide) {
        Ok((segment, _at)) => {
            seen.segments.push(segment)?;
            Ok(())
        }
        Err(_) => Ok(()),
    }
}

// records the group in the contents of an entry, if one is read
fn see_group(seen: &mut EarlierSymbols<'_>, contents: &View<'_>) -> Result<(), Stop>
    ensures taken { OnOk result ((wide : Bool) → specs.IsSeenAnywhere seen.old topic.Group wide contents.now seen.new) }
    ensures stop { IfErr result (λ s. (wide : Bool) → specs.IsStoppedAnywhere seen.old topic.Group wide contents.now s) }
{
    match read_index(contents, 0) {
        Ok((name, _at)) => {
            seen.groups.push(name)?;
            Ok(())
        }
        Err(_) => Ok(()),
    }
}

// judges the symbols of an entry, and records what it has
fn see_entry<'a>(
    known: &BTreeMap<&[u8], u32>,
    seen: &mut EarlierSymbols<'a>,
    spot: EntryPlace,
    topic: Topic,
    wide: bool,
    contents: &View<'a>,
) -> Result<(), Stop>
    requires { spot.place + length contents.now ≤ MOST_INPUT }
    ensures taken { OnOk result (specs.IsSeenThere known.now seen.old spot topic wide contents.now seen.new) }
    ensures stop { IfErr result (specs.IsStoppedThere known.now seen.old spot topic wide contents.now) }
{
    match topic {
        Topic::Segment => see_segment(seen, wide, contents),
        Topic::Group => see_group(seen, contents),
        Topic::Publics(local) => take_public_entry(seen, spot, wide, local, contents),
        Topic::Externals(local) => take_externals(known, seen, spot, local, contents),
        Topic::Communals => take_communals(seen, spot, contents),
        Topic::Names => Ok(()),
        Topic::Data(_iterated) => Ok(()),
        Topic::Fixups => Ok(()),
        Topic::Others(_ends) => Ok(()),
    }
}

/// Judges the symbols of a module, and gives what it has of them.
///
/// Stops exactly where one has a fault, with the first; or where memory ran out. The time is linear in
/// the file, and for each symbol that of about log2(n) comparisons of names.
pub(crate) fn check_symbols<'a>(alloc: Global, omf: &Module<'a>) -> Result<EarlierSymbols<'a>, Stop>
    ensures clean { OnOk result (first_fault (symbol_stages (entries_in omf.now)) ≡ None) }
    ensures seen { IfOk result (λ s. specs.AreEarlierSymbols (tables_of (entries_in omf.now)) s) }
    ensures stop { IfErr result (IsStop (first_fault (symbol_stages (entries_in omf.now)))) }
{
    let known = local_segments(alloc, omf)?;
    let mut seen = EarlierSymbols::new(alloc);
    for i in 0..omf.count() {
        let entry = omf.entry(i);
        let spot = EntryPlace {
            index: i,
            place: entry.place,
        };
        let topic = topic_of(entry.kind);
        let wide = is_wide(entry.kind);
        match see_entry(&known, &mut seen, spot, topic, wide, &entry.contents) {
            Ok(()) => (),
            Err(stop) => return Err(stop),
        }
    }
    Ok(seen)
}
