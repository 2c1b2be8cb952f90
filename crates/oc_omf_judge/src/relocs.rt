//! Judging threads and fixups, entry by entry.
ghost use Rattle.std.specs.Prelude.{◌≡◌, ℕ, ◌+◌, ◌≤◌, Bool, length, Ok, None, IfErr, OnOk};
ghost use Rattle.oc_base.specs.declared.limits.TheConstants.{MOST_INPUT};
ghost use Rattle.oc_base.specs.Stops.{IsStop};
ghost use Rattle.oc_base.specs.declared.stop.Stop.TheVariants as stop;
ghost use Rattle.oc_linking.specs.FirstFault.{first_fault};
ghost use Rattle.oc_omf.specs.Cursor.{each_read};
ghost use Rattle.oc_omf.specs.RelocationFaults.{relocation_stages};
ghost use Rattle.oc_omf.specs.Topics.{said_on};
ghost use Rattle.oc_omf.specs.declared.topics.Topic.TheVariants as topic;
ghost use Rattle.oc_omf_judge.specs.Counts.{external_by};
ghost use Rattle.oc_omf_judge.specs.Reached as specs;
ghost use Rattle.oc_omf_judge.specs.Threads.{HasNumber};
ghost use Rattle.oc_omf_judge.specs.Whole.{IsWhole, entries};
ghost use Rattle.oc_omf_judge.specs.declared.whole.Whole.{Whole};

use crate::counts::{one_more, with_externals};
use crate::fixups::take_fixup;
use crate::last_data::LastData;
use crate::publics::spot_in;
use crate::reached::Reached;
use crate::section_stage::EntryPlace;
use crate::threads::{relocation_fault, take_thread};
use crate::whole::Whole;
use oc_base::{Code, Stop, View};
use oc_omf::{Subrecord, Topic, is_wide, read_index, read_segment, read_subrecord, topic_of};
use std::alloc::Global;

// judges a thread or a fixup, and records it
fn take_part(
    alloc: Global,
    whole: &Whole<'_>,
    reached: &mut Reached<'_>,
    here: EntryPlace,
    part: Subrecord,
) -> Result<(), Stop>
    requires whole { IsWhole whole.now }
    requires number { HasNumber part }
    ensures taken { OnOk result (specs.IsPartTaken whole.now reached.old (here.index, here.place) (Ok part) reached.new) }
    ensures stop { IfErr result (specs.IsPartStopped whole.now reached.old (here.index, here.place) (Ok part)) }
{
    match part {
        Subrecord::Thread(thread) => take_thread(reached, here, thread),
        Subrecord::Fixup(fixup) => take_fixup(alloc, whole, reached, here, fixup),
    }
}

// judges the threads and fixups in the contents of an entry, of the odd type where `wide`, and takes
// them up
fn take_parts(
    alloc: Global,
    whole: &Whole<'_>,
    reached: &mut Reached<'_>,
    spot: EntryPlace,
    wide: bool,
    contents: &View<'_>,
) -> Result<(), Stop>
    requires whole { IsWhole whole.now }
    requires small { spot.place + length contents.now ≤ MOST_INPUT }
    ensures taken { OnOk result (specs.ArePartsTaken whole.now reached.old spot.index (specs.subrecords_at spot.place wide contents.now) reached.new) }
    ensures stop { IfErr result (specs.ArePartsStopped whole.now reached.old spot.index (specs.subrecords_at spot.place wide contents.now)) }
{
    let mut at = 0;
    while at < contents.len() {
        let here = spot_in(spot, at);
        match read_subrecord(contents, wide, at) {
            Ok((part, after)) => match take_part(alloc, whole, reached, here, part) {
                Ok(()) => at = after,
                Err(stop) => return Err(stop),
            },
            Err(_) => return Err(Stop::Refused(relocation_fault(here, Code::BadTable))),
        }
    }
    Ok(())
}

// records the segment in the contents of an entry, if one is read
fn see_segment(reached: &mut Reached<'_>, wide: bool, contents: &View<'_>)
    ensures { specs.IsTakenAnywhere reached.old topic.Segment wide contents.now reached.new }
{
    match read_segment(contents, wide) {
        Ok(_segment) => reached.counts.segments = one_more(reached.counts.segments),
        Err(_) => (),
    }
}

// records the group in the contents of an entry, if one is read
#[tactic(auto, unfolding(oc_omf::specs::Structures::group_read))]
fn see_group(reached: &mut Reached<'_>, contents: &View<'_>)
    ensures { (wide : Bool) → specs.IsTakenAnywhere reached.old topic.Group wide contents.now reached.new }
{
    match read_index(contents, 0) {
        Ok(_name) => reached.counts.groups = one_more(reached.counts.groups),
        Err(_) => (),
    }
}

// records the externals in the contents of an entry, or the communals, up to the first that is cut
fn see_externals(reached: &mut Reached<'_>, communals: bool, contents: &View<'_>)
    ensures { (w : Whole) (index place : ℕ) (local : Bool)
        → specs.AreExternalsTaken w reached.old index place (each_read (external_by communals local) contents.now 0) reached.new }
{
    let count = reached.counts.externals;
    reached.counts.externals = with_externals(contents, communals, count);
}

// records the data in the contents of an entry, if their segment and offset are read
fn see_data<'a>(
    alloc: Global,
    reached: &mut Reached<'a>,
    wide: bool,
    iterated: bool,
    contents: &View<'a>,
) -> Result<(), Stop>
    ensures taken { OnOk result (specs.IsTakenAnywhere reached.old (topic.Data iterated) wide contents.now reached.new) }
    ensures stop { IfErr result (λ s. s ≡ stop.NoMemory) }
{
    match LastData::read(alloc, contents, wide, iterated) {
        Ok(Some(last)) => {
            reached.last = Some(last);
            Ok(())
        }
        Ok(None) => Ok(()),
        Err(_) => Err(Stop::NoMemory),
    }
}

// judges the threads and fixups of an entry, and records what it has
fn take_entry<'a>(
    alloc: Global,
    whole: &Whole<'_>,
    reached: &mut Reached<'a>,
    spot: EntryPlace,
    topic: Topic,
    wide: bool,
    contents: &View<'a>,
) -> Result<(), Stop>
    requires whole { IsWhole whole.now }
    requires small { spot.place + length contents.now ≤ MOST_INPUT }
    ensures taken { OnOk result (specs.IsEntryTaken whole.now reached.old spot.index (said_on topic spot.place wide contents.now) reached.new) }
    ensures stop { IfErr result (specs.IsEntryStopped whole.now reached.old spot.index (said_on topic spot.place wide contents.now)) }
{
    match topic {
        Topic::Segment => {
            see_segment(reached, wide, contents);
            Ok(())
        }
        Topic::Group => {
            see_group(reached, contents);
            Ok(())
        }
        Topic::Externals(_local) => {
            see_externals(reached, false, contents);
            Ok(())
        }
        Topic::Communals => {
            see_externals(reached, true, contents);
            Ok(())
        }
        Topic::Data(iterated) => see_data(alloc, reached, wide, iterated, contents),
        Topic::Fixups => take_parts(alloc, whole, reached, spot, wide, contents),
        Topic::Names => Ok(()),
        Topic::Publics(_local) => Ok(()),
        Topic::Others(_ends) => Ok(()),
    }
}

/// Judges the threads and fixups of a module.
///
/// Stops exactly where one has a fault, with the first; or where memory ran out. The time is linear in
/// the file, and for each fixup that of finding its copies, of about log2(n) comparisons of names, and
/// for each copy of about log2(n) of numbers.
pub(crate) fn check_relocations(alloc: Global, whole: &Whole<'_>) -> Result<(), Stop>
    requires { IsWhole whole.now }
    ensures clean { OnOk result (first_fault (relocation_stages (entries whole.now) whole.now.keep) ≡ None) }
    ensures stop { IfErr result (IsStop (first_fault (relocation_stages (entries whole.now) whole.now.keep))) }
{
    let mut reached = Reached::new(alloc);
    for i in 0..whole.front.omf.count() {
        let entry = whole.front.omf.entry(i);
        let spot = EntryPlace {
            index: i,
            place: entry.place,
        };
        let topic = topic_of(entry.kind);
        let wide = is_wide(entry.kind);
        match take_entry(
            alloc,
            whole,
            &mut reached,
            spot,
            topic,
            wide,
            &entry.contents,
        ) {
            Ok(()) => (),
            Err(stop) => return Err(stop),
        }
    }
    Ok(())
}
