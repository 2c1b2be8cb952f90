//! Judging names, segments, groups and data, entry by entry.
ghost use Rattle.std.specs.Prelude.{◌≡◌, ◌<◌, ◌≤◌, ℕ, Bool, List, length, None, IfErr, IfOk, OnOk};
ghost use Rattle.oc_base.specs.Stops.{IsStop};
ghost use Rattle.oc_linking.specs.FirstFault.{first_broken, stage_fault};
ghost use Rattle.oc_omf_judge.specs.Defined.{IsDefined, IsStoppedOn, IsTakenOn, bytes_in, kind_in};
ghost use Rattle.oc_omf.specs.Entries.{entries_in};
ghost use Rattle.oc_omf.specs.SectionFaults.{all_bytes, end_conditions, section_stage};
ghost use Rattle.oc_omf.specs.Tables.{Tables, tables_of};
ghost use Rattle.oc_omf.specs.declared.topics.Topic.TheVariants as topic;

use crate::defined::{Defined, name_at};
use crate::groups::take_group;
use crate::names::take_name_entry;
use crate::pieces::take_data;
use crate::section_stage::{EntryPlace, limit_fault, segment_size};
use crate::segments::take_segment;
use oc_base::{Code, Fault, MOST_CONTENTS, Stop, View};
use oc_neutral::Kind;
use oc_omf::{Module, Topic, is_wide, kind_of, topic_of};
use std::alloc::Global;

/// The kind of segment `k`, counted from 0. Linear in its class.
pub(crate) fn kind_at(defined: &Defined<'_>, k: usize) -> Kind
    requires segments { k < length defined.now.segments.items }
    requires covered { k < length defined.now.covered.items }
    ensures { (t : Tables) → IsDefined t defined.now → result ≡ kind_in t k }
{
    let segment = &defined.segments[k];
    let class = name_at(defined.names.as_slice(), segment.class);
    kind_of(class, defined.covered[k])
}

// how many bytes segment `k` has, none where its kind is `Zero`
fn bytes_at(defined: &Defined<'_>, k: usize) -> u64
    requires segments { k < length defined.now.segments.items }
    requires covered { k < length defined.now.covered.items }
    ensures { (t : Tables) → IsDefined t defined.now → result ≡ bytes_in t k }
{
    match kind_at(defined, k) {
        Kind::Zero => 0,
        Kind::Code
        | Kind::ReadOnly
        | Kind::Data
        | Kind::Init
        | Kind::Fini
        | Kind::Debug
        | Kind::Exception
        | Kind::Note => segment_size(&defined.segments[k]),
    }
}

// how many bytes all segments have whose kind is not `Zero`; where that passes the limit, a number
// that does
fn all_bytes(defined: &Defined<'_>) -> u64
    requires { length defined.now.covered.items ≡ length defined.now.segments.items }
    ensures { (t : Tables) → IsDefined t defined.now → result ≡ all_bytes t }
{
    let mut bytes = 0u64;
    for k in 0..defined.segments.len() {
        bytes = bytes.saturating_add(bytes_at(defined, k));
    }
    bytes
}

/// Judges an entry that has none of names, segments, groups and data: whether the end of the module
/// meets the limit. Linear in the segments and their classes at the end.
fn judge_others(defined: &Defined<'_>, spot: EntryPlace, ends: bool) -> Option<Fault>
    requires { length defined.now.covered.items ≡ length defined.now.segments.items }
    ensures { (t : Tables) → IsDefined t defined.now → result ≡ first_broken (end_conditions t (spot.index, spot.place) ends) }
{
    if !ends {
        return None;
    }
    let bytes = all_bytes(defined);
    if bytes > MOST_CONTENTS {
        return Some(limit_fault(spot, bytes, Code::LimitBytes));
    }
    None
}

// the same, for a loop: such an entry defines nothing, whatever its contents are
fn take_others(defined: &mut Defined<'_>, spot: EntryPlace, ends: bool) -> Result<(), Stop>
    requires { length defined.old.covered.items ≡ length defined.old.segments.items }
    ensures taken { OnOk result ((wide : Bool) (b : List ℕ) → IsTakenOn defined.old spot (topic.Others ends) wide b defined.new) }
    ensures stop { IfErr result (λ s. (wide : Bool) (b : List ℕ) → IsStoppedOn defined.old spot (topic.Others ends) wide b s) }
{
    match judge_others(defined, spot, ends) {
        Some(fault) => Err(Stop::Refused(fault)),
        None => Ok(()),
    }
}

// judges an entry, and records what it defines
fn take_entry<'a>(
    alloc: Global,
    defined: &mut Defined<'a>,
    spot: EntryPlace,
    topic: Topic,
    wide: bool,
    contents: &View<'a>,
) -> Result<(), Stop>
    requires long { length defined.old.covered.items ≡ length defined.old.segments.items }
    requires few { defined.old.sizes ≤ 2147483648 }
    ensures taken { OnOk result (IsTakenOn defined.old spot topic wide contents.now defined.new) }
    ensures stop { IfErr result (IsStoppedOn defined.old spot topic wide contents.now) }
{
    match topic {
        Topic::Names => take_name_entry(defined, spot, contents),
        Topic::Segment => take_segment(defined, spot, wide, contents),
        Topic::Group => take_group(defined, spot, contents),
        Topic::Data(iterated) => take_data(alloc, defined, spot, wide, iterated, contents),
        Topic::Others(ends) => take_others(defined, spot, ends),
        Topic::Publics(_local) => Ok(()),
        Topic::Externals(_local) => Ok(()),
        Topic::Communals => Ok(()),
        Topic::Fixups => Ok(()),
    }
}

/// Judges the names, segments, groups and data of a module, and gives what it defines.
///
/// Stops exactly where an entry has a fault of this stage, with the first; or where memory ran out.
/// The time is linear in the file, and the logarithm of the number of data before for each.
pub(crate) fn check_sections<'a>(alloc: Global, omf: &Module<'a>) -> Result<Defined<'a>, Stop>
    ensures clean { OnOk result (stage_fault (section_stage (entries_in omf.now)) ≡ None) }
    ensures defined { IfOk result (λ d. IsDefined (tables_of (entries_in omf.now)) d) }
    ensures stop { IfErr result (IsStop (stage_fault (section_stage (entries_in omf.now)))) }
{
    let mut defined = Defined::new(alloc);
    for i in 0..omf.count() {
        let entry = omf.entry(i);
        let spot = EntryPlace {
            index: i,
            place: entry.place,
        };
        let topic = topic_of(entry.kind);
        let wide = is_wide(entry.kind);
        match take_entry(alloc, &mut defined, spot, topic, wide, &entry.contents) {
            Ok(()) => (),
            Err(stop) => return Err(stop),
        }
    }
    Ok(defined)
}
