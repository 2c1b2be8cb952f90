//! The groups that entries define.
ghost use Rattle.std.specs.Prelude.{◌≡◌, Bool, ◌||◌, not, nat_eq, nat_lt, OnOk, IfErr};
ghost use Rattle.oc_omf.specs.declared.constants.TheConstants.{SEGMENT_INDEX};
ghost use Rattle.oc_omf.specs.Cursor.{each_read};
ghost use Rattle.oc_omf_judge.specs.Defined.{IsStoppedOn, IsTakenOn, group_fault_by};
ghost use Rattle.oc_omf_judge.specs.Members.{members_in};
ghost use Rattle.oc_omf.specs.Structures.{group_read, member_read};
ghost use Rattle.oc_omf.specs.declared.topics.Topic.TheVariants as topic;

use crate::defined::Defined;
use crate::section_stage::{EntryPlace, own_fault};
use oc_base::{Code, Fault, Stop, View};
use oc_omf::{SEGMENT_INDEX, read_index, read_member};

/// What is wrong with the members of a group.
#[derive(Clone, Copy, Drop)]
struct Members {
    /// The end of the contents cuts one.
    cut: bool,
    /// One has another mark than that of a segment index.
    marked_else: bool,
    /// One is no segment that is defined before.
    missing: bool,
}

// the same, with one member more, after so many segments
fn with_member(members: Members, mark: u8, segment: u16, segments: u64) -> Members
    ensures { result ≡ record {
      cut = members.cut;
      marked_else = members.marked_else || not (nat_eq mark SEGMENT_INDEX);
      missing = members.missing || (nat_eq segment 0 || nat_lt segments segment);
    } }
{
    Members {
        cut: members.cut,
        marked_else: members.marked_else || mark != SEGMENT_INDEX,
        missing: members.missing || segment == 0 || u64::from(segment) > segments,
    }
}

// what is wrong with the members from `at` on, after so many segments
fn members_from(contents: &View<'_>, at: u64, segments: u64) -> Members
    ensures { result ≡ members_in segments (each_read member_read contents.now at) }
{
    let mut members = Members {
        cut: false,
        marked_else: false,
        missing: false,
    };
    let mut at = at;
    while at < contents.len() {
        match read_member(contents, at) {
            Ok(((mark, segment), after)) => {
                members = with_member(members, mark, segment, segments);
                at = after;
            }
            Err(_) => {
                return Members {
                    cut: true,
                    ..members
                };
            }
        }
    }
    members
}

/// The fault of the group in the contents of an entry, after so many names and segments. Linear in
/// the contents.
#[tactic(auto, unfolding(oc_omf::specs::Structures::group_read, oc_omf::specs::SectionFaults::group_conditions))]
pub(crate) fn group_fault(
    names: u64,
    segments: u64,
    spot: EntryPlace,
    contents: &View<'_>,
) -> Option<Fault>
    ensures { result ≡ group_fault_by names segments (spot.index, spot.place) (group_read contents.now 0) }
{
    let Ok((name, at)) = read_index(contents, 0) else {
        return Some(own_fault(spot, Code::BadTable));
    };
    let members = members_from(contents, at, segments);
    if members.cut {
        return Some(own_fault(spot, Code::BadTable));
    }
    if members.marked_else {
        return Some(own_fault(spot, Code::SectionKind));
    }
    if u64::from(name) > names || members.missing {
        return Some(own_fault(spot, Code::BadIndex));
    }
    None
}

/// Judges the group in the contents of an entry, and records it.
///
/// Stops exactly where it has a fault, with the first; or where memory ran out. Linear in the
/// contents.
pub(crate) fn take_group(
    defined: &mut Defined<'_>,
    spot: EntryPlace,
    contents: &View<'_>,
) -> Result<(), Stop>
    ensures taken { OnOk result ((wide : Bool) → IsTakenOn defined.old spot topic.Group wide contents.now defined.new) }
    ensures stop { IfErr result (λ s. (wide : Bool) → IsStoppedOn defined.old spot topic.Group wide contents.now s) }
{
    let names = defined.names.len() as u64;
    let segments = defined.segments.len() as u64;
    match group_fault(names, segments, spot, contents) {
        Some(fault) => return Err(Stop::Refused(fault)),
        None => (),
    }
    let Ok((name, _at)) = read_index(contents, 0) else {
        return Err(Stop::Refused(own_fault(spot, Code::BadTable)));
    };
    defined.groups.push(name)?;
    Ok(())
}
