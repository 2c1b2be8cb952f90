//! The groups that still have members, in the order of these.
ghost use Rattle.std.specs.Prelude.{◌≡◌, ◌^◌, ◌<◌, if◌then◌else◌, length, map, slice_get, None, IfOk, OnOk};
ghost use Rattle.std.specs.List.{AllByRecursion, filter_map};
ghost use Rattle.std.specs.Option.{option_and_then};
ghost use Rattle.oc_linking.specs.Keeping.{kept_of};
ghost use Rattle.oc_neutral.specs.Invariants.{IsMember, groups_of};
ghost use Rattle.oc_neutral.specs.Without as without;

use crate::group::Group;
use crate::section::Section;
use oc_base::{Bytes, NoMemory};
use std::alloc::Global;

/// Groups in the order of their first members, and the place of each of all groups among them.
#[derive(Debug, Drop)]
pub(crate) struct Begun {
    /// The groups, by their old positions.
    pub(crate) groups: Vec<u32>,
    /// The place of each, where it has one.
    pub(crate) places: Vec<Option<u32>>,
}

impl Begun {
    // begins a group that was not begun; `NoMemory` where memory ran out
    fn begin(&mut self, group: u32) -> Result<(), NoMemory>
        requires there { group < length self.old.places.items }
        requires few { length self.old.groups.items < 2 ^ 31 }
        requires places { without.ArePlaces self.old.groups.items self.old.places.items }
        ensures groups { OnOk result (self.new.groups.items ≡ without.begun_more self.old.groups.items group) }
        ensures places { OnOk result (without.ArePlaces self.new.groups.items self.new.places.items) }
        ensures all { length self.new.places.items ≡ length self.old.places.items }
    {
        if self.places[group as usize].is_none() {
            let place = self.groups.len() as u32;
            self.groups.push(group)?;
            self.places[group as usize] = Some(place);
        }
        Ok(())
    }

    // the new position of a group
    fn place(&self, group: Option<u32>) -> Option<u32>
        requires places { without.ArePlaces self.now.groups.items self.now.places.items }
        requires member { IsMember (length self.now.places.items) group }
        ensures { result ≡ option_and_then (without.place_in self.now.groups.items) group }
    {
        match group {
            Some(at) => self.places[at as usize],
            None => None,
        }
    }
}

// the group of a section that stays
fn group_left(stays: bool, group: Option<u32>) -> Option<u32>
    ensures { result ≡ (if stays then group else None) }
{
    if stays { group } else { None }
}

/// Those of `count` groups that the sections whose flag is set have. `NoMemory` where memory ran out.
/// Linear in the groups and the sections.
pub(crate) fn groups_left(
    alloc: Global,
    count: usize,
    stay: &[bool],
    sections: &[Section],
) -> Result<Begun, NoMemory>
    requires stay { length stay.now ≡ length sections.now }
    requires members { AllByRecursion (IsMember count) (groups_of sections.now) }
    requires few { length sections.now < 2 ^ 31 }
    ensures groups { IfOk result (λ left. left.groups.items ≡ without.groups_left (kept_of stay.now sections.now)) }
    ensures places { IfOk result (λ left. without.ArePlaces left.groups.items left.places.items) }
    ensures all { IfOk result (λ left. length left.places.items ≡ count) }
{
    let mut left = Begun {
        groups: Vec::new(alloc),
        places: vec![in alloc; None; count]?,
    };
    for at in 0..sections.len() {
        if let Some(group) = group_left(stay[at], sections[at].group) {
            left.begin(group)?;
        }
    }
    Ok(left)
}

/// Those of the groups that are left, in their order. `NoMemory` where memory ran out. Linear in
/// them and their keys.
pub(crate) fn picked(alloc: Global, groups: &[Group], left: &[u32]) -> Result<Vec<Group>, NoMemory>
    ensures { IfOk result (λ out. out.items ≡ filter_map (slice_get groups.now) left.now) }
{
    let mut out = Vec::with_capacity(alloc, left.len())?;
    for at in left {
        if let Some(group) = groups.get(*at as usize) {
            let key = Bytes::from_slice(alloc, group.key.as_slice())?;
            out.push(Group { key })?;
        }
    }
    Ok(out)
}

/// Gives each section its group's new position. Linear in the sections, no memory.
pub(crate) fn regroup(left: &Begun, sections: &mut [Section])
    requires places { without.ArePlaces left.now.groups.items left.now.places.items }
    requires members { AllByRecursion (IsMember (length left.now.places.items)) (groups_of sections.old) }
    ensures { sections.new ≡ map (without.regrouped left.now.groups.items) sections.old }
{
    for section in sections.iter_mut() {
        section.group = left.place(section.group);
    }
}
