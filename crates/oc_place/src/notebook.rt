//! What the lines of a placement note together.
ghost use Rattle.std.specs.Prelude.{◌≡◌, ◌+◌, ◌-◌, ◌^◌, ◌<◌, ◌≤◌, get_or, length, None, IfOk, IfSome};
ghost use Rattle.std.specs.Option.{unwrap_or};
ghost use Rattle.oc_base.specs.Formats.{word_for};
ghost use Rattle.oc_neutral.specs.Faces.{shown_symbols};
ghost use Rattle.oc_place.specs.Faults.{AreAsMany};
ghost use Rattle.oc_place.specs.Indexes.{IsIndex};
ghost use Rattle.oc_place.specs.Placings.{is_dropped, nothing_given};
ghost use Rattle.oc_place.specs.Footprints.{footprint_of};
ghost use Rattle.oc_place.specs.Written as lines;

use crate::entry::PlacementLine;
use crate::fault::PlaceCode;
use crate::index::{NamedSymbol, position_of};
use crate::spot::{Outside, Spot};
use oc_base::{NoMemory, word_of};
use oc_neutral::Neutral;
use std::alloc::Global;
use std::marker::Model;

/// What the lines so far note. Contracts see it as `Notes`.
#[derive(Debug, Drop)]
pub(crate) struct Notebook {
    image: Option<u64>,
    got: Option<u64>,
    spots: Vec<Option<Spot>>,
    dropped: Vec<bool>,
    given: Vec<Option<Outside>>,
}

impl Model for Notebook {
    ghost use Rattle.oc_place.specs.Written.{Notes};

    ghost Value = { Notes };

    ghost view = { λ n. record { image = n.image; got = n.got; spots = n.spots.items; dropped = n.dropped.items; given = n.given.items } };
}

// the position of a number that is counted from 1, among so many
fn position_in(count: usize, number: u64) -> Option<usize>
    ensures position { result ≡ lines.position_in count number }
    ensures there { IfSome result (λ k. k < count) }
{
    if 1 <= number && number <= count as u64 {
        Some((number - 1) as usize)
    } else {
        None
    }
}

impl Notebook {
    /// One where no line of a placement of this object was read. Linear in the numbers of sections,
    /// groups and symbols; takes memory for them.
    pub(crate) fn new(alloc: Global, object: &Neutral) -> Result<Notebook, NoMemory>
        ensures { IfOk result (λ notes. notes ≡ lines.no_notes (footprint_of object.now)) }
    {
        let spots = vec![in alloc; None; object.section_count() as usize]?;
        let dropped = vec![in alloc; false; object.group_count() as usize]?;
        let given = vec![in alloc; None; object.symbol_count() as usize]?;
        Ok(Notebook {
            image: None,
            got: None,
            spots,
            dropped,
            given,
        })
    }

    // notes the image base
    fn add_image(&mut self, base: u64) -> Result<(), PlaceCode>
        ensures noted { lines.IsOutcome (lines.with_image self.old base) self.new result }
        ensures same { AreAsMany self.old self.new }
    {
        if self.image.is_some() {
            return Err(PlaceCode::Repeated);
        }
        self.image = Some(base);
        Ok(())
    }

    // notes the base of the GOT
    fn add_got(&mut self, base: u64) -> Result<(), PlaceCode>
        ensures noted { lines.IsOutcome (lines.with_got self.old base) self.new result }
        ensures same { AreAsMany self.old self.new }
    {
        if self.got.is_some() {
            return Err(PlaceCode::Repeated);
        }
        self.got = Some(base);
        Ok(())
    }

    // notes where the section of that number lies
    fn add_spot(&mut self, number: u64, spot: Spot) -> Result<(), PlaceCode>
        ensures noted { lines.IsOutcome (lines.with_spot self.old spot (lines.position_in (length self.old.spots) number)) self.new result }
        ensures same { AreAsMany self.old self.new }
    {
        let Some(k) = position_in(self.spots.len(), number) else {
            return Err(PlaceCode::BadSection);
        };
        if self.spots[k].is_some() {
            return Err(PlaceCode::Repeated);
        }
        self.spots[k] = Some(spot);
        Ok(())
    }

    // notes that the group of that number is discarded
    fn add_drop(&mut self, number: u64) -> Result<(), PlaceCode>
        ensures noted { lines.IsOutcome (lines.with_drop self.old (lines.position_in (length self.old.dropped) number)) self.new result }
        ensures same { AreAsMany self.old self.new }
    {
        let Some(k) = position_in(self.dropped.len(), number) else {
            return Err(PlaceCode::BadSection);
        };
        if self.dropped[k] {
            return Err(PlaceCode::Repeated);
        }
        self.dropped[k] = true;
        Ok(())
    }

    // notes what the outside gives the name of the symbol at a position
    fn add_outside(&mut self, given: Outside, at: Option<u32>) -> Result<(), PlaceCode>
        requires { IfSome at (λ k. k < length self.old.given) }
        ensures noted { lines.IsOutcome (lines.with_outside self.old given at) self.new result }
        ensures same { AreAsMany self.old self.new }
    {
        let Some(k) = at else {
            return Err(PlaceCode::NoSymbol);
        };
        if self.given[k as usize].is_some() {
            return Err(PlaceCode::Repeated);
        }
        self.given[k as usize] = Some(given);
        Ok(())
    }

    /// Notes an entry about a name, or gives the code of what is wrong with it: `TooLarge` exactly
    /// where one of its numbers is 2^W or more; else `BadSection` where no section or group has its
    /// number, `NoSymbol` where no symbol that is not Local has the name, and `Repeated` where an
    /// earlier entry was about the same base, section, group or name. Time of a look-up of the name,
    /// no memory.
    pub(crate) fn add(
        &mut self,
        object: &Neutral,
        names: &[NamedSymbol<'_>],
        entry: PlacementLine,
        name: &[u8],
    ) -> Result<(), PlaceCode>
        requires index { IsIndex (lines.names_of (shown_symbols object.now)) names.now }
        requires counted { length self.old.given ≡ length object.now.symbols }
        ensures noted { lines.IsOutcome (lines.with_entry (footprint_of object.now) self.old entry name.now) self.new result }
        ensures same { AreAsMany self.old self.new }
    {
        if entry.is_large(word_of(object.format())) {
            return Err(PlaceCode::TooLarge);
        }
        match entry {
            PlacementLine::Image(base) => self.add_image(base),
            PlacementLine::Got(base) => self.add_got(base),
            PlacementLine::Section { number, spot } => self.add_spot(number, spot),
            PlacementLine::Drop(number) => self.add_drop(number),
            PlacementLine::Name { spot, slot } => {
                let spot = Some(spot);
                self.add_outside(Outside { spot, slot }, position_of(object, names, name))
            }
            PlacementLine::Slot(slot) => {
                let spot = None;
                self.add_outside(Outside { spot, slot }, position_of(object, names, name))
            }
        }
    }

    /// The image base, 0 where none is noted. Constant time, no memory.
    pub(crate) fn image(&self) -> u64
        ensures { result ≡ unwrap_or self.now.image 0 }
    {
        self.image.unwrap_or(0)
    }

    /// The base of the GOT, 0 where none is noted. Constant time, no memory.
    pub(crate) fn got(&self) -> u64
        ensures { result ≡ unwrap_or self.now.got 0 }
    {
        self.got.unwrap_or(0)
    }

    /// Where a section lies, if a line gives it. Constant time, no memory.
    pub(crate) fn spot(&self, section: u32) -> Option<Spot>
        requires { section < length self.now.spots }
        ensures { result ≡ get_or self.now.spots section None }
    {
        self.spots[section as usize]
    }

    /// Whether a section with that group is discarded. Constant time, no memory.
    pub(crate) fn is_dropped(&self, group: Option<u32>) -> bool
        requires { IfSome group (λ g. g < length self.now.dropped) }
        ensures { result ≡ is_dropped self.now.dropped group }
    {
        match group {
            Some(group) => self.dropped[group as usize],
            None => false,
        }
    }

    /// What the outside gives the name of a symbol. Constant time, no memory.
    pub(crate) fn given(&self, symbol: u32) -> Outside
        requires { symbol < length self.now.given }
        ensures { result ≡ unwrap_or (get_or self.now.given symbol None) nothing_given }
    {
        match self.given[symbol as usize] {
            Some(given) => given,
            None => Outside {
                spot: None,
                slot: 0,
            },
        }
    }

    /// Which groups are discarded. Constant time, no memory.
    pub(crate) fn into_dropped(self) -> Vec<bool>
        ensures { result.items ≡ self.dropped }
    {
        self.dropped
    }
}
