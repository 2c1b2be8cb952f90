//! A placement of an object.
ghost use Rattle.std.specs.Prelude.{◌≡◌, ◌<◌, get_or, length, slice_get, Some, IfOk};
ghost use Rattle.oc_place.specs.Faults.{IsFor};
ghost use Rattle.oc_place.specs.Placings as placings;
ghost use Rattle.oc_place.specs.Footprints.{footprint_of};

use crate::notebook::Notebook;
use crate::spot::{Outside, Spot};
use oc_base::NoMemory;
use oc_neutral::Neutral;
use std::alloc::Global;
use std::marker::Model;

/// Where the sections of an object lie, which of its groups are discarded, and what the outside gives
/// the names of its symbols. Contracts see it as `Placing`.
#[derive(Debug, Drop)]
pub struct Placements {
    image: u64,
    got: u64,
    spots: Vec<Spot>,
    dropped: Vec<bool>,
    given: Vec<Outside>,
}

impl Model for Placements {
    ghost use Rattle.oc_place.specs.Placings.{Placing};

    ghost Value = { Placing };

    ghost view = { λ p. record { image = p.image; got = p.got; spots = p.spots.items; dropped = p.dropped.items; given = p.given.items } };
}

impl Placements {
    /// Where a section lies; one that is discarded lies at zeros. Constant time, no memory.
    pub fn section(&self, index: u32) -> Spot
        requires { index < length self.now.spots }
        ensures { slice_get self.now.spots index ≡ Some result }
    {
        self.spots[index as usize]
    }

    /// Whether a group is discarded. Constant time, no memory.
    pub fn discarded(&self, index: u32) -> bool
        requires { index < length self.now.dropped }
        ensures { slice_get self.now.dropped index ≡ Some result }
    {
        self.dropped[index as usize]
    }

    /// The base of the image. Constant time, no memory.
    pub fn image(&self) -> u64
        ensures { result ≡ self.now.image }
    {
        self.image
    }

    /// The base of the global offset table. Constant time, no memory.
    pub fn got(&self) -> u64
        ensures { result ≡ self.now.got }
    {
        self.got
    }

    /// What the outside gives the name of the symbol at a position; nothing where it is Local. Constant
    /// time, no memory.
    pub fn outside(&self, symbol: u32) -> Outside
        requires { symbol < length self.now.given }
        ensures { slice_get self.now.given symbol ≡ Some result }
    {
        self.given[symbol as usize]
    }
}

// where a section lies
fn spot_for(object: &Neutral, notebook: &Notebook, k: u32) -> Spot
    requires there { k < length object.now.sections }
    requires counted { IsFor object.now notebook.now }
    ensures { slice_get (placings.placing_of (footprint_of object.now) notebook.now).spots k ≡ Some result }
{
    object.is_object();
    let origin = Spot {
        address: 0,
        home: 0,
        number: 0,
    };
    if notebook.is_dropped(object.section(k).group) {
        return origin;
    }
    notebook.spot(k).unwrap_or(origin)
}

// where all sections lie
fn spots_for(alloc: Global, object: &Neutral, notebook: &Notebook) -> Result<Vec<Spot>, NoMemory>
    requires { IsFor object.now notebook.now }
    ensures { IfOk result (λ spots. spots.items ≡ (placings.placing_of (footprint_of object.now) notebook.now).spots) }
{
    let mut spots = Vec::with_capacity(alloc, object.section_count() as usize)?;
    for k in 0..object.section_count() {
        spots.push(spot_for(object, notebook, k))?;
    }
    Ok(spots)
}

// what the outside gives all names
fn given_for(alloc: Global, object: &Neutral, notebook: &Notebook) -> Result<Vec<Outside>, NoMemory>
    requires { IsFor object.now notebook.now }
    ensures { IfOk result (λ given. given.items ≡ (placings.placing_of (footprint_of object.now) notebook.now).given) }
{
    let mut given = Vec::with_capacity(alloc, object.symbol_count() as usize)?;
    for k in 0..object.symbol_count() {
        given.push(notebook.given(k))?;
    }
    Ok(given)
}

/// The placement that is noted. Linear in the numbers of sections and symbols; takes memory for
/// them.
pub(crate) fn into_placed(
    alloc: Global,
    object: &Neutral,
    notebook: Notebook,
) -> Result<Placements, NoMemory>
    requires { IsFor object.now notebook }
    ensures placed { IfOk result (λ placed. placed ≡ placings.placing_of (footprint_of object.now) notebook) }
    ensures placing { IfOk result (placings.IsPlacingOf object.now) }
{
    let spots = spots_for(alloc, object, &notebook)?;
    let given = given_for(alloc, object, &notebook)?;
    let (image, got) = (notebook.image(), notebook.got());
    Ok(Placements {
        image,
        got,
        spots,
        dropped: notebook.into_dropped(),
        given,
    })
}
