//! A placement of an object, with what the outside gives its names, read from a text.
#![tactic(auto)]

mod checks;
mod digits;
mod entry;
mod fault;
mod index;
mod laws;
mod name_text;
mod notebook;
mod parts;
mod placements;
mod reading;
mod shapes;
mod spot;

pub use fault::{PlaceCode, PlaceFault};
pub use index::{NamedSymbol, index_of};
pub use laws::{footprints_agree, placed_can_link};
pub use placements::Placements;
pub use reading::read_place;
pub use spot::{Outside, Spot};
