//! An object linked where it is placed, as text.
#![tactic(auto)]

mod bytes;
mod discarded;
mod exports;
mod fields;
mod image;
mod laws;
mod linking;
mod overflow;
mod room;
mod sections;
mod spots;
mod target;

pub use laws::texts_agree;
pub use linking::link_text;
