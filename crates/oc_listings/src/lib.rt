//! Listings of an object file: its header, its sections and its relocations.
#![tactic(auto)]

mod header;
mod laws;
mod listing;
mod numbers;
mod relocs;
mod resting;
mod sections;
mod terms;

pub use laws::listings_agree;
pub use listing::{Listing, object_text};
