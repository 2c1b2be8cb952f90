//! String tables in which names share their tails: where each name lies, and the bytes.
#![tactic(auto)]

mod layout;
mod order;
mod parts;
mod repeats;
mod search;
mod spots;
mod table;
mod tails;

pub use layout::offsets;
pub use repeats::{Repeat, first_repeat};
pub use table::Table;
