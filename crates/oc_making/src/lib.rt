//! That no object which is made to try tools on is refused.
#![tactic(auto)]

mod laws;

pub use laws::{made_is_accepted, made_is_expressible, made_is_short};
