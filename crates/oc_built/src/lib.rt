//! Which reader and which writer each format has, as definitions, and what reading and planning with them gives.
//! There is no code: laws on what is converted need no crate that reads or writes.
#![tactic(auto)]
