//! Tests of the crates about the neutral object, by what those make public: a module for each crate.
#![tactic(auto)]

#[cfg(test)]
mod convert;
#[cfg(test)]
mod express;
#[cfg(test)]
mod names;
#[cfg(test)]
mod neutral;
#[cfg(test)]
mod small;
#[cfg(test)]
mod words;
