//! Tests of the crates on which all formats are built, by what those make public: a module for each
//! crate.
#![tactic(auto)]

#[cfg(test)]
mod algebra;
#[cfg(test)]
mod base;
#[cfg(test)]
mod chains;
#[cfg(test)]
mod linking;
#[cfg(test)]
mod omf_records;
#[cfg(test)]
mod outside;
#[cfg(test)]
mod shelf;
#[cfg(test)]
mod strings;
