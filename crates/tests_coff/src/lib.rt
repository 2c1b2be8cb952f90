//! Tests of the readers of COFF, by what those make public: a module for each crate.
#![tactic(auto)]

#[cfg(test)]
mod big_coff;
#[cfg(test)]
mod coff_read;
