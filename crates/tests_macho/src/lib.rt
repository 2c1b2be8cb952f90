//! Tests of the readers of Mach-O, by what those make public: a module for each crate.
#![tactic(auto)]

#[cfg(test)]
mod macho_read;
