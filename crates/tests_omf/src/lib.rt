//! Tests of the readers and of the writer of OMF, by what those make public: a module for each crate.
#![tactic(auto)]

#[cfg(test)]
mod omf;
#[cfg(test)]
mod omf_judge;
#[cfg(test)]
mod omf_read;
#[cfg(test)]
mod omf_write;
