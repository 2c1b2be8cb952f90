//! That a canonical file is its own conversion, for all formats.
#![tactic(auto)]

mod laws;

pub use laws::{
    canonical_is_stable, coff_reads_back, elf_reads_back, fitted_stays, mach_reads_back,
    omf_reads_back,
};
