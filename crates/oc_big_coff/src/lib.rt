//! The readers and writers of COFF objects of many sections, which compilers write by `/bigobj`.
//!
//! Their section numbers have 32 bits. PE/COFF has no chapter on them: the structures are those of winnt.h,
//! `ANON_OBJECT_HEADER_BIGOBJ`, `IMAGE_SYMBOL_EX` and `IMAGE_AUX_SYMBOL_EX`, and all else is as in PE/COFF.
//! Each is one more instance of the text that reads and writes COFF of few sections.
#![tactic(auto)]

mod readers;
mod writers;

pub use readers::{BigCoffReader32, BigCoffReader64};
pub use writers::{BigCoffWriter32, BigCoffWriter64};
