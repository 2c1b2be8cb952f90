//! The conversion, once for all formats: it reads an object, edits it, fits it to the target and plans
//! the file, and knows of the formats only what readers and writers promise.
#![tactic(auto)]

mod conversion;
mod first_bytes;
mod identifying;
mod steps;

pub use conversion::convert;
pub use identifying::identify;
