//! Conversions and listings in memory, for callers that are no Rattle: each call has its input, and rooms for
//! what it gives. What converts and what reads is left open.
#![tactic(auto)]

mod converter;
mod converting;
mod listing;
mod refusal;
mod room;
mod versions;
mod words;

pub use converter::ConvertsAny;
pub use converting::convert_by;
pub use listing::list_by;
pub use room::Left;
pub use versions::version;
