//! The words of a command: what job they are, or the first word that is at fault.
#![tactic(auto)]

mod conversion;
mod count;
mod fault;
mod formats;
mod job;
mod message;
mod naming;
mod option;
mod process;
mod reading;
mod text;
mod words;

pub use fault::{WordCode, WordFault};
pub use job::{Job, read_words};
pub use message::word_message;
pub use words::Words;
