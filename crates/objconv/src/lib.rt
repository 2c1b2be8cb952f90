//! The command, from its words to the files written and the text shown.
#![tactic(auto)]

mod command;
mod conversion;
mod listing;
#[cfg(test)]
mod made_files;
mod making;
mod report;
#[cfg(test)]
mod tests;
#[cfg(test)]
mod windows;
mod writing;

pub use command::run;
pub use oc_words::Words;
