//! What a conversion meets that linkers, start-up code and run-times take otherwise than the standards
//! have it: hints by key, each a question to the file, its object and the edits.
#![tactic(auto)]

mod edits;
mod fields;
mod files;
mod finding;
mod header;
mod hint;
mod key;
mod names;
mod noting;
mod sections;
mod subject;
mod symbols;

pub use finding::{hints_of, status_for};
pub use hint::{Hint, class_of};
pub use key::{Class, EditKey, FieldKey, FileKey, SectionKey, SymbolKey};
pub use subject::Subject;

#[test]
fn nothing(rt: HostRuntime) {
    let _ = rt;
}
