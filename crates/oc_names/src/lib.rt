//! What a user asks of an object: which kinds of sections are kept, and which names and bindings
//! its symbols get.
#![tactic(auto)]

mod aliases;
mod applying;
mod checks;
mod edit;
mod edits;
mod fallbacks;
mod keep;
mod keys;
mod laws;
mod lists;
mod name_step;
mod naming;
mod new_names;
mod places;
mod rebind_step;
mod rebinding;
mod reloc_step;
mod renames;

pub use applying::apply;
pub use edit::{Choice, Edit};
pub use edits::Edits;
pub use keep::keep_for;
pub use laws::{
    edited_has_parts, edited_is_readable, edited_keeps_looks, edited_shows_file, edits_in_turn,
    fallbacks_keep_sites, naming_keeps_targets, nothing_is_edited, rebinding_keeps_fields,
    words_keep_sites,
};
