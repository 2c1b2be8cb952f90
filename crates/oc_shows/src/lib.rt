//! What it is that an object shows a file: how a reader builds it, what is left of an object that is written
//! and read again, and the laws of both, whatever the container.
#![tactic(auto)]

mod determined;
mod laws;
mod reads;

pub use determined::shown_object_is_computed;
pub use laws::{
    built_is_whole, built_shows, clean_is_added, normal_form_keeps_values, rows_are_fields,
    rows_have_values, start_is_started,
};
pub use reads::Reads;
