//! What an object becomes in a target, and what a writer promises of it: how each target writes a relocation,
//! its names, tags and alignments, and what an object meets that is ready to be written.
#![tactic(auto)]

mod aligns;
mod dress;
mod fitted;
mod formats;
mod forms;
mod homes;
mod keys;
mod locals;
mod names;
mod rows;
mod section_symbols;
mod shifts;
mod signatures;
mod stored;
mod strings;
mod tables;
mod target_laws;
mod writes;

pub use aligns::natural_align;
pub use dress::{align_commons, dress_sections};
pub use fitted::Fitted;
pub use formats::{keeps_debug, most_align, same_format, takes_exceptions};
pub use forms::{NoForm, Spelling, lookup, written_row};
pub use keys::{
    cut_keys, global_place, group_at, has_nul, is_key, is_marked, is_unkeyed, key_of, key_place,
    keyed_groups, keyed_sections,
};
pub use locals::{is_local, is_long_number, is_written, is_written_local};
pub use names::output_names;
pub use rows::Row;
pub use section_symbols::{needed_count, needed_sections};
pub use shifts::field_shift;
pub use signatures::signature_count;
pub use stored::is_relocated;
pub use strings::{
    TableNames, default_name, default_names, given_names, is_long_name, is_tabled, needs_default,
};
pub use target_laws::{
    fit_is_computed, fitted_meets_coff, fitted_meets_elf, fitted_meets_mach, fitted_meets_omf,
    seen_is_object, seen_looks_alike,
};
pub use writes::{Emits, Writes};
