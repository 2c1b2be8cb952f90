//! What a conversion makes of an object, by equations alone: the final symbols by one table, the first
//! fault of the edits as the least condition that fails, and the edited object by its parts. The
//! laws say that the edits, step by step, give just that.
#![tactic(auto)]

mod laws;

pub use laws::{
    dropping_fault_is_least, edit_fault_is_least, edited_is_by_parts, edited_is_equations,
    file_is_final, refusal_is_least, symbols_are_final,
};
