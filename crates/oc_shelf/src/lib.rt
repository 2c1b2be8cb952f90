//! What every reader and every writer of a format is proved from, with no word of a format.
#![tactic(auto)]

mod reading;
mod writing;

pub use reading::{Bitmap, PlacedEntry, Rows, Slots, Spans, earlier, sort_by_place, text_at};
pub use writing::{
    Layout, Packed, Parts, ROW, WritesRows, aligned_place, copy_window, rows_window, window_of,
    zero_window,
};
