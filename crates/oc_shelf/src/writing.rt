//! What writers share: structures as bytes, files made of parts, and any window of them.
mod layout;
mod packed;
mod parts;
mod rows;
mod windows;

pub use layout::{Layout, aligned_place};
pub use packed::Packed;
pub use parts::{Parts, window_of};
pub use rows::{ROW, WritesRows, rows_window};
pub use windows::{copy_window, zero_window};
