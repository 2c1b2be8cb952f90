//! What readers share: the first of two faults, tables, positions by number, texts, taken bytes,
//! spans, entries in order.
mod bitmap;
mod first;
mod order;
mod rows;
mod slots;
mod spans;
mod texts;

pub use bitmap::Bitmap;
pub use first::earlier;
pub use order::{PlacedEntry, sort_by_place};
pub use rows::Rows;
pub use slots::Slots;
pub use spans::Spans;
pub use texts::text_at;
