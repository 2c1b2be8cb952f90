//! What every crate of objconv stands on: bytes and texts, views of a file, the formats,
//! faults with their messages, and why a step stops.
#![tactic(auto)]

mod answers;
mod bytes;
mod classes;
mod code;
mod fault;
mod format;
mod limits;
mod messages;
mod numbers;
mod stop;
mod view;
mod words;

pub use answers::{NoMemory, OutOfView};
pub use bytes::{Bytes, Text};
pub use classes::class;
pub use code::Code;
pub use fault::{Class, Fault, Phase, Spot};
pub use format::{Format, Word, plain_of, word_of};
pub use limits::{MOST_CONTENTS, MOST_INPUT};
pub use messages::message;
pub use numbers::{u8_in, u16_in, u32_in, u64_in};
pub use stop::Stop;
pub use view::View;
