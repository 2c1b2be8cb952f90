//! Times that the clock measures.

use anyhow::Result;
use std::rt::Clock;
use std::time::Instant;

/// How many microseconds went by since then.
pub(crate) fn micros<R: Clock>(rt: &R, start: Instant) -> Result<u128> {
    Ok(start.elapsed(rt)?.as_micros())
}
