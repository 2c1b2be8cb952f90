//! Indexes of one or two bytes.
ghost use Rattle.std.specs.Result.{OkIff};
ghost use Rattle.oc_omf_records.specs.Indexes.{HasIndex, index_at};

use oc_base::{OutOfView, View};
use thiserror::Error;

/// The bytes of an index pass the end of their entry.
#[derive(Clone, Copy, Debug, PartialEq, Eq, Error)]
#[error("the index passes the end of its entry")]
pub struct BadIndex;

impl From<OutOfView> for BadIndex {
    fn from(_: OutOfView) -> BadIndex {
        BadIndex
    }
}

/// The index at `at`, an offset in bytes, and the offset after it: one byte, or two where the first
/// has its top bit set, its low seven bits then being the high ones of the index (TIS OMF 1.1,
/// "Indexed references"). `BadIndex` exactly where a byte of it passes the end. Constant time, no
/// memory.
pub fn index(view: &View<'_>, at: u64) -> Result<(u16, u64), BadIndex>
    ensures { OkIff result (HasIndex view.now at) (index_at view.now at) }
{
    let first = view.u8_at(at)?;
    let end = view.len();
    prove!(at < end);
    if first < 0x80 {
        return Ok((first.into(), at + 1));
    }
    let second = view.u8_at(at + 1)?;
    Ok((u16::from(first & 0x7f) * 256 + u16::from(second), at + 2))
}
