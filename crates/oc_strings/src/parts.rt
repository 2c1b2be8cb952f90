//! The parts of a table.
ghost use Rattle.std.specs.Prelude.{◌≡◌, ◌+◌, ◌^◌, ◌<◌, All, IfOk, length, sum_by};
ghost use Rattle.oc_base.specs.Strings.{text_of};
ghost use Rattle.oc_strings.specs.Tables.{capped, texts};
ghost use Rattle.oc_strings.specs.Parts.{ArePlaces};

use crate::table::NameSpan;
use oc_base::{Bytes, NoMemory};
use std::alloc::Global;

/// The names as slices.
pub(crate) fn slices(alloc: Global, names: &[Bytes]) -> Result<Vec<&[u8]>, NoMemory>
    ensures { IfOk result (λ slices. texts slices.items ≡ names.now) }
{
    let mut slices = Vec::with_capacity(alloc, names.len())?;
    for name in names {
        slices.push(name.as_slice())?;
    }
    Ok(slices)
}

/// How many bytes the texts take, a NUL after each, or the largest number where it passes that.
fn text_size(tops: &[&[u8]]) -> usize
    ensures { result ≡ capped (sum_by (λ top. length top.now + 1) tops.now) }
{
    let mut total: usize = 0;
    for top in tops {
        total = total.saturating_add(top.len()).saturating_add(1);
    }
    total
}

/// Each text with a NUL after it.
pub(crate) fn bytes_of(alloc: Global, tops: &[&[u8]]) -> Result<Vec<u8>, NoMemory>
    ensures { IfOk result (λ bytes. bytes.items ≡ text_of (texts tops.now)) }
{
    let mut bytes = Vec::with_capacity(alloc, text_size(tops))?;
    for top in tops {
        bytes.extend_from_slice(top)?;
        bytes.push(0)?;
    }
    Ok(bytes)
}

/// The place of each name.
pub(crate) fn places(
    alloc: Global,
    names: &[&[u8]],
    offsets: &[u64],
) -> Result<Vec<NameSpan>, NoMemory>
    requires offsets_fit { All (λ offset. offset < 2 ^ 32) offsets.now }
    requires lengths_fit { All (λ name. length name.now < 2 ^ 32) names.now }
    requires whole { length offsets.now ≡ length names.now }
    ensures { IfOk result (λ places. ArePlaces (texts names.now) offsets.now places.items) }
{
    let mut places = Vec::with_capacity(alloc, names.len())?;
    for (k, name) in names.iter().enumerate() {
        places.push(NameSpan {
            at: offsets[k] as u32,
            len: name.len() as u32,
        })?;
    }
    Ok(places)
}
