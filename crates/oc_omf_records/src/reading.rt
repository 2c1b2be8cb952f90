//! Reading iterated data.
ghost use Rattle.std.specs.Prelude.{◌≡◌, ◌+◌, ◌<◌, ◌≤◌, length, IfOk, IfErr, Ok, true};
ghost use Rattle.std.specs.Result.{OkIff};
ghost use Rattle.oc_omf_records.specs.BlockReading.{count_size, after_counts, repeat_count, content_at, block_at, row_at};
ghost use Rattle.oc_omf_records.specs.Refusals.{Refuses};
ghost use Rattle.oc_omf_records.specs.Rows.{row_of, rows_of, is_sized, are_sized};
ghost use Rattle.oc_omf_records.specs.Counts.{counts_at};

use crate::faults::BlockFault;
use crate::iterated::{Iterated, total_size};
use oc_base::{OutOfView, View};
use std::alloc::Global;

/// How deep blocks may be nested, which is our profile's limit. A block in no other has one level.
pub const MOST_LEVELS: u32 = 32;

/// The counts at the start of a block.
#[derive(Clone, Copy)]
struct Counts {
    /// How often the block repeats what is in it.
    repeats: u32,
    /// How many blocks are in it; none where it holds content.
    blocks: u16,
    /// The place after the counts.
    after: u64,
}

/// How many bytes a repeat count has.
fn count_size(wide: bool) -> u64
    ensures { result ≡ count_size wide }
{
    if wide { 4 } else { 2 }
}

/// The counts of the block at `at`, an offset in bytes.
fn read_counts(view: &View<'_>, wide: bool, at: u64) -> Result<Counts, OutOfView>
    ensures { OkIff result (after_counts wide view.now at ≤ length view.now) (counts_at wide view.now at) }
{
    let size = count_size(wide);
    let _counts = view.sub(at, size + 2)?;
    let end = view.len();
    prove!(at < end);
    let blocks = view.u16_at(at + size)?;
    let after = at + size + 2;
    let repeats = read_repeats(view, wide, at)?;
    Ok(Counts {
        repeats,
        blocks,
        after,
    })
}

/// The repeat count at `at`.
fn read_repeats(view: &View<'_>, wide: bool, at: u64) -> Result<u32, OutOfView>
    ensures { OkIff result (at + count_size wide ≤ length view.now) (repeat_count wide view.now at) }
{
    if wide {
        return view.u32_at(at);
    }
    let repeats = view.u16_at(at)?;
    Ok(repeats.into())
}

/// A block of content, whose length byte lies at `at`, and the place after it.
fn read_content(
    alloc: Global,
    view: &View<'_>,
    count: u32,
    at: u64,
) -> Result<(Iterated, u64), BlockFault>
    requires { at ≤ length view.now }
    ensures well { IfOk result (λ r. content_at view.now count at ≡ Ok (row_of r.0, r.1)) }
    ensures refused { IfErr result (λ fault. Refuses fault (content_at view.now count at)) }
    ensures sized { IfOk result (λ r. is_sized r.0 ≡ true) }
    ensures after { IfOk result (λ r. (at < r.1) × (r.1 ≤ length view.now)) }
{
    let end = view.len();
    prove!(at <= end);
    let size = u64::from(view.u8_at(at)?);
    let content = view.sub(at + 1, size)?;
    let bytes = content.bytes().to_vec(alloc)?;
    let place = at + 1;
    Ok((
        Iterated::Content {
            count,
            place,
            bytes,
        },
        place + size,
    ))
}

/// The block at `at`, which with what is in it may have `levels` levels, and the place after it. A
/// block at one level too many is met before its counts are read.
#[cycle(reading)]
pub fn read_block(
    alloc: Global,
    view: &View<'_>,
    wide: bool,
    levels: u32,
    at: u64,
) -> Result<(Iterated, u64), BlockFault>
    requires { at ≤ length view.now }
    ensures well { IfOk result (λ r. block_at wide view.now levels at ≡ Ok (row_of r.0, r.1)) }
    ensures refused { IfErr result (λ fault. Refuses fault (block_at wide view.now levels at)) }
    ensures sized { IfOk result (λ r. is_sized r.0 ≡ true) }
    ensures after { IfOk result (λ r. (at < r.1) × (r.1 ≤ length view.now)) }
{
    if levels == 0 {
        return Err(BlockFault::TooDeep);
    }
    let counts = read_counts(view, wide, at)?;
    let count = counts.repeats;
    if counts.blocks == 0 {
        return read_content(alloc, view, count, counts.after);
    }
    let (blocks, after) = read_row(alloc, view, wide, levels - 1, counts.blocks, counts.after)?;
    let size = total_size(&blocks);
    let block = Iterated::Nested {
        count,
        size,
        blocks,
    };
    Ok((block, after))
}

/// `many` blocks from `at` on, which with what is in them may have `levels` levels, and the place
/// after them.
#[cycle(reading)]
fn read_row(
    alloc: Global,
    view: &View<'_>,
    wide: bool,
    levels: u32,
    many: u16,
    at: u64,
) -> Result<(Vec<Iterated>, u64), BlockFault>
    requires { at ≤ length view.now }
    ensures well { IfOk result (λ r. row_at (block_at wide view.now levels) many at ≡ Ok (rows_of r.0.items, r.1)) }
    ensures refused { IfErr result (λ fault. Refuses fault (row_at (block_at wide view.now levels) many at)) }
    ensures sized { IfOk result (λ r. are_sized r.0.items ≡ true) }
    ensures after { IfOk result (λ r. (at ≤ r.1) × (r.1 ≤ length view.now)) }
{
    let mut blocks = Vec::new(alloc);
    let mut place = at;
    for _read in 0..many {
        let (block, after) = read_block(alloc, view, wide, levels, place)?;
        blocks.push(block)?;
        place = after;
    }
    Ok((blocks, place))
}
