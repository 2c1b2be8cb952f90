//! The bytes that iterated data stand for.
ghost use Rattle.std.specs.Prelude.{◌≡◌, ◌<◌, ◌≤◌, ◌++◌, length, take, drop, vec_len, OnOk};
ghost use Rattle.oc_omf_records.specs.Blocks.{repeated, denotation};
ghost use Rattle.oc_omf_records.specs.Rows.{row_of, rows_of};

use crate::iterated::Iterated;
use std::alloc::AllocError;

/// Appends the bytes that the block stands for to `out`. What is in the block is walked once,
/// whatever its repeat count, and not at all where that is 0.
#[cycle(expanding)]
fn expand_block(block: &Iterated, out: &mut Vec<u8>) -> Result<(), AllocError>
    ensures { OnOk result (out.new.items ≡ out.old.items ++ denotation (row_of block.now)) }
{
    let start = out.len();
    match block {
        Iterated::Content { count, bytes, .. } => {
            if *count == 0 {
                return Ok(());
            }
            out.extend_from_slice(bytes)?;
            repeat_from(out, start, *count)
        }
        Iterated::Nested { count, blocks, .. } => {
            if *count == 0 {
                return Ok(());
            }
            expand_row(blocks, out)?;
            repeat_from(out, start, *count)
        }
    }
}

/// Appends the bytes that the blocks stand for to `out`. Linear in the encoded blocks and in what
/// is added.
#[cycle(expanding)]
pub fn expand_row(blocks: &[Iterated], out: &mut Vec<u8>) -> Result<(), AllocError>
    ensures { OnOk result (out.new.items ≡ out.old.items ++ denotation (rows_of blocks.now)) }
{
    for block in blocks {
        expand_block(block, out)?;
    }
    Ok(())
}

/// Repeats what lies from `start` on, so that it is present `count` times. Linear in what is added.
fn repeat_from(out: &mut Vec<u8>, start: usize, count: u32) -> Result<(), AllocError>
    requires inside { start ≤ vec_len out.old }
    requires there { 0 < count }
    ensures { OnOk result (out.new.items ≡ take start out.old.items ++ repeated count (drop start out.old.items)) }
{
    let end = out.len();
    if start == end {
        return Ok(());
    }
    for _copy in 1..count {
        out.extend_from_within(start..end)?;
    }
    Ok(())
}
