//! Where the copies of four content bytes lie.
ghost use Rattle.std.specs.Prelude.{◌≡◌, ◌+◌, ◌^◌, ◌<◌, ◌++◌, ◌&&◌, nat_lt, All, IfOk, OnOk, IsTrue, true};
ghost use Rattle.oc_omf_records.specs.Blocks.{moved, in_each, in_content, size_of};
ghost use Rattle.oc_omf_records.specs.Rows.{row_of, rows_of, is_sized, are_sized};
ghost use Rattle.oc_omf_records.specs.Seeking.{Finds, places_in, kept, FitIn};

use crate::iterated::{Iterated, MOST_BYTES, product};
use std::alloc::{AllocError, Global};

/// What a walk over blocks finds of four content bytes.
#[derive(Debug, Drop)]
pub enum Sought {
    /// Where their copies lie among the bytes that the blocks stand for. Where a block around these
    /// blocks has a count of 0, there are none.
    Found(Vec<u32>),
    /// The blocks do not hold them, and stand for so many bytes, or 2^32 where there are more.
    Beyond(u64),
}

/// Walks the blocks for the four content bytes at `at`, an encoded place, and no further than the
/// block that holds them. No block around these blocks has a count of 0 exactly where `live`; else
/// no place is computed.
#[cycle(seeking)]
pub fn seek_row(
    alloc: Global,
    blocks: &[Iterated],
    at: u32,
    live: bool,
) -> Result<Sought, AllocError>
    requires sized { are_sized blocks.now ≡ true }
    requires small { IsTrue live → size_of (rows_of blocks.now) < 2 ^ 31 }
    ensures { IfOk result (Finds live (rows_of blocks.now) at) }
{
    let mut before = 0u64;
    for block in blocks {
        match seek_block(alloc, block, at, live)? {
            Sought::Found(places) => return Ok(Sought::Found(moved_by(places, before))),
            Sought::Beyond(size) => before = (before + size).min(MOST_BYTES),
        }
    }
    Ok(Sought::Beyond(before))
}

/// Walks the block for the four content bytes at `at`.
#[cycle(seeking)]
fn seek_block(alloc: Global, block: &Iterated, at: u32, live: bool) -> Result<Sought, AllocError>
    requires sized { is_sized block.now ≡ true }
    requires small { IsTrue live → size_of (row_of block.now) < 2 ^ 31 }
    ensures { IfOk result (Finds live (row_of block.now) at) }
{
    match block {
        Iterated::Content {
            count,
            place,
            bytes,
        } => {
            let size = bytes.len() as u64;
            match seek_content(alloc, *place, size, at, live)? {
                Some(places) => Ok(Sought::Found(in_each(alloc, *count, size, &places)?)),
                None => Ok(Sought::Beyond(product(*count, size))),
            }
        }
        Iterated::Nested {
            count,
            size,
            blocks,
        } => {
            match seek_row(alloc, blocks, at, is_live(live, *count))? {
                Sought::Found(places) => {
                    Ok(Sought::Found(in_each_row(alloc, *count, *size, places)?))
                }
                Sought::Beyond(size) => Ok(Sought::Beyond(product(*count, size))),
            }
        }
    }
}

/// Whether no block around what is in a block with this repeat count has a count of 0.
fn is_live(live: bool, count: u32) -> bool
    ensures { result ≡ (live && nat_lt 0 count) }
{
    live && count > 0
}

/// Where the four bytes at `at` lie in the content of `size` bytes at `place`, if they lie in it.
fn seek_content(
    alloc: Global,
    place: u64,
    size: u64,
    at: u32,
    live: bool,
) -> Result<Option<Vec<u32>>, AllocError>
    ensures { IfOk result (λ places. places_in places ≡ kept live (in_content at place size)) }
{
    let at = u64::from(at);
    if at < place || size < at - place + 4 {
        return Ok(None);
    }
    let mut places = Vec::new(alloc);
    if live {
        places.push((at - place) as u32)?;
    }
    Ok(Some(places))
}

/// The places, that much further.
fn moved_by(places: Vec<u32>, by: u64) -> Vec<u32>
    requires { All (λ place. by + place < 2 ^ 32) places.items }
    ensures { result.items ≡ moved by places.items }
{
    let mut places = places;
    for place in places.iter_mut() {
        *place = (by + u64::from(*place)) as u32;
    }
    places
}

/// The places in a row of blocks of `size` bytes, in each of `count` copies of the row; of one copy they
/// are given back as they are.
fn in_each_row(
    alloc: Global,
    count: u32,
    size: u64,
    places: Vec<u32>,
) -> Result<Vec<u32>, AllocError>
    requires { FitIn count size places.items }
    ensures { IfOk result (λ all. all.items ≡ in_each count size places.items) }
{
    if places.is_empty() || count == 1 {
        return Ok(places);
    }
    in_each(alloc, count, size, &places)
}

/// The places in a piece of `size` bytes, in each of `count` copies of the piece.
fn in_each(alloc: Global, count: u32, size: u64, places: &[u32]) -> Result<Vec<u32>, AllocError>
    requires { FitIn count size places.now }
    ensures { IfOk result (λ all. all.items ≡ in_each count size places.now) }
{
    let mut all = Vec::new(alloc);
    if places.is_empty() {
        return Ok(all);
    }
    for copy in 0..count {
        push_moved(&mut all, u64::from(copy) * size, places)?;
    }
    Ok(all)
}

/// Appends the places to `all`, each that much further on.
fn push_moved(all: &mut Vec<u32>, by: u64, places: &[u32]) -> Result<(), AllocError>
    requires { All (λ place. by + place < 2 ^ 32) places.now }
    ensures { OnOk result (all.new.items ≡ all.old.items ++ moved by places.now) }
{
    for place in places {
        all.push((by + u64::from(*place)) as u32)?;
    }
    Ok(())
}
