//! The iterated data of one entry.
ghost use Rattle.std.specs.Prelude.{◌≡◌, true};
ghost use Rattle.oc_omf_records.specs.Rows.{are_sized};

use crate::expanding::expand_row;
use crate::faults::{BlockFault, CopyFault};
use crate::iterated::{Iterated, total_size};
use crate::places::Places;
use crate::reading::{MOST_LEVELS, read_block};
use crate::seeking::{Sought, seek_row};
use oc_base::{Bytes, NoMemory, View};
use std::alloc::Global;

/// The iterated data of one entry (TIS OMF 1.1, "LIDATA: Logical Iterated Data Record"): blocks that
/// follow one another, each of which repeats its content or the blocks in it. Contracts see their
/// tree, as `shown` gives it.
#[derive(Debug, Drop)]
pub struct Block {
    blocks: Vec<Iterated>,
    ghost sized: { are_sized blocks.items ≡ true },
}

impl Block {
    ghost use Rattle.std.specs.Prelude.{◌≡◌, ◌<◌, ◌^◌, min, IfOk, IfErr, Ok, Some};
    ghost use Rattle.oc_omf_records.specs.Blocks.{copies_of, denotation, size_of};
    ghost use Rattle.oc_omf_records.specs.BlockReading.{blocks_of};
    ghost use Rattle.oc_omf_records.specs.Refusals.{Refuses, RefusesCopies};
    ghost use Rattle.oc_omf_records.specs.Shown.{shown};

    /// The blocks in `view`, which follow one another to its end. Repeat counts have four bytes
    /// where `wide`, and else two.
    ///
    /// The blocks are read from the start. `TooDeep` is returned exactly where a block nested more
    /// than 32 deep is met and no count or content before it passes the end, and `BadBlock` exactly
    /// where a count or a content passes the end and `TooDeep` is not returned. Time and memory are
    /// linear in the view, and the recursion is at most 32 blocks deep.
    pub fn read(alloc: Global, view: &View<'_>, wide: bool) -> Result<Block, BlockFault>
        ensures well { IfOk result (λ block. blocks_of wide view.now ≡ Ok (shown block)) }
        ensures refused { IfErr result (λ fault. Refuses fault (blocks_of wide view.now)) }
    {
        let mut blocks = Vec::new(alloc);
        let mut at = 0u64;
        while at < view.len() {
            let (block, after) = read_block(alloc, view, wide, MOST_LEVELS, at)?;
            blocks.push(block)?;
            at = after;
        }
        Ok(Block { blocks })
    }

    /// How many bytes the blocks stand for, or 2^32 where there are more. Linear in the blocks that are
    /// in no other, whatever the counts; no memory.
    pub fn size(&self) -> u64
        ensures { result ≡ min (size_of (shown self.now)) (2 ^ 32) }
    {
        total_size(&self.blocks)
    }

    /// The bytes that the blocks stand for. Time is linear in the encoded blocks and the bytes given:
    /// each encoded block is walked at most once, and what is in a count of 0 never. Memory is that
    /// of the bytes given.
    pub fn expand(&self, alloc: Global) -> Result<Bytes, NoMemory>
        requires { size_of (shown self.now) < 2 ^ 31 }
        ensures { IfOk result (λ bytes. bytes ≡ denotation (shown self.now)) }
    {
        let mut out = Vec::with_capacity(alloc, self.size() as usize)?;
        expand_row(&self.blocks, &mut out)?;
        Ok(Bytes::from_vec(out))
    }

    /// Where the copies of four content bytes lie among the expanded bytes, as offsets in ascending
    /// order. `at` is the encoded place of the first of the four, counted from the first byte of
    /// the first block. There is no copy where a block around them has a count of 0.
    ///
    /// `NotContent` is returned exactly where the four bytes do not lie in one content. The blocks
    /// before the content are walked once, and those after it not at all. Time is linear in the
    /// blocks walked and, at each of the at most 32 levels around the content, in the copies there,
    /// which are never more than those given. Memory is linear in the places given.
    pub fn copies(&self, alloc: Global, at: u32) -> Result<Places, CopyFault>
        requires { size_of (shown self.now) < 2 ^ 31 }
        ensures well { IfOk result (λ places. copies_of (shown self.now) at ≡ Some places) }
        ensures refused { IfErr result (λ fault. RefusesCopies fault (copies_of (shown self.now) at)) }
    {
        match seek_row(alloc, &self.blocks, at, true)? {
            Sought::Found(places) => Ok(Places::from_vec(places)),
            Sought::Beyond(_) => Err(CopyFault::NotContent),
        }
    }
}
