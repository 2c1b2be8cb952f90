//! The data of an entry, plain or iterated.
ghost use Rattle.std.specs.Prelude.{◌≡◌, ◌<◌, ◌≤◌, ◌^◌, drop, length, min, IfOk, IfErr, Ok, Some};
ghost use Rattle.oc_omf_records.specs.Blocks.{content, none, copies_of, denotation, size_of};
ghost use Rattle.oc_omf_records.specs.Refusals.{Refuses, RefusesCopies};
ghost use Rattle.oc_omf.specs.Known.{row_of};
ghost use Rattle.oc_omf.specs.Structures.{blocks_by};

use oc_base::{Bytes, NoMemory, View};
use oc_omf_records::{Block, BlockFault, CopyFault};
use std::alloc::Global;

/// The data of an entry. Contracts see them as blocks, as `row_of` gives them: plain data are one
/// content, once.
#[derive(Drop)]
pub enum Data<'a> {
    /// They lie there as they are (TIS OMF 1.1, "LEDATA: Logical Enumerated Data Record").
    Plain(View<'a>),
    /// They are repeated (TIS OMF 1.1, "LIDATA: Logical Iterated Data Record").
    Iterated(Block),
}

impl<'a> Data<'a> {
    /// The data in the contents of an entry after its offset; repeat counts have four bytes where
    /// `wide`. The faults and the cost are those of `Block::read`, and plain data have none.
    pub fn read(
        alloc: Global,
        view: View<'a>,
        wide: bool,
        iterated: bool,
    ) -> Result<Data<'a>, BlockFault>
        ensures well { IfOk result (λ d. blocks_by wide iterated view.entry ≡ Ok (row_of d)) }
        ensures refused { IfErr result (λ fault. Refuses fault (blocks_by wide iterated view.entry)) }
    {
        if !iterated {
            return Ok(Data::Plain(view));
        }
        match Block::read(alloc, &view, wide) {
            Ok(block) => Ok(Data::Iterated(block)),
            Err(fault) => Err(fault),
        }
    }

    /// How many bytes they stand for, or 2^32 where there are more. Linear in the encoded data,
    /// whatever the counts; no memory.
    pub fn size(&self) -> u64
        ensures { result ≡ min (size_of (row_of self.now)) (2 ^ 32) }
    {
        match self {
            Data::Plain(view) => view.len().min(1 << 32),
            Data::Iterated(block) => block.size(),
        }
    }

    /// The bytes that they stand for. The cost is that of `Block::expand`.
    pub fn expand(&self, alloc: Global) -> Result<Bytes, NoMemory>
        requires { size_of (row_of self.now) < 2 ^ 31 }
        ensures { IfOk result (λ bytes. bytes ≡ denotation (row_of self.now)) }
    {
        match self {
            Data::Plain(view) => Ok(Bytes::from_vec(view.bytes().to_vec(alloc)?)),
            Data::Iterated(block) => block.expand(alloc),
        }
    }

    /// Where the copies of the four bytes at `at` lie in what the data stand for, as offsets in
    /// ascending order; `at` counts from the first encoded byte. `NotContent` exactly where the
    /// four do not lie in one content. The cost is that of `Block::copies`.
    pub fn copies(&self, alloc: Global, at: u16) -> Result<Vec<u32>, CopyFault>
        requires { size_of (row_of self.now) < 2 ^ 31 }
        ensures well { IfOk result (λ places. copies_of (row_of self.now) at ≡ Some places.items) }
        ensures refused { IfErr result (λ fault. RefusesCopies fault (copies_of (row_of self.now) at)) }
    {
        let at = u32::from(at);
        match self {
            Data::Plain(view) => plain_copies(alloc, view, at),
            Data::Iterated(block) => match block.copies(alloc, at) {
                Ok(places) => Ok(places.as_slice().to_vec(alloc)?),
                Err(fault) => Err(fault),
            },
        }
    }
}

/// The data from `at` on, with the faults and the cost of `Data::read`.
pub fn read_data<'a>(
    alloc: Global,
    contents: &View<'a>,
    wide: bool,
    iterated: bool,
    at: u64,
) -> Result<Data<'a>, BlockFault>
    requires { at ≤ length contents.now }
    ensures well { IfOk result (λ d. blocks_by wide iterated (drop at contents.now) ≡ Ok (row_of d)) }
    ensures refused { IfErr result (λ fault. Refuses fault (blocks_by wide iterated (drop at contents.now))) }
{
    let bytes = contents.bytes();
    Data::read(alloc, View::new(&bytes[at as usize..]), wide, iterated)
}

// the copies in plain data: one, if the bytes lie in them
fn plain_copies(alloc: Global, view: &View<'_>, at: u32) -> Result<Vec<u32>, CopyFault>
    ensures well { IfOk result (λ places. copies_of (content 1 0 view.now none) at ≡ Some places.items) }
    ensures refused { IfErr result (λ fault. RefusesCopies fault (copies_of (content 1 0 view.now none) at)) }
{
    if u64::from(at) + 4 > view.len() {
        return Err(CopyFault::NotContent);
    }
    Ok([at].to_vec(alloc)?)
}
