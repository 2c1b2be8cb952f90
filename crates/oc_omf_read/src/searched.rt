//! Data in which copies of content are looked for.
ghost use Rattle.oc_omf_read.specs.Pieces.{row_in};
ghost use Rattle.oc_omf_read.specs.Searched.{AreFruitless};

use crate::pieces::FoundPiece;
use oc_base::NoMemory;
use oc_omf_records::CopyFault;
use std::alloc::Global;
use std::collections::BTreeMap;

/// Data, with the places in which nothing was found: content that is repeated 0 times is not walked
/// again for each fixup in it.
#[derive(Drop)]
pub struct Searched<'a> {
    pub(crate) piece: FoundPiece<'a>,
    // places of encoded bytes that were found to have no copy: there are at most 1,024
    fruitless: BTreeMap<u16, u8>,
    ghost kept: { AreFruitless (row_in piece.data) fruitless },
}

impl<'a> Searched<'a> {
    ghost use Rattle.std.specs.Prelude.{◌≡◌, ◌<◌, ◌^◌, IfOk, IfErr, OnOk, Some};
    ghost use Rattle.oc_omf_records.specs.Blocks.{copies_of, size_of};
    ghost use Rattle.oc_omf_records.specs.Refusals.{RefusesCopies};
    ghost use Rattle.oc_omf_read.specs.Fields as fields;
    ghost use Rattle.oc_omf_read.specs.Pieces.{row_in};

    /// Data in which nothing was looked for. Constant time.
    pub(crate) fn new(alloc: Global, piece: FoundPiece<'a>) -> Searched<'a>
        ensures { result.piece ≡ piece.entry }
    {
        Searched {
            piece,
            fruitless: BTreeMap::new(alloc),
        }
    }

    // where the copies of the four bytes at an encoded place lie
    fn seek(&self, alloc: Global, at: u16) -> Result<Vec<u32>, CopyFault>
        requires { size_of (row_in self.now.piece.data) < 2 ^ 31 }
        ensures well { IfOk result (λ places. copies_of (row_in self.now.piece.data) at ≡ Some places.items) }
        ensures refused { IfErr result (λ fault. RefusesCopies fault (copies_of (row_in self.now.piece.data) at)) }
    {
        match &self.piece.data {
            Some(blocks) => match blocks.copies(alloc, at) {
                Ok(places) => Ok(places),
                Err(fault) => Err(fault),
            },
            None => Err(CopyFault::NotContent),
        }
    }

    /// Where the copies of the four bytes at an encoded place lie, as offsets; none where no
    /// content holds these. `NoMemory` where memory ran out. The cost is that of `Data::copies`,
    /// and where there were none before, that of a look-up.
    pub(crate) fn copies(&mut self, alloc: Global, at: u16) -> Result<Vec<u32>, NoMemory>
        requires { size_of (row_in self.old.piece.data) < 2 ^ 31 }
        ensures piece { OnOk result (self.new.piece ≡ self.old.piece) }
        ensures copies { IfOk result (λ copies. copies.items ≡ fields.copies_in (row_in self.old.piece.data) at) }
    {
        if self.fruitless.contains_key(&at) {
            return Ok(Vec::new(alloc));
        }
        let places = match self.seek(alloc, at) {
            Ok(places) => places,
            Err(CopyFault::NotContent) => return Ok(Vec::new(alloc)),
            Err(CopyFault::NoMemory) => return Err(NoMemory),
        };
        if !places.is_empty() {
            return Ok(places);
        }
        self.fruitless.insert(at, 0)?;
        Ok(places)
    }
}
