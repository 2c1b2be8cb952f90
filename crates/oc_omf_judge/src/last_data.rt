//! The data before a fixup.
ghost use Rattle.std.specs.Prelude.{◌≡◌, ◌≤◌};
ghost use Rattle.oc_omf_records.specs.Blocks.{none};
ghost use Rattle.oc_omf_judge.specs.Lying.{AreFruitless, IsLow, base, blocks_kept, lying_at};

use oc_base::{NoMemory, View};
use oc_omf::{Data, DataHead, read_data, read_head};
use oc_omf_records::{BlockFault, CopyFault};
use std::alloc::Global;
use std::collections::BTreeMap;

/// The most bytes that a section may have.
const MOST_SIZE: u64 = 2_147_483_647;

/// Data of a segment.
#[derive(Drop)]
pub(crate) struct LastData<'a> {
    head: DataHead,
    // none where they are not read, or pass what a section may have
    encoded: Option<Data<'a>>,
    // places of encoded bytes that were found to have no copy: there are at most 1,024
    fruitless: BTreeMap<u16, u8>,
    ghost low: { IsLow (lying_at head (blocks_kept encoded)) },
    ghost kept: { AreFruitless (blocks_kept encoded) fruitless },
}

// the place of the first byte of data
fn place_in(head: DataHead) -> u64
    ensures place { result ≡ base (lying_at head none) }
    ensures small { result ≤ 562949953421312 }
{
    u64::from(head.segment) * 4_294_967_296 + u64::from(head.offset)
}

impl<'a> LastData<'a> {
    ghost use Rattle.std.specs.Prelude.{◌≡◌, ◌≤◌, IfOk, IfErr, Some};
    ghost use Rattle.oc_omf_records.specs.Blocks.{copies_of};
    ghost use Rattle.oc_omf_records.specs.Refusals.{RefusesCopies};
    ghost use Rattle.oc_omf_judge.specs.LastData as specs;
    ghost use Rattle.oc_omf_judge.specs.Lying as lying;

    // data that are not read
    fn lost(alloc: Global, head: DataHead) -> LastData<'a>
        ensures { specs.shown result ≡ lying.lost head }
    {
        LastData {
            head,
            encoded: None,
            fruitless: BTreeMap::new(alloc),
        }
    }

    // data, where they do not pass what a section may have
    fn kept(alloc: Global, head: DataHead, encoded: Data<'a>) -> LastData<'a>
        ensures { specs.shown result ≡ lying.kept head encoded.entry }
    {
        if u64::from(head.offset) + encoded.size() > MOST_SIZE {
            return LastData::lost(alloc, head);
        }
        LastData {
            head,
            encoded: Some(encoded),
            fruitless: BTreeMap::new(alloc),
        }
    }

    /// The data in the contents of an entry, of the odd type where `wide`, if their segment and
    /// offset are present. `NoMemory` where memory ran out. Linear in the contents.
    pub(crate) fn read(
        alloc: Global,
        contents: &View<'a>,
        wide: bool,
        iterated: bool,
    ) -> Result<Option<LastData<'a>>, NoMemory>
        ensures { IfOk result (λ last. specs.IsLast wide iterated contents.now last) }
    {
        let Ok((head, at)) = read_head(contents, wide) else {
            return Ok(None);
        };
        match read_data(alloc, contents, wide, iterated, at) {
            Ok(encoded) => Ok(Some(LastData::kept(alloc, head, encoded))),
            Err(BlockFault::BadBlock) => Ok(Some(LastData::lost(alloc, head))),
            Err(BlockFault::TooDeep) => Ok(Some(LastData::lost(alloc, head))),
            Err(BlockFault::NoMemory) => Err(NoMemory),
        }
    }

    /// The index of their segment. Constant time.
    pub(crate) fn segment(&self) -> u16
        ensures segment { result ≡ (specs.shown self.now).segment }
        ensures low { lying.IsLow (specs.shown self.now) }
    {
        self.head.segment
    }

    /// The place of their first byte: `segment * 2^32 + offset`. Constant time.
    pub(crate) fn base(&self) -> u64
        ensures place { result ≡ lying.base (specs.shown self.now) }
        ensures small { result ≤ 562949953421312 }
    {
        place_in(self.head)
    }

    // where the copies of the four bytes at `at` lie
    fn seek(&self, alloc: Global, at: u16) -> Result<Vec<u32>, CopyFault>
        ensures well { IfOk result (λ places. copies_of (specs.shown self.now).blocks at ≡ Some places.items) }
        ensures refused { IfErr result (λ fault. RefusesCopies fault (copies_of (specs.shown self.now).blocks at)) }
    {
        match &self.encoded {
            Some(encoded) => match encoded.copies(alloc, at) {
                Ok(places) => Ok(places),
                Err(fault) => Err(fault),
            },
            None => Err(CopyFault::NotContent),
        }
    }

    /// Where the copies of the four bytes at `at` lie in what the data stand for, as offsets; `at`
    /// counts from the first encoded byte. `NotContent` exactly where the four do not lie in one
    /// content. The cost is that of `Data::copies`, and where there were none before, that of a
    /// look-up.
    pub(crate) fn copies(&mut self, alloc: Global, at: u16) -> Result<Vec<u32>, CopyFault>
        ensures stays { specs.shown self.new ≡ specs.shown self.old }
        ensures well { IfOk result (λ places. copies_of (specs.shown self.old).blocks at ≡ Some places.items) }
        ensures refused { IfErr result (λ fault. RefusesCopies fault (copies_of (specs.shown self.old).blocks at)) }
    {
        if self.fruitless.contains_key(&at) {
            return Ok(Vec::new(alloc));
        }
        let places = match self.seek(alloc, at) {
            Ok(places) => places,
            Err(fault) => return Err(fault),
        };
        if !places.is_empty() {
            return Ok(places);
        }
        match self.fruitless.insert(at, 0) {
            Ok(_before) => Ok(places),
            Err(_) => Err(CopyFault::NoMemory),
        }
    }
}
