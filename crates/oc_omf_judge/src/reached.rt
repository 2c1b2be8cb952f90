//! What a reader has come to in a module when it judges fixups.
ghost use Rattle.std.specs.Prelude.{◌≡◌, ◌≤◌, [], Some, IfOk, IfErr};
ghost use Rattle.std.specs.Option.{option_map};
ghost use Rattle.oc_omf_records.specs.Refusals.{RefusesCopies};
ghost use Rattle.oc_omf.specs.Tables.{tables_of};
ghost use Rattle.oc_omf_judge.specs.Lying as lying;
ghost use Rattle.oc_omf_judge.specs.Reached as specs;
ghost use Rattle.oc_omf_judge.specs.declared.whole.Whole.{Whole};

use crate::counts::Counts;
use crate::last_data::LastData;
use crate::starts::Starts;
use oc_omf::Threads;
use oc_omf_records::CopyFault;
use std::alloc::Global;

/// What the entries and subrecords so far have.
#[derive(Drop)]
pub(crate) struct Reached<'a> {
    /// How many things an index can name.
    pub(crate) counts: Counts,
    /// The last data, if there are any.
    pub(crate) last: Option<LastData<'a>>,
    /// The threads in force.
    pub(crate) threads: Threads,
    /// Where the fields of fixups begin that were judged.
    pub(crate) starts: Starts,
}

impl<'a> Reached<'a> {
    /// Nothing. No memory.
    pub(crate) fn new(alloc: Global) -> Reached<'a>
        ensures { (w : Whole) → specs.IsReached w (tables_of []) [] result }
    {
        Reached {
            counts: Counts {
                segments: 0,
                groups: 0,
                externals: 0,
            },
            last: None,
            threads: Threads::new(),
            starts: Starts::new(alloc),
        }
    }

    /// The index of the segment of the last data, if there are any. Constant time.
    pub(crate) fn segment(&self) -> Option<u16>
        ensures segment { result ≡ option_map (λ (d : lying.Lying). d.segment) (specs.last_in self.now) }
        ensures low { (d : lying.Lying) → specs.last_in self.now ≡ Some d → lying.IsLow d }
    {
        match &self.last {
            Some(last) => Some(last.segment()),
            None => None,
        }
    }

    /// The place of their first byte, 0 where there are none. Constant time.
    pub(crate) fn base(&self) -> u64
        ensures place { result ≡ specs.base_in self.now }
        ensures small { result ≤ 562949953421312 }
    {
        match &self.last {
            Some(last) => last.base(),
            None => 0,
        }
    }

    /// Where the copies of the four bytes at `at` lie in what the last data stand for, as offsets;
    /// `at` counts from the first encoded byte. `NotContent` exactly where the four do not lie in
    /// one content, or there are no data. The cost is that of `LastData::copies`.
    pub(crate) fn copies(&mut self, alloc: Global, at: u16) -> Result<Vec<u32>, CopyFault>
        ensures stays { specs.IsSame self.old self.new }
        ensures well { IfOk result (λ places. lying.copies_in (specs.last_in self.old) at ≡ Some places.items) }
        ensures refused { IfErr result (λ fault. RefusesCopies fault (lying.copies_in (specs.last_in self.old) at)) }
    {
        match &mut self.last {
            Some(last) => last.copies(alloc, at),
            None => Err(CopyFault::NotContent),
        }
    }
}
