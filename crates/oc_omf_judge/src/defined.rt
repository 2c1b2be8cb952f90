//! What entries define, as far as a reader has come.
ghost use Rattle.std.specs.Prelude.{◌≡◌, []};
ghost use Rattle.std.specs.Option.{unwrap_or};
ghost use Rattle.oc_omf_judge.specs.Defined.{IsDefined};
ghost use Rattle.oc_omf.specs.Known.{names_of};
ghost use Rattle.oc_omf.specs.Tables.{indexed, tables_of};

use oc_omf::Segment;
use oc_shelf::Spans;
use std::alloc::Global;

/// What the entries so far define.
#[derive(Drop)]
pub struct Defined<'a> {
    /// The names.
    pub names: Vec<&'a [u8]>,
    /// The segments.
    pub segments: Vec<Segment>,
    /// Of each segment, whether some byte of it is covered by data.
    pub covered: Vec<bool>,
    /// Of each group, the index of its name.
    pub groups: Vec<u16>,
    /// How many bytes the segments have together.
    pub sizes: u64,
    /// Where the data lie, from `segment * 2^32 + offset` on.
    pub spans: Spans,
}

impl<'a> Defined<'a> {
    /// Nothing. No memory.
    pub fn new(alloc: Global) -> Defined<'a>
        ensures { IsDefined (tables_of []) result }
    {
        Defined {
            names: Vec::new(alloc),
            segments: Vec::new(alloc),
            covered: Vec::new(alloc),
            groups: Vec::new(alloc),
            sizes: 0,
            spans: Spans::new(alloc),
        }
    }
}

/// The segment of an index, which counts from 1. Constant time.
pub(crate) fn segment_at(segments: &[Segment], index: u16) -> Option<Segment>
    ensures { result ≡ indexed segments.now index }
{
    if index == 0 {
        return None;
    }
    match segments.get(usize::from(index) - 1) {
        Some(segment) => Some(*segment),
        None => None,
    }
}

/// The name of an index, which is empty at 0. Constant time.
pub fn name_at<'a>(names: &[&'a [u8]], index: u16) -> &'a [u8]
    ensures { result.now ≡ unwrap_or (indexed (names_of names.now) index) [] }
{
    if index == 0 {
        return &[];
    }
    match names.get(usize::from(index) - 1) {
        Some(name) => name,
        None => &[],
    }
}
