//! The data of entries.
ghost use Rattle.std.specs.Prelude.{◌≡◌, ◌≤◌, ◌^◌, min, drop, length, IfOk};
ghost use Rattle.oc_omf_records.specs.Blocks.{size_of};
ghost use Rattle.oc_omf.specs.Entries.{all_read, is_wide};
ghost use Rattle.oc_omf.specs.Sections.{blocks_in};
ghost use Rattle.oc_omf.specs.Structures.{blocks_by, piece_read};
ghost use Rattle.oc_omf_read.specs.Defined.{read_in, said};
ghost use Rattle.oc_omf_read.specs.Pieces as pieces;

use crate::class::{EntryClass, class_of};
use oc_base::{NoMemory, View};
use oc_omf::{Data, is_wide, read_index, read_long};
use oc_omf_records::{BlockFault, Entry};
use std::alloc::Global;

/// The data of an entry, and where they lie.
#[derive(Drop)]
pub struct FoundPiece<'a> {
    /// The index of their segment.
    pub(crate) segment: u16,
    /// The offset of the first byte that they stand for, in bytes.
    pub(crate) offset: u32,
    /// What they are; `None` where their blocks cannot be read.
    pub(crate) data: Option<Data<'a>>,
}

impl<'a> FoundPiece<'a> {
    /// How many bytes they stand for, or 2^32 where there are more. Linear in the encoded data; no
    /// memory.
    pub(crate) fn size(&self) -> u64
        ensures { result ≡ min (size_of (pieces.row_in self.now.data)) (2 ^ 32) }
    {
        match &self.data {
            Some(data) => data.size(),
            None => 0,
        }
    }
}

// the data in the contents of an entry from a place on
fn data_behind<'a>(
    alloc: Global,
    contents: &View<'a>,
    at: u64,
    wide: bool,
    iterated: bool,
) -> Result<Option<Data<'a>>, NoMemory>
    requires { at ≤ length contents.now }
    ensures { IfOk result (λ d. pieces.row_in d ≡ blocks_in (blocks_by wide iterated (drop at contents.now))) }
{
    let behind = contents.sub(at, contents.len() - at).unwrap();
    match Data::read(alloc, behind, wide, iterated) {
        Ok(data) => Ok(Some(data)),
        Err(BlockFault::BadBlock | BlockFault::TooDeep) => Ok(None),
        Err(BlockFault::NoMemory) => Err(NoMemory),
    }
}

// the data of an entry of that sort, if they are not cut
fn read_piece<'a>(
    alloc: Global,
    entry: &Entry<'a>,
    iterated: bool,
) -> Result<Option<FoundPiece<'a>>, NoMemory>
    ensures { IfOk result (λ piece. pieces.ArePieces piece (read_in (piece_read (is_wide entry.now.kind) iterated entry.now.contents 0))) }
{
    let wide = is_wide(entry.kind);
    let Ok((segment, at)) = read_index(&entry.contents, 0) else {
        return Ok(None);
    };
    let Ok((offset, at)) = read_long(&entry.contents, wide, at) else {
        return Ok(None);
    };
    let data = data_behind(alloc, &entry.contents, at, wide, iterated)?;
    Ok(Some(FoundPiece {
        segment,
        offset,
        data,
    }))
}

/// The data of an entry, if it has some that are not cut. `NoMemory` where memory ran out. Linear in
/// the entry.
pub(crate) fn piece_of<'a>(
    alloc: Global,
    entry: &Entry<'a>,
) -> Result<Option<FoundPiece<'a>>, NoMemory>
    ensures { IfOk result (λ piece. pieces.ArePieces piece (all_read (said entry.now).pieces)) }
{
    match class_of(entry.kind) {
        EntryClass::Plain => read_piece(alloc, entry, false),
        EntryClass::Iterated => read_piece(alloc, entry, true),
        EntryClass::Names
        | EntryClass::Segment
        | EntryClass::Group
        | EntryClass::Publics
        | EntryClass::LocalPublics
        | EntryClass::Externals
        | EntryClass::LocalExternals
        | EntryClass::Communals
        | EntryClass::Fixups
        | EntryClass::Nothing => Ok(None),
    }
}
