//! The contents of segments.
ghost use Rattle.std.specs.Prelude.{◌≡◌, ◌+◌, ◌<◌, ◌≤◌, ◌++◌, length, take, drop, replicate, None, OnOk, IfOk};
ghost use Rattle.oc_linking.specs.FirstFault.{stage_fault};
ghost use Rattle.oc_omf.specs.Entries.{all_read, entries_in};
ghost use Rattle.oc_omf.specs.Known.{row_of};
ghost use Rattle.oc_omf.specs.SectionFaults.{section_stage};
ghost use Rattle.oc_omf.specs.Tables.{tables_of};
ghost use Rattle.oc_omf_judge.specs.Defined.{IsDefined};
ghost use Rattle.oc_omf_read.specs.Contents as contents;
ghost use Rattle.oc_omf_read.specs.Defined.{said};

use crate::known::kind_in;
use crate::pieces::{FoundPiece, piece_of};
use oc_base::NoMemory;
use oc_neutral::Kind;
use oc_omf::{Data, Module};
use oc_omf_judge::{Defined, segment_size};
use oc_omf_records::Entry;
use std::alloc::Global;

// puts bytes in the place of those from an offset on
fn lay_over(bytes: &mut Vec<u8>, offset: usize, piece: &[u8])
    requires { offset + length piece.now ≤ length bytes.old.items }
    ensures { bytes.new.items ≡ take offset bytes.old.items ++ (piece.now ++ drop (offset + length piece.now) bytes.old.items) }
{
    let place = &mut bytes[offset..offset + piece.len()];
    place.copy_from_slice(piece);
}

// puts data in the place of the bytes from an offset on, where they fit
fn lay_data(alloc: Global, bytes: &mut Vec<u8>, offset: u32, blocks: &Data) -> Result<(), NoMemory>
    ensures { OnOk result (bytes.new.items ≡ contents.laid_by offset (row_of blocks.now) bytes.old.items) }
{
    let size = blocks.size();
    if size == 0 || size >= 1 << 31 || u64::from(offset) + size > bytes.len() as u64 {
        return Ok(());
    }
    let expanded = blocks.expand(alloc)?;
    lay_over(bytes, offset as usize, expanded.as_slice());
    Ok(())
}

// puts data into the bytes of their segment
fn lay_piece(alloc: Global, bytes: &mut Vec<Vec<u8>>, piece: &FoundPiece) -> Result<(), NoMemory>
    ensures long { OnOk result (length bytes.new.items ≡ length bytes.old.items) }
    ensures each { OnOk result (contents.AreLaid (contents.laid_piece piece.now) bytes.old.items bytes.new.items) }
{
    let segment = usize::from(piece.segment);
    if segment == 0 || segment > bytes.len() {
        return Ok(());
    }
    match &piece.data {
        Some(data) => {
            lay_data(alloc, &mut bytes[segment - 1], piece.offset, data)?;
            Ok(())
        }
        None => Ok(()),
    }
}

// puts the data of an entry into the bytes of their segment
fn lay_entry(alloc: Global, bytes: &mut Vec<Vec<u8>>, entry: &Entry) -> Result<(), NoMemory>
    ensures long { OnOk result (length bytes.new.items ≡ length bytes.old.items) }
    ensures each { OnOk result (contents.AreLaid (contents.laid_all (all_read (said entry.now).pieces)) bytes.old.items bytes.new.items) }
{
    match piece_of(alloc, entry)? {
        Some(piece) => {
            lay_piece(alloc, bytes, &piece)?;
            Ok(())
        }
        None => Ok(()),
    }
}

// how many bytes segment `k`, counted from 0, has in the object
fn size_in(known: &Defined, k: usize) -> u64
    requires covered { k < length known.now.covered.items }
    requires there { k < length known.now.segments.items }
    ensures { result ≡ contents.size_in known.now k }
{
    if kind_in(known, k) == Kind::Zero {
        return 0;
    }
    segment_size(&known.segments[k])
}

// so many zeros
fn zeros(alloc: Global, count: u64) -> Result<Vec<u8>, NoMemory>
    ensures { IfOk result (λ bytes. bytes.items ≡ replicate count 0) }
{
    Ok(vec![in alloc; 0; count as usize]?)
}

// zeros for each segment
fn zeros_for(alloc: Global, known: &Defined) -> Result<Vec<Vec<u8>>, NoMemory>
    requires { length known.now.covered.items ≡ length known.now.segments.items }
    ensures long { IfOk result (λ vectors. length vectors.items ≡ length known.now.segments.items) }
    ensures each { IfOk result (λ vectors. contents.AreZeros known.now vectors.items) }
{
    let mut vectors = Vec::new(alloc);
    for k in 0..known.segments.len() {
        let bytes = zeros(alloc, size_in(known, k))?;
        vectors.push(bytes)?;
    }
    Ok(vectors)
}

/// The bytes of each segment: zeros, with the data in their places; none where its kind is Zero.
/// `NoMemory` where memory ran out. Linear in the module and in the bytes.
pub(crate) fn contents_in(
    alloc: Global,
    omf: &Module,
    known: &Defined,
) -> Result<Vec<Vec<u8>>, NoMemory>
    requires clean { stage_fault (section_stage (entries_in omf.now)) ≡ None }
    requires known { IsDefined (tables_of (entries_in omf.now)) known.now }
    ensures { IfOk result (λ vectors. contents.AreStored (tables_of (entries_in omf.now)) (tables_of (entries_in omf.now)) vectors.items) }
{
    let mut bytes = zeros_for(alloc, known)?;
    for i in 0..omf.count() {
        let entry = omf.entry(i);
        lay_entry(alloc, &mut bytes, &entry)?;
    }
    Ok(bytes)
}
