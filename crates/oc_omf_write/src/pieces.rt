//! The pieces in which the bytes of a section are written, and their fixups (our profile).
ghost use Rattle.std.specs.Prelude.{◌≡◌, ◌-◌, ◌^◌, ◌<◌, ◌≤◌, ◌++◌, OnOk, drop, length, map, take};
ghost use Rattle.oc_omf_file.specs.Pieces as whole;
ghost use Rattle.oc_omf_write.specs.Pieces as pieces;
ghost use Rattle.oc_omf_write.specs.Written.{between};

use crate::entries::Entry;
use crate::fixups::Fixup;
use oc_base::NoMemory;
use oc_neutral::Section;
use oc_omf::MOST_ENTRY_BYTES;

/// How many bytes a field has.
const FIELD: u32 = 4;

// how many of the fixups lie below an offset
fn count_below(fixups: &[Fixup], to: u32) -> usize
    requires { pieces.AreInOrder fixups.now }
    ensures count { result ≡ length (pieces.below to fixups.now) }
    ensures few { result ≤ length fixups.now }
{
    fixups.partition_point(|fixup| fixup.at < to)
}

// those from a position up to another
fn range(fixups: &[Fixup], first: usize, past: usize) -> &[Fixup]
    requires order { first ≤ past }
    requires inside { past ≤ length fixups.now }
    ensures { result.now ≡ take (past - first) (drop first fixups.now) }
{
    &fixups[first..past]
}

/// The fixups from an offset up to another. Time the logarithm of their number.
pub(crate) fn fixups_between(fixups: &[Fixup], from: u32, to: u32) -> &[Fixup]
    requires order { pieces.AreInOrder fixups.now }
    requires range { from ≤ to }
    ensures { result.now ≡ between from to fixups.now }
{
    range(fixups, count_below(fixups, from), count_below(fixups, to))
}

// where a piece ends that could end at a place: before the field that this would cut
fn uncut(fixups: &[Fixup], to: u32) -> u32
    requires order { pieces.AreInOrder fixups.now }
    requires small { to < 2 ^ 31 }
    ensures { result ≡ whole.uncut (pieces.places_of fixups.now) to }
{
    let below = count_below(fixups, to);
    if below == 0 {
        return to;
    }
    let last = fixups[below - 1].at;
    if last + FIELD > to { last } else { to }
}

// where a piece ends that begins at a place, of a section with these fixups and of that size
fn piece_end(fixups: &[Fixup], size: u32, from: u32) -> u32
    requires order { pieces.AreInOrder fixups.now }
    requires small { size < 2 ^ 31 }
    requires inside { from ≤ size }
    ensures { result ≡ whole.piece_end (pieces.places_of fixups.now) size from }
{
    uncut(fixups, (from + MOST_ENTRY_BYTES as u32).min(size))
}

// adds the entries of a piece: its bytes, and its fixups where it has fields
fn add_piece(
    entries: &mut Vec<Entry>,
    section: u32,
    fixups: &[Fixup],
    from: u32,
    to: u32,
) -> Result<(), NoMemory>
    requires order { pieces.AreInOrder fixups.now }
    requires range { from ≤ to }
    ensures { OnOk result (entries.new.items ≡ entries.old.items ++ pieces.piece_entries section fixups.now (from, to)) }
{
    entries.push(Entry::Data { section, from, to })?;
    if !fixups_between(fixups, from, to).is_empty() {
        entries.push(Entry::Fixups { section, from, to })?;
    }
    Ok(())
}

// adds the entries of the bytes of a section with these fixups
fn add_section(
    entries: &mut Vec<Entry>,
    section: u32,
    fixups: &[Fixup],
    size: u32,
) -> Result<(), NoMemory>
    requires fixups { pieces.FollowWithin 0 size fixups.now }
    requires small { size < 2 ^ 31 }
    ensures { OnOk result (entries.new.items ≡ entries.old.items ++ pieces.section_entries section fixups.now size) }
{
    let mut from = 0;
    'pieces: while from < size {
        let to = piece_end(fixups, size, from);
        add_piece(entries, section, fixups, from, to)?;
        from = to;
    }
    Ok(())
}

/// Adds the entries of the bytes of the sections, which have these fixups. `NoMemory` where memory ran
/// out. Linear in the entries, but for the logarithm of a section's fixups.
pub(crate) fn add_data(
    entries: &mut Vec<Entry>,
    sections: &[Section],
    fixups: &[Vec<Fixup>],
) -> Result<(), NoMemory>
    requires few { length sections.now < 2 ^ 32 }
    requires fixups { pieces.AreInSections sections.now (map (λ v. v.items) fixups.now) }
    ensures { OnOk result (entries.new.items ≡ entries.old.items ++ pieces.data_entries (map (λ v. v.items) fixups.now) sections.now) }
{
    for k in 0..sections.len() {
        let size = sections[k].bytes.as_slice().len() as u32;
        add_section(entries, k as u32, &fixups[k], size)?;
    }
    Ok(())
}
