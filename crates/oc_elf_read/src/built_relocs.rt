//! The relocations of the object.
ghost use Rattle.std.specs.Prelude.{◌≡◌, ◌+◌, ◌<◌, ◌≤◌, ◌^◌, ℕ, length, take, true, None, Some, IfOk, OnOk};
ghost use Rattle.std.specs.List.Sorted.{IsPermutation};
ghost use Rattle.oc_linking.specs.Fits.{bytes_of};
ghost use Rattle.oc_shelf.specs.Reading.Collected.{collected};
ghost use Rattle.oc_elf.specs.Fields as fields;
ghost use Rattle.oc_elf_read.specs.Given as given;
ghost use Rattle.oc_elf_judge.specs.Known.{IsAimed, IsTable};
ghost use Rattle.oc_elf.specs.Tables as tables;

use oc_algebra::{field_at, from_field, reduce};
use oc_base::{NoMemory, Word};
use oc_elf::{Frame, Meaning, Rel, Shdr, meaning_of};
use oc_elf_judge::{Aims, entry_of, home_of, is_idle, is_section_symbol, reloc_count, reloc_of};
use oc_neutral::{Reloc, Target, Width, moved_addend};
use oc_shelf::{PlacedEntry, sort_by_place};
use std::alloc::Global;

// the number that is added, reduced: it is stored in the field of these contents, or in the entry
fn addend_of(word: Word, contents: &[u8], width: Width, r: &Rel) -> i64
    requires { r.now.r_offset + bytes_of width ≤ length contents.now }
    ensures { result ≡ given.addend_by word width contents.now r.now }
{
    match word {
        Word::W32 => {
            let field = field_at(contents, r.r_offset as usize, width);
            from_field(word, width, 0, field)
        }
        Word::W64 => { from_field(word, Width::Eight, 0, r.r_addend) }
    }
}

// a relocation with that meaning
fn reloc_by(meaning: Meaning, target: Target, addend: i64) -> Reloc
    ensures { result ≡ record { target = target; form = meaning.form; addend = addend; hint = meaning.hint } }
{
    Reloc {
        target,
        form: meaning.form,
        addend,
        hint: meaning.hint,
    }
}

// the relocation of an entry with that meaning
fn reloc_with(
    frame: &Frame,
    aims: &Aims,
    contents: &[u8],
    r: &Rel,
    meaning: Meaning,
) -> Option<Reloc>
    requires aims { IsAimed frame.now aims.now.table.now aims.now.sections.now aims.now.symbols.now }
    requires there { r.now.r_sym < tables.symbol_count frame.now }
    requires inside { r.now.r_offset + bytes_of meaning.form.width ≤ length contents.now }
    ensures { result ≡ given.reloc_meant frame.now contents.now r.now meaning }
{
    let word = frame.word();
    let addend = addend_of(word, contents, meaning.form.width, r);
    if let Some(k) = aims.symbols.get(r.r_sym) {
        return Some(reloc_by(meaning, Target::Symbol(k), addend));
    }
    let s = entry_of(frame, aims.table, r.r_sym);
    if !is_section_symbol(&s) {
        return None;
    }
    let k = home_of(frame, aims.sections, &s)?;
    let addend = reduce(word, moved_addend(meaning.form.base, addend, s.st_value));
    Some(reloc_by(meaning, Target::Section(k), addend))
}

/// The relocation of an entry, where its type has a row and its symbol can be a target. Constant
/// time.
pub(crate) fn reloc_for(frame: &Frame, aims: &Aims, contents: &[u8], r: &Rel) -> Option<Reloc>
    requires aims { IsAimed frame.now aims.now.table.now aims.now.sections.now aims.now.symbols.now }
    requires there { r.now.r_sym < tables.symbol_count frame.now }
    requires inside { r.now.r_offset + fields.width_of frame.now r.now ≤ length contents.now }
    ensures { result ≡ given.reloc_by frame.now contents.now r.now }
{
    match meaning_of(frame.class(), r.r_type) {
        Some(meaning) => reloc_with(frame, aims, contents, r, meaning),
        None => None,
    }
}

// the entries of the table of section `i` that say something, each with the offset of its field
fn gathered(
    alloc: Global,
    frame: &Frame,
    i: u32,
    table: &Shdr,
) -> Result<Vec<PlacedEntry>, NoMemory>
    requires { IsTable frame.now i table.now }
    ensures { IfOk result (λ entries. entries.items ≡ collected (given.placed frame.now i) (tables.reloc_count frame.now i)) }
{
    let count = reloc_count(frame, i, table);
    let mut entries = Vec::with_capacity(alloc, count as usize)?;
    for k in 0..count {
        let r = reloc_of(frame, i, table, k);
        if !is_idle(&r) {
            entries.push(PlacedEntry {
                place: r.r_offset,
                index: k,
            })?;
        }
    }
    Ok(entries)
}

/// The entries of the table of section `i` that say something, each with the offset of its field, in
/// the order of the offsets, in which they are added in constant time each. `NoMemory` where memory
/// ran out. The time is that of n log2(n) steps for n entries.
pub(crate) fn in_order(
    alloc: Global,
    frame: &Frame,
    i: u32,
    table: &Shdr,
) -> Result<Vec<PlacedEntry>, NoMemory>
    requires { IsTable frame.now i table.now }
    ensures { IfOk result (λ entries. IsPermutation (collected (given.placed frame.now i) (tables.reloc_count frame.now i)) entries.items) }
{
    let mut entries = gathered(alloc, frame, i, table)?;
    sort_by_place(&mut entries);
    Ok(entries)
}
