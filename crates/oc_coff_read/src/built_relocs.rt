//! The relocations of the object.
ghost use Rattle.std.specs.Prelude.{◌≡◌, ◌+◌, ◌<◌, ◌≤◌, ℕ, length, Some, IfOk};
ghost use Rattle.std.specs.List.Sorted.{IsPermutation};
ghost use Rattle.oc_linking.specs.declared.terms.Hint.TheVariants.{Plain};
ghost use Rattle.oc_linking.specs.Fits.{bytes_of};
ghost use Rattle.oc_shelf.specs.Reading.Collected.{collected};
ghost use Rattle.oc_shelf.specs.Reading.Slots.{AreSlots};
ghost use Rattle.oc_coff.specs.Files as files;
ghost use Rattle.oc_coff_read.specs.Given as given;
ghost use Rattle.oc_coff_judge.specs.Found.{ArePositions};
ghost use Rattle.oc_coff_judge.specs.Relocs.{IsTable, width_of};
ghost use Rattle.oc_coff_judge.specs.Tagged.{symbol_position};

use crate::built_symbols::Positions;
use oc_algebra::{field_at, from_field, reduce};
use oc_base::{NoMemory, Word};
use oc_coff::{Coff, Meaning, Relocation, meaning_of};
use oc_coff_judge::{RelocTable, reloc_of, says_nothing, value_of};
use oc_neutral::{Hint, Reloc, Target, Value, moved_addend};
use oc_shelf::{PlacedEntry, sort_by_place};
use std::alloc::Global;

// the number that is added, reduced: it is stored in the field, and the value is counted from a
// place after that
fn addend_of(word: Word, contents: &[u8], at: u32, meaning: Meaning) -> i64
    requires { at + bytes_of meaning.form.width ≤ length contents.now }
    ensures { result ≡ given.addend_by word meaning contents.now at }
{
    let field = field_at(contents, at as usize, meaning.form.width);
    from_field(word, meaning.form.width, -i64::from(meaning.behind), field)
}

// a relocation with that meaning
fn reloc_as(meaning: Meaning, target: Target, addend: i64) -> Reloc
    ensures { result ≡ given.reloc_as meaning target addend }
{
    Reloc {
        target,
        form: meaning.form,
        addend,
        hint: Hint::Plain,
    }
}

// the relocation of an entry with that meaning
#[tactic(auto, unfolding(oc_coff_judge::specs::Numbered::entry_by))]
fn reloc_with(
    word: Word,
    coff: &Coff,
    positions: &Positions,
    contents: &[u8],
    r: &Relocation,
    meaning: Meaning,
) -> Option<Reloc>
    requires sections { ArePositions coff.now positions.now.sections.now }
    requires symbols { AreSlots (symbol_position (files.tables_in coff.now)) (length (files.tables_in coff.now).entries) positions.now.symbols.now }
    requires there { r.now.SymbolTableIndex < length (files.tables_in coff.now).entries }
    requires inside { r.now.VirtualAddress + bytes_of meaning.form.width ≤ length contents.now }
    ensures { result ≡ given.reloc_meant word coff.now contents.now r.now meaning }
{
    let addend = addend_of(word, contents, r.VirtualAddress, meaning);
    match positions.symbols.get(r.SymbolTableIndex) {
        Some(k) => Some(reloc_as(meaning, Target::Symbol(k), addend)),
        None => match value_of(coff, positions.sections, &coff.symbol(r.SymbolTableIndex)) {
            Some(Value::Place { section, offset }) => {
                let addend = reduce(word, moved_addend(meaning.form.base, addend, offset.into()));
                Some(reloc_as(meaning, Target::Section(section), addend))
            }
            Some(Value::Absolute(_)) | None => None,
        },
    }
}

/// The relocation of an entry of a section with these contents, where its type has a row. Constant
/// time.
pub(crate) fn reloc_for(
    word: Word,
    coff: &Coff,
    positions: &Positions,
    contents: &[u8],
    r: &Relocation,
) -> Option<Reloc>
    requires sections { ArePositions coff.now positions.now.sections.now }
    requires symbols { AreSlots (symbol_position (files.tables_in coff.now)) (length (files.tables_in coff.now).entries) positions.now.symbols.now }
    requires aimed { given.IsAimed word (files.tables_in coff.now) r.now.SymbolTableIndex }
    requires there { r.now.SymbolTableIndex < length (files.tables_in coff.now).entries }
    requires inside { r.now.VirtualAddress + width_of word r.now ≤ length contents.now }
    ensures { (s : ℕ) → result ≡ given.reloc_by word (files.tables_in coff.now) s contents.now r.now }
{
    coff.is_headed();
    match meaning_of(word, r.Type) {
        Some(meaning) => reloc_with(word, coff, positions, contents, r, meaning),
        None => None,
    }
}

// the entries of the table of section `i` that say something, each with the offset of its field
fn gathered(
    alloc: Global,
    coff: &Coff,
    i: u32,
    table: &RelocTable,
) -> Result<Vec<PlacedEntry>, NoMemory>
    requires { IsTable coff.now i table.now }
    ensures { IfOk result (λ entries. entries.items ≡ collected (given.placed_at coff.now table.now) table.now.count) }
{
    let mut entries = Vec::with_capacity(alloc, table.count as usize)?;
    for k in 0..table.count {
        let r = reloc_of(coff, i, table, k);
        if !says_nothing(&r) {
            entries.push(PlacedEntry {
                place: r.VirtualAddress.into(),
                index: k,
            })?;
        }
    }
    Ok(entries)
}

/// The entries of the table of section `i` that say something, each with the offset of its field, in
/// the order of the offsets, in which they are added in constant time each. `NoMemory` where memory
/// ran out. The time is that of n log2(n) steps for n entries.
pub(crate) fn in_order(
    alloc: Global,
    coff: &Coff,
    i: u32,
    table: &RelocTable,
) -> Result<Vec<PlacedEntry>, NoMemory>
    requires { IsTable coff.now i table.now }
    ensures { IfOk result (λ entries. IsPermutation (collected (given.placed_at coff.now table.now) table.now.count) entries.items) }
{
    let mut entries = gathered(alloc, coff, i, table)?;
    sort_by_place(&mut entries);
    Ok(entries)
}
