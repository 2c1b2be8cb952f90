//! The relocation entries of sections (Mach-O reference, "relocation_info" and
//! "scattered_relocation_info").
ghost use Rattle.std.specs.Prelude.{◌≡◌, ◌<◌, ◌++◌, ◌^◌, [], ◌∷◌, length, IfOk, OnOk, Some};
ghost use Rattle.oc_base.specs.declared.format.Word.{Word};
ghost use Rattle.oc_base.specs.declared.format.Word.TheVariants.{W32};
ghost use Rattle.oc_target.specs.Fitted.{IsFitted};
ghost use Rattle.oc_neutral.specs.Mach.Relocs as relocs;
ghost use Rattle.oc_neutral.specs.Objects.{Object};
ghost use Rattle.oc_macho.specs.MachHeader.{mach_format};
ghost use Rattle.oc_macho_file.specs.Bodies as bodies;
ghost use Rattle.oc_macho_file.specs.Layout.{relocs_of};
ghost use Rattle.oc_macho_file.specs.Lines.{numbered_lines};
ghost use Rattle.oc_macho_write.specs.Forms.{CanWrite, HasPlace, IsFor, IsReady, IsFieldContext, IsStanding, IsWritten};
ghost use Rattle.oc_macho_write.specs.Numbers.{IsNumbered};
ghost use Rattle.oc_macho_write.specs.Relocations.{all_entries, HasNumbers};
ghost use Rattle.oc_macho_write.specs.Words.{items_of};

use crate::forms::{FieldContext, SpelledReloc, length_of, spelled_at, taken_section, takes_place};
use crate::numbers::Numbers;
use oc_base::{NoMemory, Word};
use oc_chains::Field;
use oc_macho::{Reference, RelocationInfo};
use oc_neutral::{Neutral, Reloc};
use oc_target::Spelling;
use std::alloc::Global;

// an entry that is not scattered, which takes the place of its field or not
fn plain_entry(
    standing: &SpelledReloc,
    r_pcrel: u8,
    r_type: u8,
    refers: Reference,
) -> RelocationInfo
    ensures { result ≡ record {
      r_address = standing.now.at;
      r_pcrel = r_pcrel;
      r_length = relocs.length_of standing.now.reloc.form.width;
      r_type = r_type;
      refers = refers;
    } }
{
    RelocationInfo {
        r_address: standing.at,
        r_pcrel,
        r_length: length_of(standing.reloc.form.width),
        r_type,
        refers,
    }
}

// a scattered one, of four bytes
fn scattered_entry(r_address: u32, r_type: u8, r_value: u64) -> RelocationInfo
    requires { r_value < 2 ^ 32 }
    ensures { result ≡ bodies.scattered_entry r_address r_type r_value }
{
    RelocationInfo {
        r_address,
        r_pcrel: 0,
        r_length: 2,
        r_type,
        refers: Reference::Address(r_value as u32),
    }
}

// the two entries of a pair: in i386 with addresses of sections, the one that is taken second; in x86-64
// the one that is taken first
fn pair_of(
    context: FieldContext<'_>,
    numbers: &Numbers,
    standing: &SpelledReloc,
    first: u8,
    second: u8,
) -> (RelocationInfo, RelocationInfo)
    requires ready { IsReady context }
    requires there { IsFor context standing.now.section standing.now.reloc }
    requires ends { context.word ≡ W32 → HasPlace context standing.now.reloc.target }
    requires numbers { HasNumbers context numbers.now }
    ensures { (n : Object) (is : bodies.WrittenReloc)
        → IsFieldContext context.entry.word n context.entry → IsNumbered context.entry.word n numbers.now
        → IsWritten context.entry.word standing.now is → is.row.number ≡ first → is.row.second ≡ Some second
        → result.0 ∷ result.1 ∷ [] ≡ bodies.pair_entries context.entry.word n (numbered_lines context.entry.word n) is second }
{
    let target = standing.reloc.target;
    let taken = taken_section(standing);
    match context.word {
        Word::W32 => (
            scattered_entry(standing.at, first, context.end_section_address(target)),
            scattered_entry(0, second, context.address_of(taken)),
        ),
        Word::W64 => {
            let subtrahend = Reference::Symbol(numbers.of_section(taken));
            (
                plain_entry(standing, 0, first, subtrahend),
                plain_entry(standing, 0, second, numbers.of_target(context.word, target)),
            )
        }
    }
}

// adds the entries of a relocation at its place
fn add_standing(
    entries: &mut Vec<RelocationInfo>,
    context: FieldContext<'_>,
    numbers: &Numbers,
    standing: &SpelledReloc,
) -> Result<(), NoMemory>
    requires ready { IsReady context }
    requires there { IsStanding context standing.now }
    requires written { (is : bodies.WrittenReloc) × IsWritten context.word standing.now is }
    requires numbers { HasNumbers context numbers.now }
    ensures { OnOk result ((n : Object) (is : bodies.WrittenReloc)
        → IsFieldContext context.entry.word n context.entry → IsNumbered context.entry.word n numbers.now
        → IsWritten context.entry.word standing.now is
        → entries.new.items ≡ entries.old.items ++ bodies.standing_entries context.entry.word n (numbered_lines context.entry.word n) is) }
{
    match standing.spelling {
        Spelling::One(number) => {
            let refers = numbers.of_target(context.word, standing.reloc.target);
            let r_pcrel = u8::from(takes_place(standing.reloc));
            entries.push(plain_entry(standing, r_pcrel, number as u8, refers))?;
        }
        Spelling::Pair(number, behind) => {
            let (first, second) = pair_of(context, numbers, standing, number as u8, behind as u8);
            entries.push(first)?;
            entries.push(second)?;
        }
    }
    Ok(())
}

// adds the entries of a relocation of a section
fn add_entries(
    entries: &mut Vec<RelocationInfo>,
    context: FieldContext<'_>,
    numbers: &Numbers,
    section: u32,
    field: Field<Reloc>,
) -> Result<(), NoMemory>
    requires ready { IsReady context }
    requires can { CanWrite context section field.at field.item }
    requires numbers { HasNumbers context numbers.now }
    ensures { OnOk result ((n : Object)
        → IsFieldContext context.entry.word n context.entry → IsNumbered context.entry.word n numbers.now
        → entries.new.items ≡ entries.old.items ++ bodies.entries_at context.entry.word n (numbered_lines context.entry.word n) section field) }
{
    let standing = spelled_at(context.word, section, field.at, field.item);
    add_standing(entries, context, numbers, &standing)
}

// the entries of the section at a position
fn entries_of(
    alloc: Global,
    neutral: &Neutral,
    context: FieldContext<'_>,
    numbers: &Numbers,
    section: u32,
) -> Result<Vec<RelocationInfo>, NoMemory>
    requires fitted { IsFitted (mach_format context.word) neutral.now }
    requires context { IsFieldContext context.word neutral.now context }
    requires numbers { IsNumbered context.word neutral.now numbers.now }
    requires there { section < length neutral.now.sections }
    ensures { IfOk result (λ entries. entries.items ≡ relocs_of context.entry.word neutral.now section) }
{
    let mut entries = Vec::new(alloc);
    for field in neutral.relocs(section) {
        add_entries(&mut entries, context, numbers, section, field)?;
    }
    Ok(entries)
}

/// The relocation entries of each section, in order of offset, for the symbols with these numbers.
/// `NoMemory` where memory ran out. Linear in the sections and relocations.
pub(crate) fn all_entries(
    alloc: Global,
    neutral: &Neutral,
    context: FieldContext<'_>,
    numbers: &Numbers,
) -> Result<Vec<Vec<RelocationInfo>>, NoMemory>
    requires fitted { IsFitted (mach_format context.word) neutral.now }
    requires context { IsFieldContext context.word neutral.now context }
    requires numbers { IsNumbered context.word neutral.now numbers.now }
    ensures { IfOk result (λ entries. items_of entries.items ≡ all_entries context.entry.word neutral.now) }
{
    let mut entries = Vec::with_capacity(alloc, neutral.section_count() as usize)?;
    for k in 0..neutral.section_count() {
        entries.push(entries_of(alloc, neutral, context, numbers, k)?)?;
    }
    Ok(entries)
}
