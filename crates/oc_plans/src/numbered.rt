//! Sections with the numbers of their relocations in their fields.
ghost use Rattle.std.specs.Prelude.{◌≡◌, ◌<◌, ℕ, length};
ghost use Rattle.std.specs.List.{AllByRecursion};
ghost use Rattle.oc_chains.specs.Fields.{FollowFrom};
ghost use Rattle.oc_chains.specs.Lists.{list_of};
ghost use Rattle.oc_neutral.specs.Constants.{EndsWithin, IsWide, LieWithin};
ghost use Rattle.oc_neutral.specs.declared.reloc.Reloc.{Reloc as Entry};
ghost use Rattle.oc_plans.specs.Numbered.{AreAll, Numbering, all_with_numbers, with_numbers};

use oc_chains::Walk;
use oc_neutral::{Reloc, Relocs, Section};

/// What gives the numbers in the fields of relocations.
pub trait FieldNumbers {
    /// These are the numbers.
    ghost tells: { Self → Numbering → Type 0 };

    /// The number of a relocation at an offset of the section at a position is known: the format
    /// writes it, and what it refers to exists.
    ghost knows: { Self → ℕ → ℕ → Entry → Type 0 };

    /// The number in the field of a relocation at an offset of the section at a position. Constant time.
    fn number(&self, section: u32, at: u32, reloc: Reloc) -> u64
        requires { knows self.now section at reloc }
        ensures { (number_of : Numbering) → tells self.now number_of → result ≡ number_of section at reloc };
}

// writes the numbers of the relocations of the section at a position into their fields
fn write_numbers<N: FieldNumbers>(
    numbers: &N,
    position: u32,
    relocs: Walk<'_, Reloc>,
    section: &mut Section,
)
    requires there { AreAll (N.knows numbers.now position) relocs }
    requires apart { FollowFrom 0 relocs }
    requires wide { AllByRecursion IsWide relocs }
    requires inside { AllByRecursion (EndsWithin (length section.old.bytes)) relocs }
    ensures long { length section.new.bytes ≡ length section.old.bytes }
    ensures numbers { (number_of : Numbering) → N.tells numbers.now number_of → section.new ≡ with_numbers (number_of position) relocs.entry section.old }
{
    for field in relocs {
        let number = numbers.number(position, field.at, field.item);
        section.put(field.at, field.width, number);
    }
}

// writes the numbers of relocations into their fields in the bytes of the sections
fn write_all<N: FieldNumbers>(numbers: &N, relocs: &Relocs, sections: &mut [Section])
    requires there { (k : ℕ) → k < length relocs.now.lists → AreAll (N.knows numbers.now k) (list_of relocs.now.lists k) }
    requires within { LieWithin sections.old relocs.now.lists }
    ensures long { length sections.new ≡ length sections.old }
    ensures numbers { (number_of : Numbering) → N.tells numbers.now number_of → sections.new ≡ all_with_numbers number_of relocs.now.lists sections.old }
{
    for k in 0..relocs.section_count() {
        write_numbers(numbers, k, relocs.walk(k), &mut sections[k as usize]);
    }
}

/// The sections with the numbers of their relocations in their fields. Linear in the sections and
/// relocations, no memory.
pub fn with_numbers<N: FieldNumbers>(
    numbers: &N,
    relocs: &Relocs,
    mut sections: Vec<Section>,
) -> Vec<Section>
    requires there { (k : ℕ) → k < length relocs.now.lists → AreAll (N.knows numbers.now k) (list_of relocs.now.lists k) }
    requires within { LieWithin sections.items relocs.now.lists }
    ensures { (number_of : Numbering) → N.tells numbers.now number_of → result.items ≡ all_with_numbers number_of relocs.now.lists sections.items }
{
    write_all(numbers, relocs, sections.as_mut_slice());
    sections
}
