//! How the form and the addend of a relocation are written (Mach-O reference, "Relocation Data
//! Structures").
ghost use Rattle.std.specs.Prelude.{◌≡◌, ◌^◌, ◌<◌, ◌+◌, if◌then◌else◌, length, Some, pos, neg_ℤ, ◌-ℤ◌};
ghost use Rattle.oc_base.specs.declared.format.Word.{Word};
ghost use Rattle.oc_base.specs.declared.format.Word.TheVariants.{W32, W64};
ghost use Rattle.oc_neutral.specs.Mach.Relocs as relocs;
ghost use Rattle.oc_neutral.specs.Objects.{Object};
ghost use Rattle.oc_neutral.specs.Rows.{TakesPlace, same_taken, taken_of};
ghost use Rattle.oc_neutral.specs.Shifts.{entry_target_shift};
ghost use Rattle.oc_macho_file.specs.Addresses.{address_of};
ghost use Rattle.oc_macho_file.specs.Bodies as bodies;
ghost use Rattle.oc_macho_file.specs.Bodies.{entry_target_of};
ghost use Rattle.oc_macho_write.specs.Relocations.{CanTell, number_at};
ghost use Rattle.oc_macho_write.specs.declared.forms.FieldContext.{FieldContext as Setting};
ghost use Rattle.oc_macho_write.specs.Forms.{HasForm, HasPlace, IsFor, IsHeld, IsReady, IsFieldContext, IsStanding, IsThere, IsValueFor, IsWritten};

use crate::values::global_place;
use oc_algebra::to_field;
use oc_base::Word;
use oc_macho::format_of;
use oc_neutral::{Less, Reloc, Symbol, Target, Width};
use oc_target::{Spelling, lookup};

/// How many bytes a self-relative field of x86-64 has, from whose end the value is taken.
const SIGNED_BEHIND: u8 = 4;

/// What numbers in fields are made of beside relocations.
#[derive(Clone, Copy)]
pub(crate) struct FieldContext<'a> {
    /// The word of the object.
    pub(crate) word: Word,
    /// The addresses of its sections.
    pub(crate) addresses: &'a [u64],
    /// Its symbols.
    pub(crate) symbols: &'a [Symbol],
}

/// A relocation where it lies, and how it is written.
#[derive(Clone, Copy)]
pub(crate) struct SpelledReloc {
    /// The position of the field's section.
    pub(crate) section: u32,
    /// The offset of the field.
    pub(crate) at: u32,
    /// The relocation.
    pub(crate) reloc: Reloc,
    /// The type number or numbers.
    pub(crate) spelling: Spelling,
}

/// A relocation at an offset of a section, whose form the format has. Constant time.
pub(crate) fn spelled_at(word: Word, section: u32, at: u32, reloc: Reloc) -> SpelledReloc
    requires { HasForm word section at reloc }
    ensures { (is : bodies.WrittenReloc) → bodies.written_reloc_at word section at reloc ≡ Some is → IsWritten word result is }
{
    let spelling = lookup(format_of(word), reloc.form, reloc.hint).unwrap();
    SpelledReloc {
        section,
        at,
        reloc,
        spelling,
    }
}

/// The section that a pair takes: the field's own, where it is the field's place that is taken. Constant
/// time.
pub(crate) fn taken_section(standing: &SpelledReloc) -> u32
    ensures section { (w : Word) (is : bodies.WrittenReloc) → IsWritten w standing.now is → result ≡ bodies.taken_section is }
    ensures there { (x : Setting) → IsFor x standing.now.section standing.now.reloc → result < length x.addresses.now }
{
    match standing.reloc.form.less {
        Less::Section(k) => k,
        Less::Zero | Less::Place | Less::GotBase | Less::ImageBase | Less::Home => standing.section,
    }
}

/// Whether an entry that stands alone takes the place of its field. Constant time.
pub(crate) fn takes_place(reloc: Reloc) -> bool
    ensures { result ≡ same_taken (taken_of reloc.form.less) TakesPlace }
{
    match reloc.form.less {
        Less::Place => true,
        Less::Zero | Less::GotBase | Less::ImageBase | Less::Home | Less::Section(_) => false,
    }
}

/// `r_length` of a field: it has 2 to that power bytes. Constant time.
pub(crate) fn length_of(width: Width) -> u8
    ensures { result ≡ relocs.length_of width }
{
    match width {
        Width::One => 0,
        Width::Two => 1,
        Width::Four => 2,
        Width::Eight => 3,
    }
}

// how far a place lies after another
fn distance(place: u64, from: u64) -> i64
    requires place { place < 2 ^ 63 }
    requires from { from < 2 ^ 63 }
    ensures { result ≡ pos place -ℤ pos from }
{
    place as i64 - from as i64
}

impl FieldContext<'_> {
    /// The address of the section at a position. Constant time.
    pub(crate) fn address_of(&self, section: u32) -> u64
        requires ready { IsReady self.now }
        requires there { section < length self.now.addresses.now }
        ensures address { (w : Word) (n : Object) → IsFieldContext w n self.now → result ≡ address_of n section }
        ensures low { result < 2 ^ 32 }
    {
        self.addresses[section as usize]
    }

    // the place of an end of a difference
    fn end_place(&self, target: Target) -> (u32, u32)
        requires ready { IsReady self.now }
        requires there { IsThere self.now target }
        requires place { HasPlace self.now target }
        ensures place { (w : Word) (n : Object) → IsFieldContext w n self.now → bodies.end_place n target ≡ Some result }
        ensures there { result.0 < length self.now.addresses.now }
    {
        match target {
            Target::Section(k) => (k, 0),
            Target::Symbol(k) => global_place(self.symbols[k as usize].binding).unwrap(),
        }
    }

    // the address of an end of a difference
    fn end_address(&self, target: Target) -> u64
        requires ready { IsReady self.now }
        requires there { IsThere self.now target }
        requires place { HasPlace self.now target }
        ensures address { (w : Word) (n : Object) → IsFieldContext w n self.now → result ≡ bodies.end_address n target }
        ensures low { result < 2 ^ 33 }
    {
        let (section, offset) = self.end_place(target);
        self.address_of(section) + u64::from(offset)
    }

    /// The address of the section of an end of a difference. Constant time.
    pub(crate) fn end_section_address(&self, target: Target) -> u64
        requires ready { IsReady self.now }
        requires there { IsThere self.now target }
        requires place { HasPlace self.now target }
        ensures address { (w : Word) (n : Object) → IsFieldContext w n self.now → result ≡ bodies.end_section_address n target }
        ensures low { result < 2 ^ 32 }
    {
        let (section, _) = self.end_place(target);
        self.address_of(section)
    }

    // the address of the field, where an entry of i386 takes the field's place
    fn taken_address(&self, standing: &SpelledReloc) -> u64
        requires ready { IsReady self.now }
        requires there { standing.now.section < length self.now.addresses.now }
        ensures address { (w : Word) (n : Object) → IsFieldContext w n self.now
            → result ≡ (if same_taken (taken_of standing.now.reloc.form.less) TakesPlace then address_of n standing.now.section + standing.now.at else 0) }
        ensures low { result < 2 ^ 33 }
    {
        if takes_place(standing.reloc) {
            self.address_of(standing.section) + u64::from(standing.at)
        } else {
            0
        }
    }

    // the address of the section, where an entry refers to one
    fn entry_target_address(&self, target: Target) -> u64
        requires ready { IsReady self.now }
        requires there { IsThere self.now target }
        ensures address { (w : Word) (n : Object) → IsFieldContext w n self.now → neg_ℤ (pos result) ≡ entry_target_shift (entry_target_of n target) }
        ensures low { result < 2 ^ 32 }
    {
        match target {
            Target::Section(k) => self.address_of(k),
            Target::Symbol(_) => 0,
        }
    }

    // what the addend of i386 has beyond the field
    fn shift32(&self, standing: &SpelledReloc) -> i64
        requires word { self.now.word ≡ W32 }
        requires ready { IsReady self.now }
        requires there { IsStanding self.now standing.now }
        ensures { IsValueFor bodies.field_shift W32 self.now standing.now result }
    {
        let target = standing.reloc.target;
        match standing.spelling {
            Spelling::One(_) => {
                distance(
                    self.taken_address(standing),
                    self.entry_target_address(target),
                )
            }
            Spelling::Pair(_, _) => {
                distance(
                    self.address_of(taken_section(standing)),
                    self.end_address(target),
                )
            }
        }
    }

    // what the addend of a relocation has beyond the field
    fn field_shift(&self, standing: &SpelledReloc) -> i64
        requires ready { IsReady self.now }
        requires there { IsStanding self.now standing.now }
        ensures { (w : Word) → IsValueFor bodies.field_shift w self.now standing.now result }
    {
        match self.word {
            Word::W32 => self.shift32(standing),
            Word::W64 => shift64(standing),
        }
    }

    // the number in the field of a relocation at its place
    fn spelled_number(&self, standing: &SpelledReloc) -> u64
        requires ready { IsReady self.now }
        requires there { IsStanding self.now standing.now }
        requires held { IsHeld self.now standing.now }
        ensures { (w : Word) → IsValueFor bodies.field_number w self.now standing.now result }
    {
        let shift = self.field_shift(standing);
        let reloc = standing.reloc;
        to_field(self.word, reloc.form.width, shift, reloc.addend).unwrap()
    }

    /// The number in the field of a relocation at an offset of a section, where it can be made. Constant
    /// time.
    pub(crate) fn field_number(&self, section: u32, at: u32, reloc: Reloc) -> u64
        requires { CanTell self.now section at reloc }
        ensures { (w : Word) (n : Object) → IsFieldContext w n self.now → result ≡ number_at w n section at reloc }
    {
        self.spelled_number(&spelled_at(self.word, section, at, reloc))
    }
}

// what the addend of x86-64 has beyond the field: a value is taken from the end of the field, and a
// difference from the start of the section
fn shift64(standing: &SpelledReloc) -> i64
    ensures { (n : Object) (is : bodies.WrittenReloc) → IsWritten W64 standing.now is → result ≡ bodies.field_shift W64 n is }
{
    if !takes_place(standing.reloc) {
        return 0;
    }
    match standing.spelling {
        Spelling::One(_) => -i64::from(SIGNED_BEHIND),
        Spelling::Pair(_, _) => i64::from(standing.at),
    }
}
