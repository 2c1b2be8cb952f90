//! The fixups of sections (TIS OMF 1.1, "FIXUPP: Fixup Record").
ghost use Rattle.std.specs.Prelude.{◌≡◌, ◌<◌, IfOk, length, map};
ghost use Rattle.oc_base.specs.declared.format.Format.TheVariants.{Omf};
ghost use Rattle.oc_target.specs.Fitted.{IsFitted};
ghost use Rattle.oc_neutral.specs.KeySymbols.{global_place};
ghost use Rattle.oc_neutral.specs.Normal as normal;
ghost use Rattle.oc_neutral.specs.Objects.{Object};
ghost use Rattle.oc_shows.specs.Seen as seen;
ghost use Rattle.oc_omf_file.specs.Fixups as fixups;
ghost use Rattle.oc_omf_write.specs.Numbers.{AreNumbers};
ghost use Rattle.oc_omf_write.specs.Written as written;

use crate::forms::{BY_SELF, BY_TARGET, row_number};
use oc_algebra::{Less, reduce};
use oc_base::{NoMemory, Word};
use oc_chains::Field;
use oc_neutral::{Binding, Neutral, Reloc, Symbol, Target, Value, moved_addend};
use oc_omf::{FRAME_OF_TARGET, METHOD_EXTERNAL, METHOD_GROUP, METHOD_SEGMENT, Method};
use std::alloc::Global;

/// A fixup of a 32-bit offset, without a displacement.
#[derive(Clone, Copy, Debug)]
pub(crate) struct Fixup {
    /// Where the field lies, an offset in its section.
    pub(crate) at: u32,
    /// Whether it is self-relative, and not segment-relative.
    pub(crate) self_relative: bool,
    /// From where the address of the target counts.
    pub(crate) frame: Method,
    /// What is addressed.
    pub(crate) target: Method,
}

/// The section and the offset in it where a Global lies, if its value is a place. Constant time.
pub(crate) fn global_place(binding: Binding) -> Option<(u32, u32)>
    ensures { result ≡ global_place binding }
{
    match binding {
        Binding::Global(Value::Place { section, offset }) => Some((section, offset)),
        _ => None,
    }
}

// whether what is taken is the address of this section
fn takes_section(section: u32, less: Less) -> bool
    ensures { result ≡ normal.takes_section section less }
{
    match less {
        Less::Section(k) => k == section,
        Less::Zero | Less::Place | Less::GotBase | Less::ImageBase | Less::Home => false,
    }
}

// the place of the symbol at a position, where it is a Global with one
fn place_at(symbols: &[Symbol], k: u32) -> Option<(u32, u32)>
    ensures { (n : Object) → n.symbols ≡ symbols.now → result ≡ seen.place_at n k }
{
    global_place(symbols.get(k as usize)?.binding)
}

// the place of a target as it is written, where it is a Global with one
fn target_place(symbols: &[Symbol], less: Less, target: Target) -> Option<(u32, u32)>
    ensures { (n : Object) → n.symbols ≡ symbols.now → result ≡ seen.target_place n less target }
{
    let Target::Symbol(k) = target else {
        return None;
    };
    let place = place_at(symbols, k)?;
    if takes_section(place.0, less) {
        None
    } else {
        Some(place)
    }
}

/// The relocation as it is written, in an object with these symbols: against a symbol that is defined
/// here, as one against its section, with its offset added. Constant time.
pub(crate) fn written_reloc(symbols: &[Symbol], reloc: Reloc) -> Reloc
    ensures { (n : Object) → n.symbols ≡ symbols.now → result ≡ fixups.written_reloc n reloc }
{
    let (target, addend) = match target_place(symbols, reloc.form.less, reloc.target) {
        None => (reloc.target, i128::from(reloc.addend)),
        Some((section, offset)) => (
            Target::Section(section),
            moved_addend(reloc.form.base, reloc.addend, offset.into()),
        ),
    };
    Reloc {
        target,
        addend: reduce(Word::W32, addend),
        ..reloc
    }
}

// a target: a segment, or an external, whose index is the symbol's number and one more
fn target_method(numbers: &[u32], target: Target) -> Method
    requires { written.HasIndex numbers.now target }
    ensures { result ≡ written.method_by numbers.now target }
{
    match target {
        Target::Section(k) => Method {
            number: METHOD_SEGMENT,
            index: (k + 1) as u16,
        },
        Target::Symbol(k) => Method {
            number: METHOD_EXTERNAL,
            index: (numbers[k as usize] + 1) as u16,
        },
    }
}

// a frame: that of the target, or group 1, which is FLAT
fn frame_method(row: u16) -> Method
    ensures { result ≡ written.frame_by row }
{
    if row == BY_TARGET {
        Method {
            number: FRAME_OF_TARGET,
            index: 0,
        }
    } else {
        Method {
            number: METHOD_GROUP,
            index: 1,
        }
    }
}

// the fixup of a field, for symbols with these numbers
fn fixup_of(neutral: &Neutral, numbers: &[u32], field: Field<Reloc>) -> Fixup
    requires row { written.HasRow field.item.form field.item.hint }
    requires index { written.HasIndex numbers.now (fixups.written_reloc neutral.now field.item).target }
    ensures { result ≡ written.fixup_with numbers.now neutral.now field }
{
    let written = written_reloc(neutral.symbols(), field.item);
    let row = row_number(field.item.form, field.item.hint);
    Fixup {
        at: field.at,
        self_relative: row == BY_SELF,
        frame: frame_method(row),
        target: target_method(numbers, written.target),
    }
}

/// The fixups of the section at a position, in order of offset, for symbols with these numbers.
/// `NoMemory` where memory ran out. Linear in them.
pub(crate) fn fixups_of(
    alloc: Global,
    neutral: &Neutral,
    numbers: &[u32],
    section: u32,
) -> Result<Vec<Fixup>, NoMemory>
    requires fitted { IsFitted Omf neutral.now }
    requires numbers { AreNumbers neutral.now numbers.now }
    requires there { section < length neutral.now.sections }
    ensures { IfOk result (λ fixups. fixups.items ≡ written.fixups_of numbers.now neutral.now section) }
{
    let mut fixups = Vec::with_capacity(alloc, neutral.relocs(section).len())?;
    for field in neutral.relocs(section) {
        fixups.push(fixup_of(neutral, numbers, field))?;
    }
    Ok(fixups)
}

/// The fixups of each section, in order of offset, for symbols with these numbers. `NoMemory` where
/// memory ran out. Linear in the sections and relocations.
pub(crate) fn all_fixups(
    alloc: Global,
    neutral: &Neutral,
    numbers: &[u32],
) -> Result<Vec<Vec<Fixup>>, NoMemory>
    requires fitted { IsFitted Omf neutral.now }
    requires numbers { AreNumbers neutral.now numbers.now }
    ensures { IfOk result (λ fixups. map (λ v. v.items) fixups.items ≡ written.fixups_in numbers.now neutral.now) }
{
    let mut fixups = Vec::with_capacity(alloc, neutral.section_count() as usize)?;
    for k in 0..neutral.section_count() {
        fixups.push(fixups_of(alloc, neutral, numbers, k)?)?;
    }
    Ok(fixups)
}
