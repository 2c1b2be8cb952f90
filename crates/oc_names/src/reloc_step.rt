//! Relocations, after symbols became Local: they are brought to normal form.
ghost use Rattle.std.specs.Prelude.{◌≡◌, ◌+◌, ◌≤◌, ◌++◌, None, IfErr, IfOk, OnOk, length};
ghost use Rattle.std.specs.Option.{option_to_list};
ghost use Rattle.std.specs.List.{AllByRecursion, filter_map, fold};
ghost use Rattle.oc_base.specs.Stops.{IsStop};
ghost use Rattle.oc_linking.specs.Fits.{bytes_of};
ghost use Rattle.oc_chains.specs.declared.field.Field.{Field as FieldOf};
ghost use Rattle.oc_drop.specs.Steps.{first_in};
ghost use Rattle.oc_names.specs.Rebinding as rebinding;

use crate::lists::add_list;
use oc_algebra::fold_difference;
use oc_base::{Code, NoMemory, Stop, Word};
use oc_chains::{Chains, Field, Walk};
use oc_drop::edit_fault;
use oc_neutral::{Normal, Reloc, Relocs, Section, Symbol, normalize};
use std::alloc::Global;

// stores a constant in a field; refused where it does not fit
fn store(word: Word, section: &mut Section, field: Field<Reloc>, value: i64) -> Result<(), Stop>
    requires { field.at + bytes_of field.item.form.width ≤ length section.old.bytes }
    ensures stored { OnOk result (section.new ≡ rebinding.with_stored section.old field (rebinding.stored_number word field value)) }
    ensures clean { OnOk result (rebinding.stored_fault section.old field (rebinding.stored_number word field value) ≡ None) }
    ensures refused { IfErr result (IsStop (rebinding.stored_fault section.old field (rebinding.stored_number word field value))) }
{
    let form = field.item.form;
    match fold_difference(word, form.width, form.check, value) {
        Ok(number) => {
            section.put(field.at, form.width.bytes(), number);
            Ok(())
        }
        Err(_) => {
            let place = field.at.into();
            Err(Stop::Refused(edit_fault(Code::FoldTooWide, section.number, place)))
        }
    }
}

// what is left of a field of the section at a position, and its constant in the section's bytes
fn left_of(
    word: Word,
    symbols: &[Symbol],
    at: u32,
    section: &mut Section,
    field: Field<Reloc>,
) -> Result<Option<Field<Reloc>>, Stop>
    requires { field.at + bytes_of field.item.form.width ≤ length section.old.bytes }
    ensures field { IfOk result (λ left. left ≡ rebinding.kept_field word symbols.now at field) }
    ensures section { OnOk result (section.new ≡ rebinding.with_constant word symbols.now at section.old field) }
    ensures clean { OnOk result (rebinding.unfit_fault word symbols.now at section.old field ≡ None) }
    ensures refused { IfErr result (IsStop (rebinding.unfit_fault word symbols.now at section.old field)) }
{
    match normalize(word, symbols, at, field.at, field.item) {
        Normal::Constant(value) => {
            store(word, section, field, value)?;
            Ok(None)
        }
        Normal::Kept(item) => Ok(Some(Field { item, ..field })),
    }
}

// puts a field after others, if there is one; `NoMemory` where memory ran out
fn put_field(fields: &mut Vec<Field<Reloc>>, field: Option<Field<Reloc>>) -> Result<(), NoMemory>
    ensures { OnOk result (fields.new.items ≡ fields.old.items ++ option_to_list field) }
{
    if let Some(field) = field {
        fields.push(field)?;
    }
    Ok(())
}

// what is left of the fields of the section at a position, and their constants in its bytes
fn fields_left(
    alloc: Global,
    word: Word,
    symbols: &[Symbol],
    at: u32,
    section: &mut Section,
    fields: Walk<'_, Reloc>,
) -> Result<Vec<Field<Reloc>>, Stop>
    requires { AllByRecursion (λ (x : FieldOf Reloc). x.at + bytes_of x.item.form.width ≤ length section.old.bytes) fields }
    ensures fields { IfOk result (λ left. left.items ≡ filter_map (rebinding.kept_field word symbols.now at) fields.entry) }
    ensures section { OnOk result (section.new ≡ fold (rebinding.with_constant word symbols.now at) section.old fields.entry) }
    ensures clean { OnOk result (first_in (rebinding.unfit_fault word symbols.now at section.old) fields.entry ≡ None) }
    ensures refused { IfErr result (IsStop (first_in (rebinding.unfit_fault word symbols.now at section.old) fields.entry)) }
{
    let mut left = Vec::new(alloc);
    for field in fields {
        let kept = left_of(word, symbols, at, section, field)?;
        put_field(&mut left, kept)?;
    }
    Ok(left)
}

/// What is left of the relocations of these sections in normal form; the constants among them are
/// stored in the sections' bytes.
///
/// Refused with the first constant that does not fit its field, by sections and offsets. `NoMemory`
/// where memory ran out. Linear in the relocations.
pub(crate) fn relocs_left(
    alloc: Global,
    word: Word,
    symbols: &[Symbol],
    sections: &mut [Section],
    relocs: &Relocs,
) -> Result<Relocs, Stop>
    requires fields { rebinding.AreStorable sections.old relocs.now.lists }
    ensures relocs { IfOk result (λ left. left.lists ≡ rebinding.lists_left word symbols.now relocs.now.lists) }
    ensures sections { OnOk result (sections.new ≡ rebinding.sections_left word symbols.now relocs.now.lists sections.old) }
    ensures clean { rebinding.OfFirstUnfit word symbols.now sections.old relocs.now.lists (λ fault. OnOk result (fault ≡ None)) }
    ensures refused { rebinding.OfFirstUnfit word symbols.now sections.old relocs.now.lists (λ fault. IfErr result (IsStop fault)) }
{
    let mut out = Chains::new(alloc);
    for at in 0..relocs.section_count() {
        let section = &mut sections[at as usize];
        let fields = fields_left(alloc, word, symbols, at, section, relocs.walk(at))?;
        add_list(&mut out, fields.as_slice())?;
    }
    Ok(Relocs::of(out))
}
