//! Planning the canonical COFF file of an object that is ready to be written.
ghost use Rattle.std.specs.Prelude.{◌≡◌, IfOk, map};
ghost use Rattle.oc_target.specs.Fitted.{IsFitted};
ghost use Rattle.oc_coff_file.specs.Canonical as canonical;
ghost use Rattle.oc_coff.specs.Forms.{format_of};
ghost use Rattle.oc_coff_file.specs.Layout.{parts_of};
ghost use Rattle.oc_coff_file.specs.Lines.{entry_count};
ghost use Rattle.oc_coff_write.specs.Bodies.{raws_in, relocations_in};
ghost use Rattle.oc_shelf.specs.Writing.Parts.{file_of};
ghost use Rattle.oc_coff_write.specs.LaidParts.{AreLaid};
ghost use Rattle.oc_coff_write.specs.Plans.{AreMade};
ghost use Rattle.oc_coff_write.specs.Strings.{table_for};

use crate::headers::{file_header_of, headers_of};
use crate::layout::layout_of;
use crate::plan::{CoffParts, Plan};
use crate::raw::Addends;
use crate::relocations::all_relocations;
use crate::symbols::symbols_of;
use oc_base::NoMemory;
use oc_coff::{CoffForm, Relocation, SectionHeader, shape_of};
use oc_neutral::{Neutral, Section};
use oc_plans::with_numbers;
use oc_shelf::Layout;
use oc_strings::Table;
use oc_target::Fitted;
use std::alloc::Global;

// the sections of an object, with the numbers in their fields
fn sections_of(form: CoffForm, neutral: Neutral) -> Vec<Section>
    requires { IsFitted (format_of form) neutral }
    ensures { map (λ s. s.bytes) result.items ≡ raws_in form neutral }
{
    neutral.is_object();
    let (_groups, sections, _symbols, relocs) = neutral.into_parts();
    with_numbers(&Addends { form }, &relocs, sections)
}

// the places of the parts and the headers of the sections
fn laid_of(
    alloc: Global,
    form: CoffForm,
    neutral: &Neutral,
    relocs: &[Vec<Relocation>],
    entries: usize,
    names: &Table,
) -> Result<(Layout, Vec<SectionHeader>), NoMemory>
    requires fitted { IsFitted (format_of form) neutral.now }
    requires relocs { map (λ v. v.items) relocs.now ≡ relocations_in form neutral.now }
    requires entries { entries ≡ entry_count form neutral.now }
    requires names { names.now ≡ table_for form neutral.now }
    ensures layout { IfOk result (λ made. AreLaid form neutral.now made.0 (parts_of neutral.now)) }
    ensures headers { IfOk result (λ made. made.1.items ≡ canonical.headers_of form neutral.now) }
{
    let layout = layout_of(alloc, form, neutral, relocs, entries, names)?;
    let headers = headers_of(alloc, form, neutral, names, relocs, &layout.places)?;
    Ok((layout, headers))
}

// what the file of an object is made of, and where its parts stand
fn made_of(alloc: Global, form: CoffForm, fitted: Fitted) -> Result<(CoffParts, Layout), NoMemory>
    requires { fitted.format ≡ format_of form }
    ensures made { IfOk result (λ made. AreMade form fitted made.0) }
    ensures laid { IfOk result (λ made. AreLaid form fitted made.1 (parts_of fitted)) }
{
    fitted.is_fitted();
    let neutral = fitted.neutral();
    let made = symbols_of(alloc, form, neutral)?;
    let entries = made.entries.len();
    let relocs = all_relocations(alloc, form, neutral, &made.numbers)?;
    let (layout, headers) = laid_of(alloc, form, neutral, &relocs, entries, &made.names)?;
    let header = file_header_of(form, neutral, &layout.places, entries);
    let sections = sections_of(form, fitted.into_neutral());
    let parts = CoffParts {
        shape: shape_of(form),
        header,
        headers,
        sections,
        relocs,
        entries: made.entries,
        names: made.names,
    };
    Ok((parts, layout))
}

/// The plan of the canonical file, in a form of COFF, of an object that is ready to be written in it
/// (PE/COFF; for many sections the structures of winnt.h, "ANON_OBJECT_HEADER_BIGOBJ", "IMAGE_SYMBOL_EX" and
/// "IMAGE_AUX_SYMBOL_EX"). `NoMemory` where memory ran out. Linear in the object, but for looking up names
/// in the string table; what the plan does not need of the object is given back.
pub fn plan_object(alloc: Global, form: CoffForm, fitted: Fitted) -> Result<Plan, NoMemory>
    requires { fitted.format ≡ format_of form }
    ensures { IfOk result (λ plan. file_of plan ≡ canonical.coff_file form fitted) }
{
    fitted.is_fitted();
    let (parts, layout) = made_of(alloc, form, fitted)?;
    Ok(Plan::new(parts, layout))
}
