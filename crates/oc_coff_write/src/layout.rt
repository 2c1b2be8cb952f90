//! Where the parts of the file begin.
ghost use Rattle.std.specs.Prelude.{◌≡◌, ◌+◌, ◌<◌, ◌^◌, ◌++◌, [], ◌∷◌, IfOk, List, OnOk, flat_map, map};
ghost use Rattle.std.specs.List.{enumerate_from};
ghost use Rattle.oc_coff.specs.declared.form.CoffForm.{CoffForm as Width};
ghost use Rattle.oc_target.specs.Fitted.{IsFitted};
ghost use Rattle.oc_neutral.specs.Objects.{Object};
ghost use Rattle.oc_coff.specs.Forms.{format_of};
ghost use Rattle.oc_coff_file.specs.Layout.{Part, FileHead, SectionHeads, parts_of, part_size, section_parts};
ghost use Rattle.oc_coff_file.specs.Lines.{entry_count};
ghost use Rattle.oc_coff_write.specs.Bodies.{relocations_in};
ghost use Rattle.oc_coff_write.specs.LaidParts.{AreLaid};
ghost use Rattle.oc_coff_write.specs.Strings.{table_for};

use oc_base::NoMemory;
use oc_coff::{
    CoffForm, RELOCATION_SIZE, Relocation, SECTION_HEADER_SIZE, entry_count, header_size, shape_of,
    symbol_size,
};
use oc_neutral::Neutral;
use oc_neutral::coff::STRINGS_HEAD;
use oc_shelf::Layout;
use oc_strings::Table;
use std::alloc::Global;

// lays a part of so many bytes after the last
fn lay(layout: &mut Layout, size: usize) -> Result<(), NoMemory>
    requires { layout.old.end + size < 2 ^ 32 }
    ensures { OnOk result ((w : Width) (n : Object) (xs : List Part) (x : Part) → AreLaid w n layout.old xs
        → part_size w n x ≡ size → AreLaid w n layout.new (xs ++ x ∷ [])) }
{
    layout.lay(1, size as u64)?;
    Ok(())
}

// lays the parts of the sections after the headers
fn lay_sections(
    layout: &mut Layout,
    form: CoffForm,
    neutral: &Neutral,
    relocs: &[Vec<Relocation>],
) -> Result<(), NoMemory>
    requires fitted { IsFitted (format_of form) neutral.now }
    requires relocs { map (λ v. v.items) relocs.now ≡ relocations_in form neutral.now }
    requires before { AreLaid form neutral.now layout.old (FileHead ∷ SectionHeads ∷ []) }
    ensures { OnOk result (AreLaid form neutral.now layout.new (FileHead ∷ SectionHeads ∷ flat_map section_parts (enumerate_from 0 neutral.now.sections))) }
{
    for k in 0..neutral.section_count() {
        let count = entry_count(relocs[k as usize].len());
        lay(layout, neutral.section(k).bytes.as_slice().len())?;
        lay(layout, RELOCATION_SIZE * count)?;
    }
    Ok(())
}

/// Where the parts of the file begin, with these relocations of each section, so many entries of the
/// symbol table, and this string table. `NoMemory` where memory ran out. Linear in the sections.
pub(crate) fn layout_of(
    alloc: Global,
    form: CoffForm,
    neutral: &Neutral,
    relocs: &[Vec<Relocation>],
    entries: usize,
    names: &Table,
) -> Result<Layout, NoMemory>
    requires fitted { IsFitted (format_of form) neutral.now }
    requires relocs { map (λ v. v.items) relocs.now ≡ relocations_in form neutral.now }
    requires entries { entries ≡ entry_count form neutral.now }
    requires names { names.now ≡ table_for form neutral.now }
    ensures { IfOk result (λ layout. AreLaid form neutral.now layout (parts_of neutral.now)) }
{
    let mut layout = Layout::new(alloc);
    lay(&mut layout, header_size(shape_of(form)))?;
    lay(
        &mut layout,
        SECTION_HEADER_SIZE * neutral.section_count() as usize,
    )?;
    lay_sections(&mut layout, form, neutral, relocs)?;
    lay(&mut layout, symbol_size(shape_of(form)) * entries)?;
    lay(&mut layout, STRINGS_HEAD + names.bytes().len())?;
    Ok(layout)
}
