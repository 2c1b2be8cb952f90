//! Planning the canonical ELF file of an object that is ready to be written.
ghost use Rattle.std.specs.Prelude.{◌≡◌, IfOk, map};
ghost use Rattle.oc_target.specs.Fitted.{IsFitted};
ghost use Rattle.oc_elf.specs.Classes.{format_of, word_of};
ghost use Rattle.oc_shelf.specs.Writing.Parts.{file_of};
ghost use Rattle.oc_elf_file.specs.Canonical.{elf_file};
ghost use Rattle.oc_elf_file.specs.Layout.{parts_of};
ghost use Rattle.oc_elf_write.specs.LaidParts.{AreLaid};
ghost use Rattle.oc_elf_write.specs.Plans.{AreMade};
ghost use Rattle.oc_elf_write.specs.Raws.{all_raws};

use crate::bodies::bodies_of;
use crate::headers::{HeaderInputs, file_header, stored_shdrs, symtab_number};
use crate::heads::heads_of;
use crate::keys::keys_of;
use crate::layout::layout_of;
use crate::lines::lines_of;
use crate::numbers::Numbers;
use crate::plan::{ElfParts, Plan};
use crate::raw::with_addends;
use oc_base::NoMemory;
use oc_elf::ElfClass;
use oc_neutral::{Neutral, Section};
use oc_shelf::Layout;
use oc_target::Fitted;
use std::alloc::Global;

// the sections of an object, with the addends in their fields where the entries have none
fn sections_of(class: ElfClass, neutral: Neutral) -> Vec<Section>
    requires { IsFitted (format_of class) neutral }
    ensures { map (λ s. s.bytes) result.items ≡ all_raws (word_of class) neutral }
{
    neutral.is_object();
    let (_groups, sections, _symbols, relocs) = neutral.into_parts();
    with_addends(class.word(), &relocs, sections)
}

// what the file of an object is made of, and where its parts stand
fn made_of(alloc: Global, class: ElfClass, fitted: Fitted) -> Result<(ElfParts, Layout), NoMemory>
    requires { fitted.format ≡ format_of class }
    ensures made { IfOk result (λ made. AreMade class fitted made.0) }
    ensures laid { IfOk result (λ made. AreLaid class fitted made.1 (parts_of fitted)) }
{
    fitted.is_fitted();
    let neutral = fitted.neutral();
    let heads = heads_of(alloc, neutral)?;
    let keys = keys_of(alloc, neutral)?;
    let lines = lines_of(alloc, neutral, &keys)?;
    let numbers = Numbers::of(alloc, neutral, &lines.all)?;
    let bodies = bodies_of(alloc, class, neutral, &heads, &lines.all, &numbers)?;
    let layout = layout_of(alloc, class, neutral, &bodies, &heads)?;
    let count = heads.len() as u32;
    let made = HeaderInputs {
        keys: &keys,
        numbers: &numbers,
        inner: lines.inner as u32,
        bodies: &bodies,
        heads: count,
        symtab: symtab_number(class, count),
    };
    let shdrs = stored_shdrs(alloc, class, neutral, made, &heads, &layout.places)?;
    let ehdr = file_header(class, count, layout.places[1 + heads.len()]);
    let sections = sections_of(class, fitted.into_neutral());
    let parts = ElfParts {
        class,
        ehdr,
        heads,
        shdrs,
        sections,
        bodies,
    };
    Ok((parts, layout))
}

/// The plan of the canonical ELF file of that class of an object that is ready to be written (gABI,
/// "Sections", "Symbol Table" and "Relocation"; our profile). `NoMemory` exactly where memory ran out.
/// Linear in the object, but for looking up names in the string tables; what the plan does not need of
/// the object is given back.
pub fn plan_object(alloc: Global, class: ElfClass, fitted: Fitted) -> Result<Plan, NoMemory>
    requires { fitted.format ≡ format_of class }
    ensures { IfOk result (λ plan. file_of plan ≡ elf_file class fitted) }
{
    fitted.is_fitted();
    let (parts, layout) = made_of(alloc, class, fitted)?;
    Ok(Plan::new(parts, layout))
}
