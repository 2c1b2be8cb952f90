//! The symbols that mac64 needs for sections.
ghost use Rattle.std.specs.Prelude.{◌≡◌, ℕ, ◌<◌, ◌&&◌, not, IfOk, false, length, nat_eq};
ghost use Rattle.std.specs.Option.{option_map_or};
ghost use Rattle.oc_chains.specs.Lists.{list_of};
ghost use Rattle.oc_neutral.specs.Mach.SectionSymbols.{any_names, names_section, needs_section_symbol};
ghost use Rattle.oc_neutral.specs.Mach.SectionSymbols as section_symbols;
ghost use Rattle.oc_neutral.specs.Mach.SelfReferences as references;
ghost use Rattle.oc_neutral.specs.Normal.{takes_section};
ghost use Rattle.oc_target.specs.Marks.{AreMarkedAlso, AreMarkedBelow};

use crate::keys::{is_marked, mark};
use oc_base::NoMemory;
use oc_neutral::{Form, Less, Neutral, Reloc, Target, is_long_distance, is_section};
use std::alloc::Global;

// whether a relocation of a section is the distance of the section's own start
fn is_self_reference(section: u32, reloc: Reloc) -> bool
    ensures { result ≡ references.is_self_reference section reloc }
{
    is_long_distance(reloc.form) && is_section(section, reloc.target)
}

// the section that is the target
fn target_section(target: Target) -> Option<u32>
    ensures { (k : ℕ) → option_map_or (nat_eq k) result false ≡ references.is_section k target }
{
    match target {
        Target::Section(section) => Some(section),
        Target::Symbol(_) => None,
    }
}

// the section that is taken
fn less_section(less: Less) -> Option<u32>
    ensures { (k : ℕ) → option_map_or (nat_eq k) result false ≡ takes_section k less }
{
    match less {
        Less::Section(section) => Some(section),
        Less::Zero | Less::Place | Less::GotBase | Less::ImageBase | Less::Home => None,
    }
}

// the field's own section, where the form is written as a difference with it
fn own_section(section: u32, form: Form) -> Option<u32>
    ensures { (k : ℕ) → option_map_or (nat_eq k) result false ≡ (nat_eq section k && references.is_long_distance form) }
{
    if is_long_distance(form) {
        Some(section)
    } else {
        None
    }
}

// marks the sections that a relocation of a section names
fn mark_named(needed: &mut Vec<bool>, section: u32, reloc: Reloc)
    ensures marked { AreMarkedAlso (λ k. names_section k section reloc) needed.old.items needed.new.items }
    ensures counted { length needed.new.items ≡ length needed.old.items }
{
    mark(needed, target_section(reloc.target));
    mark(needed, less_section(reloc.form.less));
    mark(needed, own_section(section, reloc.form));
}

// the same, but for one that is stored as a constant
fn mark_needed(needed: &mut Vec<bool>, section: u32, reloc: Reloc)
    ensures marked { AreMarkedAlso (λ k. not (references.is_self_reference section reloc) && names_section k section reloc) needed.old.items needed.new.items }
    ensures counted { length needed.new.items ≡ length needed.old.items }
{
    if is_self_reference(section, reloc) {
        return;
    }
    mark_named(needed, section, reloc);
}

// marks the sections that the relocations of a section name
fn mark_section(needed: &mut Vec<bool>, neutral: &Neutral, section: u32)
    requires { section < length neutral.now.sections }
    ensures marked { AreMarkedAlso (λ k. any_names k section (list_of neutral.now.relocs section)) needed.old.items needed.new.items }
    ensures counted { length needed.new.items ≡ length needed.old.items }
{
    for field in neutral.relocs(section) {
        mark_needed(needed, section, field.item);
    }
}

/// For each section whether mac64 needs a symbol `l_section_k` for it. `NoMemory` where memory ran
/// out. Time is linear in the sections and relocations.
pub fn needed_sections(alloc: Global, neutral: &Neutral) -> Result<Vec<bool>, NoMemory>
    ensures counted { IfOk result (λ needed. length needed.items ≡ length neutral.now.sections) }
    ensures each { IfOk result (λ needed. AreMarkedBelow (length neutral.now.sections) (needs_section_symbol neutral.now) needed.items) }
{
    neutral.is_object();
    let mut needed = vec![in alloc; false; neutral.section_count() as usize]?;
    for section in 0..neutral.section_count() {
        mark_section(&mut needed, neutral, section);
    }
    Ok(needed)
}

/// How many sections need such a symbol. `NoMemory` where memory ran out. Time is linear in the
/// sections and relocations.
pub fn needed_count(alloc: Global, neutral: &Neutral) -> Result<u32, NoMemory>
    ensures { IfOk result (λ count. count ≡ length (section_symbols.needed_sections neutral.now)) }
{
    let needed = needed_sections(alloc, neutral)?;
    let mut count = 0;
    for k in 0..neutral.section_count() {
        count += u32::from(is_marked(&needed, k as usize));
    }
    Ok(count)
}
