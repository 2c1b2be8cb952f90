//! The lines of the symbol table: what it contains, in its order (PE/COFF, "COFF Symbol Table"; our
//! profile).
ghost use Rattle.std.specs.Prelude.{◌≡◌, ◌++◌, [], ◌∷◌, if◌then◌else◌, flat_map, IfOk, OnOk};
ghost use Rattle.std.specs.List.{enumerate_from};
ghost use Rattle.std.specs.Option.{option_map_or};
ghost use Rattle.oc_shows.specs.SymbolLines as symbol_lines;
ghost use Rattle.oc_coff_file.specs.Lines as coff_lines;
ghost use Rattle.oc_coff_write.specs.Keys.{AreKeys};
ghost use Rattle.oc_coff_write.specs.Lines.{AreAdded, AreLines};
ghost use Rattle.oc_coff_write.specs.declared.lines.Line.TheVariants as made;

use oc_base::NoMemory;
use oc_coff::{CoffForm, format_of};
use oc_neutral::Neutral;
use oc_target::{is_unkeyed, is_written_local, needs_default};
use std::alloc::Global;

/// A line of the symbol table, by the position of its section or symbol in the object.
#[derive(Clone, Copy)]
pub(crate) enum Line {
    /// The symbol of a section.
    Section(u32),
    /// A Local.
    Local(u32),
    /// The symbol that stands for the fallback of a Weak.
    Default(u32),
    /// A symbol that is not Local.
    Outer(u32),
}

// adds a line that is wanted
fn give_line(lines: &mut Vec<Line>, line: Line, wanted: bool) -> Result<(), NoMemory>
    ensures { OnOk result (lines.new.items ≡ lines.old.items ++ (if wanted then line ∷ [] else [])) }
{
    if wanted {
        lines.push(line)?;
    }
    Ok(())
}

// adds the lines of the Locals that are written
fn add_locals(
    alloc: Global,
    lines: &mut Vec<Line>,
    form: CoffForm,
    neutral: &Neutral,
) -> Result<(), NoMemory>
    ensures { OnOk result (AreAdded neutral.now
        (coff_lines.lines_where coff_lines.LocalLine (coff_lines.is_written_local form) neutral.now) lines.old.items lines.new.items) }
{
    let format = format_of(form);
    for k in 0..neutral.symbol_count() {
        let symbol = neutral.symbol(k);
        let wanted = is_written_local(alloc, format, symbol)?;
        give_line(lines, Line::Local(k), wanted)?;
    }
    Ok(())
}

// adds the lines of the symbols that stand for fallbacks
fn add_defaults(lines: &mut Vec<Line>, neutral: &Neutral) -> Result<(), NoMemory>
    ensures { OnOk result (AreAdded neutral.now
        (coff_lines.lines_where coff_lines.DefaultLine symbol_lines.needs_default neutral.now) lines.old.items lines.new.items) }
{
    for k in 0..neutral.symbol_count() {
        let symbol = neutral.symbol(k);
        let wanted = needs_default(symbol.binding);
        give_line(lines, Line::Default(k), wanted)?;
    }
    Ok(())
}

// adds the lines of the symbols that are not Local and no key symbols
fn add_outers(lines: &mut Vec<Line>, neutral: &Neutral) -> Result<(), NoMemory>
    ensures { OnOk result (AreAdded neutral.now
        (coff_lines.lines_where coff_lines.OuterLine (coff_lines.is_free neutral.now) neutral.now) lines.old.items lines.new.items) }
{
    for k in 0..neutral.symbol_count() {
        let symbol = neutral.symbol(k);
        let wanted = is_unkeyed(neutral, symbol);
        give_line(lines, Line::Outer(k), wanted)?;
    }
    Ok(())
}

// adds the line of a section, and that of the key symbol that lies in it
fn add_section(lines: &mut Vec<Line>, section: u32, key: Option<u32>) -> Result<(), NoMemory>
    ensures { OnOk result (lines.new.items ≡ lines.old.items ++ made.Section section ∷ option_map_or (λ k. made.Outer k ∷ []) key []) }
{
    lines.push(Line::Section(section))?;
    if let Some(key) = key {
        lines.push(Line::Outer(key))?;
    }
    Ok(())
}

// adds the lines of the sections, each with its key symbol
fn add_sections(
    lines: &mut Vec<Line>,
    neutral: &Neutral,
    keys: &[Option<u32>],
) -> Result<(), NoMemory>
    requires { AreKeys neutral.now keys.now }
    ensures { OnOk result (AreAdded neutral.now
        (flat_map (coff_lines.section_lines neutral.now) (enumerate_from 0 neutral.now.sections)) lines.old.items lines.new.items) }
{
    neutral.is_object();
    for k in 0..neutral.section_count() {
        add_section(lines, k, keys[k as usize])?;
    }
    Ok(())
}

/// The lines of an object, of whose sections these are the key symbols. `NoMemory` where memory ran
/// out. Linear in the sections, the symbols and their names.
pub(crate) fn lines_of(
    alloc: Global,
    form: CoffForm,
    neutral: &Neutral,
    keys: &[Option<u32>],
) -> Result<Vec<Line>, NoMemory>
    requires { AreKeys neutral.now keys.now }
    ensures { IfOk result (λ lines. AreLines form neutral.now lines.items) }
{
    let mut lines = Vec::new(alloc);
    add_sections(&mut lines, neutral, keys)?;
    add_locals(alloc, &mut lines, form, neutral)?;
    add_defaults(&mut lines, neutral)?;
    add_outers(&mut lines, neutral)?;
    Ok(lines)
}
