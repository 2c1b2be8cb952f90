//! The lines of the symbol table: what it contains, in its order (Mach-O reference, "nlist" and
//! "dysymtab_command"; our profile).
ghost use Rattle.std.specs.Prelude.{◌≡◌, ◌<◌, ◌+◌, ◌++◌, ◌&&◌, ℕ, [], ◌∷◌, if◌then◌else◌, length, map, false, slice_index_or, IfOk, OnOk};
ghost use Rattle.oc_linking.specs.Parts as parts;
ghost use Rattle.oc_neutral.specs.Mach.SectionSymbols as section_symbols;
ghost use Rattle.oc_neutral.specs.WrittenSymbols.{is_written};
ghost use Rattle.oc_macho.specs.MachHeader.{mach_format};
ghost use Rattle.oc_macho_file.specs.Lines as mach_lines;
ghost use Rattle.oc_macho_write.specs.Lines.{AreAdded, AreLines, is_outer};

use crate::names::section_symbol_name;
use oc_base::{NoMemory, Word};
use oc_neutral::{Binding, Fallback, Neutral, Symbol, Value};
use oc_target::needed_sections;
use std::alloc::Global;

/// A line of the symbol table, by the position of its section or symbol in the object.
#[derive(Clone, Copy)]
pub(crate) enum Line {
    /// The symbol `l_section_k` of a section.
    Own(u32),
    /// A Local.
    Local(u32),
    /// A symbol that is not Local.
    Outer(u32),
}

/// What a symbol is that is not Local.
#[derive(Clone, Copy)]
pub(crate) enum Outer {
    /// It is defined here: a Global, or a Weak with a place or a Name.
    Defined,
    /// It is defined elsewhere.
    Undefined,
    /// A Common.
    Common,
    /// It may stay without a definition: a Weak with Zero.
    Optional,
}

// whether the place is the first byte of a section, and the name that of the section's symbol
fn is_start_named(alloc: Global, name: &[u8], value: Value) -> Result<bool, NoMemory>
    ensures { IfOk result (λ named. named ≡ section_symbols.is_start_named name.now value) }
{
    match value {
        Value::Place { section, offset: 0 } => {
            let own = section_symbol_name(alloc, u64::from(section) + 1)?;
            Ok(name == own.as_slice())
        }
        Value::Place { .. } | Value::Absolute(_) => Ok(false),
    }
}

// whether a symbol is a Local that is written: in 64 bits not where it would be taken for the symbol of
// a section
fn is_written_local(alloc: Global, word: Word, symbol: &Symbol) -> Result<bool, NoMemory>
    ensures { IfOk result (λ b. b ≡ (parts.is_local symbol.now.binding && is_written (mach_format word) symbol.now)) }
{
    match (word, symbol.binding) {
        (Word::W32, Binding::Local(_)) => Ok(true),
        (Word::W64, Binding::Local(value)) => {
            Ok(!is_start_named(alloc, symbol.name.as_slice(), value)?)
        }
        (_, Binding::Global(_) | Binding::Undefined | Binding::Common { .. } | Binding::Weak(_)) =>
            { Ok(false) }
    }
}

// adds a line that is wanted
fn give_line(lines: &mut Vec<Line>, line: Line, wanted: bool) -> Result<(), NoMemory>
    ensures { OnOk result (lines.new.items ≡ lines.old.items ++ (if wanted then line ∷ [] else [])) }
{
    if wanted {
        lines.push(line)?;
    }
    Ok(())
}

// adds the lines of the sections that are marked
fn add_marked(lines: &mut Vec<Line>, neutral: &Neutral, needed: &[bool]) -> Result<(), NoMemory>
    requires counted { length needed.now ≡ length neutral.now.sections }
    requires each { (k : ℕ) → k < length neutral.now.sections → slice_index_or needed.now k false ≡ section_symbols.needs_section_symbol neutral.now k }
    ensures { OnOk result (AreAdded neutral.now (map mach_lines.OwnLine (section_symbols.needed_sections neutral.now)) lines.old.items lines.new.items) }
{
    for k in 0..neutral.section_count() {
        give_line(lines, Line::Own(k), needed[k as usize])?;
    }
    Ok(())
}

// adds the lines of the sections whose symbols are needed
fn add_owns(
    alloc: Global,
    lines: &mut Vec<Line>,
    word: Word,
    neutral: &Neutral,
) -> Result<(), NoMemory>
    ensures { OnOk result (AreAdded neutral.now (mach_lines.own_lines word neutral.now) lines.old.items lines.new.items) }
{
    match word {
        Word::W32 => Ok(()),
        Word::W64 => add_marked(lines, neutral, &needed_sections(alloc, neutral)?),
    }
}

// adds the lines of the Locals that are written
fn add_locals(
    alloc: Global,
    lines: &mut Vec<Line>,
    word: Word,
    neutral: &Neutral,
) -> Result<(), NoMemory>
    requires { neutral.now.format ≡ mach_format word }
    ensures { OnOk result (AreAdded neutral.now (mach_lines.local_lines neutral.now) lines.old.items lines.new.items) }
{
    for k in 0..neutral.symbol_count() {
        let wanted = is_written_local(alloc, word, neutral.symbol(k))?;
        give_line(lines, Line::Local(k), wanted)?;
    }
    Ok(())
}

// whether a symbol is of a kind that is not Local
fn is_outer(outer: Outer, binding: Binding) -> bool
    ensures { result ≡ is_outer outer binding }
{
    match binding {
        Binding::Local(_) => false,
        Binding::Global(_) | Binding::Weak(Fallback::Place { .. } | Fallback::Name(_)) => {
            matches!(outer, Outer::Defined)
        }
        Binding::Undefined => matches!(outer, Outer::Undefined),
        Binding::Common { .. } => matches!(outer, Outer::Common),
        Binding::Weak(Fallback::Zero) => matches!(outer, Outer::Optional),
    }
}

// adds the lines of the symbols of a kind
fn add_outers(lines: &mut Vec<Line>, neutral: &Neutral, outer: Outer) -> Result<(), NoMemory>
    ensures { OnOk result (AreAdded neutral.now
        (mach_lines.lines_where mach_lines.OuterLine (λ s. is_outer outer s.binding) neutral.now) lines.old.items lines.new.items) }
{
    for k in 0..neutral.symbol_count() {
        let wanted = is_outer(outer, neutral.symbol(k).binding);
        give_line(lines, Line::Outer(k), wanted)?;
    }
    Ok(())
}

/// The lines of a symbol table.
#[derive(Drop)]
pub(crate) struct Lines {
    /// All of them.
    pub(crate) all: Vec<Line>,
    /// How many come first that this file alone knows.
    pub(crate) inner: usize,
    /// Where those end that are defined here.
    pub(crate) defined: usize,
}

/// The lines of an object. `NoMemory` where memory ran out. Linear in the sections, the relocations, the
/// symbols and their names.
pub(crate) fn lines_of(alloc: Global, word: Word, neutral: &Neutral) -> Result<Lines, NoMemory>
    requires { neutral.now.format ≡ mach_format word }
    ensures all { IfOk result (λ lines. AreLines word neutral.now lines.all.items) }
    ensures inner { IfOk result (λ lines. lines.inner ≡ length (mach_lines.inner_lines word neutral.now)) }
    ensures defined { IfOk result (λ lines. lines.defined ≡ lines.inner + length (mach_lines.defined_lines neutral.now)) }
{
    let mut all = Vec::new(alloc);
    add_owns(alloc, &mut all, word, neutral)?;
    add_locals(alloc, &mut all, word, neutral)?;
    let inner = all.len();
    add_outers(&mut all, neutral, Outer::Defined)?;
    let defined = all.len();
    add_outers(&mut all, neutral, Outer::Undefined)?;
    add_outers(&mut all, neutral, Outer::Common)?;
    add_outers(&mut all, neutral, Outer::Optional)?;
    Ok(Lines {
        all,
        inner,
        defined,
    })
}
