//! The entries of the symbol table (Mach-O reference, "nlist").
ghost use Rattle.std.specs.Prelude.{◌≡◌, ◌+◌, ◌<◌, length, map, Some, IsSome, IfOk};
ghost use Rattle.oc_base.specs.declared.format.Word.{Word};
ghost use Rattle.std.specs.List.{Contains};
ghost use Rattle.oc_neutral.specs.Invariants.{IsBinding};
ghost use Rattle.oc_neutral.specs.Mach.SectionSymbols.{section_symbol_name};
ghost use Rattle.oc_neutral.specs.Objects.{Object};
ghost use Rattle.oc_macho_file.specs.Layout as layout;
ghost use Rattle.oc_macho_file.specs.Lines as mach_lines;
ghost use Rattle.oc_macho_file.specs.Symbols as symbols;
ghost use Rattle.oc_macho_write.specs.Lines.{AreLines, IsNamed, line_in};
ghost use Rattle.oc_macho_write.specs.Strings.{AreNamedIn, table_with};
ghost use Rattle.oc_macho_write.specs.Symbols.{IsOwnEntry};
ghost use Rattle.oc_macho_write.specs.Values.{AreAddresses};

use crate::lines::Line;
use crate::names::{offset_in, section_symbol_name};
use crate::values;
use oc_base::NoMemory;
use oc_macho::Nlist;
use oc_neutral::{Neutral, Symbol};
use oc_strings::Table;
use std::alloc::Global;

// the entry of the symbol of a section, which lies at its start
fn own_nlist(
    alloc: Global,
    names: &Table,
    near: usize,
    addresses: &[u64],
    section: u32,
) -> Result<Nlist, NoMemory>
    requires addresses { (n : Object) × (AreAddresses n addresses.now) × (section < length n.sections) }
    requires named { Contains names.now.names (section_symbol_name (section + 1)) }
    ensures { IfOk result (IsOwnEntry names.now addresses.now section) }
{
    let name = section_symbol_name(alloc, u64::from(section) + 1)?;
    let stood = values::at_place(addresses, section, 0);
    Ok(Nlist {
        n_strx: offset_in(names, near, name.as_slice()),
        n_type: stood.n_type,
        n_sect: stood.n_sect,
        n_desc: 0,
        n_value: stood.n_value,
    })
}

// the entry of a symbol
fn symbol_nlist(
    names: &Table,
    near: usize,
    addresses: &[u64],
    neutral: &Neutral,
    symbol: &Symbol,
) -> Nlist
    requires addresses { AreAddresses neutral.now addresses.now }
    requires there { IsBinding neutral.now symbol.now.binding }
    requires named { Contains names.now.names symbol.now.name }
    ensures { (w : Word) → names.now ≡ table_with (layout.line_names w neutral.now) → result ≡ symbols.symbol_entry w neutral.now symbol.now }
{
    let stood = values::of_binding(neutral, addresses, symbol.binding);
    Nlist {
        n_strx: offset_in(names, near, symbol.name.as_slice()),
        n_type: values::type_by(stood, symbol.binding, symbol.vis),
        n_sect: stood.n_sect,
        n_desc: values::desc_by(symbol.binding),
        n_value: stood.n_value,
    }
}

// the entry of a line, whose name is looked for first at the position `near` among the given names
#[tactic(auto, unfolding(oc_macho_file::specs::Symbols::line_entry))]
fn line_nlist(
    alloc: Global,
    names: &Table,
    near: usize,
    addresses: &[u64],
    neutral: &Neutral,
    line: Line,
) -> Result<Nlist, NoMemory>
    requires addresses { AreAddresses neutral.now addresses.now }
    requires there { IsSome (line_in neutral.now line) }
    requires section { IsNamed neutral.now line }
    requires named { (is : mach_lines.Line) → line_in neutral.now line ≡ Some is → Contains names.now.names (mach_lines.line_name is) }
    ensures { IfOk result (λ nlist. (w : Word) (is : mach_lines.Line) → names.now ≡ table_with (layout.line_names w neutral.now)
        → line_in neutral.now line ≡ Some is → nlist ≡ symbols.line_entry w neutral.now is) }
{
    neutral.is_object();
    match line {
        Line::Own(k) => own_nlist(alloc, names, near, addresses, k),
        Line::Local(k) => Ok(symbol_nlist(names, near, addresses, neutral, neutral.symbol(k))),
        Line::Outer(k) => Ok(symbol_nlist(names, near, addresses, neutral, neutral.symbol(k))),
    }
}

/// The entries of these lines, whose names are in this table, of an object whose sections have
/// these addresses. `NoMemory` where memory ran out. Linear in the lines, but for looking up names
/// in the string table, each where that of its line was given.
pub(crate) fn nlists_of(
    alloc: Global,
    neutral: &Neutral,
    names: &Table,
    addresses: &[u64],
    lines: &[Line],
) -> Result<Vec<Nlist>, NoMemory>
    requires addresses { AreAddresses neutral.now addresses.now }
    requires lines { AreNamedIn names.now neutral.now lines.now }
    ensures { (w : Word) → names.now ≡ table_with (layout.line_names w neutral.now) → AreLines w neutral.now lines.now
        → IfOk result (λ nlists. nlists.items ≡ map (symbols.line_entry w neutral.now) (mach_lines.lines_of w neutral.now)) }
{
    let mut nlists = Vec::with_capacity(alloc, lines.len())?;
    for (k, line) in lines.iter().enumerate() {
        nlists.push(line_nlist(alloc, names, k, addresses, neutral, *line)?)?;
    }
    Ok(nlists)
}
