//! The string table (Mach-O reference, "nlist"; our profile).
ghost use Rattle.std.specs.Prelude.{◌≡◌, ◌+◌, ◌^◌, ◌<◌, ◌≤◌, ◌-◌, Some, IsSome, IfOk, length};
ghost use Rattle.oc_base.specs.declared.format.Word.{Word};
ghost use Rattle.oc_shelf.specs.Writing.Parts.{aligned};
ghost use Rattle.oc_macho.specs.MachHeader.{address_size};
ghost use Rattle.oc_macho_file.specs.Layout as layout;
ghost use Rattle.oc_macho_file.specs.Layout.{filled, strings_of};
ghost use Rattle.oc_macho_file.specs.Lines as mach_lines;
ghost use Rattle.oc_macho_write.specs.Lines.{AreLines, AreLinesOf, line_in};
ghost use Rattle.oc_macho_write.specs.Strings.{table_with};

use crate::lines::Line;
use crate::names::section_symbol_name;
use oc_base::{Bytes, NoMemory, Word};
use oc_macho::word_bytes;
use oc_neutral::Neutral;
use oc_shelf::aligned_place;
use oc_strings::Table;
use std::alloc::Global;

/// Before the first name of a string table comes the empty one (our profile).
pub(crate) const STRINGS_HEAD: u32 = 1;

// the name of a line
fn line_name(alloc: Global, neutral: &Neutral, line: Line) -> Result<Bytes, NoMemory>
    requires { IsSome (line_in neutral.now line) }
    ensures { IfOk result (λ name. (is : mach_lines.Line) → line_in neutral.now line ≡ Some is → name ≡ mach_lines.line_name is) }
{
    match line {
        Line::Own(k) => section_symbol_name(alloc, u64::from(k) + 1),
        Line::Local(k) | Line::Outer(k) => {
            Bytes::from_slice(alloc, neutral.symbol(k).name.as_slice())
        }
    }
}

/// The table of the names of these lines. `NoMemory` where memory ran out. Time as for `Table::of`.
pub(crate) fn strings_of(
    alloc: Global,
    neutral: &Neutral,
    lines: &[Line],
) -> Result<Table, NoMemory>
    requires { AreLinesOf neutral.now lines.now }
    ensures { (w : Word) → AreLines w neutral.now lines.now → IfOk result (λ table. table ≡ table_with (layout.line_names w neutral.now)) }
{
    let mut names = Vec::with_capacity(alloc, lines.len())?;
    for line in lines {
        names.push(line_name(alloc, neutral, *line)?)?;
    }
    Table::of(alloc, STRINGS_HEAD, &names)
}

// the size of a string table with the empty name before it
fn text_size(names: &Table) -> u64
    requires { length (strings_of names.now.names) < 2 ^ 63 }
    ensures { result ≡ length (strings_of names.now.names) }
{
    u64::from(STRINGS_HEAD) + names.bytes().len() as u64
}

/// The size of a string table, with the empty name before it and zeros after it up to a multiple of
/// an address's bytes. Constant time.
pub(crate) fn strings_size(word: Word, names: &Table) -> u64
    requires { length (strings_of names.now.names) < 2 ^ 63 }
    ensures { result ≡ aligned (address_size word) (length (strings_of names.now.names)) }
{
    aligned_place(word_bytes(word), text_size(names))
}

/// How many zeros follow it. Constant time.
pub(crate) fn padding(word: Word, names: &Table) -> u64
    requires { length (strings_of names.now.names) < 2 ^ 63 }
    ensures { result ≡ aligned (address_size word) (length (strings_of names.now.names)) - length (strings_of names.now.names) }
{
    strings_size(word, names) - text_size(names)
}
