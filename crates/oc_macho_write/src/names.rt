//! The names of sections in their headers, and of the symbols that stand for them.
ghost use Rattle.std.specs.Prelude.{◌≡◌, ℕ, List, IfOk};
ghost use Rattle.std.specs.List.{Contains};
ghost use Rattle.oc_neutral.specs.Mach.Kinds as kinds;
ghost use Rattle.oc_neutral.specs.Mach.SectionSymbols.{section_symbol_name};
ghost use Rattle.oc_macho_file.specs.Layout as layout;
ghost use Rattle.oc_target.specs.Commas.{comma_place};
ghost use Rattle.oc_macho_write.specs.Strings.{table_with};

use oc_base::{Bytes, NoMemory};
use oc_strings::Table;
use std::alloc::Global;

/// The name of the symbol of section k, counted from 1. `NoMemory` where memory ran out. Constant time.
pub(crate) fn section_symbol_name(alloc: Global, k: u64) -> Result<Bytes, NoMemory>
    ensures { IfOk result (λ name. name ≡ section_symbol_name k) }
{
    let text = format!(in alloc; "l_section_{k}")?;
    Bytes::from_slice(alloc, text.as_bytes())
}

// where the first comma lies
fn comma_at(name: &[u8]) -> Option<usize>
    ensures { result ≡ comma_place name.now }
{
    name.iter().position(|byte| *byte == 44)
}

/// The segment in the name of a section: what comes before the first comma. Linear in the name.
pub(crate) fn segment_of(name: &[u8]) -> &[u8]
    ensures { result.now ≡ kinds.segment_of name.now }
{
    match comma_at(name) {
        Some(at) => &name[..at],
        None => name,
    }
}

/// The section in it: what comes after that comma. Linear in the name.
pub(crate) fn section_of(name: &[u8]) -> &[u8]
    ensures { result.now ≡ kinds.section_of name.now }
{
    match comma_at(name) {
        Some(at) => &name[at + 1..],
        None => &[],
    }
}

/// The offset of a name in a string table, to which it was given. It is looked for first at the
/// position `near` among the given names: time as for `Table::offset_near`.
pub(crate) fn offset_in(names: &Table, near: usize, name: &[u8]) -> u32
    requires { Contains names.now.names name.now }
    ensures { (given : List (List ℕ)) → names.now ≡ table_with given → result ≡ layout.offset_in given name.now }
{
    names.offset_near(near, name).unwrap()
}
