//! What hints say of symbols.
ghost use Rattle.std.specs.Prelude.{◌≡◌, ◌&&◌, not};
ghost use Rattle.std.specs.List.{list_any};
ghost use Rattle.oc_hints.specs.Case.{case_of};
ghost use Rattle.oc_hints.specs.Symbols as symbols;

use crate::key::SymbolKey;
use crate::names::{has_version, is_set_by_linker, is_slim, is_thrower};
use crate::subject::{Subject, is_coff, is_elf, is_mach};
use oc_base::Format;
use oc_drop::is_local;
use oc_names::keep_for;
use oc_neutral::{Binding, Fallback, Kind, Neutral, Section, Symbol};

// whether it is a weak definition
fn is_weak_place(binding: Binding) -> bool
    ensures { result ≡ symbols.is_weak_place binding }
{
    matches!(binding, Binding::Weak(Fallback::Place { .. }))
}

// whether it is a weak reference
fn is_weak_zero(binding: Binding) -> bool
    ensures { result ≡ symbols.is_weak_zero binding }
{
    matches!(binding, Binding::Weak(Fallback::Zero))
}

// whether it is defined here for others
fn is_defined(binding: Binding) -> bool
    ensures { result ≡ symbols.is_defined binding }
{
    match binding {
        Binding::Global(_) | Binding::Common { .. } => true,
        Binding::Local(_) | Binding::Undefined => false,
        Binding::Weak(fallback) => matches!(fallback, Fallback::Place { .. }),
    }
}

// whether it is a common of more than one byte, at any address
fn is_unaligned(binding: Binding) -> bool
    ensures { result ≡ symbols.is_unaligned binding }
{
    match binding {
        Binding::Common { size, align } => align == 1 && size > 1,
        Binding::Local(_) | Binding::Global(_) | Binding::Undefined | Binding::Weak(_) => false,
    }
}

// whether the section is a table for unwinding
fn is_table(section: &Section) -> bool
    ensures { result ≡ symbols.is_table section.now }
{
    section.kind == Kind::Exception
}

// whether one of the sections is a table for unwinding
fn one_is_table(sections: &[Section]) -> bool
    ensures { result ≡ list_any symbols.is_table sections.now }
{
    sections.iter().any(is_table)
}

// whether the object has tables for unwinding, and they are dropped
fn drops_tables(subject: &Subject) -> bool
    ensures { result ≡ symbols.drops_tables (case_of subject.now) }
{
    let keep = keep_for(subject.edits, subject.from(), subject.to);
    !keep.exceptions && one_is_table(subject.input.sections())
}

/// Whether the key is about the conversion. Linear in the sections.
pub(crate) fn concerns_symbols(key: SymbolKey, subject: &Subject) -> bool
    ensures { result ≡ symbols.concerns_symbols key (case_of subject.now) }
{
    let from = subject.from();
    let to = subject.to;
    match key {
        SymbolKey::WeakAtZero => is_coff(to),
        SymbolKey::VersionedName => subject.crosses() && is_elf(to),
        SymbolKey::LinkerName => is_elf(to),
        SymbolKey::CommonAlignment => subject.crosses() && is_mach(from),
        SymbolKey::NoHandler => drops_tables(subject),
        SymbolKey::LtoOnly => subject.crosses() && is_elf(from),
        SymbolKey::WeakAbsent => matches!(to, Format::Mac64),
    }
}

/// Whether the key is about a symbol. Linear in its name.
pub(crate) fn symbol_meets(key: SymbolKey, symbol: &Symbol) -> bool
    ensures { result ≡ symbols.symbol_meets key symbol.now }
{
    let binding = symbol.binding;
    let name = symbol.name.as_slice();
    match key {
        SymbolKey::WeakAtZero => is_weak_place(binding),
        SymbolKey::VersionedName => !is_local(binding) && has_version(name),
        SymbolKey::LinkerName => is_defined(binding) && is_set_by_linker(name),
        SymbolKey::CommonAlignment => is_unaligned(binding),
        SymbolKey::NoHandler => !is_local(binding) && is_thrower(name),
        SymbolKey::LtoOnly => is_slim(name),
        SymbolKey::WeakAbsent => is_weak_zero(binding),
    }
}

/// The object whose symbols the key is about. Constant time.
pub(crate) fn object_of_symbols<'a>(key: SymbolKey, subject: &Subject<'a>) -> &'a Neutral
    ensures { result.now.symbols ≡ symbols.symbols_for key (case_of subject.now) }
{
    match key {
        SymbolKey::WeakAtZero
        | SymbolKey::VersionedName
        | SymbolKey::LinkerName
        | SymbolKey::CommonAlignment
        | SymbolKey::WeakAbsent => subject.output,
        SymbolKey::NoHandler | SymbolKey::LtoOnly => subject.input,
    }
}
