//! Hints.
ghost use Rattle.std.specs.Prelude.{◌≡◌};
ghost use Rattle.oc_hints.specs.Classes as classes;

use crate::key::{Class, EditKey, FieldKey, FileKey, SectionKey, SymbolKey};
use oc_base::Bytes;

/// A difference that a conversion meets, and where. Names are as they are in the object.
#[derive(Debug, Drop)]
pub enum Hint {
    /// At a symbol.
    Symbol {
        /// What it says.
        key: SymbolKey,
        /// The name of the symbol.
        name: Bytes,
    },
    /// At a section.
    Section {
        /// What it says.
        key: SectionKey,
        /// The name of the section.
        name: Bytes,
    },
    /// At fields of a section of the output.
    Field {
        /// What it says.
        key: FieldKey,
        /// The name of the section.
        section: Bytes,
        /// The offset of the first field, in bytes.
        at: u32,
        /// How many fields of the section it is said of.
        count: u64,
    },
    /// At the whole file.
    File {
        /// What it says.
        key: FileKey,
    },
    /// At an edit.
    Edit {
        /// What it says.
        key: EditKey,
        /// The name that the edit speaks of.
        name: Bytes,
    },
}

// how a difference at a symbol shows
fn symbol_class(key: SymbolKey) -> Class
    ensures { result ≡ classes.symbol_class key }
{
    match key {
        SymbolKey::WeakAtZero
        | SymbolKey::VersionedName
        | SymbolKey::LinkerName
        | SymbolKey::CommonAlignment
        | SymbolKey::NoHandler => Class::Silent,
        SymbolKey::LtoOnly | SymbolKey::WeakAbsent => Class::Loud,
    }
}

// how a difference at fields shows
fn field_class(key: FieldKey) -> Class
    ensures { result ≡ classes.field_class key }
{
    match key {
        FieldKey::AddressInReadOnly
        | FieldKey::DistanceForAddress
        | FieldKey::CallWithoutStub
        | FieldKey::SplitLiterals => Class::Silent,
        FieldKey::CallRecompile | FieldKey::AddressOutOfRange | FieldKey::TextRelocations => {
            Class::Loud
        }
    }
}

/// How the difference of a hint shows. Constant time, no memory.
pub fn class_of(hint: &Hint) -> Class
    ensures { result ≡ classes.class_of hint.now }
{
    match hint {
        Hint::Symbol { key, .. } => symbol_class(*key),
        Hint::Section { .. } => Class::Silent,
        Hint::Field { key, .. } => field_class(*key),
        Hint::File { .. } => Class::Loud,
        Hint::Edit { .. } => Class::Note,
    }
}
