//! What an entry speaks of, by its type.
ghost use Rattle.std.specs.Prelude.{◌≡◌};
ghost use Rattle.oc_omf_read.specs.Classes as classes;

use oc_omf::{
    COMDEF, EXTDEF, FIXUPP, GRPDEF, LEDATA, LEXTDEF, LIDATA, LNAMES, LPUBDEF, PUBDEF, SEGDEF,
    is_kind,
};

/// What an entry speaks of.
#[derive(Clone, Copy, Debug, PartialEq, Eq)]
pub enum EntryClass {
    /// Names.
    Names,
    /// A segment.
    Segment,
    /// A group of segments.
    Group,
    /// Symbols that other modules see.
    Publics,
    /// Symbols that this module alone sees.
    LocalPublics,
    /// Symbols that other modules define.
    Externals,
    /// Symbols that this module alone defines.
    LocalExternals,
    /// Communals.
    Communals,
    /// Plain data.
    Plain,
    /// Iterated data.
    Iterated,
    /// Threads and fixups.
    Fixups,
    /// Nothing that an object shows.
    Nothing,
}

// what an entry of symbols speaks of, if it is one
fn symbol_class(kind: u8) -> Option<EntryClass>
    ensures { result ≡ classes.symbol_class kind }
{
    if is_kind(PUBDEF, kind) {
        return Some(EntryClass::Publics);
    }
    if is_kind(LPUBDEF, kind) {
        return Some(EntryClass::LocalPublics);
    }
    if is_kind(EXTDEF, kind) {
        return Some(EntryClass::Externals);
    }
    if is_kind(LEXTDEF, kind) {
        return Some(EntryClass::LocalExternals);
    }
    if is_kind(COMDEF, kind) {
        return Some(EntryClass::Communals);
    }
    None
}

// what another entry speaks of
fn other_class(kind: u8) -> EntryClass
    ensures { result ≡ classes.other_class kind }
{
    if is_kind(LEDATA, kind) {
        return EntryClass::Plain;
    }
    if is_kind(LIDATA, kind) {
        return EntryClass::Iterated;
    }
    if is_kind(FIXUPP, kind) {
        return EntryClass::Fixups;
    }
    EntryClass::Nothing
}

/// What an entry of a type speaks of. Constant time.
pub(crate) fn class_of(kind: u8) -> EntryClass
    ensures { result ≡ classes.class_of kind }
{
    if is_kind(LNAMES, kind) {
        return EntryClass::Names;
    }
    if is_kind(SEGDEF, kind) {
        return EntryClass::Segment;
    }
    if is_kind(GRPDEF, kind) {
        return EntryClass::Group;
    }
    match symbol_class(kind) {
        Some(class) => class,
        None => other_class(kind),
    }
}
