//! What hints say of edits.
ghost use Rattle.std.specs.Prelude.{◌≡◌, ◌&&◌, not};
ghost use Rattle.std.specs.List.{list_any};
ghost use Rattle.oc_hints.specs.Case.{case_of};
ghost use Rattle.oc_hints.specs.Files as files;
ghost use Rattle.oc_names.specs.Matching as matching;
ghost use Rattle.oc_names.specs.NewNames as names;

use crate::key::EditKey;
use crate::subject::Subject;
use oc_drop::is_local;
use oc_names::Edit;
use oc_neutral::Symbol;

/// The name that the edit speaks of; none where it is about underscores. Constant time.
pub(crate) fn name_of(edit: &Edit) -> &[u8]
    ensures { result.now ≡ files.name_of edit.now }
{
    match edit {
        Edit::Rename { from, .. } => from.as_slice(),
        Edit::Prefix { from, .. } => from.as_slice(),
        Edit::Suffix { from, .. } => from.as_slice(),
        Edit::Alias { from, .. } => from.as_slice(),
        Edit::AliasPrefix { from, .. } => from.as_slice(),
        Edit::AliasSuffix { from, .. } => from.as_slice(),
        Edit::Weaken { name } => name.as_slice(),
        Edit::MakeLocal { name } => name.as_slice(),
        Edit::Underscore => &[],
    }
}

// whether the edit is about a symbol of this name
fn speaks_of(name: &[u8], edit: &Edit) -> bool
    ensures { result ≡ files.speaks_of name.now edit.now }
{
    match edit {
        Edit::Rename { from, .. } => name == from.as_slice(),
        Edit::Prefix { from, .. } => name.starts_with(from.as_slice()),
        Edit::Suffix { from, .. } => name.ends_with(from.as_slice()),
        Edit::Alias { from, .. } => name == from.as_slice(),
        Edit::AliasPrefix { from, .. } => name.starts_with(from.as_slice()),
        Edit::AliasSuffix { from, .. } => name.ends_with(from.as_slice()),
        Edit::Weaken { name: of } => name == of.as_slice(),
        Edit::MakeLocal { name: of } => name == of.as_slice(),
        Edit::Underscore => true,
    }
}

// whether the edit meets a symbol
fn meets_symbol(edit: &Edit, symbol: &Symbol) -> bool
    ensures { result ≡ files.meets_symbol edit.now symbol.now }
{
    !is_local(symbol.binding) && speaks_of(symbol.name.as_slice(), edit)
}

// whether the edit meets one of the symbols
fn meets_any(edit: &Edit, symbols: &[Symbol]) -> bool
    ensures { result ≡ list_any (files.meets_symbol edit.now) symbols.now }
{
    for symbol in symbols {
        if meets_symbol(edit, symbol) {
            return true;
        }
    }
    false
}

// whether the edit is about underscores
fn is_underscore(edit: &Edit) -> bool
    ensures { result ≡ names.is_underscore edit.now }
{
    matches!(edit, Edit::Underscore)
}

// whether the edit gives further symbols
fn is_alias(edit: &Edit) -> bool
    ensures { result ≡ matching.is_alias edit.now }
{
    matches!(
        edit,
        Edit::Alias { .. } | Edit::AliasPrefix { .. } | Edit::AliasSuffix { .. }
    )
}

// whether the edit changes the names of symbols that are there
fn changes_names(edit: &Edit) -> bool
    ensures { result ≡ files.changes_names edit.now }
{
    matches!(
        edit,
        Edit::Rename { .. } | Edit::Prefix { .. } | Edit::Suffix { .. } | Edit::Underscore
    )
}

// whether one of the edits changes the names of symbols that are there
fn one_changes_names(edits: &[Edit]) -> bool
    ensures { result ≡ list_any files.changes_names edits.now }
{
    edits.iter().any(changes_names)
}

/// Whether the key is about the edits together. Linear in them.
pub(crate) fn concerns_edits(key: EditKey, subject: &Subject) -> bool
    ensures { result ≡ files.concerns_edits key (case_of subject.now) }
{
    match key {
        EditKey::WithoutEffect => true,
        EditKey::FinalName => one_changes_names(subject.edits.as_slice()),
    }
}

/// Whether the key is about an edit. Time is that of a comparison with each name.
pub(crate) fn edit_meets(key: EditKey, subject: &Subject, edit: &Edit) -> bool
    ensures { result ≡ files.edit_meets key (case_of subject.now) edit.now }
{
    match key {
        EditKey::WithoutEffect => {
            !is_underscore(edit) && !meets_any(edit, subject.input.symbols())
        }
        EditKey::FinalName => is_alias(edit),
    }
}
