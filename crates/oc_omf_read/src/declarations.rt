//! The declarations of symbols, one after the other.
ghost use Rattle.std.specs.Prelude.{◌≡◌, length, false, IfOk, OnOk};
ghost use Rattle.oc_omf.specs.Cursor.{each_read};
ghost use Rattle.oc_omf.specs.Entries.{entries_in};
ghost use Rattle.oc_omf.specs.Structures.{communal_read, external_read, public_read};
ghost use Rattle.oc_omf_read.specs.Defined.{said};
ghost use Rattle.oc_omf_read.specs.Declarations as specs;

use crate::class::{EntryClass, class_of};
use oc_base::{NoMemory, View};
use oc_omf::{Module, is_wide, read_base, read_communal, read_external, read_public};
use oc_omf_records::Entry;
use std::alloc::Global;

/// What a declaration says of its symbol.
#[derive(Clone, Copy, Debug, PartialEq, Eq)]
pub enum DeclarationKind {
    /// It is defined at an offset of a segment, which is given by its index.
    Defined {
        /// The index of the segment.
        segment: u16,
        /// The offset, in bytes.
        offset: u32,
    },
    /// It is an external.
    External,
    /// It is a communal.
    Communal {
        /// Its length, in bytes.
        length: u32,
    },
}

/// A declaration of a symbol.
#[derive(Clone, Copy, Drop)]
pub struct DeclarationRef<'a> {
    /// The name of the symbol.
    pub(crate) name: &'a [u8],
    /// Whether the symbol is of this module alone.
    pub(crate) local: bool,
    /// What the mention says of it.
    pub(crate) says: DeclarationKind,
}

// records the definitions from a place of the contents on, in that segment
fn declare_publics_at<'a>(
    declarations: &mut Vec<DeclarationRef<'a>>,
    contents: &View<'a>,
    wide: bool,
    local: bool,
    segment: u16,
    start: u64,
) -> Result<(), NoMemory>
    ensures { OnOk result (specs.AreDeclared declarations.old.items
        (specs.of_publics (each_read (public_read wide local segment) contents.now start)) declarations.new.items) }
{
    let mut at = start;
    while at < contents.len() {
        match read_public(contents, wide, at) {
            Ok((public, after)) => {
                let says = DeclarationKind::Defined {
                    segment,
                    offset: public.offset,
                };
                declarations.push(DeclarationRef {
                    name: public.name,
                    local,
                    says,
                })?;
                at = after;
            }
            Err(_) => at = contents.len(),
        }
    }
    Ok(())
}

// records the definitions of an entry
fn declare_publics<'a>(
    declarations: &mut Vec<DeclarationRef<'a>>,
    contents: &View<'a>,
    wide: bool,
    local: bool,
) -> Result<(), NoMemory>
    ensures { OnOk result (specs.AreDeclared declarations.old.items (specs.public_declarations wide local contents.now) declarations.new.items) }
{
    match read_base(contents) {
        Ok((base, at)) => declare_publics_at(declarations, contents, wide, local, base.segment, at),
        Err(_) => Ok(()),
    }
}

// records the externals of an entry
fn declare_externals<'a>(
    declarations: &mut Vec<DeclarationRef<'a>>,
    contents: &View<'a>,
    local: bool,
) -> Result<(), NoMemory>
    ensures { OnOk result (specs.AreDeclared declarations.old.items
        (specs.of_externals (each_read (external_read local) contents.now 0)) declarations.new.items) }
{
    let mut at = 0;
    while at < contents.len() {
        match read_external(contents, at) {
            Ok((name, after)) => {
                let says = DeclarationKind::External;
                declarations.push(DeclarationRef { name, local, says })?;
                at = after;
            }
            Err(_) => at = contents.len(),
        }
    }
    Ok(())
}

// records the communals of an entry
fn declare_communals<'a>(
    declarations: &mut Vec<DeclarationRef<'a>>,
    contents: &View<'a>,
) -> Result<(), NoMemory>
    ensures { OnOk result (specs.AreDeclared declarations.old.items
        (specs.of_externals (each_read communal_read contents.now 0)) declarations.new.items) }
{
    let mut at = 0;
    while at < contents.len() {
        match read_communal(contents, at) {
            Ok(((name, communal), after)) => {
                let says = DeclarationKind::Communal {
                    length: communal.length,
                };
                declarations.push(DeclarationRef {
                    name,
                    local: false,
                    says,
                })?;
                at = after;
            }
            Err(_) => at = contents.len(),
        }
    }
    Ok(())
}

// records the declarations of an entry
fn declare_entry<'a>(
    declarations: &mut Vec<DeclarationRef<'a>>,
    entry: &Entry<'a>,
) -> Result<(), NoMemory>
    ensures { OnOk result (specs.AreDeclared declarations.old.items (specs.declarations_by (said entry.now)) declarations.new.items) }
{
    let wide = is_wide(entry.kind);
    match class_of(entry.kind) {
        EntryClass::Publics => declare_publics(declarations, &entry.contents, wide, false),
        EntryClass::LocalPublics => declare_publics(declarations, &entry.contents, wide, true),
        EntryClass::Externals => declare_externals(declarations, &entry.contents, false),
        EntryClass::LocalExternals => declare_externals(declarations, &entry.contents, true),
        EntryClass::Communals => declare_communals(declarations, &entry.contents),
        EntryClass::Names
        | EntryClass::Segment
        | EntryClass::Group
        | EntryClass::Plain
        | EntryClass::Iterated
        | EntryClass::Fixups
        | EntryClass::Nothing => Ok(()),
    }
}

/// The declarations of symbols in a module. `NoMemory` where memory ran out. Linear in the module.
pub(crate) fn declared_in<'a>(
    alloc: Global,
    omf: &Module<'a>,
) -> Result<Vec<DeclarationRef<'a>>, NoMemory>
    ensures { IfOk result (λ declarations. specs.all_declarations declarations.items ≡ specs.declarations_in (entries_in omf.now)) }
{
    let mut declarations = Vec::new(alloc);
    for i in 0..omf.count() {
        let entry = omf.entry(i);
        declare_entry(&mut declarations, &entry)?;
    }
    Ok(declarations)
}
