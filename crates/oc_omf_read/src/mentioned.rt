//! The symbols of a module, by their mentions.
ghost use Rattle.std.specs.Prelude.{◌≡◌, ◌+◌, ◌-◌, ◌<◌, ◌^◌, ◌++◌, [], ◌∷◌, take, length, false, bytes_eq, None, Some, if◌then◌else◌, ℕ, List, IfOk, OnOk};
ghost use Rattle.std.specs.List.{list_any};
ghost use Rattle.std.specs.Map.{update};
ghost use Rattle.oc_omf.specs.Symbols.{same_symbol};
ghost use Rattle.oc_omf_read.specs.Declarations.{all_declarations};
ghost use Rattle.oc_omf_read.specs.Mentioned as seen;
ghost use Rattle.oc_omf_read.specs.Mentioned.{value_at};

use crate::declarations::{DeclarationKind, DeclarationRef};
use oc_base::NoMemory;
use std::alloc::Global;
use std::collections::BTreeMap;

/// A symbol, with what its mentions say of it.
#[derive(Clone, Copy, Drop)]
pub struct Mentioned<'a> {
    /// Its name.
    pub(crate) name: &'a [u8],
    /// Whether it is of this module alone.
    pub(crate) local: bool,
    /// Where the first definition has it: the index of the segment, and the offset there.
    pub(crate) place: Option<(u16, u32)>,
    /// The length of its first communal, in bytes.
    pub(crate) length: Option<u32>,
}

/// The symbols of a module, in the order of their first mentions, by which they are numbered.
#[derive(Drop)]
pub struct Mentions<'a> {
    /// The number of each symbol of this module alone, by its name.
    pub(crate) locals: BTreeMap<&'a [u8], u32>,
    /// The number of each other symbol, by its name.
    pub(crate) others: BTreeMap<&'a [u8], u32>,
    /// The symbols.
    pub(crate) symbols: Vec<Mentioned<'a>>,
    /// The number of the symbol of each external, of which the first has index 1.
    pub(crate) externals: Vec<u32>,
}

// the number of a name
fn number_in<'a>(numbers: &BTreeMap<&'a [u8], u32>, name: &'a [u8]) -> Option<u32>
    ensures { result ≡ value_at numbers.now name.now }
{
    match numbers.get(&name) {
        Some(number) => Some(*number),
        None => None,
    }
}

// the number of a symbol
fn number_held<'a>(mentions: &Mentions<'a>, local: bool, name: &'a [u8]) -> Option<u32>
    ensures { result ≡ seen.number_held mentions.now (record { local = local; name = name.now }) }
{
    if local {
        number_in(&mentions.locals, name)
    } else {
        number_in(&mentions.others, name)
    }
}

// records the number of a name
fn take_number<'a>(
    numbers: &mut BTreeMap<&'a [u8], u32>,
    name: &'a [u8],
    number: u32,
) -> Result<(), NoMemory>
    ensures { OnOk result ((other : List ℕ) → value_at numbers.new other ≡ update bytes_eq (value_at numbers.old) name.now (Some number) other) }
{
    numbers.insert(name, number)?;
    Ok(())
}

// records the number of a symbol
fn hold_number<'a>(
    mentions: &mut Mentions<'a>,
    local: bool,
    name: &'a [u8],
    number: u32,
) -> Result<(), NoMemory>
    ensures taken { OnOk result (seen.IsNumberTaken mentions.old (record { local = local; name = name.now }) number mentions.new) }
    ensures symbols { OnOk result (mentions.new.symbols ≡ mentions.old.symbols) }
    ensures externals { OnOk result (mentions.new.externals ≡ mentions.old.externals) }
{
    if local {
        take_number(&mut mentions.locals, name, number)?;
        Ok(())
    } else {
        take_number(&mut mentions.others, name, number)?;
        Ok(())
    }
}

// records a symbol that is new
fn add_symbol<'a>(mentions: &mut Mentions<'a>, local: bool, name: &'a [u8]) -> Result<u32, NoMemory>
    requires few { length mentions.old.symbols.items < 2 ^ 32 }
    requires numbered { seen.AreNumbered mentions.old }
    requires new { list_any (same_symbol (record { local = local; name = name.now })) (seen.held mentions.old) ≡ false }
    ensures numbered { OnOk result (seen.AreNumbered mentions.new) }
    ensures number { IfOk result (λ k. seen.number_among (seen.held mentions.new) (record { local = local; name = name.now }) ≡ Some k) }
    ensures symbols { OnOk result (seen.all_seen mentions.new ≡ seen.all_seen mentions.old ++ seen.blank (record { local = local; name = name.now }) ∷ []) }
    ensures externals { OnOk result (mentions.new.externals.items ≡ mentions.old.externals.items) }
{
    let number = mentions.symbols.len() as u32;
    hold_number(mentions, local, name, number)?;
    mentions.symbols.push(Mentioned {
        name,
        local,
        place: None,
        length: None,
    })?;
    Ok(number)
}

// the number of a symbol, which is recorded where it is new
fn number_for<'a>(mentions: &mut Mentions<'a>, local: bool, name: &'a [u8]) -> Result<u32, NoMemory>
    requires few { length mentions.old.symbols.items < 2 ^ 32 }
    requires numbered { seen.AreNumbered mentions.old }
    ensures numbered { OnOk result (seen.AreNumbered mentions.new) }
    ensures number { IfOk result (λ k. seen.number_among (seen.held mentions.new) (record { local = local; name = name.now }) ≡ Some k) }
    ensures symbols { OnOk result (seen.all_seen mentions.new
        ≡ (if list_any (same_symbol (record { local = local; name = name.now })) (seen.held mentions.old) then seen.all_seen mentions.old
        else seen.all_seen mentions.old ++ seen.blank (record { local = local; name = name.now }) ∷ [])) }
    ensures externals { OnOk result (mentions.new.externals.items ≡ mentions.old.externals.items) }
{
    match number_held(mentions, local, name) {
        Some(number) => Ok(number),
        None => {
            let number = add_symbol(mentions, local, name)?;
            Ok(number)
        }
    }
}

// records what a declaration says of its symbol
fn say(symbol: &mut Mentioned, says: DeclarationKind)
    ensures { seen.seen_of symbol.new ≡ seen.seen_more says (seen.seen_of symbol.old) }
{
    match says {
        DeclarationKind::Defined { segment, offset } => {
            symbol.place = symbol.place.or(Some((segment, offset)));
        }
        DeclarationKind::Communal { length } => {
            symbol.length = symbol.length.or(Some(length));
        }
        DeclarationKind::External => {}
    }
}

// records declaration `i`
fn take_declaration<'a>(
    mentions: &mut Mentions<'a>,
    declarations: &[DeclarationRef<'a>],
    i: usize,
) -> Result<(), NoMemory>
    requires few { length declarations.now < 2 ^ 31 - 1 }
    requires there { i < length declarations.now }
    requires before { seen.HasDeclarations (all_declarations (take i declarations.now)) mentions.old }
    ensures { OnOk result (seen.HasDeclarations (all_declarations (take (i + 1) declarations.now)) mentions.new) }
{
    let told = declarations[i];
    let number = number_for(mentions, told.local, told.name)?;
    say(&mut mentions.symbols[number as usize], told.says);
    match told.says {
        DeclarationKind::Defined { .. } => Ok(()),
        DeclarationKind::External => {
            mentions.externals.push(number)?;
            Ok(())
        }
        DeclarationKind::Communal { .. } => {
            mentions.externals.push(number)?;
            Ok(())
        }
    }
}

/// The symbols of a module with these declarations. `NoMemory` where memory ran out. The time is that of
/// a look into a sorted map for each mention, whoever chose the names.
pub(crate) fn mentions_of<'a>(
    alloc: Global,
    declarations: &[DeclarationRef<'a>],
) -> Result<Mentions<'a>, NoMemory>
    requires { length declarations.now < 2 ^ 31 - 1 }
    ensures { IfOk result (λ mentions. seen.HasDeclarations (all_declarations declarations.now) mentions) }
{
    let mut mentions = Mentions {
        locals: BTreeMap::new(alloc),
        others: BTreeMap::new(alloc),
        symbols: Vec::new(alloc),
        externals: Vec::new(alloc),
    };
    for i in 0..declarations.len() {
        take_declaration(&mut mentions, declarations, i)?;
    }
    Ok(mentions)
}
