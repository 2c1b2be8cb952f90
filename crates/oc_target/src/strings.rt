//! The names that are given to the string table of a COFF output (PE/COFF, "COFF String Table"; our
//! profile): for the table that is written, and for where the names of sections would lie in it.
ghost use Rattle.std.specs.Prelude.{◌≡◌, ◌++◌, [], ◌∷◌, IfOk, OnOk, filter, flat_map, if◌then◌else◌, List, ℕ};
ghost use Rattle.std.specs.List.{list_any};
ghost use Rattle.std.specs.Option.{option_and_then};
ghost use Rattle.oc_shows.specs.SymbolLines.{is_weak_with};
ghost use Rattle.oc_strings.specs.Tables.{texts};
ghost use Rattle.oc_neutral.specs.declared.symbol.Symbol.{Symbol as HeldSymbol};
ghost use Rattle.oc_neutral.specs.Coff.Strings as strings;
ghost use Rattle.oc_neutral.specs.Families.{family_of};
ghost use Rattle.oc_neutral.specs.Faces as faces;
ghost use Rattle.oc_neutral.specs.KeySymbols as keys;
ghost use Rattle.oc_target.specs.Found.{held};
ghost use Rattle.oc_target.specs.Places.{HasPlace, HavePlaces};
ghost use Rattle.oc_target.specs.Strings.{all_key_strings, local_strings, other_strings};

use crate::keys::{group_at, is_marked, is_unkeyed, key_of, keyed_sections};
use crate::locals::is_written_local;
use oc_base::{Bytes, Format, NoMemory};
use oc_neutral::{Binding, Fallback, Neutral, Symbol};
use std::alloc::Global;

/// The length of the longest name that is stored in an entry itself (PE/COFF, "Symbol Name
/// Representation").
const MOST_SHORT: usize = 8;

/// Whether the name has no room in an entry of COFF. Constant time.
pub fn is_long_name(name: &[u8]) -> bool
    ensures { result ≡ strings.is_long name.now }
{
    name.len() > MOST_SHORT
}

/// Whether the name of a section is in the string table of COFF: it is long, or would be read as an
/// offset there. Constant time.
pub fn is_tabled(name: &[u8]) -> bool
    ensures { result ≡ strings.is_tabled name.now }
{
    is_long_name(name) || name.starts_with(b"/")
}

/// Whether a symbol with this binding has another one in COFF for its fallback. Constant time.
pub fn needs_default(binding: Binding) -> bool
    ensures needed { result ≡ is_weak_with strings.has_default binding }
    ensures names { (name : List ℕ) → strings.defaults_of name binding ≡ (if result then strings.default_name name ∷ [] else []) }
{
    match binding {
        Binding::Weak(Fallback::Place { .. } | Fallback::Zero) => true,
        Binding::Weak(Fallback::Name(_))
        | Binding::Local(_)
        | Binding::Global(_)
        | Binding::Undefined
        | Binding::Common { .. } => false,
    }
}

/// The name of the symbol for the fallback of a Weak of that name. `NoMemory` where memory ran out.
/// Linear in the name.
pub fn default_name(alloc: Global, name: &[u8]) -> Result<Bytes, NoMemory>
    ensures { IfOk result (λ made. made ≡ strings.default_name name.now) }
{
    let mut bytes = Vec::new(alloc);
    bytes.extend_from_slice(b".weak.")?;
    bytes.extend_from_slice(name)?;
    bytes.extend_from_slice(b".default")?;
    Ok(Bytes::from_vec(bytes))
}

// adds the name of the symbol for the fallback of a symbol, where it needs one
fn add_default(alloc: Global, names: &mut Vec<Bytes>, symbol: &Symbol) -> Result<(), NoMemory>
    ensures { OnOk result (names.new.items ≡ names.old.items ++ strings.defaults_of symbol.now.name symbol.now.binding) }
{
    if needs_default(symbol.binding) {
        names.push(default_name(alloc, symbol.name.as_slice())?)?;
    }
    Ok(())
}

/// The names of the symbols for fallbacks, in the order of their Weaks. `NoMemory` where memory ran
/// out. Time is linear in the symbols and their names.
pub fn default_names(alloc: Global, neutral: &Neutral) -> Result<Vec<Bytes>, NoMemory>
    ensures { IfOk result (λ names. names.items ≡ flat_map (λ (s : HeldSymbol). strings.defaults_of s.name s.binding) neutral.now.symbols) }
{
    let mut names = Vec::new(alloc);
    for k in 0..neutral.symbol_count() {
        add_default(alloc, &mut names, neutral.symbol(k))?;
    }
    Ok(names)
}

// gives a name, where it is long
fn give_long<'a>(given: &mut Vec<&'a [u8]>, name: &'a [u8]) -> Result<(), NoMemory>
    ensures { OnOk result (texts given.new.items ≡ texts given.old.items ++ filter strings.is_long (name.now ∷ [])) }
{
    if is_long_name(name) {
        given.push(name)?;
    }
    Ok(())
}

// gives a name that is wanted, where it is long
fn give_wanted<'a>(given: &mut Vec<&'a [u8]>, name: &'a [u8], wanted: bool) -> Result<(), NoMemory>
    ensures { OnOk result (texts given.new.items ≡ texts given.old.items ++ (if wanted then filter strings.is_long (name.now ∷ []) else [])) }
{
    if wanted {
        give_long(given, name)?;
    }
    Ok(())
}

// gives the name of a section, if it is in the table, and returns its place
fn give_section<'a>(given: &mut Vec<&'a [u8]>, name: &'a [u8]) -> Result<Option<usize>, NoMemory>
    ensures given { OnOk result (texts given.new.items ≡ texts given.old.items ++ filter strings.is_tabled (name.now ∷ [])) }
    ensures place { IfOk result (λ place. HasPlace (texts given.new.items) name.now place) }
{
    if !is_tabled(name) {
        return Ok(None);
    }
    let place = given.len();
    given.push(name)?;
    Ok(Some(place))
}

// the key of the group of the section at a position, where there is one
fn key_at(neutral: &Neutral, section: u32) -> Option<&[u8]>
    ensures { held result ≡ option_and_then (faces.key_of neutral.now.groups) (keys.group_at neutral.now section) }
{
    key_of(neutral, group_at(neutral, section)?)
}

// gives the name of the key symbol of a section's group, where the symbol lies in the section and its
// name is long
fn give_key<'a>(
    given: &mut Vec<&'a [u8]>,
    neutral: &'a Neutral,
    section: u32,
    keyed: bool,
) -> Result<(), NoMemory>
    requires { keyed ≡ list_any (keys.is_key_at neutral.now section) neutral.now.symbols }
    ensures { OnOk result (texts given.new.items ≡ texts given.old.items ++ strings.key_strings neutral.now section) }
{
    neutral.is_object();
    if !keyed {
        return Ok(());
    }
    match key_at(neutral, section) {
        Some(key) => give_long(given, key),
        None => Ok(()),
    }
}

// gives the names of the sections that are in the table, and returns their places
fn give_sections<'a>(
    alloc: Global,
    given: &mut Vec<&'a [u8]>,
    names: &'a [Bytes],
) -> Result<Vec<Option<usize>>, NoMemory>
    ensures given { OnOk result (texts given.new.items ≡ texts given.old.items ++ filter strings.is_tabled names.now) }
    ensures places { IfOk result (λ places. HavePlaces (texts given.new.items) names.now places.items) }
{
    let mut places = Vec::new(alloc);
    for name in names {
        let place = give_section(given, name.as_slice())?;
        places.push(place)?;
    }
    Ok(places)
}

// gives the long names of the key symbols, each for the section in which it lies
fn give_keys<'a>(
    alloc: Global,
    given: &mut Vec<&'a [u8]>,
    neutral: &'a Neutral,
) -> Result<(), NoMemory>
    ensures { OnOk result (texts given.new.items ≡ texts given.old.items ++ all_key_strings neutral.now) }
{
    let keyed = keyed_sections(alloc, neutral)?;
    for k in 0..neutral.section_count() {
        give_key(given, neutral, k, is_marked(&keyed, k as usize))?;
    }
    Ok(())
}

// gives the long names of the Locals that are written
fn give_locals<'a>(
    alloc: Global,
    given: &mut Vec<&'a [u8]>,
    target: Format,
    neutral: &'a Neutral,
) -> Result<(), NoMemory>
    ensures { OnOk result (texts given.new.items ≡ texts given.old.items ++ local_strings target neutral.now) }
{
    for k in 0..neutral.symbol_count() {
        let symbol = neutral.symbol(k);
        let wanted = is_written_local(alloc, target, symbol)?;
        give_wanted(given, symbol.name.as_slice(), wanted)?;
    }
    Ok(())
}

// gives the long ones of these names
fn give_all<'a>(given: &mut Vec<&'a [u8]>, names: &'a [Bytes]) -> Result<(), NoMemory>
    ensures { OnOk result (texts given.new.items ≡ texts given.old.items ++ filter strings.is_long names.now) }
{
    for name in names {
        give_long(given, name.as_slice())?;
    }
    Ok(())
}

// gives the long names of the symbols that are not Local, but for key symbols
fn give_others<'a>(given: &mut Vec<&'a [u8]>, neutral: &'a Neutral) -> Result<(), NoMemory>
    ensures { OnOk result (texts given.new.items ≡ texts given.old.items ++ other_strings neutral.now) }
{
    for k in 0..neutral.symbol_count() {
        let symbol = neutral.symbol(k);
        let wanted = is_unkeyed(neutral, symbol);
        give_wanted(given, symbol.name.as_slice(), wanted)?;
    }
    Ok(())
}

/// The names that are given to a string table, and where those of the sections are among them.
#[derive(Drop)]
pub struct TableNames<'a> {
    /// The names in the order in which they are given.
    pub names: Vec<&'a [u8]>,
    /// For each section the place of its name among them, where it is given.
    pub places: Vec<Option<usize>>,
}

/// What is given to the string table of a COFF output whose sections have these names, and whose
/// fallbacks have these. `NoMemory` where memory ran out. Time is linear in the symbols and names.
pub fn given_names<'a>(
    alloc: Global,
    target: Format,
    neutral: &'a Neutral,
    names: &'a [Bytes],
    defaults: &'a [Bytes],
) -> Result<TableNames<'a>, NoMemory>
    requires defaults { defaults.now ≡ flat_map (λ (s : HeldSymbol). strings.defaults_of s.name s.binding) neutral.now.symbols }
    ensures names { IfOk result (λ given. texts given.names.items ≡ strings.coff_strings (family_of target).writes_local names.now neutral.now) }
    ensures places { IfOk result (λ given. HavePlaces (texts given.names.items) names.now given.places.items) }
{
    let mut given = Vec::new(alloc);
    let places = give_sections(alloc, &mut given, names)?;
    give_keys(alloc, &mut given, neutral)?;
    give_locals(alloc, &mut given, target, neutral)?;
    give_all(&mut given, defaults)?;
    give_others(&mut given, neutral)?;
    Ok(TableNames {
        names: given,
        places,
    })
}
