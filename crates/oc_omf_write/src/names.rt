//! The names of a file (TIS OMF 1.1, "LNAMES: List of Names Record"; our profile).
ghost use Rattle.std.specs.Prelude.{◌≡◌, ℕ, ◌+◌, ◌^◌, ◌<◌, [], List, length, map, bytes_eq, slice_get, is_some, true, Some, IfOk, OnOk};
ghost use Rattle.std.specs.List.{AllByRecursion};
ghost use Rattle.std.specs.Map.{update};
ghost use Rattle.std.specs.Option.{unwrap_or};
ghost use Rattle.oc_neutral.specs.Omf.Kinds.{omf_class};
ghost use Rattle.oc_neutral.specs.declared.section.Section.{Section as HeldSection};
ghost use Rattle.oc_omf_file.specs.Names.{with_name};
ghost use Rattle.oc_omf_write.specs.Names as texts;

use crate::entries::Entry;
use oc_base::NoMemory;
use oc_neutral::{Kind, Section};
use oc_omf::MOST_ENTRY_BYTES;
use std::alloc::Global;
use std::collections::BTreeMap;

/// A name, by what has it.
#[derive(Clone, Copy, Debug)]
pub(crate) enum Name {
    /// The empty one.
    Empty,
    /// That of the group.
    Flat,
    /// That of the section at a position.
    Section(u32),
    /// The class of the section at a position.
    Class(u32),
}

/// The class that a kind is written with. Constant time.
pub(crate) fn class_of(kind: Kind) -> &'static [u8]
    requires { is_some (omf_class kind) ≡ true }
    ensures { result.now ≡ unwrap_or (omf_class kind) [] }
{
    match kind {
        Kind::Code => b"CODE",
        Kind::ReadOnly => b"CONST",
        Kind::Data => b"DATA",
        Kind::Zero => b"BSS",
        Kind::Init | Kind::Fini | Kind::Debug | Kind::Exception | Kind::Note => unreachable!(),
    }
}

/// The text of a name of these sections. Constant time.
pub(crate) fn text_of(sections: &[Section], name: Name) -> &[u8]
    requires segments { AllByRecursion texts.IsSegment sections.now }
    requires named { texts.IsNameOf (length sections.now) name }
    ensures { result.now ≡ texts.text_by sections.now name }
{
    match name {
        Name::Empty => b"",
        Name::Flat => b"FLAT",
        Name::Section(k) => sections[k as usize].name.as_slice(),
        Name::Class(k) => class_of(sections[k as usize].kind),
    }
}

/// The names of a file.
#[derive(Debug, Drop)]
pub(crate) struct Names<'a> {
    /// In order, each once.
    list: Vec<Name>,
    /// The position of each by its text.
    places: BTreeMap<&'a [u8], usize>,
}

// puts the place of a text
fn put_place<'a>(
    places: &mut BTreeMap<&'a [u8], usize>,
    text: &'a [u8],
    place: usize,
) -> Result<(), NoMemory>
    ensures { OnOk result ((other : List ℕ) → texts.value_at places.new other ≡ update bytes_eq (texts.value_at places.old) text.now (Some place) other) }
{
    places.insert(text, place)?;
    Ok(())
}

// the place of a text, where it has one
fn place_of(places: &BTreeMap<&[u8], usize>, text: &[u8]) -> Option<usize>
    ensures { result ≡ texts.value_at places.now text.now }
{
    places.get(text).copied()
}

impl<'a> Names<'a> {
    // no names
    fn new(alloc: Global) -> Names<'a>
        ensures { (sections : List HeldSection) → texts.AreNames sections [] result }
    {
        Names {
            list: Vec::new(alloc),
            places: BTreeMap::new(alloc),
        }
    }

    // adds a name with its text, where that is new
    fn add(&mut self, name: Name, text: &'a [u8]) -> Result<(), NoMemory>
        ensures { OnOk result ((sections : List HeldSection) (done : List (List ℕ)) → texts.IsNameOf (length sections) name
            → texts.text_by sections name ≡ text.now → texts.AreNames sections done self.old
            → texts.AreNames sections (with_name done text.now) self.new) }
    {
        if place_of(&self.places, text).is_some() {
            return Ok(());
        }
        put_place(&mut self.places, text, self.list.len())?;
        self.list.push(name)?;
        Ok(())
    }

    // adds the empty name and that of the group
    fn add_first(&mut self) -> Result<(), NoMemory>
        ensures { OnOk result ((sections : List HeldSection) → texts.AreNames sections [] self.old → texts.AreUpto sections 0 self.new) }
    {
        self.add(Name::Empty, b"")?;
        self.add(Name::Flat, b"FLAT")?;
        Ok(())
    }

    // adds the name and the class of the section at a position
    fn add_section(&mut self, k: u32, section: &'a Section) -> Result<(), NoMemory>
        requires { texts.IsSegment section.now }
        ensures { OnOk result ((sections : List HeldSection) → slice_get sections k ≡ Some section.now
            → texts.AreUpto sections k self.old → texts.AreUpto sections (k + 1) self.new) }
    {
        self.add(Name::Section(k), section.name.as_slice())?;
        self.add(Name::Class(k), class_of(section.kind))?;
        Ok(())
    }

    /// The names of these sections: the empty one, FLAT, and of each section its name and its class.
    /// `NoMemory` where memory ran out. Linear in the sections and their names, but for looking up
    /// each name among those before it.
    pub(crate) fn of(alloc: Global, sections: &'a [Section]) -> Result<Names<'a>, NoMemory>
        requires few { length sections.now < 2 ^ 32 }
        requires segments { AllByRecursion texts.IsSegment sections.now }
        ensures { IfOk result (texts.AreNames sections.now (texts.names_for sections.now)) }
    {
        let mut names = Names::new(alloc);
        names.add_first()?;
        for k in 0..sections.len() {
            names.add_section(k as u32, &sections[k])?;
        }
        Ok(names)
    }

    /// The index of a text, which is one of these. Time of a look-up among them.
    pub(crate) fn index(&self, text: &[u8]) -> u16
        requires { texts.IsIndexed self.now text.now }
        ensures { (place : ℕ) → texts.value_at self.now.places text.now ≡ Some place → result ≡ place + 1 }
    {
        (place_of(&self.places, text).unwrap() + 1) as u16
    }

    /// The names, in order. Constant time.
    pub(crate) fn into_list(self) -> Vec<Name>
        ensures { result.items ≡ self.entry.list.items }
    {
        self.list
    }
}

/// Adds the entries of these names of sections: each has as many as have room. `NoMemory` where memory
/// ran out. Linear in the names.
pub(crate) fn add_names(
    entries: &mut Vec<Entry>,
    sections: &[Section],
    names: &[Name],
) -> Result<(), NoMemory>
    requires few { length names.now < 2 ^ 32 }
    requires segments { AllByRecursion texts.IsSegment sections.now }
    requires named { AllByRecursion (texts.IsNameOf (length sections.now)) names.now }
    requires short { texts.AreShort (map (texts.text_by sections.now) names.now) }
    ensures { OnOk result (texts.AreAdded (map (texts.text_by sections.now) names.now) entries.old.items entries.new.items) }
{
    let mut from = 0;
    let mut size = 0;
    for k in 0..names.len() {
        let long = 1 + text_of(sections, names[k]).len() as u64;
        if size + long > MOST_ENTRY_BYTES {
            entries.push(Entry::Names { from, to: k as u32 })?;
            from = k as u32;
            size = 0;
        }
        size += long;
    }
    entries.push(Entry::Names {
        from,
        to: names.len() as u32,
    })?;
    Ok(())
}
