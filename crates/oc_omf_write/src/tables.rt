//! What a file is made of, and the contents of its entries.
ghost use Rattle.std.specs.Prelude.{◌≡◌, ◌+◌, ◌*◌, ◌<◌, ◌≤◌, ◌++◌, [], length, map, flat_map, slice_get, slice_range, Some};
ghost use Rattle.std.specs.List.{AllByRecursion};
ghost use Rattle.oc_neutral.specs.declared.section.Section.{Section as HeldSection};
ghost use Rattle.oc_omf_file.specs.Canonical.{size_by};
ghost use Rattle.oc_omf_file.specs.Names.{names_size};
ghost use Rattle.oc_omf.specs.Bytes.{communal_bytes, name_bytes};
ghost use Rattle.oc_omf.specs.declared.contents.TheConstants.{ROOM};
ghost use Rattle.oc_omf_write.specs.declared.entries.Entry.TheVariants as entry;
ghost use Rattle.oc_omf_write.specs.Names as texts;
ghost use Rattle.oc_omf_write.specs.Tables as tables;
ghost use Rattle.oc_omf_write.specs.Written.{fixup_bytes_of, IsSmallFixup};

use crate::entries::Entry;
use crate::fixups::{Fixup, global_place};
use crate::names::{Name, text_of};
use crate::pieces::fixups_between;
use oc_neutral::{Binding, Section, Symbol};
use oc_omf::{
    Contents, PublicBase, Segment, put_communal, put_data, put_external, put_fixup, put_public,
    put_segment,
};

/// The name of the module: that of this program.
const MODULE: &[u8] = b"objconv";

/// What a file is made of.
#[derive(Debug, Drop)]
pub(crate) struct WrittenTables {
    /// The sections, with the numbers in their fields.
    pub(crate) sections: Vec<Section>,
    /// Their segments.
    pub(crate) segments: Vec<Segment>,
    /// The names of segments, classes and the group.
    pub(crate) names: Vec<Name>,
    /// The symbols.
    pub(crate) symbols: Vec<Symbol>,
    /// The fixups of each section, in order of offset.
    pub(crate) fixups: Vec<Vec<Fixup>>,
}

// the names from a position up to another
fn names_between(names: &[Name], from: u32, to: u32) -> &[Name]
    requires order { from ≤ to }
    requires inside { to ≤ length names.now }
    ensures { result.now ≡ slice_range names.now from to }
{
    &names[from as usize..to as usize]
}

// the bytes from an offset up to another
fn bytes_between(bytes: &[u8], from: u32, to: u32) -> &[u8]
    requires order { from ≤ to }
    requires inside { to ≤ length bytes.now }
    ensures { result.now ≡ slice_range bytes.now from to }
{
    &bytes[from as usize..to as usize]
}

// puts these names of sections
fn put_names(out: &mut Contents, sections: &[Section], names: &[Name])
    requires segments { AllByRecursion texts.IsSegment sections.now }
    requires named { AllByRecursion (texts.IsNameOf (length sections.now)) names.now }
    requires short { texts.AreShort (map (texts.text_by sections.now) names.now) }
    requires room { length out.old + names_size (map (texts.text_by sections.now) names.now) ≤ ROOM }
    ensures { out.new ≡ out.old ++ flat_map name_bytes (map (texts.text_by sections.now) names.now) }
{
    for name in names {
        out.put_name(text_of(sections, *name));
    }
}

// puts the fixup of a field of data that begin at `from`
fn put_field(out: &mut Contents, from: u32, fixup: &Fixup)
    requires small { IsSmallFixup from fixup.now }
    requires room { length out.old + 7 ≤ ROOM }
    ensures { out.new ≡ out.old ++ fixup_bytes_of from fixup.now }
{
    let at = fixup.at - from;
    put_fixup(out, fixup.self_relative, at, fixup.frame, fixup.target);
}

// puts the fixups of data that begin at `from`
fn put_fixups(out: &mut Contents, from: u32, fixups: &[Fixup])
    requires small { AllByRecursion (IsSmallFixup from) fixups.now }
    requires room { length out.old + 7 * length fixups.now ≤ ROOM }
    ensures { out.new ≡ out.old ++ flat_map (fixup_bytes_of from) fixups.now }
{
    for fixup in fixups {
        put_field(out, from, fixup);
    }
}

// puts a communal
fn put_common(out: &mut Contents, symbol: &Symbol)
    requires small { tables.IsSmallCommunal symbol.now }
    requires room { length out.old + 263 ≤ ROOM }
    ensures { out.new ≡ out.old ++ communal_bytes symbol.now.name (size_by symbol.now.binding) }
{
    let Binding::Common { size, .. } = symbol.binding else {
        unreachable!();
    };
    put_communal(out, symbol.name.as_slice(), size as u32);
}

// puts a symbol at its place: it lies in group 1, which is FLAT, and in its segment
fn put_symbol(out: &mut Contents, symbol: &Symbol)
    requires small { tables.IsSmallPublic symbol.now }
    requires room { length out.old + 265 ≤ ROOM }
    ensures { out.new ≡ out.old ++ tables.public_by symbol.now }
{
    let (section, offset) = global_place(symbol.binding).unwrap();
    let base = PublicBase {
        group: 1,
        segment: (section + 1) as u16,
    };
    put_public(out, base, symbol.name.as_slice(), offset);
}

impl WrittenTables {
    // puts the names from a position up to another
    fn put_names(&self, out: &mut Contents, from: u32, to: u32)
        requires sound { tables.AreSound self.now }
        requires range { texts.IsRange (length (tables.texts_of self.now)) (from, to) }
        requires room { length out.old + names_size (slice_range (tables.texts_of self.now) from to) ≤ ROOM }
        ensures { out.new ≡ out.old ++ flat_map name_bytes (slice_range (tables.texts_of self.now) from to) }
    {
        put_names(out, &self.sections, names_between(&self.names, from, to));
    }

    // puts bytes of the section at a position
    fn put_bytes(&self, out: &mut Contents, section: u32, from: u32, to: u32)
        requires there { tables.IsAt (tables.IsPieceOf section from to) self.now.sections.items section }
        requires room { length out.old + 1030 ≤ ROOM }
        ensures { (s : HeldSection) → slice_get self.now.sections.items section ≡ Some s → out.new ≡ out.old ++ tables.piece_bytes section from to s }
    {
        let bytes = self.sections[section as usize].bytes.as_slice();
        put_data(
            out,
            (section + 1) as u16,
            from,
            bytes_between(bytes, from, to),
        );
    }

    // puts the fixups of bytes of the section at a position
    fn put_fixups(&self, out: &mut Contents, section: u32, from: u32, to: u32)
        requires sound { tables.AreSound self.now }
        requires there { tables.CanPut self.now (entry.Fixups section from to) }
        requires room { length out.old + 1792 ≤ ROOM }
        ensures { out.new ≡ out.old ++ tables.contents_by self.now (entry.Fixups section from to) }
    {
        let fixups = fixups_between(&self.fixups[section as usize], from, to);
        put_fixups(out, from, fixups);
    }

    // the symbol at a position
    fn symbol(&self, k: u32) -> &Symbol
        requires { k < length self.now.symbols.items }
        ensures { slice_get self.now.symbols.items k ≡ Some result.now }
    {
        &self.symbols[k as usize]
    }

    // the segment at a position
    fn segment(&self, k: u32) -> &Segment
        requires { k < length self.now.segments.items }
        ensures { slice_get self.now.segments.items k ≡ Some result.now }
    {
        &self.segments[k as usize]
    }

    // puts the contents of an entry where nothing is yet
    fn put(&self, out: &mut Contents, entry: Entry)
        requires empty { out.old ≡ [] }
        requires sound { tables.AreSound self.now }
        requires fits { tables.CanPut self.now entry }
        ensures { out.new ≡ tables.contents_by self.now entry }
    {
        match entry {
            Entry::Header => out.put_name(MODULE),
            Entry::Names { from, to } => self.put_names(out, from, to),
            Entry::Segment(k) => put_segment(out, self.segment(k)),
            Entry::Group => out.put_index(2),
            Entry::External(k) => put_external(out, self.symbol(k).name.as_slice()),
            Entry::Communal(k) => put_common(out, self.symbol(k)),
            Entry::Public(k) => put_symbol(out, self.symbol(k)),
            Entry::Data { section, from, to } => self.put_bytes(out, section, from, to),
            Entry::Fixups { section, from, to } => self.put_fixups(out, section, from, to),
            Entry::End => out.put_u8(0),
        }
    }

    /// The contents of an entry. Linear in them, but for the logarithm of a section's fixups.
    pub(crate) fn contents(&self, entry: Entry) -> Contents
        requires sound { tables.AreSound self.now }
        requires fits { tables.CanPut self.now entry }
        ensures { result ≡ tables.contents_by self.now entry }
    {
        let mut out = Contents::new();
        self.put(&mut out, entry);
        out
    }
}
