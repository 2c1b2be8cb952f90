//! The entries of the symbol table (PE/COFF, "COFF Symbol Table" and "Auxiliary Symbol Records").
ghost use Rattle.std.specs.Prelude.{◌≡◌, ◌+◌, ◌^◌, ◌<◌, ℕ, List, IfOk, IfSome, OnOk, Some, None, true, length, slice_get, slice_index_or};
ghost use Rattle.oc_coff_write.specs.FormFor.{form_for};
ghost use Rattle.oc_coff.specs.declared.form.CoffForm.{CoffForm};
ghost use Rattle.oc_linking.specs.declared.terms.Binding.TheVariants.{Weak};
ghost use Rattle.oc_chains.specs.Lists.{list_of};
ghost use Rattle.oc_linking.specs.Parts.{is_local};
ghost use Rattle.oc_linking.specs.declared.terms.Fallback.{Fallback};
ghost use Rattle.oc_neutral.specs.Coff.Strings as strings;
ghost use Rattle.oc_neutral.specs.Families.{container_of};
ghost use Rattle.oc_neutral.specs.Family.{IsCoff};
ghost use Rattle.oc_target.specs.Fitted.{IsFitted};
ghost use Rattle.oc_neutral.specs.Objects.{Object};
ghost use Rattle.oc_neutral.specs.declared.section.Section.{Section as HeldSection};
ghost use Rattle.oc_shelf.specs.Writing.Parts.{Laid};
ghost use Rattle.oc_coff_file.specs.Canonical as canonical;
ghost use Rattle.oc_coff_file.specs.Canonical.{entry_rows, line_entry, tag_of};
ghost use Rattle.oc_coff.specs.Values as values;
ghost use Rattle.oc_coff_file.specs.Lines as coff_lines;
ghost use Rattle.oc_coff_write.specs.Entries.{AreAdded, entry_bytes, IsMadeOf, IsSectionAux, rows_in};
ghost use Rattle.oc_coff_write.specs.Keys.{AreLeaders, key_position, leader_position};
ghost use Rattle.oc_coff_write.specs.Lines.{line_in, AreLines, IsAmongLines};
ghost use Rattle.oc_coff_write.specs.Numbers.{IsNumbered, HasTag};
ghost use Rattle.oc_coff_write.specs.Strings.{Holds, HoldsSymbolName, table_for};
ghost use Rattle.oc_coff.specs.Values.{HasRoom};

use crate::lines::Line;
use crate::name_cursor::NameCursor;
use crate::names::symbol_field;
use crate::numbers::Numbers;
use oc_base::NoMemory;
use oc_coff::{
    IMAGE_COMDAT_SELECT_ANY, IMAGE_COMDAT_SELECT_ASSOCIATIVE, IMAGE_SYM_CLASS_STATIC,
    IMAGE_WEAK_EXTERN_SEARCH_ALIAS, SectionAux, Shape, SymbolEntry, WeakAux, aux_by, class_by,
    header_count, of_binding, of_default, pack_section_aux, pack_symbol, pack_weak_aux, type_by,
};
use oc_neutral::{Binding, Neutral, Section, Symbol};
use oc_shelf::Packed;
use oc_strings::Table;
use oc_target::default_name;
use std::alloc::Global;

/// An entry of the symbol table.
#[derive(Clone, Copy, Debug)]
pub(crate) enum Entry {
    /// A symbol.
    Symbol(SymbolEntry),
    /// The auxiliary entry of a section's symbol.
    SectionAux(SectionAux),
    /// The auxiliary entry of a weak external.
    WeakAux(WeakAux),
}

/// What is made of an object before its entries.
#[derive(Clone, Copy)]
pub(crate) struct EntryInputs<'a> {
    /// For each section the position of the key symbol that lies in it.
    pub(crate) keys: &'a [Option<u32>],
    /// For each group the position of the section that leads it.
    pub(crate) leaders: &'a [Option<u32>],
    /// The string table.
    pub(crate) names: &'a Table,
    /// The numbers of the lines.
    pub(crate) numbers: &'a Numbers,
}

/// The bytes of an entry in a file of that shape. Constant time.
pub(crate) fn pack_entry(shape: Shape, entry: &Entry) -> Packed
    ensures { result ≡ entry_bytes shape entry.now }
{
    match entry {
        Entry::Symbol(symbol) => pack_symbol(shape, symbol),
        Entry::SectionAux(aux) => pack_section_aux(shape, aux),
        Entry::WeakAux(aux) => pack_weak_aux(shape, aux),
    }
}

// the entry of the symbol of the section at a position
fn section_entry(names: &Table, near: usize, position: u32, section: &Section) -> SymbolEntry
    requires held { HoldsSymbolName names.now section.now.name }
    requires room { position + 1 < 2 ^ 31 }
    ensures { (w : CoffForm) (n : Object) → names.now ≡ table_for w n → result ≡ line_entry w n (coff_lines.SectionLine position section.now) }
{
    SymbolEntry {
        Name: symbol_field(names, near, section.name.as_slice()),
        Value: 0,
        SectionNumber: position + 1,
        Type: 0,
        StorageClass: IMAGE_SYM_CLASS_STATIC,
        NumberOfAuxSymbols: 1,
    }
}

// the entry of a symbol
fn symbol_entry(names: &Table, near: usize, symbol: &Symbol) -> SymbolEntry
    requires held { HoldsSymbolName names.now symbol.now.name }
    requires room { HasRoom (values.numbers_by symbol.now.binding) }
    ensures { (w : CoffForm) (n : Object) (k : ℕ) → names.now ≡ table_for w n → result ≡ line_entry w n (coff_lines.OuterLine k symbol.now) }
{
    let numbers = of_binding(symbol.binding);
    SymbolEntry {
        Name: symbol_field(names, near, symbol.name.as_slice()),
        Value: numbers.value,
        SectionNumber: numbers.section,
        Type: type_by(symbol.mark),
        StorageClass: class_by(symbol.binding),
        NumberOfAuxSymbols: aux_by(symbol.binding),
    }
}

// the entry of the symbol that stands for the fallback of a Weak
fn default_entry(
    alloc: Global,
    names: &Table,
    near: usize,
    symbol: &Symbol,
) -> Result<SymbolEntry, NoMemory>
    requires held { Holds names.now (strings.default_name symbol.now.name) }
    requires room { HasRoom (values.default_numbers symbol.now.binding) }
    ensures { IfOk result (λ entry. (w : CoffForm) (n : Object) (k : ℕ) → names.now ≡ table_for w n
        → entry ≡ line_entry w n (coff_lines.DefaultLine k symbol.now)) }
{
    let name = default_name(alloc, symbol.name.as_slice())?;
    let numbers = of_default(symbol.binding);
    Ok(SymbolEntry {
        Name: symbol_field(names, near, name.as_slice()),
        Value: numbers.value,
        SectionNumber: numbers.section,
        Type: 0,
        StorageClass: IMAGE_SYM_CLASS_STATIC,
        NumberOfAuxSymbols: 0,
    })
}

// which copies of a section in this group are kept, in which this key symbol lies
fn selection_of(key: Option<u32>, group: Option<u32>) -> u8
    ensures { (n : Object) (k : ℕ) → key ≡ key_position n k → result ≡ canonical.selection_of n k group }
{
    match (group, key) {
        (None, _) => 0,
        (Some(_), Some(_)) => IMAGE_COMDAT_SELECT_ANY,
        (Some(_), None) => IMAGE_COMDAT_SELECT_ASSOCIATIVE,
    }
}

// the number of the section that leads a group, from 1, and 0 where none does
fn leader_number(leaders: &[Option<u32>], group: u32) -> u32
    requires there { group < length leaders.now }
    requires room { IfSome (slice_index_or leaders.now group None) (λ k. k + 1 < 2 ^ 31) }
    ensures { (n : Object) → slice_index_or leaders.now group None ≡ leader_position n group → result ≡ canonical.leader_number n group }
{
    match leaders[group as usize] {
        Some(section) => section + 1,
        None => 0,
    }
}

// the number of the section with which one in this group is kept, where that is another one
fn kept_with(leaders: &[Option<u32>], key: Option<u32>, group: Option<u32>) -> u32
    requires there { IfSome group (λ g. g < length leaders.now) }
    requires room { (g : ℕ) → g < length leaders.now → IfSome (slice_index_or leaders.now g None) (λ k. k + 1 < 2 ^ 31) }
    ensures { (n : Object) (k : ℕ) → AreLeaders n leaders.now → key ≡ key_position n k → result ≡ canonical.kept_with n k group }
{
    match (group, key) {
        (None, _) => 0,
        (Some(_), Some(_)) => 0,
        (Some(group), None) => leader_number(leaders, group),
    }
}

// how many relocations the section at a position has
fn reloc_count(neutral: &Neutral, position: u32) -> usize
    requires { position < length neutral.now.sections }
    ensures { result ≡ length (list_of neutral.now.relocs position) }
{
    neutral.relocs(position).len()
}

// the auxiliary entry of the symbol of the section at a position
fn section_aux(neutral: &Neutral, made: EntryInputs<'_>, position: u32) -> SectionAux
    requires there { position < length neutral.now.sections }
    requires few { length neutral.now.sections < 2 ^ 31 }
    requires made { IsMadeOf (form_for neutral.now.format) neutral.now made }
    ensures { IsSectionAux neutral.now position result }
{
    neutral.is_object();
    let section = neutral.section(position);
    let key = made.keys[position as usize];
    SectionAux {
        Length: section.size,
        NumberOfRelocations: header_count(reloc_count(neutral, position)),
        NumberOfLinenumbers: 0,
        CheckSum: 0,
        Number: kept_with(made.leaders, key, section.group),
        Selection: selection_of(key, section.group),
    }
}

// adds the entries of a section's symbol
fn add_section(
    entries: &mut Vec<Entry>,
    neutral: &Neutral,
    made: EntryInputs<'_>,
    near: usize,
    position: u32,
) -> Result<(), NoMemory>
    requires there { position < length neutral.now.sections }
    requires few { length neutral.now.sections < 2 ^ 31 }
    requires made { IsMadeOf (form_for neutral.now.format) neutral.now made }
    requires held { (s : HeldSection) → slice_get neutral.now.sections position ≡ Some s → HoldsSymbolName made.names.now s.name }
    ensures { OnOk result ((s : HeldSection) → slice_get neutral.now.sections position ≡ Some s
        → AreAdded (form_for neutral.now.format) neutral.now (coff_lines.SectionLine position s) entries.old.items entries.new.items) }
{
    let symbol = section_entry(made.names, near, position, neutral.section(position));
    entries.push(Entry::Symbol(symbol))?;
    entries.push(Entry::SectionAux(section_aux(neutral, made, position)))?;
    Ok(())
}

// the auxiliary entry of a weak external with this tag
fn weak_aux(tag: u32) -> WeakAux
    ensures { (lines : List (Laid coff_lines.Line)) (k : ℕ) (f : Fallback) → tag ≡ tag_of lines k f → result ≡ canonical.weak_aux lines k f }
{
    WeakAux {
        TagIndex: tag,
        Characteristics: IMAGE_WEAK_EXTERN_SEARCH_ALIAS,
    }
}

// adds the entries of a symbol that is not Local
fn add_outer(
    entries: &mut Vec<Entry>,
    names: &Table,
    near: usize,
    numbers: &Numbers,
    position: u32,
    symbol: &Symbol,
) -> Result<(), NoMemory>
    requires held { HoldsSymbolName names.now symbol.now.name }
    requires room { HasRoom (values.numbers_by symbol.now.binding) }
    requires tag { (f : Fallback) → symbol.now.binding ≡ Weak f → HasTag numbers.now position f }
    ensures { OnOk result ((w : CoffForm) (n : Object) → names.now ≡ table_for w n → IsNumbered w n numbers.now
        → AreAdded w n (coff_lines.OuterLine position symbol.now) entries.old.items entries.new.items) }
{
    entries.push(Entry::Symbol(symbol_entry(names, near, symbol)))?;
    if let Binding::Weak(fallback) = symbol.binding {
        let tag = numbers.of_fallback(position, fallback);
        entries.push(Entry::WeakAux(weak_aux(tag)))?;
    }
    Ok(())
}

// adds the entry of a Local
fn add_local(
    entries: &mut Vec<Entry>,
    names: &Table,
    near: usize,
    symbol: &Symbol,
) -> Result<(), NoMemory>
    requires local { is_local symbol.now.binding ≡ true }
    requires held { HoldsSymbolName names.now symbol.now.name }
    requires room { HasRoom (values.numbers_by symbol.now.binding) }
    ensures { OnOk result ((w : CoffForm) (n : Object) (k : ℕ) → names.now ≡ table_for w n
        → AreAdded w n (coff_lines.LocalLine k symbol.now) entries.old.items entries.new.items) }
{
    entries.push(Entry::Symbol(symbol_entry(names, near, symbol)))?;
    Ok(())
}

// adds the entry of the symbol that stands for the fallback of a Weak
fn add_default(
    alloc: Global,
    entries: &mut Vec<Entry>,
    names: &Table,
    near: usize,
    symbol: &Symbol,
) -> Result<(), NoMemory>
    requires held { Holds names.now (strings.default_name symbol.now.name) }
    requires room { HasRoom (values.default_numbers symbol.now.binding) }
    ensures { OnOk result ((w : CoffForm) (n : Object) (k : ℕ) → names.now ≡ table_for w n
        → AreAdded w n (coff_lines.DefaultLine k symbol.now) entries.old.items entries.new.items) }
{
    entries.push(Entry::Symbol(default_entry(alloc, names, near, symbol)?))?;
    Ok(())
}

// adds the entries of a line, whose name is looked for first at the position `near` among the given names
fn add_line(
    alloc: Global,
    entries: &mut Vec<Entry>,
    neutral: &Neutral,
    made: EntryInputs<'_>,
    near: usize,
    line: Line,
) -> Result<(), NoMemory>
    requires coff { container_of neutral.now.format ≡ IsCoff }
    requires fitted { IsFitted neutral.now.format neutral.now }
    requires made { IsMadeOf (form_for neutral.now.format) neutral.now made }
    requires listed { IsAmongLines (form_for neutral.now.format) neutral.now line }
    ensures { OnOk result ((is : coff_lines.Line) → line_in neutral.now line ≡ Some is
        → AreAdded (form_for neutral.now.format) neutral.now is entries.old.items entries.new.items) }
{
    match line {
        Line::Section(k) => add_section(entries, neutral, made, near, k),
        Line::Local(k) => add_local(entries, made.names, near, neutral.symbol(k)),
        Line::Default(k) => add_default(alloc, entries, made.names, near, neutral.symbol(k)),
        Line::Outer(k) => add_outer(
            entries,
            made.names,
            near,
            made.numbers,
            k,
            neutral.symbol(k),
        ),
    }
}

/// The entries of these lines of an object, of which the rest was made. `NoMemory` where memory ran
/// out. Linear in the lines and relocations, but for looking up names in the string table, each at
/// the position of the next given one.
pub(crate) fn entries_of(
    alloc: Global,
    neutral: &Neutral,
    made: EntryInputs<'_>,
    lines: &[Line],
) -> Result<Vec<Entry>, NoMemory>
    requires coff { container_of neutral.now.format ≡ IsCoff }
    requires fitted { IsFitted neutral.now.format neutral.now }
    requires made { IsMadeOf (form_for neutral.now.format) neutral.now made }
    requires lines { AreLines (form_for neutral.now.format) neutral.now lines.now }
    ensures rows { IfOk result (λ entries. rows_in (form_for neutral.now.format) entries.items ≡ entry_rows (form_for neutral.now.format) neutral.now) }
    ensures count { IfOk result (λ entries. length entries.items ≡ coff_lines.entry_count (form_for neutral.now.format) neutral.now) }
{
    neutral.is_object();
    let mut entries = Vec::with_capacity(alloc, made.numbers.count() as usize)?;
    let mut passed = NameCursor::none(neutral.sections());
    for line in lines {
        let near = passed.near(*line);
        add_line(alloc, &mut entries, neutral, made, near, *line)?;
        passed = passed.after(neutral, *line);
    }
    Ok(entries)
}
