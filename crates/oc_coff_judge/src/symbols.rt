//! Symbols: the conditions that each meets by itself.
ghost use Rattle.std.specs.Prelude.{◌≡◌, ◌+◌, ◌<◌, length, is_some, [], Some};
ghost use Rattle.std.specs.Option.{unwrap_or};
ghost use Rattle.oc_linking.specs.FirstFault.{first_broken};
ghost use Rattle.oc_coff.specs.Entries as entries;
ghost use Rattle.oc_coff.specs.Sections as sections;
ghost use Rattle.oc_coff.specs.Names as names;
ghost use Rattle.oc_coff.specs.SymbolFaults as rules;
ghost use Rattle.oc_coff.specs.Files as files;
ghost use Rattle.oc_coff_judge.specs.Classed as classed;
ghost use Rattle.oc_coff_judge.specs.Found.{ArePositions};
ghost use Rattle.oc_coff_judge.specs.Numbered.{entry_by};

use crate::copies::has_section;
use oc_base::{Code, Fault, Phase};
use oc_coff::{
    Coff, IMAGE_SYM_CLASS_EXTERNAL, IMAGE_SYM_CLASS_FILE, IMAGE_SYM_CLASS_FUNCTION,
    IMAGE_SYM_CLASS_LABEL, IMAGE_SYM_CLASS_STATIC, IMAGE_SYM_CLASS_WEAK_EXTERNAL, IMAGE_SYM_DEBUG,
    IMAGE_SYM_SECTION_MAX_EX, IMAGE_SYM_UNDEFINED, SymbolEntry, symbol_name,
};
use oc_shelf::Slots;

/// A fault of symbol `j`. Constant time.
#[tactic(auto, unfolding(oc_coff::specs::Tables::tables_of))]
pub(crate) fn symbol_fault(coff: &Coff, j: u32, code: Code) -> Option<Fault>
    requires { j < length (files.tables_in coff.now).entries }
    ensures { result ≡ Some (classed.symbol_fault_at (files.tables_in coff.now) j code) }
{
    Some(Fault {
        phase: Phase::Symbol,
        index: j,
        code,
        place: coff.entry_place(j),
    })
}

// whether the section number is one of a section that is not there, or below -2
fn is_no_section(count: u32, n: u32) -> bool
    ensures { result ≡ rules.is_no_section count n }
{
    if n <= IMAGE_SYM_SECTION_MAX_EX {
        count < n
    } else {
        n < IMAGE_SYM_DEBUG
    }
}

// whether the class is a known one
fn is_known(s: &SymbolEntry) -> bool
    ensures { result ≡ rules.is_known s.now }
{
    s.StorageClass == IMAGE_SYM_CLASS_EXTERNAL
        || s.StorageClass == IMAGE_SYM_CLASS_STATIC
        || s.StorageClass == IMAGE_SYM_CLASS_LABEL
        || s.StorageClass == IMAGE_SYM_CLASS_FUNCTION
        || s.StorageClass == IMAGE_SYM_CLASS_FILE
        || s.StorageClass == IMAGE_SYM_CLASS_WEAK_EXTERNAL
}

/// Whether the symbol is a weak external. Constant time.
pub(crate) fn is_weak(s: &SymbolEntry) -> bool
    ensures { result ≡ entries.is_class IMAGE_SYM_CLASS_WEAK_EXTERNAL s.now }
{
    s.StorageClass == IMAGE_SYM_CLASS_WEAK_EXTERNAL
}

// whether the symbol is one of this file alone that needs a section or a value
fn is_static(s: &SymbolEntry) -> bool
    ensures { result ≡ rules.is_static s.now }
{
    s.StorageClass == IMAGE_SYM_CLASS_STATIC || s.StorageClass == IMAGE_SYM_CLASS_LABEL
}

/// Whether the symbol is seen by all files. Constant time.
pub(crate) fn is_external(s: &SymbolEntry) -> bool
    ensures { result ≡ rules.is_external s.now }
{
    s.StorageClass == IMAGE_SYM_CLASS_EXTERNAL || s.StorageClass == IMAGE_SYM_CLASS_WEAK_EXTERNAL
}

// whether section number `k` exists, and has fewer bytes
fn ends_before(coff: &Coff, k: u32, offset: u32) -> bool
    ensures { result ≡ classed.ends_before (files.tables_in coff.now) k offset }
{
    let count = coff.section_count();
    if k == 0 {
        return false;
    }
    if count < k {
        return false;
    }
    let h = coff.section(k - 1);
    h.SizeOfRawData < offset
}

// whether the symbol lies past the end of its section
fn is_past_end(coff: &Coff, s: &SymbolEntry) -> bool
    ensures { result ≡ rules.is_past_end (files.tables_in coff.now) s.now }
{
    has_section(s) && ends_before(coff, s.SectionNumber, s.Value)
}

/// The name of symbol `j`; empty where it cannot be read. Linear in the name.
#[tactic(auto, unfolding(crate::specs::Numbered::entry_by))]
pub(crate) fn name_of<'a>(coff: &Coff<'a>, j: u32) -> &'a [u8]
    requires { j < length (files.tables_in coff.now).entries }
    ensures { result.now ≡ entries.name_of (files.tables_in coff.now).strings (entry_by coff.now j) }
{
    match symbol_name(coff.strings(), coff.name_field(j)) {
        Some(name) => name,
        None => &[],
    }
}

/// The name of a symbol, empty where it cannot be read. Linear in the name.
pub fn name_by<'a>(coff: &'a Coff, s: &'a SymbolEntry) -> &'a [u8]
    ensures { result.now ≡ unwrap_or (names.symbol_name (files.tables_in coff.now).strings s.now.Name) [] }
{
    match symbol_name(coff.strings(), &s.Name) {
        Some(name) => name,
        None => &[],
    }
}

/// Whether the section of a symbol is carried, and a symbol can name it, by the positions of
/// sections. Constant time.
pub(crate) fn has_home(positions: &Slots, s: &SymbolEntry) -> bool
    ensures { (file : files.CoffFile) → ArePositions file positions.now
        → result ≡ is_some (sections.position_of (sections.sections_in (files.tables_in file)) s.now.SectionNumber) }
{
    positions.get(s.SectionNumber).is_some()
}

/// The fault of the conditions on the place, the name and the section of symbol `j`. Linear in
/// the name.
pub(crate) fn place_fault(coff: &Coff, j: u32, s: &SymbolEntry) -> Option<Fault>
    requires { j < length (files.tables_in coff.now).entries }
    ensures { result ≡ first_broken (classed.places_of (files.tables_in coff.now) j s.now) }
{
    if u64::from(coff.entry_count()) < u64::from(j) + 1 + u64::from(s.NumberOfAuxSymbols) {
        return symbol_fault(coff, j, Code::BadSymbol);
    }
    if symbol_name(coff.strings(), &s.Name).is_none() {
        return symbol_fault(coff, j, Code::BadName);
    }
    if is_no_section(coff.section_count(), s.SectionNumber) {
        return symbol_fault(coff, j, Code::BadSymbol);
    }
    None
}

/// That of the conditions on its class and value. Constant time.
pub(crate) fn class_fault(coff: &Coff, j: u32, s: &SymbolEntry) -> Option<Fault>
    requires { j < length (files.tables_in coff.now).entries }
    ensures { result ≡ first_broken (classed.classes_of (files.tables_in coff.now) j s.now) }
{
    let undefined = s.SectionNumber == IMAGE_SYM_UNDEFINED;
    if !is_known(s) {
        return symbol_fault(coff, j, Code::SymbolKind);
    }
    if is_static(s) && undefined {
        return symbol_fault(coff, j, Code::SymbolKind);
    }
    if is_weak(s) && !undefined {
        return symbol_fault(coff, j, Code::SymbolKind);
    }
    if is_past_end(coff, s) {
        return symbol_fault(coff, j, Code::SymbolPastEnd);
    }
    None
}
