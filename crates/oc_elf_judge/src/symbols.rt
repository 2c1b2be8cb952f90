//! Symbols: what they say by themselves, and the conditions on each.
ghost use Rattle.std.specs.Prelude.{◌≡◌, ◌<◌, length, nat_eq, if◌then◌else◌, None, Some, MatchOption};
ghost use Rattle.oc_linking.specs.FirstFault.{first_broken};
ghost use Rattle.oc_elf.specs.Entries as entries;
ghost use Rattle.oc_elf.specs.Frames.{header_at};
ghost use Rattle.oc_elf_judge.specs.Known.{IsSymtab};
ghost use Rattle.oc_elf.specs.Sections as sections;
ghost use Rattle.oc_elf.specs.SymbolRules as rules;
ghost use Rattle.oc_elf.specs.Tables as tables;
ghost use Rattle.oc_elf.specs.Tables.{entry_of, symbol_place};

use crate::sections::is_power;
use oc_base::{Code, Fault, Phase, u32_in};
use oc_elf::{
    EXTENDED_ZERO, Frame, NO_INDEX, SHN_ABS, SHN_COMMON, SHN_LORESERVE, SHN_UNDEF, SHNDX_SIZE,
    SHT_SYMTAB_SHNDX, SIGNED_XINDEX, STB_LOCAL, STB_WEAK, STT_COMMON, STT_FILE, STT_SECTION, Shdr,
    Sym, is_carried_type, name_in, sym_at, sym_size,
};
use oc_neutral::elf::ALIGN_BITS;
use oc_shelf::earlier;

/// How many symbols there are. Constant time.
pub fn symbol_count(frame: &Frame, table: &Shdr) -> u32
    requires { IsSymtab frame.now table.now }
    ensures { result ≡ tables.symbol_count frame.now }
{
    (table.sh_size / sym_size(frame.word())) as u32
}

/// Where symbol `k` lies, in bytes from the start of the file. Constant time.
pub(crate) fn symbol_place(frame: &Frame, table: &Shdr, k: u32) -> u64
    requires table { IsSymtab frame.now table.now }
    requires there { k < tables.symbol_count frame.now }
    ensures { result ≡ symbol_place frame.now k }
{
    table.sh_offset + sym_size(frame.word()) * u64::from(k)
}

// a number that is stored elsewhere, where a header can have it
fn extended(number: u32) -> u32
    ensures { result ≡ tables.extended number }
{
    if number == 0 {
        EXTENDED_ZERO
    } else if number < EXTENDED_ZERO {
        number
    } else {
        NO_INDEX
    }
}

// the section number of symbol `k` in the table of section numbers
fn index_of(frame: &Frame, table: &Shdr, k: u32) -> u32
    requires table { IsSymtab frame.now table.now }
    requires there { k < tables.symbol_count frame.now }
    ensures { result ≡ tables.index_of frame.now k }
{
    let s = frame.shndx();
    if s.sh_type != SHT_SYMTAB_SHNDX {
        return NO_INDEX;
    }
    let place = s.sh_offset + SHNDX_SIZE * u64::from(k);
    extended(u32_in(frame.file(), place as usize))
}

// a symbol with another section number
fn with_index(s: Sym, number: u32) -> Sym
    ensures { result ≡ tables.with_index s number }
{
    Sym {
        st_shndx: number,
        ..s
    }
}

/// Symbol `k`. Constant time.
#[tactic(auto, unfolding(oc_elf::specs::Tables::entry_of))]
pub fn entry_of(frame: &Frame, table: &Shdr, k: u32) -> Sym
    requires table { IsSymtab frame.now table.now }
    requires there { k < tables.symbol_count frame.now }
    ensures { result ≡ entry_of frame.now k }
{
    let place = symbol_place(frame, table, k);
    let s = sym_at(frame.word(), frame.file(), place as usize);
    if frame.class().is_big() && s.st_shndx == SIGNED_XINDEX {
        return with_index(s, index_of(frame, table, k));
    }
    s
}

/// The name of a symbol, where it exists. Linear in the name.
#[tactic(auto, unfolding(oc_elf::specs::Entries::name_at))]
pub(crate) fn name_at<'a>(frame: &Frame<'a>, table: &Shdr, s: &Sym) -> Option<&'a [u8]>
    requires { IsSymtab frame.now table.now }
    ensures { MatchOption result (entries.name_at frame.now s.now ≡ None) (λ name. entries.name_at frame.now s.now ≡ Some name.now) }
{
    let names = frame.header(table.sh_link);
    name_in(frame.file(), &names, s.st_name)
}

/// The name of a symbol; empty where it is not there. Linear in the name.
pub fn name_of<'a>(frame: &Frame<'a>, table: &Shdr, s: &Sym) -> &'a [u8]
    requires { IsSymtab frame.now table.now }
    ensures { result.now ≡ entries.name_of frame.now s.now }
{
    match name_at(frame, table, s) {
        Some(name) => name,
        None => &[],
    }
}

/// Whether a symbol is LOCAL. Constant time.
pub fn is_local(s: &Sym) -> bool
    ensures { result ≡ entries.is_local_entry s.now }
{
    s.st_bind() == STB_LOCAL
}

/// Whether the number of its section is a section's. Constant time.
pub(crate) fn is_sectional(s: &Sym) -> bool
    ensures { result ≡ entries.is_sectional s.now }
{
    s.st_shndx != SHN_UNDEF && s.st_shndx < SHN_LORESERVE
}

/// Whether a symbol is a section's own. Constant time.
pub fn is_section_symbol(s: &Sym) -> bool
    ensures { result ≡ entries.is_section_symbol s.now }
{
    s.st_type() == STT_SECTION
}

// whether the number of its section is no section's, and neither ABS nor COMMON
fn is_reserved(s: &Sym) -> bool
    ensures { result ≡ rules.is_reserved s.now }
{
    !(s.st_shndx < SHN_LORESERVE || s.st_shndx == SHN_ABS || s.st_shndx == SHN_COMMON)
}

// whether the symbol is of a kind that is left out
#[tactic(auto, unfolding(oc_elf::specs::SymbolRules::is_odd_symbol))]
fn is_odd_symbol(s: &Sym) -> bool
    ensures { result ≡ rules.is_odd_symbol s.now }
{
    STB_WEAK < s.st_bind()
        || STT_COMMON < s.st_type()
        || s.st_bind() == STB_WEAK && (s.st_shndx == SHN_ABS || s.st_shndx == SHN_COMMON)
        || is_local(s)
            && (s.st_shndx == SHN_COMMON || s.st_shndx == SHN_UNDEF && s.st_type() != STT_FILE)
        || is_section_symbol(s) && !is_local(s)
        || is_reserved(s)
}

/// The fault of symbol `k` with this code and place. Constant time.
pub(crate) fn symbol_fault(code: Code, k: u32, place: u64) -> Fault
    ensures { result ≡ rules.symbol_fault code k place }
{
    Fault {
        phase: Phase::Symbol,
        index: k,
        code,
        place,
    }
}

// whether two tests agree
fn agree(a: bool, b: bool) -> bool
    ensures { result ≡ rules.agree a b }
{
    if a { b } else { !b }
}

// whether the section of a symbol is carried
fn has_home(frame: &Frame, s: &Sym) -> bool
    ensures { result ≡ sections.is_carried (header_at frame.now.headers s.now.st_shndx) }
{
    is_carried_type(frame.header(s.st_shndx).sh_type)
}

// the fault of the conditions that a symbol meets by its name, binding, type and section
fn kind_fault(frame: &Frame, table: &Shdr, k: u32, place: u64, s: &Sym) -> Option<Fault>
    requires { IsSymtab frame.now table.now }
    ensures { result ≡ first_broken (rules.kind_conditions frame.now k place s.now) }
{
    if name_at(frame, table, s).is_none() {
        return Some(symbol_fault(Code::BadName, k, place));
    }
    if !agree(is_local(s), k < table.sh_info) {
        return Some(symbol_fault(Code::BadSymbol, k, place));
    }
    if is_odd_symbol(s) {
        return Some(symbol_fault(Code::SymbolKind, k, place));
    }
    if is_sectional(s) && !(s.st_shndx < frame.count() || s.st_shndx == EXTENDED_ZERO) {
        return Some(symbol_fault(Code::BadSymbol, k, place));
    }
    None
}

// the fault of the conditions that a symbol meets by its value and name
fn value_fault(frame: &Frame, table: &Shdr, k: u32, place: u64, s: &Sym) -> Option<Fault>
    requires { IsSymtab frame.now table.now }
    ensures { result ≡ first_broken (rules.value_conditions frame.now k place s.now) }
{
    if is_sectional(s) && !is_local(s) && !has_home(frame, s) {
        return Some(symbol_fault(Code::SymbolKind, k, place));
    }
    if is_sectional(s) && frame.header(s.st_shndx).sh_size < s.st_value {
        return Some(symbol_fault(Code::SymbolPastEnd, k, place));
    }
    if s.st_shndx == SHN_COMMON && !is_power(ALIGN_BITS, s.st_value) {
        return Some(symbol_fault(Code::BadCommon, k, place));
    }
    if !is_local(s) && name_of(frame, table, s).is_empty() {
        return Some(symbol_fault(Code::SymbolKind, k, place));
    }
    None
}

/// The fault of the conditions that symbol `k` meets by itself. Linear in its name.
#[tactic(auto, unfolding(oc_elf::specs::SymbolRules::entry_conditions))]
pub(crate) fn entry_fault(frame: &Frame, table: &Shdr, k: u32) -> Option<Fault>
    requires table { IsSymtab frame.now table.now }
    requires there { k < tables.symbol_count frame.now }
    ensures { result ≡ (if nat_eq k 0 then None else first_broken (rules.entry_conditions frame.now k (symbol_place frame.now k) (entry_of frame.now k))) }
{
    if k == 0 {
        return None;
    }
    let (s, place) = (entry_of(frame, table, k), symbol_place(frame, table, k));
    let kind = kind_fault(frame, table, k, place, &s);
    let value = value_fault(frame, table, k, place, &s);
    earlier(kind, value)
}
