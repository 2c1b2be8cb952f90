//! Symbols: what they say by themselves, and the conditions on each.
ghost use Rattle.std.specs.Prelude.{◌≡◌, ◌<◌, ◌≤◌, bytes_eq, [], is_some, length, slice_get, None, Some, MatchOption};
ghost use Rattle.oc_linking.specs.FirstFault.{first_broken};
ghost use Rattle.oc_macho.specs.Sections as sections;
ghost use Rattle.oc_macho.specs.SymbolFaults as rules;
ghost use Rattle.oc_macho.specs.Symbols as symbols;

use oc_base::{Code, Fault, Phase};
use oc_macho::{Frame, N_ABS, N_EXT, N_SECT, N_UNDF, N_WEAK_DEF, Nlist, SectionHeader, has};
use oc_shelf::{earlier, text_at};

/// Whether there is a section of number `k`, counted from 1. Constant time; no header is read.
pub(crate) fn is_numbered(frame: &Frame, k: u32) -> bool
    ensures { result ≡ is_some (sections.header_numbered frame.now k) }
{
    k != 0 && k <= frame.section_count()
}

/// The header of section number `k`, counted from 1, where there is one. Constant time.
pub fn header_numbered(frame: &Frame, k: u32) -> Option<SectionHeader>
    ensures { result ≡ sections.header_numbered frame.now k }
{
    if k == 0 || k > frame.section_count() {
        return None;
    }
    Some(frame.section(k - 1))
}

/// The name of a symbol, where it exists. Linear in the name.
#[tactic(auto, unfolding(oc_macho::specs::Symbols::name_at))]
pub(crate) fn name_at<'a>(frame: &Frame<'a>, s: &Nlist) -> Option<&'a [u8]>
    ensures { MatchOption result (symbols.name_at frame.now s.now ≡ None) (λ name. symbols.name_at frame.now s.now ≡ Some name.now) }
{
    let (strings, at) = (frame.strings(), s.n_strx as usize);
    if at >= frame.text_end() {
        return None;
    }
    text_at(strings, at, strings.len())
}

/// The name of a symbol; empty where it is not there. Linear in the name.
pub fn name_of<'a>(frame: &Frame<'a>, s: &Nlist) -> &'a [u8]
    ensures { result.now ≡ symbols.name_of frame.now s.now }
{
    match name_at(frame, s) {
        Some(name) => name,
        None => &[],
    }
}

/// Whether a symbol has no name, or an empty one. Constant time.
pub(crate) fn is_nameless(frame: &Frame, s: &Nlist) -> bool
    ensures { result ≡ bytes_eq (symbols.name_of frame.now s.now) [] }
{
    let (strings, at) = (frame.strings(), s.n_strx as usize);
    at >= frame.text_end() || strings[at] == 0
}

/// Whether a symbol has this name, which is not empty. Linear in it.
pub(crate) fn is_named(frame: &Frame, s: &Nlist, name: &[u8]) -> bool
    requires { 1 ≤ length name.now }
    ensures { result ≡ bytes_eq (symbols.name_of frame.now s.now) name.now }
{
    match text_at(frame.strings(), s.n_strx as usize, name.len()) {
        Some(text) => text == name,
        None => false,
    }
}

/// Whether a symbol is an entry for debuggers. Constant time.
pub fn is_stab(s: &Nlist) -> bool
    ensures { result ≡ symbols.is_stab s.now }
{
    s.n_type / 32 != 0
}

/// Whether a symbol is of a type, one of the constants `N_UNDF`, `N_ABS` and `N_SECT`. Constant time.
pub fn is_type(n_type: u8, s: &Nlist) -> bool
    ensures { result ≡ symbols.is_type n_type s.now }
{
    s.n_type / 2 % 8 * 2 == n_type
}

/// Whether a symbol is seen by all files. Constant time.
pub fn is_external(s: &Nlist) -> bool
    ensures { result ≡ symbols.is_external s.now }
{
    has(s.n_type.into(), N_EXT.into())
}

// whether the type is one that is not read, or is read with other flags only
fn is_odd(s: &Nlist) -> bool
    ensures { result ≡ rules.is_odd s.now }
{
    let (undefined, absolute) = (is_type(N_UNDF, s), is_type(N_ABS, s));
    !(undefined || absolute || is_type(N_SECT, s))
        || undefined && !is_external(s)
        || absolute && is_external(s) && has(s.n_desc.into(), N_WEAK_DEF.into())
}

// whether the value is an address before the section or past its end
fn is_outside(s: &Nlist, h: &SectionHeader) -> bool
    ensures { result ≡ rules.is_outside s.now h.now }
{
    s.n_value < h.addr || s.n_value - h.addr > h.size
}

/// A fault of symbol `j`. Constant time.
pub(crate) fn symbol_fault(frame: &Frame, j: u32, code: Code) -> Option<Fault>
    requires { j < length frame.now.symbols }
    ensures { result ≡ Some (rules.symbol_fault frame.now j code) }
{
    Some(Fault {
        phase: Phase::Symbol,
        index: j,
        code,
        place: frame.symbol_place(j),
    })
}

// the fault of the conditions on the section of a symbol that has one
fn home_fault(frame: &Frame, j: u32, s: &Nlist) -> Option<Fault>
    requires { j < length frame.now.symbols }
    ensures { result ≡ first_broken (rules.home_conditions frame.now j s.now) }
{
    if !is_type(N_SECT, s) {
        return None;
    }
    match header_numbered(frame, s.n_sect.into()) {
        None => symbol_fault(frame, j, Code::BadSymbol),
        Some(h) => {
            if is_outside(s, &h) {
                symbol_fault(frame, j, Code::SymbolPastEnd)
            } else {
                None
            }
        }
    }
}

// the fault of the conditions on the type of a symbol of that name
fn kind_fault(frame: &Frame, j: u32, s: &Nlist) -> Option<Fault>
    requires { j < length frame.now.symbols }
    ensures { result ≡ first_broken (rules.kind_conditions frame.now j s.now) }
{
    if name_at(frame, s).is_none() {
        return symbol_fault(frame, j, Code::BadName);
    }
    if is_odd(s) {
        return symbol_fault(frame, j, Code::SymbolKind);
    }
    None
}

/// The fault of the conditions that symbol `j` meets by its name. Constant time.
pub(crate) fn name_fault(frame: &Frame, j: u32, s: &Nlist, again: bool) -> Option<Fault>
    requires { j < length frame.now.symbols }
    ensures { result ≡ first_broken (rules.name_conditions frame.now j s.now again) }
{
    if is_external(s) && is_nameless(frame, s) {
        return symbol_fault(frame, j, Code::SymbolKind);
    }
    if again {
        return symbol_fault(frame, j, Code::DuplicateName);
    }
    None
}

/// The fault of symbol `j`, given whether its name occurred before. Linear in the name.
#[tactic(auto, unfolding(oc_macho::specs::SymbolFaults::symbol_conditions))]
pub(crate) fn entry_fault(frame: &Frame, j: u32, s: &Nlist, again: bool) -> Option<Fault>
    requires there { j < length frame.now.symbols }
    ensures { result ≡ first_broken (rules.symbol_conditions frame.now j s.now again) }
{
    if is_stab(s) {
        return None;
    }
    let name = name_fault(frame, j, s, again);
    earlier(
        kind_fault(frame, j, s),
        earlier(home_fault(frame, j, s), name),
    )
}
