//! What relocation entries refer to, as far as the conditions on them ask.
ghost use Rattle.std.specs.Prelude.{◌≡◌, ◌+◌, ◌<◌, ◌≤◌, ◌&&◌, not, bytes_eq, length, slice_get, is_some, None, Some, IfOk};
ghost use Rattle.oc_macho_judge.specs.Holders.{AreHolders};
ghost use Rattle.oc_macho.specs.Referents as referents;
ghost use Rattle.oc_macho.specs.Sections as sections;
ghost use Rattle.oc_macho.specs.Symbols as symbols;
ghost use Rattle.oc_macho.specs.Tables.{Tables};
ghost use Rattle.oc_macho.specs.declared.relocation_info.Reference.TheVariants.{Symbol, Section, Address};
ghost use Rattle.oc_neutral.specs.Mach.SectionSymbols.{section_symbol_name};

use crate::holders::Holders;
use crate::symbols::{
    header_numbered, is_external, is_named, is_nameless, is_numbered, is_stab, is_type,
};
use oc_base::{NoMemory, Word};
use oc_macho::{Frame, N_ABS, N_SECT, N_UNDF, N_WEAK_DEF, Nlist, Reference, Referent, has};
use std::alloc::Global;

/// A section, or a Local in one.
const INSIDE: Referent = Referent::Fit {
    external: false,
    placed: true,
};

// whether a symbol has the name of the symbol of section `k`
fn is_section_name(alloc: Global, frame: &Frame, s: &Nlist, k: u8) -> Result<bool, NoMemory>
    ensures { IfOk result (λ is. is ≡ bytes_eq (symbols.name_of frame.now s.now) (section_symbol_name k)) }
{
    let text = format!(in alloc; "l_section_{k}")?;
    Ok(is_named(frame, s, text.as_bytes()))
}

// whether the value of a symbol is the address of its section
fn is_at_start(frame: &Frame, s: &Nlist) -> bool
    ensures { result ≡ symbols.is_at_start frame.now s.now }
{
    match header_numbered(frame, s.n_sect.into()) {
        Some(h) => s.n_value == h.addr,
        None => false,
    }
}

/// Whether a symbol stands for its section. `NoMemory` where memory ran out. Constant time.
#[tactic(auto, unfolding(oc_macho::specs::Symbols::is_own))]
pub fn is_own(alloc: Global, frame: &Frame, s: &Nlist) -> Result<bool, NoMemory>
    ensures { IfOk result (λ own. own ≡ symbols.is_own frame.now s.now) }
{
    if frame.word() == Word::W32 || is_stab(s) || is_external(s) || !is_type(N_SECT, s) {
        return Ok(false);
    }
    if !is_at_start(frame, s) {
        return Ok(false);
    }
    let named = is_section_name(alloc, frame, s, s.n_sect)?;
    Ok(named)
}

// what a symbol that is carried is
#[tactic(auto, unfolding(oc_macho::specs::Symbols::binding_of))]
fn carried_referent(s: &Nlist) -> Referent
    ensures { (t : Tables) → result ≡ referents.of_binding (symbols.binding_of t s.now) }
{
    if is_external(s) {
        return external_referent(s);
    }
    if is_type(N_ABS, s) {
        return Referent::Unfit;
    }
    INSIDE
}

// what an external symbol is
fn external_referent(s: &Nlist) -> Referent
    ensures { (t : Tables) → result ≡ referents.of_binding (symbols.external_binding t s.now) }
{
    let undefined = is_type(N_UNDF, s);
    let weak = is_type(N_SECT, s) && has(s.n_desc.into(), N_WEAK_DEF.into());
    Referent::Fit {
        external: true,
        placed: !undefined && !weak && !is_type(N_ABS, s),
    }
}

// what symbol `j` is
#[tactic(auto, unfolding(oc_macho::specs::Aims::aim_in, oc_macho::specs::Symbols::symbol_of))]
fn symbol_referent(alloc: Global, frame: &Frame, j: u32) -> Result<Referent, NoMemory>
    ensures { IfOk result (λ r. r ≡ referents.referent_in frame.now (Symbol j)) }
{
    if j >= frame.symbol_count() {
        return Ok(Referent::Nothing);
    }
    let s = frame.symbol(j);
    let own = is_own(alloc, frame, &s)?;
    if own {
        return Ok(INSIDE);
    }
    if is_stab(&s) || !is_external(&s) && is_nameless(frame, &s) {
        return Ok(Referent::Nothing);
    }
    Ok(carried_referent(&s))
}

// what section number `k` is
#[tactic(auto, unfolding(oc_macho::specs::Aims::aim_in))]
fn section_referent(frame: &Frame, k: u32) -> Referent
    ensures { result ≡ referents.referent_in frame.now (Section k) }
{
    if k == 0 {
        return Referent::Unfit;
    }
    if !is_numbered(frame, k) {
        return Referent::Nothing;
    }
    INSIDE
}

// what an address is that of
#[tactic(auto, unfolding(oc_macho::specs::Aims::aim_in))]
fn address_referent(frame: &Frame, holders: &Holders, v: u32) -> Referent
    requires { AreHolders frame.now holders.now }
    ensures { result ≡ referents.referent_in frame.now (Address v) }
{
    match holders.holder(v) {
        Some(k) => section_referent(frame, k),
        None => Referent::Nothing,
    }
}

/// What a reference is to, given which sections hold addresses. `NoMemory` where memory ran out.
/// Constant time for a symbol and for a section's number; for an address the logarithm of the
/// number of sections.
pub(crate) fn referent_of(
    alloc: Global,
    frame: &Frame,
    holders: &Holders,
    r: Reference,
) -> Result<Referent, NoMemory>
    requires { AreHolders frame.now holders.now }
    ensures { IfOk result (λ x. x ≡ referents.referent_in frame.now r) }
{
    match r {
        Reference::Symbol(j) => {
            let referent = symbol_referent(alloc, frame, j)?;
            Ok(referent)
        }
        Reference::Section(k) => Ok(section_referent(frame, k)),
        Reference::Address(v) => Ok(address_referent(frame, holders, v)),
    }
}
