//! Where what relocation entries refer to lies, if no other definition can change it.
ghost use Rattle.std.specs.Prelude.{◌≡◌, ◌^◌, pos, negsuc, ◌+ℤ◌, ◌-ℤ◌, ◌≤ℤ◌, IfOk};
ghost use Rattle.oc_macho_judge.specs.Anchors as anchors;
ghost use Rattle.oc_macho_judge.specs.Holders.{AreHolders};
ghost use Rattle.oc_macho.specs.Sections as sections;
ghost use Rattle.oc_macho.specs.Symbols as symbols;
ghost use Rattle.oc_macho.specs.declared.relocation_info.Reference.TheVariants.{Symbol, Section, Address};

use crate::holders::Holders;
use crate::referents::is_own;
use crate::symbols::{header_numbered, is_external, is_nameless, is_stab, is_type};
use oc_base::NoMemory;
use oc_macho::{Frame, N_ABS, N_SECT, N_UNDF, N_WEAK_DEF, Nlist, Reference, has};
use std::alloc::Global;

/// Where something lies, if no other definition can change it.
#[derive(Clone, Copy, Debug, PartialEq, Eq)]
pub(crate) struct Anchor {
    /// Whether it is a symbol that is seen by all files.
    pub(crate) external: bool,
    /// The section, counted from 0.
    pub(crate) section: u32,
    /// How far it is beyond the start of the section, in bytes.
    pub(crate) offset: u64,
    /// The address of the file that a field counts in.
    pub(crate) counted: u64,
}

/// The address that the file gives to section number `k`, counted from 1; 0 where there is none.
/// Constant time.
pub fn address_of(frame: &Frame, k: u32) -> u64
    ensures { result ≡ sections.address_of frame.now k }
{
    match header_numbered(frame, k) {
        Some(h) => h.addr,
        None => 0,
    }
}

// where a symbol that is carried lies
#[tactic(auto, unfolding(oc_macho::specs::Symbols::binding_of))]
fn carried_anchor(frame: &Frame, s: &Nlist) -> Option<Anchor>
    ensures { result ≡ anchors.anchor_by (symbols.binding_of frame.now s.now) }
{
    let external = is_external(s);
    let weak = is_type(N_SECT, s) && has(s.n_desc.into(), N_WEAK_DEF.into());
    if is_type(N_ABS, s) || external && (is_type(N_UNDF, s) || weak) {
        return None;
    }
    let number = u32::from(s.n_sect);
    Some(Anchor {
        external,
        section: number.saturating_sub(1),
        offset: s.n_value.saturating_sub(address_of(frame, number)),
        counted: 0,
    })
}

// where symbol `j` lies
#[tactic(auto, unfolding(oc_macho::specs::Aims::aim_in, oc_macho::specs::Symbols::symbol_of))]
fn symbol_anchor(alloc: Global, frame: &Frame, j: u32) -> Result<Option<Anchor>, NoMemory>
    ensures { IfOk result (λ x. x ≡ anchors.anchor_in frame.now (Symbol j)) }
{
    if j >= frame.symbol_count() {
        return Ok(None);
    }
    let s = frame.symbol(j);
    let own = is_own(alloc, frame, &s)?;
    if own {
        return Ok(Some(Anchor {
            external: false,
            section: u32::from(s.n_sect).saturating_sub(1),
            offset: 0,
            counted: 0,
        }));
    }
    if is_stab(&s) || !is_external(&s) && is_nameless(frame, &s) {
        return Ok(None);
    }
    Ok(carried_anchor(frame, &s))
}

// where section number `k` lies
#[tactic(auto, unfolding(oc_macho::specs::Aims::aim_in))]
fn section_anchor(frame: &Frame, k: u32) -> Option<Anchor>
    ensures { result ≡ anchors.anchor_in frame.now (Section k) }
{
    if k == 0 {
        return None;
    }
    match header_numbered(frame, k) {
        Some(h) => Some(Anchor {
            external: false,
            section: k - 1,
            offset: 0,
            counted: h.addr,
        }),
        None => None,
    }
}

// where the section that holds an address lies
#[tactic(auto, unfolding(oc_macho::specs::Aims::aim_in))]
fn address_anchor(frame: &Frame, holders: &Holders, v: u32) -> Option<Anchor>
    requires { AreHolders frame.now holders.now }
    ensures { result ≡ anchors.anchor_in frame.now (Address v) }
{
    match holders.holder(v) {
        Some(k) => section_anchor(frame, k),
        None => None,
    }
}

/// Where what an entry refers to lies, if no other definition can change it. `NoMemory` where
/// memory ran out. Constant time for a symbol and for a section's number; for an address the
/// logarithm of the number of sections.
pub(crate) fn anchor_of(
    alloc: Global,
    frame: &Frame,
    holders: &Holders,
    r: Reference,
) -> Result<Option<Anchor>, NoMemory>
    requires { AreHolders frame.now holders.now }
    ensures { IfOk result (λ x. x ≡ anchors.anchor_in frame.now r) }
{
    match r {
        Reference::Symbol(j) => {
            let anchor = symbol_anchor(alloc, frame, j)?;
            Ok(anchor)
        }
        Reference::Section(k) => Ok(section_anchor(frame, k)),
        Reference::Address(v) => Ok(address_anchor(frame, holders, v)),
    }
}

// how far one number is above another
fn difference(a: u64, b: u64) -> i128
    ensures value { result ≡ pos a -ℤ pos b }
    ensures low { negsuc (2 ^ 64) ≤ℤ result }
    ensures high { result ≤ℤ pos (2 ^ 64) }
{
    i128::from(a) - i128::from(b)
}

// a number that was counted from one address, from another
fn recounted(number: i64, old: u64, new: u64) -> i128
    ensures value { result ≡ number -ℤ pos old +ℤ pos new }
    ensures low { negsuc (2 ^ 66) ≤ℤ result }
    ensures high { result ≤ℤ pos (2 ^ 66) }
{
    i128::from(number) - i128::from(old) + i128::from(new)
}

impl Anchor {
    /// Whether this less another is a constant: both lie in one section, and no other definition
    /// can change this. Constant time.
    pub(crate) fn is_fixed_from(&self, taken: &Anchor) -> bool
        ensures { result ≡ anchors.are_fixed self.now taken.now }
    {
        !self.external && self.section == taken.section
    }

    /// That constant, from the number in the field. Constant time.
    pub(crate) fn less(&self, taken: &Anchor, number: i64) -> i128
        ensures { result ≡ anchors.constant_by number self.now taken.now }
    {
        recounted(number, self.counted, taken.counted) + difference(self.offset, taken.offset)
    }
}
