//! The stage of sections.
ghost use Rattle.std.specs.Prelude.{◌≡◌, ◌+◌, ◌<◌, ◌≤◌, nat_lt, length, Some, None, IfErr, IfOk, OnOk};
ghost use Rattle.oc_linking.specs.FirstFault.{first_broken, stage_fault, fault_of};
ghost use Rattle.oc_linking.specs.Numbers.{modulus};
ghost use Rattle.oc_macho.specs.Framed as framed;
ghost use Rattle.oc_macho_judge.specs.Judged as judged;
ghost use Rattle.oc_macho.specs.SectionFaults as rules;

use oc_base::{Code, Fault, MOST_CONTENTS, Phase, Word};
use oc_macho::{
    Frame, MOST_ALIGN_EXPONENT, RELOCATION_INFO_SIZE, SectionHeader, is_odd, is_zerofill, kind_of,
    passes_end,
};
use oc_neutral::Kind;

/// The most bytes that a section may take, that all take, and that all store.
const MOST_SIZE: u64 = 2_147_483_647;

const MOST_SIZES: u64 = 2_147_483_648;

// a fault of section `i`, counted from 0, at a place
fn section_fault(frame: &Frame, i: u32, place: u64, code: Code) -> Fault
    requires { i < length frame.now.sections }
    ensures { result ≡ rules.section_fault i place code }
{
    Fault {
        phase: Phase::Section,
        index: frame.number(i),
        code,
        place,
    }
}

// whether a section ends past the last address of a word
fn passes_last(word: Word, h: &SectionHeader) -> bool
    ensures { result ≡ nat_lt (modulus word) (h.now.addr + h.now.size) }
{
    let end = u128::from(h.addr) + u128::from(h.size);
    match word {
        Word::W32 => end > 1 << 32,
        Word::W64 => end > 1 << 64,
    }
}

// the fault of the conditions on a header by its own numbers
#[tactic(auto, unfolding(oc_macho::specs::SectionFaults::own_conditions))]
fn own_fault(frame: &Frame, i: u32, h: &SectionHeader) -> Option<Fault>
    requires { i < length frame.now.sections }
    ensures { result ≡ first_broken (rules.own_conditions frame.now i h.now) }
{
    let place = frame.header_place(i);
    if h.align > MOST_ALIGN_EXPONENT {
        return Some(section_fault(frame, i, place, Code::AlignRange));
    }
    if is_odd(h) {
        return Some(section_fault(frame, i, place, Code::SectionKind));
    }
    if passes_last(frame.word(), h) {
        return Some(section_fault(frame, i, place, Code::BadTable));
    }
    bytes_fault(frame, i, h)
}

// the fault of the conditions on what a header places
fn bytes_fault(frame: &Frame, i: u32, h: &SectionHeader) -> Option<Fault>
    requires { i < length frame.now.sections }
    ensures { result ≡ first_broken (rules.place_conditions frame.now i h.now) }
{
    let (offset, reloff) = (u64::from(h.offset), u64::from(h.reloff));
    if !is_zerofill(h) && passes_end(frame.size(), offset, h.size) {
        return Some(section_fault(frame, i, offset, Code::Short));
    }
    let table = RELOCATION_INFO_SIZE as u64 * u64::from(h.nreloc);
    if passes_end(frame.size(), reloff, table) {
        return Some(section_fault(frame, i, reloff, Code::Short));
    }
    None
}

/// How much the sections so far count against the limits.
#[derive(Clone, Copy, Debug, PartialEq, Eq)]
pub(crate) struct Sums {
    /// The bytes that they take.
    pub(crate) sizes: u64,
    /// The bytes that they store.
    pub(crate) bytes: u64,
}

// how many bytes a section stores
fn stored_of(h: &SectionHeader) -> u64
    ensures stored { result ≡ rules.stored_of h.now }
    ensures few { result ≤ h.now.size }
{
    match kind_of(h) {
        Kind::Zero => 0,
        Kind::Code
        | Kind::ReadOnly
        | Kind::Data
        | Kind::Init
        | Kind::Fini
        | Kind::Debug
        | Kind::Exception
        | Kind::Note => h.size,
    }
}

// the sums with section `i`, where they keep the limits, and those of the sections before are these;
// an error where one is passed, with the first
#[tactic(auto, unfolding(oc_macho::specs::SectionFaults::limit_conditions))]
fn with_section(frame: &Frame, i: u32, h: &SectionHeader, sums: Sums) -> Result<Sums, Fault>
    requires there { i < length frame.now.sections }
    requires header { h.now ≡ (framed.table_at frame.now i).header }
    requires sums { judged.AreSums frame.now i sums.sizes sums.bytes }
    ensures clean { OnOk result (first_broken (rules.limit_conditions frame.now i h.now) ≡ None) }
    ensures sums { IfOk result (λ s. judged.AreSums frame.now (i + 1) s.sizes s.bytes) }
    ensures fault { IfErr result (λ fault. first_broken (rules.limit_conditions frame.now i h.now) ≡ Some fault) }
{
    if h.size > MOST_SIZE {
        return Err(section_fault(frame, i, h.size, Code::LimitSection));
    }
    let sizes = sums.sizes + h.size;
    if sizes > MOST_SIZES {
        return Err(section_fault(frame, i, sizes, Code::LimitSum));
    }
    let bytes = sums.bytes + stored_of(h);
    if bytes > MOST_CONTENTS {
        return Err(section_fault(frame, i, bytes, Code::LimitBytes));
    }
    Ok(Sums { sizes, bytes })
}

// the sums with section `i`, where it has no fault, and those of the sections before are these; an
// error where it has a fault, with the first
fn judge_section(frame: &Frame, i: u32, sums: Sums) -> Result<Sums, Fault>
    requires there { i < length frame.now.sections }
    requires sums { judged.AreSums frame.now i sums.sizes sums.bytes }
    ensures clean { OnOk result (fault_of (rules.section_stage frame.now) i ≡ None) }
    ensures sums { IfOk result (λ s. judged.AreSums frame.now (i + 1) s.sizes s.bytes) }
    ensures fault { IfErr result (λ fault. fault_of (rules.section_stage frame.now) i ≡ Some fault) }
{
    let h = frame.section(i);
    match own_fault(frame, i, &h) {
        Some(fault) => return Err(fault),
        None => (),
    }
    match with_section(frame, i, &h, sums) {
        Ok(more) => Ok(more),
        Err(fault) => Err(fault),
    }
}

/// Judges the sections.
///
/// Stops exactly where a section has a fault, with the first. Linear in the sections.
pub(crate) fn check_sections(frame: &Frame) -> Result<(), Fault>
    ensures clean { OnOk result (stage_fault (rules.section_stage frame.now) ≡ None) }
    ensures fault { IfErr result (λ fault. stage_fault (rules.section_stage frame.now) ≡ Some fault) }
{
    let count = frame.section_count();
    let mut sums = Sums { sizes: 0, bytes: 0 };
    for i in 0..count {
        match judge_section(frame, i, sums) {
            Ok(more) => sums = more,
            Err(fault) => return Err(fault),
        }
    }
    Ok(())
}
