//! What a target can express of sections.
ghost use Rattle.std.specs.Prelude.{◌≡◌, nat_lt, false, get_or, length, List, [], count_by};
ghost use Rattle.std.specs.List.{range_with_len};
ghost use Rattle.std.specs.Option.{option_map, option_map_or, option_and_then};
ghost use Rattle.oc_base.specs.Faults.{fault_at};
ghost use Rattle.oc_linking.specs.FirstFault.{first_broken};
ghost use Rattle.oc_linking.specs.Numbers.{first_upto};
ghost use Rattle.oc_neutral.specs.Faces as faces;
ghost use Rattle.oc_neutral.specs.HomeNames.{output_names};
ghost use Rattle.oc_neutral.specs.Objects.{Object};
ghost use Rattle.oc_neutral.specs.Relocated.{is_relocated};
ghost use Rattle.oc_neutral.specs.Families as families;
ghost use Rattle.oc_neutral.specs.Families.{family_of};
ghost use Rattle.oc_neutral.specs.KindRules as rules;
ghost use Rattle.oc_neutral.specs.Omf.Family as omf;
ghost use Rattle.oc_neutral.specs.TargetSections as conditions;
ghost use Rattle.oc_neutral.specs.TargetSections.{section_conditions, section_spot};
ghost use Rattle.oc_neutral.specs.Tests as tests;
ghost use Rattle.oc_target.specs.Far.{lies_far};
ghost use Rattle.oc_target.specs.Marks.{AreCut, AreKeyed};
ghost use Rattle.oc_express.specs.NameMarks.{AreNamesMarked};

use oc_base::{Bytes, Code, Fault, Format, Phase, Spot};
use oc_neutral::{Kind, Neutral, Section, coff, elf};
use oc_target::{
    has_nul, is_marked, is_relocated, keeps_debug, key_of, most_align, same_format,
    takes_exceptions,
};

// whether two kinds are the same
fn same_kind(a: Kind, b: Kind) -> bool
    ensures { result ≡ rules.same_kind a b }
{
    a == b
}

// whether a Debug section cannot stay as it is
fn is_debug_kept(target: Format, from: Format, kind: Kind) -> bool
    ensures { result ≡ conditions.is_debug_kept target from kind }
{
    same_kind(kind, Kind::Debug) && (!same_format(target, from) || !keeps_debug(from))
}

// whether an Exception section comes from where the target takes none
fn is_exception_kept(target: Format, from: Format, kind: Kind) -> bool
    ensures { result ≡ conditions.is_exception_kept target from kind }
{
    same_kind(kind, Kind::Exception)
        && !same_format(target, from)
        && !takes_exceptions(target, from)
}

// whether the target has no sections of the kind
fn is_unavailable(target: Format, kind: Kind) -> bool
    ensures { result ≡ conditions.is_unavailable target kind }
{
    match target {
        Format::Omf => same_kind(kind, Kind::Init) || same_kind(kind, Kind::Fini),
        Format::Elf32
        | Format::Elf64
        | Format::BigElf32
        | Format::BigElf64
        | Format::Coff32
        | Format::Coff64
        | Format::BigCoff32
        | Format::BigCoff64
        | Format::Mac32
        | Format::Mac64 => false,
    }
}

// whether the section is a member of a group whose key has a NUL; `cut` tells this for each group
fn has_cut_key(section: &Section, cut: &[bool]) -> bool
    ensures { (n : Object) → AreCut n cut.now → result ≡ option_map_or rules.has_nul (option_and_then (faces.key_of n.groups) section.now.group) false }
{
    match section.group {
        Some(group) => is_marked(cut, group as usize),
        None => false,
    }
}

// whether the name has a NUL, or the key of the section's group has one
fn is_cut(name: &[u8], section: &Section, cut: &[bool]) -> bool
    ensures { (n : Object) → AreCut n cut.now → result ≡ tests.is_cut n name.now section.now }
{
    has_nul(name) || has_cut_key(section, cut)
}

/// Whether a name is longer than one of OMF can be. Constant time.
pub(crate) fn is_too_long(name: &[u8]) -> bool
    ensures { result ≡ omf.is_too_long name.now }
{
    name.len() > 255
}

// whether the target cannot write the name of a section, or the key of its group; `far` tells whether
// the name lies too far in the target's string table
fn is_name_form(target: Format, name: &[u8], section: &Section, far: bool, cut: &[bool]) -> bool
    ensures { (n : Object) → far ≡ lies_far target n name.now → AreCut n cut.now → result ≡ conditions.is_name_form target n name.now section.now }
{
    match target {
        Format::Elf32
        | Format::Elf64
        | Format::BigElf32
        | Format::BigElf64
        | Format::Mac32
        | Format::Mac64 => { is_cut(name, section, cut) }
        Format::Coff32 | Format::Coff64 | Format::BigCoff32 | Format::BigCoff64 => is_cut(
            name, section, cut,
        ) || far,
        Format::Omf => is_too_long(name),
    }
}

// whether the target cannot write a member of that group; `keyed` tells for each group whether it
// has its key symbol
fn lacks_member(target: Format, group: u32, keyed: &[bool]) -> bool
    ensures { (n : Object) → AreKeyed n keyed.now → result ≡ (family_of target).lacks_member n group }
{
    match target {
        Format::Elf32 | Format::Elf64 | Format::BigElf32 | Format::BigElf64 => false,
        Format::Coff32 | Format::Coff64 | Format::BigCoff32 | Format::BigCoff64 => !is_marked(
            keyed,
            group as usize,
        ),
        Format::Mac32 | Format::Mac64 | Format::Omf => true,
    }
}

// whether the section is a member of a group, which the target cannot write
fn is_group_form(target: Format, section: &Section, keyed: &[bool]) -> bool
    ensures { (n : Object) → AreKeyed n keyed.now → result ≡ conditions.is_group_form target n section.now }
{
    match section.group {
        Some(group) => lacks_member(target, group, keyed),
        None => false,
    }
}

#[tactic(auto, unfolding(oc_neutral::specs::TargetSections::section_conditions))]
// the code of the first condition that a section breaks, which has this name in the output
fn code_of(
    target: Format,
    neutral: &Neutral,
    name: &[u8],
    section: &Section,
    far: bool,
    keyed: &[bool],
    cut: &[bool],
) -> Option<Code>
    requires far { far ≡ lies_far target neutral.now name.now }
    requires keyed { AreKeyed neutral.now keyed.now }
    requires cut { AreCut neutral.now cut.now }
    ensures { option_map (fault_at (section_spot section.now)) result ≡ first_broken (section_conditions target neutral.now name.now section.now) }
{
    let from = neutral.format();
    if is_debug_kept(target, from, section.kind) {
        Some(Code::DebugKept)
    } else if is_exception_kept(target, from, section.kind) {
        Some(Code::ExceptionKept)
    } else if is_unavailable(target, section.kind) {
        Some(Code::KindUnavailable)
    } else if section.align > most_align(target) {
        Some(Code::AlignTooBig)
    } else if is_name_form(target, name, section, far, cut) {
        Some(Code::NameForm)
    } else if is_group_form(target, section, keyed) {
        Some(Code::GroupForm)
    } else {
        None
    }
}

// the name at a position; no bytes past the last
fn name_at(names: &[Bytes], at: usize) -> &[u8]
    ensures { result.now ≡ get_or names.now at [] }
{
    match names.get(at) {
        Some(name) => name.as_slice(),
        None => &[],
    }
}

// what a section breaks
fn section_spot(section: &Section) -> Spot
    ensures { result ≡ section_spot section.now }
{
    Spot {
        phase: Phase::TargetSection,
        index: section.number,
        place: 0,
    }
}

/// The first fault of the sections of an object in a target, in the order of the list; `names` are
/// their names in the output, `far` tells for each whether it lies too far in the string table, and
/// for each group `keyed` tells whether it has its key symbol, and `cut` whether its key has a NUL.
/// Linear time but for the names, no memory.
#[tactic(auto, using(oc_linking::proofs::Upto::first_upto_stop))]
pub(crate) fn sections_fault(
    target: Format,
    neutral: &Neutral,
    names: &[Bytes],
    far: &[bool],
    keyed: &[bool],
    cut: &[bool],
) -> Option<Fault>
    requires names { names.now ≡ output_names target neutral.now }
    requires far { AreNamesMarked (lies_far target neutral.now) names.now far.now }
    requires keyed { AreKeyed neutral.now keyed.now }
    requires cut { AreCut neutral.now cut.now }
    ensures { result ≡ first_upto (λ i. first_broken (conditions.conditions_at target neutral.now i)) (length neutral.now.sections) }
{
    for k in 0..neutral.section_count() {
        let at = k as usize;
        let section = neutral.section(k);
        let name = name_at(names, at);
        let far = is_marked(far, at);
        if let Some(code) = code_of(target, neutral, name, section, far, keyed, cut) {
            return Some(section_spot(section).fault(code));
        }
    }
    None
}

// how many sections have relocations in a target
fn relocated_count(target: Format, neutral: &Neutral) -> u32
    ensures { result ≡ count_by (is_relocated target neutral.now) (range_with_len 0 (length neutral.now.sections)) }
{
    let mut count = 0;
    for k in 0..neutral.section_count() {
        if is_relocated(target, neutral, k) {
            count += 1;
        }
    }
    count
}

// what is counted of sections: in ELF their headers, elsewhere themselves
fn counted(target: Format, neutral: &Neutral) -> u64
    ensures { result ≡ conditions.section_counts target neutral.now }
{
    let sections = u64::from(neutral.section_count());
    match target {
        Format::Elf32 | Format::Elf64 => {
            let relocated = u64::from(relocated_count(target, neutral));
            4 + u64::from(neutral.group_count()) + sections + relocated
        }
        Format::BigElf32 | Format::BigElf64 => {
            let relocated = u64::from(relocated_count(target, neutral));
            5 + u64::from(neutral.group_count()) + sections + relocated
        }
        Format::Coff32
        | Format::Coff64
        | Format::BigCoff32
        | Format::BigCoff64
        | Format::Mac32
        | Format::Mac64
        | Format::Omf => sections,
    }
}

// the least such number that a target is for
fn least(target: Format) -> u64
    ensures { result ≡ (families.section_range target).least }
{
    match target {
        Format::BigElf32 | Format::BigElf64 => elf::SHN_LORESERVE.into(),
        Format::Elf32
        | Format::Elf64
        | Format::Coff32
        | Format::Coff64
        | Format::BigCoff32
        | Format::BigCoff64
        | Format::Mac32
        | Format::Mac64
        | Format::Omf => 0,
    }
}

// the greatest such number that a target has room for
fn most(target: Format) -> u64
    ensures { result ≡ (families.section_range target).most }
{
    match target {
        Format::Elf32 | Format::Elf64 => u64::from(elf::SHN_LORESERVE) - 1,
        Format::BigElf32 | Format::BigElf64 => elf::MOST_HEADERS.into(),
        Format::Coff32 | Format::Coff64 => coff::IMAGE_SYM_SECTION_MAX.into(),
        Format::BigCoff32 | Format::BigCoff64 => coff::MOST_SECTIONS.into(),
        Format::Mac32 | Format::Mac64 => 255,
        Format::Omf => 30_000,
    }
}

// a fault of the number of sections
fn number_fault(code: Code, place: u64) -> Option<Fault>
    ensures { result ≡ Some (fault_at (conditions.count_spot place) code) }
{
    let spot = Spot {
        phase: Phase::TargetSection,
        index: 0,
        place,
    };
    Some(spot.fault(code))
}

/// The fault of a target on the number of sections of an object. Linear time, no memory.
pub(crate) fn count_fault(target: Format, neutral: &Neutral) -> Option<Fault>
    ensures { result ≡ first_broken (conditions.section_count target neutral.now) }
{
    let counted = counted(target, neutral);
    if counted < least(target) {
        return number_fault(Code::TooFew, counted);
    }
    if most(target) < counted {
        return number_fault(Code::TooMany, counted);
    }
    None
}
