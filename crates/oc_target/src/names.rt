//! What the sections of an object are called in a target.
ghost use Rattle.std.specs.Prelude.{◌≡◌, ◌<◌, ◌^◌, IfOk, length, map, slice_get, Some, List, []};
ghost use Rattle.oc_base.specs.Strings as strings;
ghost use Rattle.oc_neutral.specs.declared.section.Section.{Section as Shown};
ghost use Rattle.oc_neutral.specs.HomeNames as homes;
ghost use Rattle.oc_neutral.specs.Relocated.{is_relocated};
ghost use Rattle.oc_neutral.specs.Mach.Family as mach;
ghost use Rattle.oc_neutral.specs.Mach.Kinds as kinds;
ghost use Rattle.oc_target.specs.Commas.{comma_place};

use crate::formats::same_format;
use crate::homes::{Home, home_of};
use crate::stored::is_relocated;
use oc_base::{Bytes, Format, NoMemory};
use oc_neutral::{Neutral, Section};
use std::alloc::Global;

// what a section is to be called, by whether it has relocations
fn wanted_name<'a>(target: Format, relocated: bool, section: &'a Section) -> &'a [u8]
    ensures { result.now ≡ homes.wanted_name target relocated section.now }
{
    match home_of(target, relocated, section.kind) {
        Some(
            Home {
                name: Some(name),
                ..
            },
        ) => name,
        _ => section.name.as_slice(),
    }
}

// what the section at a position is to be called
fn wanted_at<'a>(target: Format, neutral: &'a Neutral, at: u32) -> &'a [u8]
    requires { at < length neutral.now.sections }
    ensures { (s : Shown) → slice_get neutral.now.sections at ≡ Some s → result.now ≡ homes.wanted_name target (is_relocated target neutral.now at) s }
{
    let relocated = is_relocated(target, neutral, at);
    wanted_name(target, relocated, neutral.section(at))
}

// whether the name is one of the names
fn is_given(names: &[Bytes], name: &[u8]) -> bool
    ensures { result ≡ strings.is_given names.now name.now }
{
    for given in names {
        if name == given.as_slice() {
            return true;
        }
    }
    false
}

// where the first comma lies
fn comma_at(name: &[u8]) -> Option<usize>
    ensures { result ≡ comma_place name.now }
{
    name.iter().position(|byte| *byte == 44)
}

// the segment in a name of Mach-O
fn segment_of(name: &[u8]) -> &[u8]
    ensures { result.now ≡ kinds.segment_of name.now }
{
    match comma_at(name) {
        Some(at) => &name[..at],
        None => name,
    }
}

// the name of section k of the output, counted from 1, in the segment of that name
fn numbered_name(alloc: Global, k: usize, name: &[u8]) -> Result<Bytes, NoMemory>
    ensures { IfOk result (λ numbered. numbered ≡ mach.numbered_name k name.now) }
{
    let number = format!(in alloc; ",__s{k}")?;
    let mut bytes = segment_of(name).to_vec(alloc)?;
    bytes.extend_from_slice(number.as_bytes())?;
    Ok(Bytes::from_vec(bytes))
}

// the name of the next section of Mach-O, where the ones before it have these names
fn final_name(alloc: Global, names: &[Bytes], name: &[u8]) -> Result<Bytes, NoMemory>
    requires { length names.now < 2 ^ 32 }
    ensures { IfOk result (λ next. next ≡ homes.final_name mach.numbered_name names.now name.now) }
{
    if is_given(names, name) {
        return numbered_name(alloc, names.len() + 1, name);
    }
    Bytes::from_slice(alloc, name)
}

// the names as they are
fn own_names(alloc: Global, neutral: &Neutral) -> Result<Vec<Bytes>, NoMemory>
    ensures { IfOk result (λ names. names.items ≡ map (λ (s : Shown). s.name) neutral.now.sections) }
{
    let mut names = Vec::with_capacity(alloc, neutral.section_count() as usize)?;
    for k in 0..neutral.section_count() {
        names.push(Bytes::from_slice(alloc, neutral.section(k).name.as_slice())?)?;
    }
    Ok(names)
}

// the names across formats, where they may repeat
#[tactic(auto, unfolding(oc_neutral::specs::HomeNames::wanted_names))]
fn wanted_names(alloc: Global, target: Format, neutral: &Neutral) -> Result<Vec<Bytes>, NoMemory>
    ensures { IfOk result (λ names. names.items ≡ homes.wanted_names target neutral.now) }
{
    let mut names = Vec::with_capacity(alloc, neutral.section_count() as usize)?;
    for k in 0..neutral.section_count() {
        names.push(Bytes::from_slice(alloc, wanted_at(target, neutral, k))?)?;
    }
    Ok(names)
}

// the names across formats, where each is to differ from those before
#[tactic(auto, unfolding(oc_neutral::specs::HomeNames::wanted_names))]
fn final_names(alloc: Global, target: Format, neutral: &Neutral) -> Result<Vec<Bytes>, NoMemory>
    ensures { IfOk result (λ names. names.items ≡ homes.final_names mach.numbered_name [] (homes.wanted_names target neutral.now)) }
{
    let mut names = Vec::with_capacity(alloc, neutral.section_count() as usize)?;
    for k in 0..neutral.section_count() {
        let name = final_name(alloc, &names, wanted_at(target, neutral, k))?;
        names.push(name)?;
    }
    Ok(names)
}

/// The names of the sections of an object in a target, in their order. `NoMemory` where memory ran out.
///
/// The time is linear in the names and the relocations, and where the target is Mach-O and the object
/// is not, also at most quadratic in the number of sections, of which Mach-O has at most 255.
#[tactic(auto, unfolding(oc_neutral::specs::HomeNames::output_names))]
pub fn output_names(
    alloc: Global,
    target: Format,
    neutral: &Neutral,
) -> Result<Vec<Bytes>, NoMemory>
    ensures { IfOk result (λ names. names.items ≡ homes.output_names target neutral.now) }
{
    if same_format(target, neutral.format()) {
        return own_names(alloc, neutral);
    }
    match target {
        Format::Mac32 | Format::Mac64 => final_names(alloc, target, neutral),
        Format::Elf32
        | Format::Elf64
        | Format::BigElf32
        | Format::BigElf64
        | Format::Coff32
        | Format::Coff64
        | Format::BigCoff32
        | Format::BigCoff64
        | Format::Omf => { wanted_names(alloc, target, neutral) }
    }
}
