//! Which sections have names that lie too far in a string table (PE/COFF, "Section Table").
ghost use Rattle.std.specs.Prelude.{◌≡◌, IfOk, false, length, map, slice_get};
ghost use Rattle.std.specs.Option.{option_and_then, option_map_or};
ghost use Rattle.std.specs.List.{list_any};
ghost use Rattle.oc_express.specs.NameMarks.{AreNamesMarked};
ghost use Rattle.oc_neutral.specs.Coff.Family as coff;
ghost use Rattle.oc_neutral.specs.Coff.Strings as strings;
ghost use Rattle.oc_neutral.specs.Families.{family_of};
ghost use Rattle.oc_neutral.specs.HomeNames.{output_names};
ghost use Rattle.oc_target.specs.Far.{lies_far, lies_far_in};

use oc_base::{Bytes, Format, NoMemory};
use oc_neutral::Neutral;
use oc_neutral::coff::{MOST_NAME_OFFSET, STRINGS_HEAD};
use oc_strings::offsets;
use oc_target::{default_names, given_names, is_tabled};
use std::alloc::Global;

// whether an offset has more digits than a section header has room for
fn is_far(offset: u64) -> bool
    ensures { result ≡ coff.is_far offset }
{
    offset > MOST_NAME_OFFSET
}

// whether the name at a place among those with these offsets lies too far
fn is_far_at(offsets: &[u64], place: Option<usize>) -> bool
    ensures { result ≡ option_map_or coff.is_far (option_and_then (slice_get offsets.now) place) false }
{
    let Some(at) = place else {
        return false;
    };
    match offsets.get(at) {
        Some(offset) => is_far(*offset),
        None => false,
    }
}

// the same for each of these places
fn far_places(
    alloc: Global,
    offsets: &[u64],
    places: &[Option<usize>],
) -> Result<Vec<bool>, NoMemory>
    ensures { IfOk result (λ far. far.items ≡ map (λ place. option_map_or coff.is_far (option_and_then (slice_get offsets.now) place) false) places.now) }
{
    let mut far = Vec::with_capacity(alloc, places.len())?;
    for place in places {
        far.push(is_far_at(offsets, *place))?;
    }
    Ok(far)
}

// whether one of these names of sections is in the string table
fn is_any_tabled(names: &[Bytes]) -> bool
    ensures { result ≡ list_any strings.is_tabled names.now }
{
    names.iter().any(|name| is_tabled(name.as_slice()))
}

// for each section whether its name lies too far in the string table of a COFF output; the table is
// laid out only where one of these names is in it
fn far_in_table(
    alloc: Global,
    target: Format,
    neutral: &Neutral,
    names: &[Bytes],
) -> Result<Vec<bool>, NoMemory>
    ensures { IfOk result (λ far. AreNamesMarked (lies_far_in (family_of target).writes_local names.now neutral.now) names.now far.items) }
{
    if !is_any_tabled(names) {
        return Ok(Vec::new(alloc));
    }
    let defaults = default_names(alloc, neutral)?;
    let given = given_names(alloc, target, neutral, names, &defaults)?;
    let offsets = offsets(alloc, STRINGS_HEAD as u32, &given.names)?;
    far_places(alloc, &offsets, &given.places)
}

/// For each section, which have these names in the output, whether its name lies too far in the
/// target's string table; that of a section past the end of the result does not. `NoMemory` where
/// memory ran out.
///
/// Where the target is COFF and one of the names is in the table, the table is laid out once: the
/// time is that of sorting the names of the symbols and sections from their last bytes on. Where
/// none does, it is linear in the sections; with another target it is constant.
pub(crate) fn far_names(
    alloc: Global,
    target: Format,
    neutral: &Neutral,
    names: &[Bytes],
) -> Result<Vec<bool>, NoMemory>
    requires { names.now ≡ output_names target neutral.now }
    ensures { IfOk result (λ far. AreNamesMarked (lies_far target neutral.now) names.now far.items) }
{
    match target {
        Format::Coff32 | Format::Coff64 | Format::BigCoff32 | Format::BigCoff64 => far_in_table(
            alloc, target, neutral, names,
        ),
        Format::Elf32
        | Format::Elf64
        | Format::BigElf32
        | Format::BigElf64
        | Format::Mac32
        | Format::Mac64
        | Format::Omf => { Ok(Vec::new(alloc)) }
    }
}
