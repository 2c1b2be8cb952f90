//! Symbols at offsets of segments.
ghost use Rattle.std.specs.Prelude.{◌≡◌, ◌+◌, ◌≤◌, length, OnOk, IfErr};
ghost use Rattle.oc_base.specs.declared.limits.TheConstants.{MOST_INPUT};
ghost use Rattle.oc_omf_judge.specs.NameNumbers.{NameNumbers};
ghost use Rattle.oc_omf_judge.specs.EarlierSymbols as specs;
ghost use Rattle.oc_omf.specs.SymbolFaults as rules;
ghost use Rattle.oc_omf.specs.Sections.{size_at};
ghost use Rattle.oc_omf.specs.Tables.{Tables};
ghost use Rattle.oc_omf.specs.declared.topics.Topic.TheVariants as topic;

use crate::defined::segment_at;
use crate::earlier::EarlierSymbols;
use crate::section_stage::{EntryPlace, segment_size};
use crate::symbol_stage::{base_fault, code_of, symbol_fault};
use oc_base::{Code, Fault, Stop, View};
use oc_omf::{Cut, ENTRY_HEAD, Public, read_base, read_public};

/// The spot of a place in an entry, counted from the first byte of its contents. Constant time.
pub(crate) fn spot_in(spot: EntryPlace, at: u64) -> EntryPlace
    requires { spot.place + at ≤ MOST_INPUT }
    ensures index { result.index ≡ spot.index }
    ensures place { result.place ≡ spot.place + 3 + at }
{
    EntryPlace {
        index: spot.index,
        place: spot.place + ENTRY_HEAD + at,
    }
}

/// The fault of a structure that is cut. Constant time.
pub(crate) fn cut_fault(here: EntryPlace, cut: Cut) -> Fault
    ensures { result ≡ rules.symbol_fault (here.index, here.place) (rules.code_of cut) }
{
    symbol_fault(here, code_of(cut))
}

// how many bytes the segment of an index has, 0 where there is none
fn size_at(seen: &EarlierSymbols<'_>, index: u16) -> u64
    ensures { (t : Tables) → specs.AreEarlierSymbols t seen.now → result ≡ size_at t index }
{
    match segment_at(seen.segments.as_slice(), index) {
        Some(segment) => segment_size(&segment),
        None => 0,
    }
}

// judges a symbol of a segment, and records it
fn take_public<'a>(
    seen: &mut EarlierSymbols<'a>,
    here: EntryPlace,
    local: bool,
    segment: u16,
    public: Public<'a>,
) -> Result<(), Stop>
    ensures taken { OnOk result (specs.IsPublicTaken seen.old (here.index, here.place) (specs.public_with local segment public.entry) seen.new) }
    ensures stop { IfErr result (specs.IsPublicStopped seen.old (here.index, here.place) (specs.public_with local segment public.entry)) }
{
    if u64::from(public.offset) > size_at(seen, segment) {
        return Err(Stop::Refused(symbol_fault(here, Code::SymbolPastEnd)));
    }
    if public.name.is_empty() {
        return Err(Stop::Refused(symbol_fault(here, Code::SymbolKind)));
    }
    let again = seen.take_name(local, public.name)?;
    if again {
        return Err(Stop::Refused(symbol_fault(here, Code::DuplicateName)));
    }
    Ok(())
}

// judges the symbols of a segment from `at` on, and takes them up
fn take_publics<'a>(
    seen: &mut EarlierSymbols<'a>,
    spot: EntryPlace,
    wide: bool,
    local: bool,
    segment: u16,
    contents: &View<'a>,
    at: u64,
) -> Result<(), Stop>
    requires { spot.place + length contents.now ≤ MOST_INPUT }
    ensures taken { OnOk result (specs.ArePublicsTaken seen.old spot.index (specs.definitions_at spot.place wide local segment contents.now at) seen.new) }
    ensures stop { IfErr result (specs.ArePublicsStopped seen.old spot.index (specs.definitions_at spot.place wide local segment contents.now at)) }
{
    let mut at = at;
    while at < contents.len() {
        let here = spot_in(spot, at);
        match read_public(contents, wide, at) {
            Ok((public, after)) => match take_public(seen, here, local, segment, public) {
                Ok(()) => at = after,
                Err(stop) => return Err(stop),
            },
            Err(cut) => return Err(Stop::Refused(cut_fault(here, cut))),
        }
    }
    Ok(())
}

/// Judges the symbols in the contents of an entry, of the odd type where `wide`, and takes them up.
///
/// Stops exactly where one has a fault, with the first; or where memory ran out. For each symbol the
/// time is that of about log2(n) comparisons of names.
pub(crate) fn take_public_entry<'a>(
    seen: &mut EarlierSymbols<'a>,
    spot: EntryPlace,
    wide: bool,
    local: bool,
    contents: &View<'a>,
) -> Result<(), Stop>
    requires { spot.place + length contents.now ≤ MOST_INPUT }
    ensures taken { OnOk result ((known : NameNumbers) → specs.IsSeenThere known seen.old spot (topic.Publics local) wide contents.now seen.new) }
    ensures stop { IfErr result (λ s. (known : NameNumbers) → specs.IsStoppedThere known seen.old spot (topic.Publics local) wide contents.now s) }
{
    let (base, at) = match read_base(contents) {
        Ok(read) => read,
        Err(cut) => return Err(Stop::Refused(cut_fault(spot, cut))),
    };
    let groups = seen.groups.len() as u64;
    let segments = seen.segments.len() as u64;
    match base_fault(groups, segments, spot, base) {
        Some(fault) => return Err(Stop::Refused(fault)),
        None => (),
    }
    match take_publics(seen, spot, wide, local, base.segment, contents, at) {
        Ok(()) => Ok(()),
        Err(stop) => Err(stop),
    }
}
