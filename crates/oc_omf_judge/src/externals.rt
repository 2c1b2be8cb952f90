//! Externals and communals.
ghost use Rattle.std.specs.Prelude.{◌≡◌, ◌+◌, ◌≤◌, ◌&&◌, length, false, is_some, not, nat_eq, None, OnOk, IfErr};
ghost use Rattle.std.specs.Option.{option_map_or};
ghost use Rattle.oc_base.specs.declared.limits.TheConstants.{MOST_INPUT};
ghost use Rattle.oc_omf_judge.specs.NameNumbers.{NameNumbers, value_at};
ghost use Rattle.oc_omf_judge.specs.EarlierSymbols as specs;

use crate::earlier::{EarlierSymbols, SeenExternal};
use crate::held::{take_up, value_of};
use crate::publics::{cut_fault, spot_in};
use crate::section_stage::EntryPlace;
use crate::symbol_stage::{communal_fault, symbol_fault};
use oc_base::{Code, Stop, View};
use oc_omf::{Communal, read_communal, read_external};
use std::collections::BTreeMap;

// whether an external of that name is of this module alone, but defined nowhere in it; `known` has
// the names of all definitions that this module alone sees
fn is_lost(known: &BTreeMap<&[u8], u32>, local: bool, name: &[u8]) -> bool
    ensures { result ≡ (local && not (is_some (value_at known.now name.now))) }
{
    local && value_of(known, name).is_none()
}

// judges an external that is no communal, and records it
fn take_external<'a>(
    known: &BTreeMap<&[u8], u32>,
    seen: &mut EarlierSymbols<'a>,
    here: EntryPlace,
    local: bool,
    name: &'a [u8],
) -> Result<(), Stop>
    ensures taken { OnOk result (specs.IsExternalTaken known.now seen.old (here.index, here.place) (specs.external_with local name.now None) seen.new) }
    ensures stop { IfErr result (specs.IsExternalStopped known.now seen.old (here.index, here.place) (specs.external_with local name.now None)) }
{
    if is_lost(known, local, name) {
        return Err(Stop::Refused(symbol_fault(here, Code::BadSymbol)));
    }
    if name.is_empty() {
        return Err(Stop::Refused(symbol_fault(here, Code::SymbolKind)));
    }
    seen.externals.push(SeenExternal { local, name })?;
    Ok(())
}

/// Judges the externals in the contents of an entry, and takes them up; they are of this module alone
/// where `local`, and `known` has the names of all definitions that this module alone sees.
///
/// Stops exactly where one has a fault, with the first; or where memory ran out. For each external the
/// time is that of about log2(n) comparisons of names.
pub(crate) fn take_externals<'a>(
    known: &BTreeMap<&[u8], u32>,
    seen: &mut EarlierSymbols<'a>,
    spot: EntryPlace,
    local: bool,
    contents: &View<'a>,
) -> Result<(), Stop>
    requires { spot.place + length contents.now ≤ MOST_INPUT }
    ensures taken { OnOk result (specs.AreExternalsTaken known.now seen.old spot.index (specs.externals_at spot.place local contents.now) seen.new) }
    ensures stop { IfErr result (specs.AreExternalsStopped known.now seen.old spot.index (specs.externals_at spot.place local contents.now)) }
{
    let mut at = 0;
    while at < contents.len() {
        let here = spot_in(spot, at);
        match read_external(contents, at) {
            Ok((name, after)) => match take_external(known, seen, here, local, name) {
                Ok(()) => at = after,
                Err(stop) => return Err(stop),
            },
            Err(cut) => return Err(Stop::Refused(cut_fault(here, cut))),
        }
    }
    Ok(())
}

// judges a communal, and records it
fn take_communal<'a>(
    seen: &mut EarlierSymbols<'a>,
    here: EntryPlace,
    name: &'a [u8],
    communal: Communal,
) -> Result<(), Stop>
    ensures taken { OnOk result (specs.IsCommunalTaken seen.old (here.index, here.place) name.now communal seen.new) }
    ensures stop { IfErr result (specs.IsCommunalStopped seen.old (here.index, here.place) name.now communal) }
{
    match communal_fault(here, communal) {
        Some(fault) => return Err(Stop::Refused(fault)),
        None => (),
    }
    if name.is_empty() {
        return Err(Stop::Refused(symbol_fault(here, Code::SymbolKind)));
    }
    let before = take_up(&mut seen.communals, name, communal.length)?;
    if is_other(before, communal.length) {
        return Err(Stop::Refused(symbol_fault(here, Code::DuplicateName)));
    }
    seen.externals.push(SeenExternal { local: false, name })?;
    Ok(())
}

// whether there was another length
fn is_other(before: Option<u32>, length: u32) -> bool
    ensures { result ≡ option_map_or (λ l. not (nat_eq length l)) before false }
{
    match before {
        Some(other) => other != length,
        None => false,
    }
}

/// Judges the communals in the contents of an entry, and takes them up.
///
/// Stops exactly where one has a fault, with the first; or where memory ran out. For each communal the
/// time is that of about log2(n) comparisons of names.
pub(crate) fn take_communals<'a>(
    seen: &mut EarlierSymbols<'a>,
    spot: EntryPlace,
    contents: &View<'a>,
) -> Result<(), Stop>
    requires { spot.place + length contents.now ≤ MOST_INPUT }
    ensures taken { OnOk result ((known : NameNumbers) → specs.AreExternalsTaken known seen.old spot.index (specs.communals_at spot.place contents.now) seen.new) }
    ensures stop { IfErr result (λ s. (known : NameNumbers) → specs.AreExternalsStopped known seen.old spot.index (specs.communals_at spot.place contents.now) s) }
{
    let mut at = 0;
    while at < contents.len() {
        let here = spot_in(spot, at);
        match read_communal(contents, at) {
            Ok(((name, communal), after)) => match take_communal(seen, here, name, communal) {
                Ok(()) => at = after,
                Err(stop) => return Err(stop),
            },
            Err(cut) => return Err(Stop::Refused(cut_fault(here, cut))),
        }
    }
    Ok(())
}
