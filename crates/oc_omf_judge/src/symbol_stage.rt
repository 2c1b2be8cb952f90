//! The stage of symbols.
ghost use Rattle.std.specs.Prelude.{◌≡◌};
ghost use Rattle.oc_linking.specs.FirstFault.{first_broken};
ghost use Rattle.oc_omf.specs.SymbolFaults as rules;

use crate::section_stage::EntryPlace;
use oc_base::{Code, Fault, Phase};
use oc_omf::{Communal, Cut, MOST_SHORT_LENGTH, NEAR, PublicBase};

/// A fault of what lies at a place in an entry. Constant time.
pub(crate) fn symbol_fault(spot: EntryPlace, code: Code) -> Fault
    ensures { result ≡ rules.symbol_fault (spot.index, spot.place) code }
{
    Fault {
        phase: Phase::Symbol,
        index: spot.index,
        code,
        place: spot.place,
    }
}

/// The code for a field that is cut. Constant time.
pub(crate) fn code_of(cut: Cut) -> Code
    ensures { result ≡ rules.code_of cut }
{
    match cut {
        Cut::Name => Code::BadName,
        Cut::Index => Code::BadIndex,
        Cut::Field => Code::BadTable,
    }
}

/// The fault of where the symbols of an entry lie, after so many groups and segments. Constant
/// time.
#[tactic(auto, unfolding(oc_omf::specs::SymbolFaults::base_conditions))]
pub(crate) fn base_fault(
    groups: u64,
    segments: u64,
    spot: EntryPlace,
    base: PublicBase,
) -> Option<Fault>
    ensures { result ≡ first_broken (rules.base_conditions groups segments (spot.index, spot.place) base) }
{
    if u64::from(base.group) > groups || u64::from(base.segment) > segments {
        return Some(symbol_fault(spot, Code::BadIndex));
    }
    if base.segment == 0 {
        return Some(symbol_fault(spot, Code::SymbolKind));
    }
    None
}

// whether the first byte of a communal's length is of no form
fn is_no_form(form: u8) -> bool
    ensures { result ≡ rules.is_no_form form }
{
    form > MOST_SHORT_LENGTH && !matches!(form, 0x81 | 0x84 | 0x88)
}

/// The fault of what is given of a communal besides its name. Constant time.
#[tactic(auto, unfolding(oc_omf::specs::SymbolFaults::communal_conditions))]
pub(crate) fn communal_fault(spot: EntryPlace, communal: Communal) -> Option<Fault>
    ensures { result ≡ first_broken (rules.communal_conditions (spot.index, spot.place) communal) }
{
    if communal.kind != NEAR {
        return Some(symbol_fault(spot, Code::SymbolKind));
    }
    if is_no_form(communal.form) || communal.length == 0 {
        return Some(symbol_fault(spot, Code::BadCommon));
    }
    None
}
