//! Judging a module, as far as its symbols.
ghost use Rattle.std.specs.Prelude.{◌≡◌, ◌≤◌, length, None, IfErr, IfOk, OnOk};
ghost use Rattle.oc_base.specs.declared.limits.TheConstants.{MOST_INPUT};
ghost use Rattle.oc_base.specs.Stops.{IsStop};
ghost use Rattle.oc_linking.specs.FirstFault.{first_fault};
ghost use Rattle.oc_omf_judge.specs.Judged.{IsFront, front_stages};

use crate::defined::Defined;
use crate::earlier::EarlierSymbols;
use crate::sections::check_sections;
use crate::symbol_loop::check_symbols;
use oc_base::Stop;
use oc_omf::{Module, read_module};
use std::alloc::Global;

/// A module whose entries, sections and symbols have no fault.
#[derive(Drop)]
pub struct Front<'a> {
    /// Its entries.
    pub omf: Module<'a>,
    /// Its names, segments, groups and data.
    pub defined: Defined<'a>,
    /// Its symbols.
    pub seen: EarlierSymbols<'a>,
}

/// Judges the entries, the sections and the symbols of a file of at most 67,108,864 bytes.
///
/// Stops exactly where one has a fault, with the first; or where memory ran out. The time is linear in
/// the file; for each symbol there are about log2(n) comparisons of names, and for each data about
/// log2(n) of numbers.
pub fn judge_front<'a>(alloc: Global, file: &'a [u8]) -> Result<Front<'a>, Stop>
    requires { length file.now ≤ MOST_INPUT }
    ensures clean { OnOk result (first_fault (front_stages file.now) ≡ None) }
    ensures front { IfOk result (λ f. IsFront file.now f) }
    ensures stop { IfErr result (IsStop (first_fault (front_stages file.now))) }
{
    let omf = match read_module(alloc, file) {
        Ok(omf) => omf,
        Err(stop) => return Err(stop),
    };
    let defined = match check_sections(alloc, &omf) {
        Ok(defined) => defined,
        Err(stop) => return Err(stop),
    };
    let seen = match check_symbols(alloc, &omf) {
        Ok(seen) => seen,
        Err(stop) => return Err(stop),
    };
    Ok(Front { omf, defined, seen })
}
