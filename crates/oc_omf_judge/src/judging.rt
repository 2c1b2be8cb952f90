//! Judging a module: the first of its faults.
ghost use Rattle.std.specs.Prelude.{◌≡◌, ◌≤◌, length, None, IfErr, IfOk, OnOk};
ghost use Rattle.oc_base.specs.declared.limits.TheConstants.{MOST_INPUT};
ghost use Rattle.oc_base.specs.Stops.{IsStop};
ghost use Rattle.oc_omf.specs.Entries.{entries_in};
ghost use Rattle.oc_omf.specs.Rules.{fault_of};
ghost use Rattle.oc_omf.specs.Tables.{tables_of};
ghost use Rattle.oc_omf_judge.specs.Defined.{IsDefined};

use crate::defined::Defined;
use crate::front::judge_front;
use crate::locals::local_segments;
use crate::relocs::check_relocations;
use crate::whole::Whole;
use oc_base::{Fault, Stop};
use oc_neutral::Keep;
use oc_omf::Module;
use std::alloc::Global;

/// What is found in a module without faults.
#[derive(Drop)]
pub struct Found<'a> {
    /// Its entries.
    pub omf: Module<'a>,
    /// Its names, segments and groups, and which segments data cover.
    pub defined: Defined<'a>,
}

/// The module in a file of at most 67,108,864 bytes, with what its entries define, where it is a well formed object module of 32-bit
/// segments when it is read under `keep` (TIS OMF 1.1; our profile): an error exactly where it is not,
/// with its first fault; `NoMemory` where memory ran out, or where there are more than 9,586,980 relocated
/// fields (`oc_weight`).
///
/// The faults come in this order, and of one phase in the order of the file: those of entries, of
/// names, segments, groups and data, of symbols, of threads and fixups. The time is that of n log2(n)
/// steps for the n bytes of the file and the n places at which relocated fields begin, in any order of
/// these. There are never more fields than the segments have bytes: where two meet, reading stops. For
/// each of at most 1,024 places in the data of an entry, the blocks of iterated data are walked once
/// more. What the worst files known take is written in docs/SAFETY.md: seconds, and tens of seconds where
/// millions of symbols have names of their own.
pub fn judged<'a>(alloc: Global, bytes: &'a [u8], keep: &Keep) -> Result<Found<'a>, Stop>
    requires { length bytes.now ≤ MOST_INPUT }
    ensures well_formed { OnOk result (fault_of bytes.now keep.now ≡ None) }
    ensures module { IfOk result (λ j. j.omf ≡ bytes.now) }
    ensures defined { IfOk result (λ j. IsDefined (tables_of (entries_in j.omf)) j.defined) }
    ensures fault { IfErr result (IsStop (fault_of bytes.now keep.now)) }
{
    let front = match judge_front(alloc, bytes) {
        Ok(front) => front,
        Err(stop) => return Err(stop),
    };
    let locals = local_segments(alloc, &front.omf)?;
    let whole = Whole {
        front,
        locals,
        keep: *keep,
    };
    match check_relocations(alloc, &whole) {
        Ok(()) => Ok(Found {
            omf: whole.front.omf,
            defined: whole.front.defined,
        }),
        Err(stop) => Err(stop),
    }
}
