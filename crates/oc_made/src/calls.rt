//! The calls of the functions.
ghost use Rattle.std.specs.Prelude.{◌≡◌, ◌+◌, ◌-◌, ◌*◌, ◌^◌, ◌<◌, ◌≤◌, [], ◌∷◌, ◌++◌, length, IfOk, OnOk};
ghost use Rattle.oc_chains.specs.Fields.{field, FollowFrom};
ghost use Rattle.oc_chains.specs.Lists.{held_in, list_of};
ghost use Rattle.oc_made.specs.Functions as functions;

use crate::code::FUNCTION_SIZE;
use crate::symbols::MOST_OUTSIDE;
use oc_base::{NoMemory, Word};
use oc_chains::{ChainFault, Chains};
use oc_neutral::{Base, Check, Form, Hint, Less, Reloc, Target, Width};
use std::alloc::Global;

// the distance from a field of four bytes to the symbol at a position
fn call(word: Word, symbol: u32) -> Reloc
    ensures { result ≡ functions.call word symbol }
{
    let check = match word {
        Word::W32 => Check::Wrap,
        Word::W64 => Check::Signed,
    };
    Reloc {
        target: Target::Symbol(symbol),
        form: Form {
            base: Base::Address,
            less: Less::Place,
            width: Width::Four,
            check,
        },
        addend: -4,
        hint: Hint::Plain,
    }
}

// puts a call at `at` after all others of the one section; `NoMemory` where memory ran out
fn put_behind(calls: &mut Chains<Reloc>, at: u32, call: Reloc) -> Result<(), NoMemory>
    requires alone { length calls.old.lists ≡ 1 }
    requires behind { FollowFrom 0 (list_of calls.old.lists 0 ++ field at 4 call ∷ []) }
    requires room { held_in calls.old.lists < 2 ^ 32 - 1 }
    ensures { OnOk result (calls.new.lists ≡ (list_of calls.old.lists 0 ++ field at 4 call ∷ []) ∷ []) }
{
    match calls.insert(0, at, 4, call) {
        Ok(()) => Ok(()),
        Err(ChainFault::NoMemory) => Err(NoMemory),
        Err(ChainFault::Overlap) => unreachable!(),
    }
}

/// The calls of so many functions in their one section. `NoMemory` where memory ran out. Linear in
/// them.
pub(crate) fn calls_of(alloc: Global, word: Word, count: u32) -> Result<Chains<Reloc>, NoMemory>
    requires { count ≤ 100000 }
    ensures { IfOk result (λ calls. calls.lists ≡ functions.calls_of word count ∷ []) }
{
    let mut calls = Chains::new(alloc);
    let _section = calls.add_section()?;
    for i in 0..count {
        let at = FUNCTION_SIZE * i;
        put_behind(&mut calls, at + 1, call(word, (5 * i + 1) % count))?;
        put_behind(&mut calls, at + 6, call(word, count + i % MOST_OUTSIDE))?;
    }
    Ok(calls)
}
