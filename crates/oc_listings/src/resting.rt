//! The residue of a relocation where all sections lie at 0.
ghost use Rattle.std.specs.Prelude.{◌≡◌, ◌+◌, ◌-◌, ◌^◌, ◌<◌, slice_get};
ghost use Rattle.std.specs.Option.{option_map_or};
ghost use Rattle.oc_linking.specs.Numbers.{minus, modulus};
ghost use Rattle.oc_algebra.specs.Residues.{residue_of};
ghost use Rattle.oc_listings.specs.ObjectListings as listings;

use oc_algebra::residue;
use oc_base::Word;
use oc_linking::{Base, Binding, Fallback, Less, Value, modulus, reduced};
use oc_neutral::{Reloc, Symbol, Target};

// the number of a value
fn own_number(word: Word, value: Value) -> u64
    ensures { result ≡ listings.own_number word value }
{
    match value {
        Value::Place { offset, .. } => reduced(word, offset.into()),
        Value::Absolute(x) => reduced(word, x),
    }
}

// the number of a symbol that is not Weak
fn strong_number(word: Word, binding: Binding) -> u64
    ensures { result ≡ listings.strong_number word binding }
{
    match binding {
        Binding::Local(value) | Binding::Global(value) => own_number(word, value),
        Binding::Undefined | Binding::Common { .. } | Binding::Weak(_) => 0,
    }
}

// the number of the fallback that is the symbol at a position
fn named_number(word: Word, symbols: &[Symbol], index: u32) -> u64
    ensures { result ≡ option_map_or (λ (s : Symbol). listings.strong_number word s.binding) (slice_get symbols.now index) 0 }
{
    match symbols.get(index as usize) {
        Some(symbol) => strong_number(word, symbol.binding),
        None => 0,
    }
}

// the number of a fallback
fn fallback_number(word: Word, symbols: &[Symbol], fallback: Fallback) -> u64
    ensures { result ≡ listings.fallback_number word symbols.now fallback }
{
    match fallback {
        Fallback::Place { offset, .. } => reduced(word, offset.into()),
        Fallback::Zero => 0,
        Fallback::Name(index) => named_number(word, symbols, index),
    }
}

// the number of a symbol with that binding
fn resting_number(word: Word, symbols: &[Symbol], binding: Binding) -> u64
    ensures { result ≡ listings.resting_number word symbols.now binding }
{
    match binding {
        Binding::Local(value) | Binding::Global(value) => own_number(word, value),
        Binding::Undefined | Binding::Common { .. } => 0,
        Binding::Weak(fallback) => fallback_number(word, symbols, fallback),
    }
}

// the number of a target
fn target_number(word: Word, symbols: &[Symbol], target: Target) -> u64
    ensures { result ≡ listings.target_number word symbols.now target }
{
    match target {
        Target::Section(_) => 0,
        Target::Symbol(index) => match symbols.get(index as usize) {
            Some(symbol) => resting_number(word, symbols, symbol.binding),
            None => 0,
        },
    }
}

// what a value begins with
fn base_number(base: Base, number: u64) -> u64
    ensures { result ≡ listings.base_number base number }
{
    match base {
        Base::Address => number,
        Base::Slot | Base::GotBase | Base::HomeNumber => 0,
    }
}

// what is taken from it
fn less_number(less: Less, offset: u32) -> u64
    ensures { result ≡ listings.less_number less offset }
{
    match less {
        Less::Place => offset.into(),
        Less::Zero | Less::GotBase | Less::ImageBase | Less::Home | Less::Section(_) => 0,
    }
}

// the residue of a number with an addend, less another
#[tactic(auto, using(crate::proofs::RestLaws::minus_below))]
fn residue_by(word: Word, number: u64, addend: i64, less: u64) -> u64
    ensures value { result ≡ minus word (number + residue_of word addend) less }
    ensures below { result < modulus word }
{
    let modulus = modulus(word);
    let sum = u128::from(number) + u128::from(residue(word, addend.into()));
    ((sum + (modulus - u128::from(less) % modulus)) % modulus) as u64
}

/// The residue of a relocation at an offset, where all sections lie at 0, the image and the GOT too, no
/// group is discarded, and no Weak has an address from outside. Constant time, no memory.
pub(crate) fn resting_residue(word: Word, symbols: &[Symbol], offset: u32, reloc: Reloc) -> u64
    ensures value { result ≡ listings.resting_residue word symbols.now offset reloc }
    ensures below { result < modulus word }
{
    let number = base_number(reloc.form.base, target_number(word, symbols, reloc.target));
    residue_by(
        word,
        number,
        reloc.addend,
        less_number(reloc.form.less, offset),
    )
}
