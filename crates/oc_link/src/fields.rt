//! The values of fields.
ghost use Rattle.std.specs.Prelude.{◌≡◌, ◌+◌, ◌<◌, length};
ghost use Rattle.oc_linking.specs.Numbers.{minus};
ghost use Rattle.oc_neutral.specs.Invariants.{IsNormal, NamesOriginal};
ghost use Rattle.oc_neutral.specs.Objects.{Object};
ghost use Rattle.oc_neutral.specs.Worth as objects;
ghost use Rattle.oc_place.specs.Placings.{IsPlacingOf};
ghost use Rattle.oc_link.specs.Values as values;
ghost use Rattle.oc_link.specs.Values.{IsLessIn};

use crate::target::{TargetValue, value_of};
use oc_algebra::residue;
use oc_base::{Word, word_of};
use oc_chains::Field;
use oc_linking::{Patch, modulus};
use oc_neutral::{Base, Less, Neutral, Reloc};
use oc_place::Placements;

// what a value begins with
fn base_of(placed: &Placements, target: TargetValue, base: Base) -> u64
    ensures { (n : Object) → result ≡ objects.base_of (values.laid n placed.now) (values.as_valued target) base }
{
    match base {
        Base::Address => target.spot.address,
        Base::Slot => target.slot,
        Base::GotBase => placed.got(),
        Base::HomeNumber => target.spot.number,
    }
}

// what is taken from it, for a field at an offset of a section
fn less_of(placed: &Placements, section: u32, at: u32, target: TargetValue, less: Less) -> u128
    requires there { section < length placed.now.spots }
    requires less { IsLessIn (length placed.now.spots) less }
    ensures { (n : Object) → result ≡ objects.less_of (values.laid n placed.now) section at (values.as_valued target) less }
{
    match less {
        Less::Zero => 0,
        Less::Place => u128::from(placed.section(section).address) + u128::from(at),
        Less::GotBase => placed.got().into(),
        Less::ImageBase => placed.image().into(),
        Less::Home => target.spot.home.into(),
        Less::Section(k) => placed.section(k).address.into(),
    }
}

// two numbers, less a third, modulo 2^W
fn sum_less(word: Word, base: u64, addend: u64, less: u128) -> u64
    ensures { result ≡ minus word (base + addend) less }
{
    let modulus = modulus(word);
    let sum = u128::from(base) + u128::from(addend);
    ((sum + (modulus - less % modulus)) % modulus) as u64
}

/// A field of a section with its value. Constant time, no memory.
pub(crate) fn patch_of(
    object: &Neutral,
    placed: &Placements,
    section: u32,
    field: Field<Reloc>,
) -> Patch
    requires there { section < length object.now.sections }
    requires normal { IsNormal object.now section field.item }
    requires original { NamesOriginal object.now.symbols field.item.target }
    requires placing { IsPlacingOf object.now placed.now }
    ensures { result ≡ values.patch_at object.now placed.now section field.at field.item }
{
    let reloc = field.item;
    let word = word_of(object.format());
    let target = value_of(object, placed, reloc.target);
    let base = base_of(placed, target, reloc.form.base);
    let less = less_of(placed, section, field.at, target, reloc.form.less);
    let addend = residue(word, reloc.addend.into());
    Patch {
        width: reloc.form.width,
        check: reloc.form.check,
        residue: sum_less(word, base, addend, less),
    }
}
