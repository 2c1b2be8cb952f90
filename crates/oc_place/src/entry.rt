//! What a line says.
ghost use Rattle.std.specs.Prelude.{◌≡◌, ◌^◌};
ghost use Rattle.oc_place.specs.Written as lines;

use crate::spot::Spot;
use oc_base::Word;
use oc_linking::modulus;

/// What a line says; its name, where it is about one, is kept beside it.
#[derive(Clone, Copy, Debug, PartialEq, Eq)]
pub(crate) enum PlacementLine {
    /// The base of the image.
    Image(u64),
    /// The base of the global offset table.
    Got(u64),
    /// Where a section lies.
    Section {
        /// The number of the section, counted from 1.
        number: u64,
        /// Where it lies.
        spot: Spot,
    },
    /// The group of that number, counted from 1, is discarded.
    Drop(u64),
    /// Where an outside name lies.
    Name {
        /// Where it lies.
        spot: Spot,
        /// The address of its slot.
        slot: u64,
    },
    /// The address of the slot of a name.
    Slot(u64),
}

// whether a number is 2^W or more
fn is_large(word: Word, number: u64) -> bool
    ensures { result ≡ lines.is_large word number }
{
    u128::from(number) >= modulus(word)
}

// whether one of the three numbers is
fn is_spot_large(word: Word, spot: Spot) -> bool
    ensures { result ≡ lines.is_spot_large word spot }
{
    is_large(word, spot.address) || is_large(word, spot.home) || is_large(word, spot.number)
}

impl PlacementLine {
    /// Whether one of the numbers of an entry is 2^W or more, where addresses have W bits. The number
    /// of a section or a group is none of them. Constant time, no memory.
    pub(crate) fn is_large(self, word: Word) -> bool
        ensures { result ≡ lines.is_entry_large word self }
    {
        match self {
            PlacementLine::Image(base) => is_large(word, base),
            PlacementLine::Got(base) => is_large(word, base),
            PlacementLine::Section { spot, .. } => is_spot_large(word, spot),
            PlacementLine::Drop(_) => false,
            PlacementLine::Name { spot, slot } => is_spot_large(word, spot) || is_large(word, slot),
            PlacementLine::Slot(slot) => is_large(word, slot),
        }
    }
}
