//! Why a text gives no placement.

use oc_base::NoMemory;
use thiserror::Error;

/// What is wrong with a line, a section or a symbol.
#[derive(Clone, Copy, Debug, PartialEq, Eq)]
pub enum PlaceCode {
    /// The line is of no form.
    BadLine,
    /// A number is 2^W or more, where addresses have W bits.
    TooLarge,
    /// There is no section, or no group, of that number.
    BadSection,
    /// No symbol that is not Local has this name.
    NoSymbol,
    /// An earlier line is about the same base, section, group or name.
    Repeated,
    /// No line places the section.
    Unplaced,
    /// The address is no multiple of the alignment, of a section or a common.
    Misaligned,
    /// The section ends beyond 2^W.
    PastEnd,
    /// No line gives the name an address, which it needs.
    Unnamed,
    /// A line gives the name an address, and it is defined here.
    Defined,
}

/// Why a text gives no placement.
#[derive(Clone, Copy, Debug, PartialEq, Eq, Error)]
pub enum PlaceFault {
    /// The first that is at fault.
    #[error("the placement is at fault")]
    Bad {
        /// The number of the line, counted from 1; of an `Unplaced`, `Misaligned`, `PastEnd`, `Unnamed` or
        /// `Defined` the position of the section or the symbol in the object, counted from 1.
        line: u32,
        /// What is wrong with it.
        code: PlaceCode,
    },
    /// Memory ran out.
    #[error("out of memory")]
    NoMemory,
}

impl From<NoMemory> for PlaceFault {
    ghost use Rattle.std.specs.Prelude.{◌≡◌};
    ghost use Rattle.oc_place.specs.declared.fault.PlaceFault.TheVariants as fault;

    ghost from_gives = { λ _ e. e ≡ fault.NoMemory };

    fn from(_: NoMemory) -> PlaceFault {
        PlaceFault::NoMemory
    }
}
