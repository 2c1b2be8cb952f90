//! The positions of the sections of symbols among the carried ones.
ghost use Rattle.std.specs.Prelude.{◌≡◌, length};
ghost use Rattle.oc_shelf.specs.Reading.Slots.{AreSlots};
ghost use Rattle.oc_elf.specs.CarriedSections.{position_of};
ghost use Rattle.oc_elf.specs.CarriedSymbols as symbols;

use oc_elf::{Frame, SHN_LORESERVE, Sym};
use oc_shelf::Slots;

/// The position of a symbol's section among the carried ones. Constant time.
pub fn home_of(frame: &Frame, positions: &Slots, s: &Sym) -> Option<u32>
    requires { AreSlots (position_of frame.now) (length frame.now.headers) positions.now }
    ensures { result ≡ symbols.home_of frame.now s.now }
{
    if s.st_shndx < SHN_LORESERVE {
        return positions.get(s.st_shndx);
    }
    None
}
