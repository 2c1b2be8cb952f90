//! Which symbols are carried.
ghost use Rattle.std.specs.Prelude.{◌≡◌, ◌<◌, length, is_some};
ghost use Rattle.oc_shelf.specs.Reading.Slots.{AreSlots};
ghost use Rattle.oc_elf.specs.CarriedSections.{position_of};
ghost use Rattle.oc_elf.specs.CarriedSymbols as symbols;
ghost use Rattle.oc_elf_judge.specs.Known.{IsSymtab};
ghost use Rattle.oc_elf.specs.Tables.{symbol_count};

use crate::homes::home_of;
use crate::symbols::{entry_of, is_local, is_section_symbol, name_of};
use oc_elf::{Frame, SHN_ABS, SHN_COMMON, SHN_UNDEF, STT_FILE, Shdr, Sym};
use oc_shelf::Slots;

/// Whether a symbol is passed over: a FILE, a section's own, or a Local without a name. Linear in the
/// name.
#[tactic(auto, unfolding(oc_elf::specs::CarriedSymbols::is_passed))]
pub fn is_passed(frame: &Frame, table: &Shdr, s: &Sym) -> bool
    requires { IsSymtab frame.now table.now }
    ensures { result ≡ symbols.is_passed frame.now s.now }
{
    s.st_type() == STT_FILE
        || is_section_symbol(s)
        || is_local(s) && name_of(frame, table, s).is_empty()
}

// whether a symbol has a value: ABS, or its section is carried
fn has_value(frame: &Frame, positions: &Slots, s: &Sym) -> bool
    requires { AreSlots (position_of frame.now) (length frame.now.headers) positions.now }
    ensures { result ≡ is_some (symbols.value_of frame.now s.now) }
{
    s.st_shndx == SHN_ABS || home_of(frame, positions, s).is_some()
}

// whether a symbol has a binding
#[tactic(auto, unfolding(oc_elf::specs::CarriedSymbols::binding_of))]
fn has_binding(frame: &Frame, positions: &Slots, s: &Sym) -> bool
    requires { AreSlots (position_of frame.now) (length frame.now.headers) positions.now }
    ensures { result ≡ is_some (symbols.binding_of frame.now s.now) }
{
    let elsewhere = !is_local(s) && (s.st_shndx == SHN_UNDEF || s.st_shndx == SHN_COMMON);
    elsewhere || has_value(frame, positions, s)
}

/// Whether symbol `k` is carried. Linear in its name.
#[tactic(auto, unfolding(oc_elf::specs::CarriedSymbols::symbol_of, oc_elf::specs::CarriedSymbols::symbol_by))]
pub(crate) fn is_carried_symbol(frame: &Frame, table: &Shdr, positions: &Slots, k: u32) -> bool
    requires table { IsSymtab frame.now table.now }
    requires positions { AreSlots (position_of frame.now) (length frame.now.headers) positions.now }
    requires there { k < symbol_count frame.now }
    ensures { result ≡ is_some (symbols.symbol_of frame.now k) }
{
    if k == 0 {
        return false;
    }
    let s = entry_of(frame, table, k);
    !is_passed(frame, table, &s) && has_binding(frame, positions, &s)
}
