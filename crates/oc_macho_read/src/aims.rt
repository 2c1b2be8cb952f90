//! What relocation entries refer to, as building asks for it.
ghost use Rattle.std.specs.Prelude.{◌≡◌, ◌<◌, length};
ghost use Rattle.oc_shelf.specs.Reading.Slots.{AreSlots};
ghost use Rattle.oc_macho.specs.declared.relocation_info.Reference.TheVariants.{Address, Symbol};
ghost use Rattle.oc_macho_judge.specs.Holders.{AreHolders};
ghost use Rattle.std.specs.Option.{unwrap_or};
ghost use Rattle.oc_macho.specs.Sections.{holder_of};
ghost use Rattle.oc_macho_read.specs.Built.{symbol_position};
ghost use Rattle.oc_macho_read.specs.Given as given;

use crate::bindings::offset_of;
use oc_macho::{Frame, Item, Reference};
use oc_macho_judge::{Holders, address_of};
use oc_neutral::{Keep, Target};
use oc_shelf::Slots;

/// What an entry refers to.
#[derive(Clone, Copy)]
pub(crate) struct Aim {
    /// What the relocation of a field is against.
    pub(crate) target: Target,
    /// Where the entry refers to a section, the address that the file gives to it.
    pub(crate) counted: Option<u64>,
    /// The position of the section in which the thing lies, where it lies in one.
    pub(crate) section: u32,
    /// How far it is beyond the start of that section, in bytes.
    pub(crate) beyond: u64,
}

/// What relocations are made by beside the file: which sections are kept, the positions of the carried
/// symbols, and which section holds an address.
#[derive(Clone, Copy)]
pub(crate) struct RelocContext<'a> {
    /// The kinds of sections that are kept.
    pub(crate) keep: Keep,
    /// The position of each symbol among the carried ones, by its number.
    pub(crate) positions: &'a Slots,
    /// The sections by the addresses that the file gives to them.
    pub(crate) holders: &'a Holders,
}

// section number `k`
fn section_aim(frame: &Frame, k: u32) -> Aim
    ensures { result ≡ given.section_aim frame.now k }
{
    let section = k.saturating_sub(1);
    Aim {
        target: Target::Section(section),
        counted: Some(address_of(frame, k)),
        section,
        beyond: 0,
    }
}

// the section that holds an address
fn holder_aim(frame: &Frame, holders: &Holders, v: u32) -> Aim
    requires holders { AreHolders frame.now holders.now }
    requires aimed { given.IsAimed frame.now (Address v) }
    ensures { result ≡ given.section_aim frame.now (unwrap_or (holder_of frame.now v) 0) }
{
    let k = holders.holder(v).unwrap();
    section_aim(frame, k)
}

// symbol `j`; one that is not carried stands for its section
fn symbol_aim(frame: &Frame, known: &RelocContext, j: u32) -> Aim
    requires positions { AreSlots (symbol_position frame.now known.now.keep) (length frame.now.symbols) known.now.positions.now }
    requires there { j < length frame.now.symbols }
    ensures { result ≡ given.aim_for frame.now known.now.keep (Symbol j) }
{
    let s = frame.symbol(j);
    let section = u32::from(s.n_sect).saturating_sub(1);
    let target = match known.positions.get(j) {
        Some(position) => Target::Symbol(position),
        None => Target::Section(section),
    };
    Aim {
        target,
        counted: None,
        section,
        beyond: offset_of(frame, &s),
    }
}

/// What a reference is to, where a field can refer so. Constant time for a symbol or a section's
/// number; for an address that of a look-up among the sections.
pub(crate) fn aim_of(frame: &Frame, known: &RelocContext, r: Reference) -> Aim
    requires positions { AreSlots (symbol_position frame.now known.now.keep) (length frame.now.symbols) known.now.positions.now }
    requires holders { AreHolders frame.now known.now.holders.now }
    requires aimed { given.IsAimed frame.now r }
    ensures { result ≡ given.aim_for frame.now known.now.keep r }
{
    match r {
        Reference::Symbol(j) => symbol_aim(frame, known, j),
        Reference::Section(k) => section_aim(frame, k),
        Reference::Address(v) => holder_aim(frame, known.holders, v),
    }
}

/// What a pair takes. The time is that of `aim_of`.
pub(crate) fn taken_aim(frame: &Frame, known: &RelocContext, item: &Item) -> Option<Aim>
    requires positions { AreSlots (symbol_position frame.now known.now.keep) (length frame.now.symbols) known.now.positions.now }
    requires holders { AreHolders frame.now known.now.holders.now }
    requires aimed { given.AreAimed frame.now item.now }
    ensures { result ≡ given.taken_aim frame.now known.now.keep item.now }
{
    match item.taken(frame.word()) {
        Some(r) => Some(aim_of(frame, known, r)),
        None => None,
    }
}
