//! Relocation entries, and the conditions on each.
ghost use Rattle.std.specs.Prelude.{◌≡◌, ◌+◌, ◌*◌, ◌<◌, ◌≤◌, is_some, slice_index_or, None, Some, IfErr, OnOk, ◌^◌};
ghost use Rattle.oc_base.specs.declared.limits.TheConstants.{MOST_INPUT};
ghost use Rattle.oc_base.specs.Stops.{IsStop};
ghost use Rattle.oc_linking.specs.FirstFault.{first_broken};
ghost use Rattle.oc_linking.specs.Numbers.{first_upto};
ghost use Rattle.oc_coff.specs.Fields as fields;
ghost use Rattle.oc_coff.specs.Files as files;
ghost use Rattle.oc_coff_judge.specs.Aimed as aimed;
ghost use Rattle.oc_coff_judge.specs.Relocs as rules;
ghost use Rattle.oc_coff_judge.specs.Relocs.{own_conditions};

use crate::aims::{AimKind, aim_at};
use oc_base::{Code, Fault, Phase, Stop, Word};
use oc_coff::{
    Coff, IMAGE_REL_I386_ABSOLUTE, RELOCATION_SIZE, Relocation, meaning_of, relocation_at,
};
use oc_neutral::{Base, Less};
use oc_shelf::Bitmap;
use std::alloc::Global;

/// The relocation table of a section that is carried.
#[derive(Clone, Copy)]
pub struct RelocTable {
    /// How many bytes the section has.
    pub size: u32,
    /// Whether they are in the file.
    pub stored: bool,
    /// Where the entries begin in the file, after the one that has their count.
    pub place: u64,
    /// How many entries there are.
    pub count: u32,
}

/// What is known of the targets of relocation entries.
#[derive(Clone, Copy)]
pub(crate) struct Aims<'a> {
    /// The word of the format.
    pub(crate) word: Word,
    /// What each entry of the symbol table stands for.
    pub(crate) symbols: &'a [Option<AimKind>],
}

/// Where entry `k` of a table lies, in bytes from the start of the file. Constant time.
pub(crate) fn reloc_place(table: &RelocTable, k: u32) -> u64
    requires there { k < table.now.count }
    requires lies { table.now.place + RELOCATION_SIZE * table.now.count ≤ MOST_INPUT }
    ensures { result ≡ rules.reloc_place table.now k }
{
    table.place + RELOCATION_SIZE as u64 * u64::from(k)
}

/// Entry `k` of a table. Constant time.
#[tactic(auto, unfolding(crate::specs::Relocs::reloc_of))]
pub fn reloc_of(coff: &Coff, i: u32, table: &RelocTable, k: u32) -> Relocation
    requires table { rules.IsTable coff.now i table.now }
    requires there { k < table.now.count }
    ensures { result ≡ rules.reloc_of coff.now table.now k }
{
    let place = reloc_place(table, k);
    relocation_at(coff.file(), place as usize)
}

/// Whether an entry has no effect. Constant time.
pub fn says_nothing(r: &Relocation) -> bool
    ensures { result ≡ fields.says_nothing r.now }
{
    r.Type == IMAGE_REL_I386_ABSOLUTE
}

// whether its type has a row
fn has_row(word: Word, r: &Relocation) -> bool
    ensures { result ≡ is_some (rules.row_for word r.now) }
{
    meaning_of(word, r.Type).is_some()
}

/// How many bytes its field has; 0 where its type has no row. Constant time.
pub(crate) fn width_of(word: Word, r: &Relocation) -> u32
    ensures width { result ≡ rules.width_of word r.now }
    ensures small { result ≤ 8 }
{
    match meaning_of(word, r.Type) {
        Some(meaning) => meaning.form.width.bytes(),
        None => 0,
    }
}

// whether its value has to do with the home of its target
fn takes_home(word: Word, r: &Relocation) -> bool
    ensures { result ≡ rules.takes_home word r.now }
{
    match meaning_of(word, r.Type) {
        Some(meaning) => {
            matches!(meaning.form.base, Base::HomeNumber) || matches!(meaning.form.less, Less::Home)
        }
        None => false,
    }
}

// whether no field can have what a symbol stands for, or none that takes the home
fn is_wrong(home: bool, aim: AimKind) -> bool
    ensures { result ≡ rules.is_wrong home aim }
{
    match aim {
        AimKind::Nothing => true,
        AimKind::Home => false,
        AimKind::Homeless => home,
    }
}

// the fault of an entry of section `i`, counted from 0, with this code and place
fn reloc_fault(code: Code, i: u32, place: u64) -> Fault
    requires low { i < 2 ^ 21 }
    ensures { result ≡ rules.reloc_fault code i place }
{
    Fault {
        phase: Phase::Relocation,
        index: i + 1,
        code,
        place,
    }
}

// how many bytes of the file are the section's
fn stored_size(table: &RelocTable) -> u64
    ensures { result ≡ rules.stored_size table.now }
{
    if table.stored {
        u64::from(table.size)
    } else {
        0
    }
}

// whether the field passes the bytes of its section that are in the file
fn passes_bytes(word: Word, table: &RelocTable, r: &Relocation) -> bool
    ensures { result ≡ rules.passes_bytes word table.now r.now }
{
    let end = u64::from(r.VirtualAddress) + u64::from(width_of(word, r));
    !table.stored || u64::from(table.size) < end
}

// the fault of the conditions that an entry at a place meets by itself
#[tactic(auto, unfolding(crate::specs::Relocs::own_conditions))]
fn own_fault(aims: &Aims, i: u32, table: &RelocTable, place: u64, r: &Relocation) -> Option<Fault>
    requires low { i < 2 ^ 21 }
    ensures { result ≡ first_broken (own_conditions aims.now.word i table.now place r.now (slice_index_or aims.now.symbols.now r.now.SymbolTableIndex None)) }
{
    if !has_row(aims.word, r) {
        return Some(reloc_fault(Code::RelocKind, i, place));
    }
    if passes_bytes(aims.word, table, r) {
        return Some(reloc_fault(Code::BadOffset, i, place));
    }
    match aim_at(aims.symbols, r.SymbolTableIndex) {
        None => Some(reloc_fault(Code::BadTarget, i, place)),
        Some(aim) => {
            if is_wrong(takes_home(aims.word, r), aim) {
                Some(reloc_fault(Code::TargetKind, i, place))
            } else {
                None
            }
        }
    }
}

// judges entry `k`, where the bytes of the fields before are taken, and takes its own
fn judge_entry(
    coff: &Coff,
    aims: &Aims,
    i: u32,
    table: &RelocTable,
    bytes: &mut Bitmap,
    k: u32,
) -> Result<(), Stop>
    requires low { i < 2 ^ 21 }
    requires aims { aims.now.symbols.now ≡ aimed.aims_in (files.tables_in coff.now) }
    requires table { rules.IsTable coff.now i table.now }
    requires there { k < table.now.count }
    requires taken { rules.AreTaken aims.now.word coff.now table.now k bytes.old }
    ensures clean { OnOk result (rules.entry_fault aims.now.word (files.tables_in coff.now) i k ≡ None) }
    ensures taken { OnOk result (rules.AreTaken aims.now.word coff.now table.now (k + 1) bytes.new) }
    ensures stop { IfErr result (IsStop (rules.entry_fault aims.now.word (files.tables_in coff.now) i k)) }
{
    coff.is_headed();
    let r = reloc_of(coff, i, table, k);
    if says_nothing(&r) {
        return Ok(());
    }
    let place = reloc_place(table, k);
    match own_fault(aims, i, table, place, &r) {
        Some(fault) => return Err(Stop::Refused(fault)),
        None => (),
    }
    let begin = u64::from(r.VirtualAddress);
    let end = begin + u64::from(width_of(aims.word, &r));
    if bytes.is_met(begin, end) {
        return Err(Stop::Refused(reloc_fault(Code::Overlap, i, place)));
    }
    bytes.take(begin, end);
    Ok(())
}

/// Judges the relocation entries of section `i`, counted from 0.
///
/// Stops exactly where an entry has a fault, with the first; or where memory ran out. The time is
/// linear in the entries, in any order of offsets, and in the section's bytes where there are entries;
/// the memory is a bit for each of these bytes.
pub(crate) fn check_table(
    alloc: Global,
    coff: &Coff,
    aims: &Aims,
    i: u32,
    table: &RelocTable,
) -> Result<(), Stop>
    requires low { i < 2 ^ 21 }
    requires aims { aims.now.symbols.now ≡ aimed.aims_in (files.tables_in coff.now) }
    requires table { rules.IsTable coff.now i table.now }
    ensures clean { OnOk result (first_upto (rules.entry_fault aims.now.word (files.tables_in coff.now) i) table.now.count ≡ None) }
    ensures stop { IfErr result (IsStop (first_upto (rules.entry_fault aims.now.word (files.tables_in coff.now) i) table.now.count)) }
{
    let count = table.count;
    if count == 0 {
        return Ok(());
    }
    let mut bytes = Bitmap::new(alloc, stored_size(table))?;
    for k in 0..count {
        match judge_entry(coff, aims, i, table, &mut bytes, k) {
            Err(stop) => return Err(stop),
            Ok(()) => (),
        }
    }
    Ok(())
}
