//! Relocation entries, and the conditions on each.
ghost use Rattle.std.specs.Prelude.{◌≡◌, ◌+◌, ◌<◌, ◌≤◌, ◌^◌, ◌&&◌, ◌||◌, not, nat_eq, nat_le, is_some, None, Some, IfErr, IfOk, IfSome, OnOk};
ghost use Rattle.oc_base.specs.Stops.{IsStop};
ghost use Rattle.oc_linking.specs.Numbers.{first_upto};
ghost use Rattle.oc_linking.specs.FirstFault.{first_broken};
ghost use Rattle.oc_neutral.specs.declared.elf.TheConstants as elf;
ghost use Rattle.oc_elf.specs.Fields as fields;
ghost use Rattle.oc_elf.specs.Frames.{header_at};
ghost use Rattle.oc_elf_judge.specs.Known.{AreTaken, can_be_target, IsAimed, IsTable};
ghost use Rattle.oc_elf.specs.RelocRules as rules;
ghost use Rattle.oc_elf.specs.Sections.{is_type};
ghost use Rattle.oc_elf.specs.Tables as tables;

use crate::homes::home_of;
use crate::symbols::{entry_of, is_section_symbol, symbol_count};
use oc_base::{Code, Fault, Phase, Stop};
use oc_elf::{Frame, R_NONE, Rel, Shdr, meaning_of, rel_at, rel_size};
use oc_neutral::Base;
use oc_neutral::elf::SHT_NOBITS;
use oc_shelf::{Bitmap, Slots};
use std::alloc::Global;

/// How many entries the relocation table of section `i` has. Constant time.
pub fn reloc_count(frame: &Frame, i: u32, table: &Shdr) -> u32
    requires { IsTable frame.now i table.now }
    ensures { result ≡ tables.reloc_count frame.now i }
{
    (table.sh_size / rel_size(frame.word())) as u32
}

/// Where entry `k` of it lies, in bytes from the start of the file. Constant time.
pub(crate) fn reloc_place(frame: &Frame, i: u32, table: &Shdr, k: u32) -> u64
    requires table { IsTable frame.now i table.now }
    requires there { k < tables.reloc_count frame.now i }
    ensures { result ≡ tables.reloc_place frame.now i k }
{
    table.sh_offset + rel_size(frame.word()) * u64::from(k)
}

/// Entry `k` of it. Constant time.
#[tactic(auto, unfolding(oc_elf::specs::Tables::reloc_of))]
pub fn reloc_of(frame: &Frame, i: u32, table: &Shdr, k: u32) -> Rel
    requires table { IsTable frame.now i table.now }
    requires there { k < tables.reloc_count frame.now i }
    ensures { result ≡ tables.reloc_of frame.now i k }
{
    let place = reloc_place(frame, i, table, k);
    rel_at(frame.word(), frame.file(), place as usize)
}

/// Whether an entry has no effect. Constant time.
pub fn is_idle(r: &Rel) -> bool
    ensures { result ≡ fields.is_idle r.now }
{
    r.r_type == R_NONE
}

// the fault of an entry of section `i` with this code and place
fn reloc_fault(code: Code, i: u32, place: u64) -> Fault
    ensures { result ≡ rules.reloc_fault code i place }
{
    Fault {
        phase: Phase::Relocation,
        index: i,
        code,
        place,
    }
}

// how many bytes of the file are the section's
fn stored_size(s: &Shdr) -> u64
    ensures { result ≡ rules.stored_size s.now }
{
    if s.sh_type == SHT_NOBITS {
        0
    } else {
        s.sh_size
    }
}

// whether a field of so many bytes lies in bytes of the file that are its section's
fn lies_within(s: &Shdr, r: &Rel, width: u64) -> bool
    ensures { result ≡ (not (is_type elf.SHT_NOBITS s.now) && nat_le (r.now.r_offset + width) s.now.sh_size) }
{
    s.sh_type != SHT_NOBITS && width <= s.sh_size && r.r_offset <= s.sh_size - width
}

/// What is known of the targets of relocations: the symbol table, and the positions of sections and
/// of symbols by their numbers.
#[derive(Clone, Copy)]
pub struct Aims<'a> {
    /// The header of the symbol table.
    pub table: &'a Shdr,
    /// The position of each section.
    pub sections: &'a Slots,
    /// The position of each symbol.
    pub symbols: &'a Slots,
}

// whether symbol `j` can be named
#[tactic(auto, unfolding(oc_elf::specs::RelocRules::is_nameable))]
fn is_nameable(frame: &Frame, aims: &Aims, j: u32) -> bool
    requires { IsAimed frame.now aims.now.table.now aims.now.sections.now aims.now.symbols.now }
    ensures { result ≡ rules.is_nameable frame.now j }
{
    j < symbol_count(frame, aims.table)
        && (j == 0
            || aims.symbols.get(j).is_some()
            || is_section_symbol(&entry_of(frame, aims.table, j)))
}

// whether symbol `j` can be the target of an entry whose value begins with this: a LOCAL one is looked at
fn is_target(frame: &Frame, aims: &Aims, j: u32, base: Base) -> bool
    requires aims { IsAimed frame.now aims.now.table.now aims.now.sections.now aims.now.symbols.now }
    requires there { j < tables.symbol_count frame.now }
    ensures { result ≡ can_be_target frame.now j base }
{
    if j == 0 {
        return false;
    }
    if j >= aims.table.sh_info {
        return true;
    }
    let s = entry_of(frame, aims.table, j);
    home_of(frame, aims.sections, &s).is_some() && matches!(base, Base::Address)
}

// how many bytes the field of an entry has, where it meets its own conditions
fn own_width(frame: &Frame, aims: &Aims, i: u32, place: u64, r: &Rel) -> Result<u64, Fault>
    requires { IsAimed frame.now aims.now.table.now aims.now.sections.now aims.now.symbols.now }
    ensures clean { OnOk result (first_broken (rules.own_conditions frame.now i place r.now) ≡ None) }
    ensures width { IfOk result (λ width. width ≡ fields.width_of frame.now r.now) }
    ensures fault { IfErr result (λ fault. first_broken (rules.own_conditions frame.now i place r.now) ≡ Some fault) }
{
    let meaning = match meaning_of(frame.class(), r.r_type) {
        Some(meaning) => meaning,
        None => return Err(reloc_fault(Code::RelocKind, i, place)),
    };
    let width = u64::from(meaning.form.width.bytes());
    if !lies_within(&frame.header(i), r, width) {
        return Err(reloc_fault(Code::BadOffset, i, place));
    }
    if !is_nameable(frame, aims, r.r_sym) {
        return Err(reloc_fault(Code::BadTarget, i, place));
    }
    if !is_target(frame, aims, r.r_sym, meaning.form.base) {
        return Err(reloc_fault(Code::TargetKind, i, place));
    }
    Ok(width)
}

// judges entry `k`, where the bytes of the fields before are taken, and takes its own
fn judge_entry(
    frame: &Frame,
    aims: &Aims,
    i: u32,
    table: &Shdr,
    bytes: &mut Bitmap,
    k: u32,
) -> Result<(), Stop>
    requires aims { IsAimed frame.now aims.now.table.now aims.now.sections.now aims.now.symbols.now }
    requires table { IsTable frame.now i table.now }
    requires there { k < tables.reloc_count frame.now i }
    requires small { (header_at frame.now.headers i).sh_size < 2 ^ 32 }
    requires taken { AreTaken frame.now i k bytes.old }
    ensures clean { OnOk result (rules.entry_fault frame.now i k ≡ None) }
    ensures taken { OnOk result (AreTaken frame.now i (k + 1) bytes.new) }
    ensures stop { IfErr result (IsStop (rules.entry_fault frame.now i k)) }
{
    let r = reloc_of(frame, i, table, k);
    if is_idle(&r) {
        return Ok(());
    }
    let place = reloc_place(frame, i, table, k);
    let width = match own_width(frame, aims, i, place, &r) {
        Err(fault) => return Err(Stop::Refused(fault)),
        Ok(width) => width,
    };
    let end = r.r_offset + width;
    if bytes.is_met(r.r_offset, end) {
        return Err(Stop::Refused(reloc_fault(Code::Overlap, i, place)));
    }
    bytes.take(r.r_offset, end);
    Ok(())
}

/// Judges the entries of the relocation table of section `i`.
///
/// Stops exactly where an entry has a fault, with the first; or where memory ran out. The time is
/// linear in the entries, in any order of offsets, and in the section's bytes where there are entries;
/// the memory is a bit for each of these bytes.
pub(crate) fn check_table(
    alloc: Global,
    frame: &Frame,
    aims: &Aims,
    i: u32,
    table: &Shdr,
) -> Result<(), Stop>
    requires aims { IsAimed frame.now aims.now.table.now aims.now.sections.now aims.now.symbols.now }
    requires table { IsTable frame.now i table.now }
    requires small { (header_at frame.now.headers i).sh_size < 2 ^ 32 }
    ensures clean { OnOk result (first_upto (rules.entry_fault frame.now i) (tables.reloc_count frame.now i) ≡ None) }
    ensures stop { IfErr result (IsStop (first_upto (rules.entry_fault frame.now i) (tables.reloc_count frame.now i))) }
{
    let count = reloc_count(frame, i, table);
    if count == 0 {
        return Ok(());
    }
    let mut bytes = Bitmap::new(alloc, stored_size(&frame.header(i)))?;
    for k in 0..count {
        match judge_entry(frame, aims, i, table, &mut bytes, k) {
            Err(stop) => return Err(stop),
            Ok(()) => (),
        }
    }
    Ok(())
}
