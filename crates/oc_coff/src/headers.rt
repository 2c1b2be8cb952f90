//! The file header, and what it places in the file.
ghost use Rattle.std.specs.Prelude.{◌≡◌, ◌+◌, ◌*◌, ◌<◌, ◌^◌, [], ◌∷◌, drop, Some};
ghost use Rattle.oc_linking.specs.FirstFault.{first_broken};
ghost use Rattle.oc_coff.specs.FileHeader.{file_header_of};
ghost use Rattle.oc_coff.specs.Forms.{symbol_size};
ghost use Rattle.oc_coff.specs.HeaderFaults as rules;
ghost use Rattle.oc_coff.specs.Tables as tables;

use crate::constants::BIG_VERSION;
use crate::file_header::{FileHeader, file_header_of};
use crate::form::{Shape, header_size};
use crate::section_header::SECTION_HEADER_SIZE;
use crate::symbol::{BIG_SYMBOL_SIZE, SYMBOL_SIZE};
use oc_base::{Code, Fault, Phase, u32_in};
use oc_neutral::coff::STRINGS_HEAD;

// a fault of the file header, or of what it places
fn fault_at(code: Code, place: u64) -> Option<Fault>
    ensures { result ≡ Some (rules.header_fault place code) }
{
    Some(Fault {
        phase: Phase::Header,
        index: 0,
        code,
        place,
    })
}

/// Whether so many bytes at a place pass the end of a file. Constant time.
pub fn passes_end(file: &[u8], at: u64, n: u64) -> bool
    requires { (at < 2 ^ 60) × (n < 2 ^ 60) }
    ensures { result ≡ rules.passes_end file.now at n }
{
    (file.len() as u64) < at + n
}

/// How many bytes so many entries of the symbol table take. Constant time.
pub(crate) fn entries_size(shape: Shape, count: u32) -> u64
    ensures size { result ≡ symbol_size shape * count }
    ensures few { result < 2 ^ 40 }
{
    match shape {
        Shape::Usual => SYMBOL_SIZE as u64 * u64::from(count),
        Shape::Big => BIG_SYMBOL_SIZE as u64 * u64::from(count),
    }
}

/// Where the string table begins, in bytes from the start of the file. Constant time.
pub(crate) fn strings_place(shape: Shape, h: &FileHeader) -> u64
    ensures place { result ≡ tables.strings_place shape h.now }
    ensures few { result < 2 ^ 60 }
{
    u64::from(h.PointerToSymbolTable) + entries_size(shape, h.NumberOfSymbols)
}

/// Whether there is a string table. Constant time.
pub(crate) fn has_strings(shape: Shape, file: &[u8], h: &FileHeader) -> bool
    ensures { result ≡ tables.has_strings shape file.now h.now }
{
    h.PointerToSymbolTable != 0 && strings_place(shape, h) < file.len() as u64
}

// the fault of the conditions on the string table
#[tactic(auto, unfolding(crate::specs::HeaderFaults::header_conditions))]
fn strings_fault(shape: Shape, file: &[u8], h: &FileHeader) -> Option<Fault>
    ensures { result ≡ first_broken (drop 5 (rules.header_conditions shape file.now h.now)) }
{
    if !has_strings(shape, file, h) {
        return None;
    }
    let place = strings_place(shape, h);
    if passes_end(file, place, STRINGS_HEAD as u64) {
        return fault_at(Code::Short, place);
    }
    let size = u32_in(file, place as usize);
    if size < STRINGS_HEAD as u32 {
        return fault_at(Code::BadHeader, 0);
    }
    if passes_end(file, place, u64::from(size)) {
        return fault_at(Code::Short, place);
    }
    None
}

// the fault of what the header says, where that is not of an object
fn foreign_fault(shape: Shape, h: &FileHeader) -> Option<Fault>
    ensures { result ≡ first_broken (rules.foreign_condition shape h.now ∷ []) }
{
    match shape {
        Shape::Usual => {
            if h.SizeOfOptionalHeader != 0 {
                return fault_at(Code::NotRelocatable, 0);
            }
            None
        }
        Shape::Big => {
            if h.Version < BIG_VERSION {
                return fault_at(Code::BadHeader, 0);
            }
            None
        }
    }
}

// the fault of the conditions on what the header says and places, where the header is present
#[tactic(auto, unfolding(crate::specs::HeaderFaults::header_conditions))]
fn placed_fault(shape: Shape, file: &[u8], h: &FileHeader) -> Option<Fault>
    ensures { result ≡ first_broken (drop 1 (rules.header_conditions shape file.now h.now)) }
{
    match foreign_fault(shape, h) {
        Some(fault) => return Some(fault),
        None => (),
    }
    if h.PointerToSymbolTable == 0 && h.NumberOfSymbols != 0 {
        return fault_at(Code::BadHeader, 0);
    }
    let headers = SECTION_HEADER_SIZE as u64 * u64::from(h.NumberOfSections);
    if passes_end(file, header_size(shape) as u64, headers) {
        return fault_at(Code::Short, header_size(shape) as u64);
    }
    let at = u64::from(h.PointerToSymbolTable);
    let entries = entries_size(shape, h.NumberOfSymbols);
    if at != 0 && passes_end(file, at, entries) {
        return fault_at(Code::Short, at);
    }
    strings_fault(shape, file, h)
}

/// The fault of the file header, and of the tables that it places. Constant time.
#[tactic(auto, unfolding(crate::specs::HeaderFaults::header_conditions))]
pub(crate) fn header_fault(shape: Shape, file: &[u8]) -> Option<Fault>
    ensures { result ≡ first_broken (rules.header_conditions shape file.now (file_header_of shape file.now)) }
{
    if file.len() < header_size(shape) {
        return fault_at(Code::Short, 0);
    }
    placed_fault(shape, file, &file_header_of(shape, file))
}
