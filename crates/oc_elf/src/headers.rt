//! The file header, and the table of section headers.
ghost use Rattle.std.specs.Prelude.{◌≡◌, ◌+◌, ◌*◌, ◌≤◌, length, nat_lt, Some};
ghost use Rattle.oc_base.specs.declared.limits.TheConstants.{MOST_INPUT};
ghost use Rattle.oc_linking.specs.FirstFault.{first_broken};
ghost use Rattle.oc_elf.specs.Classes.{word_of};
ghost use Rattle.oc_elf.specs.Ehdr.{ehdr_in};
ghost use Rattle.oc_elf.specs.Shdr.{shdr_size};
ghost use Rattle.oc_elf.specs.Frames as frames;
ghost use Rattle.oc_elf.specs.Headers as rules;

use crate::class::{ElfClass, machine_of};
use crate::constants::{ELFDATA2LSB, ET_REL, EV_CURRENT, SHN_XINDEX, SHT_STRTAB};
use crate::ehdr::{Ehdr, ehdr_of, ehdr_size};
use crate::shdr::{Shdr, shdr_at, shdr_size};
use oc_base::{Code, Fault, Phase, Word};

// a fault of the file header, at a place
fn fault_at(code: Code, place: u64) -> Option<Fault>
    ensures { result ≡ Some (rules.header_fault code place) }
{
    Some(Fault {
        phase: Phase::Header,
        index: 0,
        code,
        place,
    })
}

// whether the numbers are little-endian and of the current version, and the header is of its word's size
fn is_current(word: Word, h: &Ehdr) -> bool
    ensures { result ≡ rules.is_current word h.now }
{
    h.ei_data == ELFDATA2LSB
        && h.ei_version == EV_CURRENT
        && h.e_version == u32::from(EV_CURRENT)
        && h.e_ehsize == ehdr_size(word)
}

// whether it is a relocatable object for the machine of its word
fn is_relocatable(word: Word, h: &Ehdr) -> bool
    ensures { result ≡ rules.is_relocatable word h.now }
{
    h.e_type == ET_REL && h.e_machine == machine_of(word)
}

// whether sections are numbered elsewhere than in the header
fn is_wrongly_extended(class: ElfClass, h: &Ehdr) -> bool
    ensures { result ≡ rules.is_wrongly_extended class h.now }
{
    !class.is_big() && (h.e_shnum == 0 && h.e_shoff != 0 || h.e_shstrndx == SHN_XINDEX)
}

/// How many section headers there are where sections are many, with this header 0. Constant time.
pub(crate) fn big_count(h: &Ehdr, zero: &Shdr) -> u64
    ensures { result ≡ frames.big_count h.now zero.now }
{
    if h.e_shnum == 0 {
        zero.sh_size
    } else {
        h.e_shnum.into()
    }
}

/// The number of the header of the names of sections there. Constant time.
pub(crate) fn big_names(h: &Ehdr, zero: &Shdr) -> u32
    ensures { result ≡ frames.big_names h.now zero.now }
{
    if h.e_shstrndx == SHN_XINDEX {
        zero.sh_link
    } else {
        h.e_shstrndx.into()
    }
}

// whether a table of so many section headers passes the end of a file of `size` bytes
#[tactic(auto, using(crate::proofs::CountLemmas::size_least, crate::proofs::CountLemmas::size_most))]
fn passes_end(word: Word, size: u64, start: u64, count: u64) -> bool
    requires { size ≤ MOST_INPUT }
    ensures { result ≡ nat_lt size (start + shdr_size word * count) }
{
    if count > size {
        return true;
    }
    let table = u64::from(shdr_size(word)) * count;
    start > size || table > size - start
}

// whether a section header passes it
fn one_passes_end(word: Word, size: u64, start: u64) -> bool
    ensures { result ≡ nat_lt size (start + shdr_size word) }
{
    start > size || u64::from(shdr_size(word)) > size - start
}

// the fault of the conditions on a table of section headers in a file of `size` bytes
fn plain_fault(word: Word, size: u64, h: &Ehdr) -> Option<Fault>
    requires { size ≤ MOST_INPUT }
    ensures { result ≡ first_broken (rules.plain_conditions word size h.now) }
{
    if h.e_shnum == 0 {
        return None;
    }
    if h.e_shentsize != shdr_size(word) {
        return fault_at(Code::BadHeader, 0);
    }
    if passes_end(word, size, h.e_shoff, h.e_shnum.into()) {
        return fault_at(Code::Short, h.e_shoff);
    }
    None
}

// that of the conditions where sections are many
fn big_fault(word: Word, file: &[u8], h: &Ehdr) -> Option<Fault>
    requires small { length file.now ≤ MOST_INPUT }
    requires is { h.now ≡ ehdr_in word file.now }
    ensures { result ≡ first_broken (rules.big_conditions word (length file.now) h.now (frames.zero_in word file.now)) }
{
    let size = file.len() as u64;
    if h.e_shentsize != shdr_size(word) {
        return fault_at(Code::BadHeader, 0);
    }
    if one_passes_end(word, size, h.e_shoff) {
        return fault_at(Code::Short, h.e_shoff);
    }
    let zero = shdr_at(word, file, h.e_shoff as usize);
    let count = big_count(h, &zero);
    if count == 0 {
        return fault_at(Code::BadHeader, 0);
    }
    if passes_end(word, size, h.e_shoff, count) {
        return fault_at(Code::Short, h.e_shoff);
    }
    None
}

// the fault of the conditions on the table of section headers
fn table_fault(class: ElfClass, file: &[u8], h: &Ehdr) -> Option<Fault>
    requires small { length file.now ≤ MOST_INPUT }
    requires is { h.now ≡ ehdr_in (word_of class) file.now }
    ensures { result ≡ first_broken (rules.table_conditions class (length file.now) h.now (frames.zero_in (word_of class) file.now)) }
{
    let word = class.word();
    if class.is_big() {
        big_fault(word, file, h)
    } else {
        plain_fault(word, file.len() as u64, h)
    }
}

/// The fault of the file header. Constant time.
#[tactic(auto, unfolding(crate::specs::Headers::header_conditions))]
pub(crate) fn header_fault(class: ElfClass, file: &[u8]) -> Option<Fault>
    requires { length file.now ≤ MOST_INPUT }
    ensures { result ≡ first_broken (rules.file_conditions class file.now) }
{
    let word = class.word();
    let size = file.len() as u64;
    if size < u64::from(ehdr_size(word)) {
        return fault_at(Code::Short, 0);
    }
    let h = ehdr_of(word, file);
    if !is_current(word, &h) {
        return fault_at(Code::BadHeader, 0);
    }
    if !is_relocatable(word, &h) {
        return fault_at(Code::NotRelocatable, 0);
    }
    if is_wrongly_extended(class, &h) {
        return fault_at(Code::ExtendedNumbering, 0);
    }
    table_fault(class, file, &h)
}

/// The fault of the header of the names of sections. Constant time.
pub(crate) fn names_fault(count: u32, names: &Shdr) -> Option<Fault>
    ensures { result ≡ first_broken (rules.names_conditions count names.now) }
{
    if count != 0 && names.sh_type != SHT_STRTAB {
        return fault_at(Code::BadTable, 0);
    }
    None
}
