//! ELF structures as bytes (gABI, "ELF Header", "Section Header", "Symbol Table" and "Relocation").
ghost use Rattle.std.specs.Prelude.{◌≡◌, ◌+◌, ◌*◌, ◌≤◌, ◌++◌, [], ◌∷◌, nat_lt, length};
ghost use Rattle.oc_base.specs.Numbers.{bytes_of_number};
ghost use Rattle.oc_shelf.specs.Writing.Packed.{packed};
ghost use Rattle.oc_shelf.specs.declared.writing.rows.TheConstants.{ROW};
ghost use Rattle.oc_elf.specs.Structures as structures;

use crate::class::ElfClass;
use crate::constants::{ELFCLASS32, ELFCLASS64, FIRST_EXTENDED, SHN_LORESERVE, SHN_XINDEX};
use crate::ehdr::Ehdr;
use crate::rel::Rel;
use crate::shdr::Shdr;
use crate::sym::Sym;
use oc_base::Word;
use oc_shelf::Packed;

/// The first bytes of every file (gABI, "ELF Identification").
const ELFMAG: [u8; 4] = *b"\x7fELF";

/// Whether 16 bits have room for a section number. Constant time.
pub fn has_room(number: u32) -> bool
    ensures { result ≡ nat_lt number FIRST_EXTENDED }
{
    number < FIRST_EXTENDED
}

/// The size of an address and an offset, in bytes: tables lie at multiples of it. Constant time.
pub fn word_bytes(word: Word) -> u64
    ensures bytes { result ≡ structures.word_bytes word }
    ensures low { result ≤ 8 }
{
    match word {
        Word::W32 => 4,
        Word::W64 => 8,
    }
}

// puts the eight bytes of a number
#[tactic(auto, unfolding(oc_base::specs::Numbers::bytes_of_number))]
fn put_u64(out: &mut Packed, x: u64)
    requires { length out.old + 8 ≤ ROW }
    ensures bytes { out.new ≡ out.old ++ bytes_of_number 8 x }
    ensures long { length out.new ≡ length out.old + 8 }
{
    out.put(&x.to_le_bytes());
}

// puts the four low bytes of a number
#[tactic(auto, unfolding(oc_base::specs::Numbers::bytes_of_number))]
fn put_low(out: &mut Packed, x: u64)
    requires { length out.old + 4 ≤ ROW }
    ensures bytes { out.new ≡ out.old ++ bytes_of_number 4 x }
    ensures long { length out.new ≡ length out.old + 4 }
{
    out.put(&x.to_le_bytes()[..4]);
}

// puts an address, an offset or another number as wide
fn put_word(out: &mut Packed, word: Word, x: u64)
    requires { length out.old + structures.word_bytes word ≤ ROW }
    ensures bytes { out.new ≡ out.old ++ bytes_of_number (structures.word_bytes word) x }
    ensures long { length out.new ≡ length out.old + structures.word_bytes word }
{
    match word {
        Word::W32 => put_low(out, x),
        Word::W64 => put_u64(out, x),
    }
}

// the file class as the file header has it
fn ei_class(word: Word) -> u8
    ensures { result ≡ structures.ei_class_of word }
{
    match word {
        Word::W32 => ELFCLASS32,
        Word::W64 => ELFCLASS64,
    }
}

// puts the nine unused bytes of the identification
#[tactic(auto, unfolding(oc_base::specs::Numbers::bytes_of_number))]
fn put_nine(out: &mut Packed)
    requires { length out.old + 9 ≤ ROW }
    ensures bytes { out.new ≡ out.old ++ bytes_of_number 9 0 }
    ensures long { length out.new ≡ length out.old + 9 }
{
    out.put(&[0; 9]);
}

// puts the four bytes with which every file begins
#[tactic(auto, unfolding(oc_base::specs::Numbers::bytes_of_number))]
fn put_magic(out: &mut Packed)
    requires { length out.old + 4 ≤ ROW }
    ensures bytes { out.new ≡ out.old ++ packed ((1, 0x7F) ∷ (1, 0x45) ∷ (1, 0x4C) ∷ (1, 0x46) ∷ []) }
    ensures long { length out.new ≡ length out.old + 4 }
{
    out.put(&ELFMAG);
}

// puts the identification of a file
fn put_ident(out: &mut Packed, word: Word, ehdr: &Ehdr)
    requires { length out.old + 16 ≤ ROW }
    ensures bytes { out.new ≡ out.old ++ packed (structures.ident_numbers word ehdr.now) }
    ensures long { length out.new ≡ length out.old + 16 }
{
    put_magic(out);
    out.put_u8(ei_class(word));
    out.put_u8(ehdr.ei_data);
    out.put_u8(ehdr.ei_version);
    put_nine(out);
}

// puts what a file is, and where its section headers begin; it has no entry point and no program headers
fn put_kind(out: &mut Packed, word: Word, ehdr: &Ehdr)
    requires { length out.old + 8 + 3 * structures.word_bytes word ≤ ROW }
    ensures bytes { out.new ≡ out.old ++ packed (structures.kind_numbers word ehdr.now) }
    ensures long { length out.new ≡ length out.old + 8 + 3 * structures.word_bytes word }
{
    out.put_u16(ehdr.e_type);
    out.put_u16(ehdr.e_machine);
    out.put_u32(ehdr.e_version);
    put_word(out, word, 0);
    put_word(out, word, 0);
    put_word(out, word, ehdr.e_shoff);
}

// puts the sizes and counts of headers; there are no flags and no program headers
fn put_counts(out: &mut Packed, ehdr: &Ehdr)
    requires { length out.old + 16 ≤ ROW }
    ensures { out.new ≡ out.old ++ packed (structures.count_numbers ehdr.now) }
{
    out.put_u32(0);
    out.put_u16(ehdr.e_ehsize);
    out.put_u16(0);
    out.put_u16(0);
    out.put_u16(ehdr.e_shentsize);
    out.put_u16(ehdr.e_shnum);
    out.put_u16(ehdr.e_shstrndx);
}

/// A file header. Constant time.
#[tactic(auto, unfolding(crate::specs::Structures::ehdr_bytes))]
pub fn pack_ehdr(word: Word, ehdr: &Ehdr) -> Packed
    ensures { result ≡ structures.ehdr_bytes word ehdr.now }
{
    let mut out = Packed::new();
    put_ident(&mut out, word, ehdr);
    put_kind(&mut out, word, ehdr);
    put_counts(&mut out, ehdr);
    out
}

// puts the name, the type, the flags, the address, which is 0, and the offset of a section
fn put_section(out: &mut Packed, word: Word, shdr: &Shdr)
    requires { length out.old + 8 + 3 * structures.word_bytes word ≤ ROW }
    ensures bytes { out.new ≡ out.old ++ packed (structures.leading_numbers word shdr.now) }
    ensures long { length out.new ≡ length out.old + 8 + 3 * structures.word_bytes word }
{
    out.put_u32(shdr.sh_name);
    out.put_u32(shdr.sh_type);
    put_word(out, word, shdr.sh_flags);
    put_word(out, word, 0);
    put_word(out, word, shdr.sh_offset);
}

// puts the size of a section and the rest of its header
fn put_rest(out: &mut Packed, word: Word, shdr: &Shdr)
    requires { length out.old + 8 + 3 * structures.word_bytes word ≤ ROW }
    ensures { out.new ≡ out.old ++ packed (structures.trailing_numbers word shdr.now) }
{
    put_word(out, word, shdr.sh_size);
    out.put_u32(shdr.sh_link);
    out.put_u32(shdr.sh_info);
    put_word(out, word, shdr.sh_addralign);
    put_word(out, word, shdr.sh_entsize);
}

/// A section header. Constant time.
#[tactic(auto, unfolding(crate::specs::Structures::shdr_bytes))]
pub fn pack_shdr(word: Word, shdr: &Shdr) -> Packed
    ensures { result ≡ structures.shdr_bytes word shdr.now }
{
    let mut out = Packed::new();
    put_section(&mut out, word, shdr);
    put_rest(&mut out, word, shdr);
    out
}

// the section number is stored elsewhere than in the entry
fn is_extended(number: u32) -> bool
    ensures { result ≡ structures.is_extended number }
{
    !has_room(number) && number < SHN_LORESERVE
}

// the section number in an entry: the number, or that it is stored elsewhere
fn stored_index(class: ElfClass, number: u32) -> u16
    ensures { result ≡ structures.stored_index class number }
{
    if class.is_big() && is_extended(number) {
        SHN_XINDEX
    } else {
        (number % 0x1_0000) as u16
    }
}

// and in the table of section numbers
fn extended_index(number: u32) -> u32
    ensures { result ≡ structures.extended_index number }
{
    if is_extended(number) { number } else { 0 }
}

/// An entry of the table of section numbers. Constant time.
#[tactic(auto, unfolding(crate::specs::Structures::index_bytes))]
pub fn pack_index(sym: &Sym) -> Packed
    ensures { result ≡ structures.index_bytes sym.now }
{
    pack_word(extended_index(sym.st_shndx))
}

// a symbol table entry of ELF32, with its section number
fn pack_sym32(sym: &Sym, index: u16) -> Packed
    ensures { result ≡ packed (structures.sym_row Word.W32 sym.now index) }
{
    let mut out = Packed::new();
    out.put_u32(sym.st_name);
    put_low(&mut out, sym.st_value);
    put_low(&mut out, sym.st_size);
    out.put_u8(sym.st_info);
    out.put_u8(sym.st_other);
    out.put_u16(index);
    out
}

// a symbol table entry of ELF64, with its section number
fn pack_sym64(sym: &Sym, index: u16) -> Packed
    ensures { result ≡ packed (structures.sym_row Word.W64 sym.now index) }
{
    let mut out = Packed::new();
    out.put_u32(sym.st_name);
    out.put_u8(sym.st_info);
    out.put_u8(sym.st_other);
    out.put_u16(index);
    put_u64(&mut out, sym.st_value);
    put_u64(&mut out, sym.st_size);
    out
}

// a symbol table entry, with its section number
fn pack_row(word: Word, sym: &Sym, index: u16) -> Packed
    ensures { result ≡ packed (structures.sym_row word sym.now index) }
{
    match word {
        Word::W32 => pack_sym32(sym, index),
        Word::W64 => pack_sym64(sym, index),
    }
}

/// A symbol table entry. Constant time.
#[tactic(auto, unfolding(crate::specs::Structures::sym_bytes))]
pub fn pack_sym(class: ElfClass, sym: &Sym) -> Packed
    ensures { result ≡ structures.sym_bytes class sym.now }
{
    let index = stored_index(class, sym.st_shndx);
    pack_row(class.word(), sym, index)
}

// a relocation entry of ELF32: the symbol lies above eight bits of the type
#[tactic(auto, unfolding(crate::specs::Structures::rel_bytes))]
fn pack_rel32(rel: Rel) -> Packed
    ensures { result ≡ structures.rel_bytes Word.W32 rel }
{
    let mut out = Packed::new();
    put_low(&mut out, rel.r_offset);
    put_low(&mut out, 256 * u64::from(rel.r_sym) + u64::from(rel.r_type));
    out
}

// a relocation entry of ELF64
#[tactic(auto, unfolding(crate::specs::Structures::rel_bytes))]
fn pack_rel64(rel: Rel) -> Packed
    ensures { result ≡ structures.rel_bytes Word.W64 rel }
{
    let mut out = Packed::new();
    put_u64(&mut out, rel.r_offset);
    out.put_u32(rel.r_type);
    out.put_u32(rel.r_sym);
    put_u64(&mut out, rel.r_addend);
    out
}

/// A relocation entry. Constant time.
#[tactic(auto, unfolding(crate::specs::Structures::rel_bytes))]
pub fn pack_rel(word: Word, rel: Rel) -> Packed
    ensures { result ≡ structures.rel_bytes word rel }
{
    match word {
        Word::W32 => pack_rel32(rel),
        Word::W64 => pack_rel64(rel),
    }
}

/// A word of a group. Constant time.
pub fn pack_word(word: u32) -> Packed
    ensures { result ≡ bytes_of_number 4 word }
{
    let mut out = Packed::new();
    out.put_u32(word);
    out
}
