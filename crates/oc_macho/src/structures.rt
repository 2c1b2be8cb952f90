//! Mach-O structures as bytes (Mach-O reference, "mach_header", "segment_command", "section",
//! "symtab_command", "dysymtab_command", "nlist" and "relocation_info").
ghost use Rattle.std.specs.Prelude.{◌≡◌, ◌+◌, ◌*◌, ◌^◌, ◌≤◌, ◌<◌, ◌++◌, length};
ghost use Rattle.oc_base.specs.Numbers.{bytes_of_number};
ghost use Rattle.oc_shelf.specs.Writing.Packed.{packed};
ghost use Rattle.oc_shelf.specs.declared.writing.rows.TheConstants.{ROW};
ghost use Rattle.oc_macho.specs.MachHeader.{address_size};
ghost use Rattle.oc_macho.specs.Structures as structures;

use crate::constants::{LC_DYSYMTAB, LC_SYMTAB, R_SCATTERED};
use crate::load_command::DYSYMTAB_COMMAND_SIZE;
use crate::mach_header::MachHeader;
use crate::nlist::Nlist;
use crate::relocation_info::{Reference, RelocationInfo};
use crate::section_header::SectionHeader;
use crate::segment_command::SegmentCommand;
use crate::symtab_command::{SYMTAB_COMMAND_SIZE, SymtabCommand};
use crate::words::segment_number;
use oc_base::Word;
use oc_shelf::Packed;

/// The size of an address, in bytes: tables lie at multiples of it. Constant time.
pub fn word_bytes(word: Word) -> u64
    ensures bytes { result ≡ address_size word }
    ensures some { 1 ≤ result }
    ensures low { result ≤ 8 }
{
    match word {
        Word::W32 => 4,
        Word::W64 => 8,
    }
}

// puts the eight bytes of a number
#[tactic(auto, unfolding(oc_base::specs::Numbers::bytes_of_number))]
fn put_u64(out: &mut Packed, x: u64)
    requires { length out.old + 8 ≤ ROW }
    ensures bytes { out.new ≡ out.old ++ bytes_of_number 8 x }
    ensures long { length out.new ≡ length out.old + 8 }
{
    out.put(&x.to_le_bytes());
}

// puts the four low bytes of a number
#[tactic(auto, unfolding(oc_base::specs::Numbers::bytes_of_number))]
fn put_low(out: &mut Packed, x: u64)
    requires { length out.old + 4 ≤ ROW }
    ensures bytes { out.new ≡ out.old ++ bytes_of_number 4 x }
    ensures long { length out.new ≡ length out.old + 4 }
{
    out.put(&x.to_le_bytes()[..4]);
}

// puts an address, or another number as wide
fn put_word(out: &mut Packed, word: Word, x: u64)
    requires { length out.old + address_size word ≤ ROW }
    ensures bytes { out.new ≡ out.old ++ bytes_of_number (address_size word) x }
    ensures long { length out.new ≡ length out.old + address_size word }
{
    match word {
        Word::W32 => put_low(out, x),
        Word::W64 => put_u64(out, x),
    }
}

// puts the word of zeros that ends some structures of 64 bits
fn put_reserved(out: &mut Packed, word: Word)
    requires { length out.old + 4 ≤ ROW }
    ensures { out.new ≡ out.old ++ packed (structures.reserved word) }
{
    match word {
        Word::W32 => {}
        Word::W64 => out.put_u32(0),
    }
}

/// A file header. Constant time.
#[tactic(auto, unfolding(crate::specs::Structures::mach_header_bytes))]
pub fn pack_mach_header(word: Word, header: &MachHeader) -> Packed
    ensures { result ≡ structures.mach_header_bytes word header.now }
{
    let mut out = Packed::new();
    out.put_u32(header.magic);
    out.put_u32(header.cputype);
    out.put_u32(header.cpusubtype);
    out.put_u32(header.filetype);
    out.put_u32(header.ncmds);
    out.put_u32(header.sizeofcmds);
    out.put_u32(header.flags);
    put_reserved(&mut out, word);
    out
}

/// What the command for a segment begins with: its number, its size with the section headers after
/// it, and its name. Constant time.
pub fn pack_segment_front(word: Word, cmdsize: u32, segment: &SegmentCommand) -> Packed
    ensures { result ≡ structures.segment_front word cmdsize segment.now }
{
    let mut out = Packed::new();
    out.put_u32(segment_number(word));
    out.put_u32(cmdsize);
    out.put(&segment.segname);
    out
}

/// What follows: addresses and sizes, protections, how many sections there are, and flags. Constant
/// time.
pub fn pack_segment_back(word: Word, segment: &SegmentCommand) -> Packed
    ensures { result ≡ structures.segment_back word segment.now }
{
    let mut out = Packed::new();
    put_word(&mut out, word, segment.vmaddr);
    put_word(&mut out, word, segment.vmsize);
    put_word(&mut out, word, segment.fileoff);
    put_word(&mut out, word, segment.filesize);
    out.put_u32(segment.maxprot);
    out.put_u32(segment.initprot);
    out.put_u32(segment.nsects);
    out.put_u32(segment.flags);
    out
}

/// The names in a section header. Constant time.
pub fn pack_section_names(header: &SectionHeader) -> Packed
    ensures { result ≡ header.now.sectname ++ header.now.segname }
{
    let mut out = Packed::new();
    out.put(&header.sectname);
    out.put(&header.segname);
    out
}

// puts where a section lies in memory and in the file, its alignment, and where its entries begin
fn put_places(out: &mut Packed, word: Word, header: &SectionHeader)
    requires { length out.old + 12 + 2 * address_size word ≤ ROW }
    ensures bytes { out.new ≡ out.old ++ packed (structures.place_numbers word header.now) }
    ensures long { length out.new ≡ length out.old + 12 + 2 * address_size word }
{
    put_word(out, word, header.addr);
    put_word(out, word, header.size);
    out.put_u32(header.offset);
    out.put_u32(header.align);
    out.put_u32(header.reloff);
}

// puts how many entries there are, flags, and reserved words
fn put_flags(out: &mut Packed, word: Word, header: &SectionHeader)
    requires { length out.old + 20 ≤ ROW }
    ensures { out.new ≡ out.old ++ packed (structures.flag_numbers word header.now) }
{
    out.put_u32(header.nreloc);
    out.put_u32(header.flags);
    out.put_u32(0);
    out.put_u32(0);
    put_reserved(out, word);
}

/// The numbers after them. Constant time.
pub fn pack_section_numbers(word: Word, header: &SectionHeader) -> Packed
    ensures { result ≡ packed (structures.section_numbers word header.now) }
{
    let mut out = Packed::new();
    put_places(&mut out, word, header);
    put_flags(&mut out, word, header);
    out
}

/// The command that places symbols and strings. Constant time.
#[tactic(auto, unfolding(crate::specs::Structures::symtab_bytes))]
pub fn pack_symtab(symtab: &SymtabCommand) -> Packed
    ensures { result ≡ structures.symtab_bytes symtab.now }
{
    let mut out = Packed::new();
    out.put_u32(LC_SYMTAB);
    out.put_u32(SYMTAB_COMMAND_SIZE as u32);
    out.put_u32(symtab.symoff);
    out.put_u32(symtab.nsyms);
    out.put_u32(symtab.stroff);
    out.put_u32(symtab.strsize);
    out
}

/// How many symbols are in each group of the symbol table (Mach-O reference, "dysymtab_command").
#[derive(Clone, Copy, Debug)]
pub struct Dysymtab {
    /// That this file alone knows; they come first.
    pub nlocalsym: u32,
    /// That are defined here for all files.
    pub nextdefsym: u32,
    /// That are not defined here.
    pub nundefsym: u32,
}

/// What the command that lists the groups of symbols begins with; zeros follow. Constant time.
pub fn pack_dysymtab_front(dysymtab: &Dysymtab) -> Packed
    requires { dysymtab.now.nlocalsym + dysymtab.now.nextdefsym < 2 ^ 32 }
    ensures { result ≡ structures.dysymtab_front dysymtab.now }
{
    let mut out = Packed::new();
    out.put_u32(LC_DYSYMTAB);
    out.put_u32(DYSYMTAB_COMMAND_SIZE);
    out.put_u32(0);
    out.put_u32(dysymtab.nlocalsym);
    out.put_u32(dysymtab.nlocalsym);
    out.put_u32(dysymtab.nextdefsym);
    out.put_u32(dysymtab.nlocalsym + dysymtab.nextdefsym);
    out.put_u32(dysymtab.nundefsym);
    out
}

/// A symbol table entry. Constant time.
#[tactic(auto, unfolding(crate::specs::Structures::nlist_bytes))]
pub fn pack_nlist(word: Word, nlist: &Nlist) -> Packed
    ensures { result ≡ structures.nlist_bytes word nlist.now }
{
    let mut out = Packed::new();
    out.put_u32(nlist.n_strx);
    out.put_u8(nlist.n_type);
    out.put_u8(nlist.n_sect);
    out.put_u16(nlist.n_desc);
    put_word(&mut out, word, nlist.n_value);
    out
}

// the first word of a relocation entry: where it is scattered, all but `r_value`
fn first_word(entry: RelocationInfo) -> u64
    ensures { result ≡ structures.first_word entry entry.refers }
{
    match entry.refers {
        Reference::Symbol(_) | Reference::Section(_) => u64::from(entry.r_address),
        Reference::Address(_) => {
            u64::from(entry.r_address)
                + (u64::from(entry.r_type) << 24)
                + (u64::from(entry.r_length) << 28)
                + (u64::from(entry.r_pcrel) << 30)
                + u64::from(R_SCATTERED)
        }
    }
}

// the second word of an entry that is not scattered, with `r_symbolnum` and `r_extern`
fn plain_word(entry: RelocationInfo, r_symbolnum: u32, r_extern: u64) -> u64
    requires { r_extern ≤ 1 }
    ensures { result ≡ structures.plain_word entry r_symbolnum r_extern }
{
    u64::from(r_symbolnum)
        + (u64::from(entry.r_pcrel) << 24)
        + (u64::from(entry.r_length) << 25)
        + (r_extern << 27)
        + (u64::from(entry.r_type) << 28)
}

// the second word
fn second_word(entry: RelocationInfo) -> u64
    ensures { result ≡ structures.second_word entry entry.refers }
{
    match entry.refers {
        Reference::Symbol(number) => plain_word(entry, number, 1),
        Reference::Section(number) => plain_word(entry, number, 0),
        Reference::Address(r_value) => u64::from(r_value),
    }
}

/// A relocation entry. Constant time.
#[tactic(auto, unfolding(crate::specs::Structures::relocation_bytes))]
pub fn pack_relocation(entry: RelocationInfo) -> Packed
    ensures { result ≡ structures.relocation_bytes entry }
{
    let mut out = Packed::new();
    put_low(&mut out, first_word(entry));
    put_low(&mut out, second_word(entry));
    out
}
