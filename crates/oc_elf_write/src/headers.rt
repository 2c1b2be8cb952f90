//! The file header and the section headers (gABI, "ELF Header", "Section Header" and "Section Groups").
ghost use Rattle.std.specs.Prelude.{◌≡◌, ◌+◌, ◌-◌, if◌then◌else◌, ◌/◌, ◌<◌, ◌≤◌, ◌^◌, ℕ, length, slice_get, Some, IsSome, IfOk};
ghost use Rattle.oc_target.specs.Fitted.{IsFitted};
ghost use Rattle.oc_neutral.specs.Objects.{Object};
ghost use Rattle.oc_shelf.specs.Writing.Parts.{place_where};
ghost use Rattle.oc_neutral.specs.Elf.Kinds.{elf_tag_flags, elf_tag_type};
ghost use Rattle.oc_elf.specs.Classes.{format_of, is_big, reloc_type};
ghost use Rattle.oc_elf.specs.Rel as sizes;
ghost use Rattle.oc_elf.specs.Sym as sym_sizes;
ghost use Rattle.oc_elf.specs.Structures as structures;
ghost use Rattle.oc_elf.specs.declared.shdr.Shdr.{Shdr as Header};
ghost use Rattle.oc_elf_file.specs.Canonical as canonical;
ghost use Rattle.oc_elf_file.specs.Groups as groups;
ghost use Rattle.oc_elf_file.specs.Headers as headers;
ghost use Rattle.oc_elf_file.specs.Heads as elf_heads;
ghost use Rattle.oc_elf_file.specs.Layout as layout;
ghost use Rattle.oc_elf_file.specs.Lines.{numbered_lines, signature_number};
ghost use Rattle.oc_elf_write.specs.Heads.{AreHeads, head_in, IsAmongHeads};
ghost use Rattle.oc_elf_write.specs.LaidParts.{begins_by};
ghost use Rattle.oc_elf_write.specs.Keys.{AreKeys};
ghost use Rattle.oc_elf_write.specs.HeaderInputs.{IsMadeOf};
ghost use Rattle.oc_elf_write.specs.Numbers.{IsNumbered};
ghost use Rattle.oc_elf_write.specs.Ready.{IsReady};
ghost use Rattle.oc_neutral.specs.declared.group.Group.{Group as Keyed};

use crate::bodies::{Bodies, body_size};
use crate::heads::{Head, section_number};
use crate::names::{head_name, offset_in};
use crate::numbers::Numbers;
use oc_base::{NoMemory, Word};
use oc_elf::{
    ELFDATA2LSB, ET_REL, EV_CURRENT, Ehdr, ElfClass, GRP_ENTRY_SIZE, SHF_GROUP, SHF_INFO_LINK,
    SHN_XINDEX, SHNDX_SIZE, SHT_GROUP, SHT_STRTAB, SHT_SYMTAB, SHT_SYMTAB_SHNDX, Shdr, ehdr_size,
    has_room, machine_of, null_shdr, rel_size, reloc_type, shdr_size, sym_size, word_bytes,
};
use oc_neutral::{Neutral, Section};
use std::alloc::Global;

// how many section headers there are, by the file header
fn shown_count(class: ElfClass, heads: u32) -> u16
    requires { canonical.shown_count class heads < 2 ^ 16 }
    ensures { result ≡ canonical.shown_count class heads }
{
    if class.is_big() { 0 } else { heads as u16 }
}

// the number of the header of the names of sections, by the file header
fn shown_names(class: ElfClass, number: u32) -> u16
    requires { canonical.shown_names class number < 2 ^ 16 }
    ensures { result ≡ canonical.shown_names class number }
{
    if class.is_big() && !has_room(number) {
        SHN_XINDEX
    } else {
        number as u16
    }
}

/// The header of a file with so many section headers, which begin at that place. Constant time.
pub(crate) fn file_header(class: ElfClass, heads: u32, place: u64) -> Ehdr
    requires some { 1 ≤ heads }
    requires count { canonical.shown_count class heads < 2 ^ 16 }
    requires names { canonical.shown_names class (heads - 1) < 2 ^ 16 }
    ensures { (n : Object) → length (elf_heads.heads_of n) ≡ heads
        → place_where layout.is_head_table (layout.laid_parts class n) ≡ place → result ≡ canonical.file_header class n }
{
    let word = class.word();
    Ehdr {
        ei_data: ELFDATA2LSB,
        ei_version: EV_CURRENT,
        e_type: ET_REL,
        e_machine: machine_of(word),
        e_version: u32::from(EV_CURRENT),
        e_shoff: place,
        e_ehsize: ehdr_size(word),
        e_shentsize: shdr_size(word),
        e_shnum: shown_count(class, heads),
        e_shstrndx: shown_names(class, heads - 1),
    }
}

/// The number of the header of the symbol table, where there are so many headers. Constant time.
pub(crate) fn symtab_number(class: ElfClass, heads: u32) -> u32
    requires { 4 ≤ heads }
    ensures { result + (if is_big class then 4 else 3) ≡ heads }
{
    if class.is_big() { heads - 4 } else { heads - 3 }
}

/// What is made of an object before its section headers.
#[derive(Clone, Copy)]
pub(crate) struct HeaderInputs<'a> {
    /// For each group the position of the symbol that has its key for its name.
    pub(crate) keys: &'a [Option<u32>],
    /// The numbers of symbols.
    pub(crate) numbers: &'a Numbers,
    /// How many lines of the symbol table are LOCAL.
    pub(crate) inner: u32,
    /// The tables.
    pub(crate) bodies: &'a Bodies,
    /// How many section headers there are.
    pub(crate) heads: u32,
    /// The number of that of the symbol table.
    pub(crate) symtab: u32,
}

// the header of a string table with that name, of so many bytes at a place; others differ from it
fn plain_header(sh_name: u32, sh_offset: u64, sh_size: u64) -> Shdr
    ensures { result ≡ record {
      sh_name = sh_name;
      sh_type = SHT_STRTAB;
      sh_flags = 0;
      sh_offset = sh_offset;
      sh_size = sh_size;
      sh_link = 0;
      sh_info = 0;
      sh_addralign = 1;
      sh_entsize = 0;
    } }
{
    Shdr {
        sh_name,
        sh_type: SHT_STRTAB,
        sh_flags: 0,
        sh_offset,
        sh_size,
        sh_link: 0,
        sh_info: 0,
        sh_addralign: 1,
        sh_entsize: 0,
    }
}

// the flag of a member of a group, and of its relocation table
fn member_flag(section: &Section) -> u64
    ensures flag { result ≡ groups.member_flag section.now }
    ensures low { result ≤ 0x200 }
{
    match section.group {
        Some(_) => SHF_GROUP,
        None => 0,
    }
}

// the header of a group
fn group_header(plain: Shdr, link: u32, signature: u32) -> Shdr
    ensures { result ≡ record plain { sh_type = SHT_GROUP; sh_link = link; sh_info = signature; sh_addralign = GRP_ENTRY_SIZE; sh_entsize = GRP_ENTRY_SIZE } }
{
    Shdr {
        sh_type: SHT_GROUP,
        sh_link: link,
        sh_info: signature,
        sh_addralign: GRP_ENTRY_SIZE,
        sh_entsize: GRP_ENTRY_SIZE,
        ..plain
    }
}

// the header of a section
fn section_header(plain: Shdr, section: &Section) -> Shdr
    requires { section.now.tag / 8 < 2 ^ 32 }
    ensures { result ≡ record plain {
      sh_type = elf_tag_type section.now.tag;
      sh_flags = elf_tag_flags section.now.tag + groups.member_flag section.now;
      sh_size = section.now.size;
      sh_addralign = section.now.align;
    } }
{
    Shdr {
        sh_type: (section.tag / 8) as u32,
        sh_flags: section.tag % 8 + member_flag(section),
        sh_size: u64::from(section.size),
        sh_addralign: u64::from(section.align),
        ..plain
    }
}

// the header of the relocation table of a section, whose own header has that number
fn table_header(plain: Shdr, word: Word, link: u32, section: &Section, number: u32) -> Shdr
    ensures { result ≡ record plain {
      sh_type = reloc_type word;
      sh_flags = SHF_INFO_LINK + groups.member_flag section.now;
      sh_link = link;
      sh_info = number;
      sh_addralign = structures.word_bytes word;
      sh_entsize = sizes.rel_size word;
    } }
{
    Shdr {
        sh_type: reloc_type(word),
        sh_flags: SHF_INFO_LINK + member_flag(section),
        sh_link: link,
        sh_info: number,
        sh_addralign: word_bytes(word),
        sh_entsize: rel_size(word),
        ..plain
    }
}

// the header of the symbol table, whose first entries are LOCAL
fn symtab_header(plain: Shdr, word: Word, link: u32, inner: u32) -> Shdr
    ensures { result ≡ record plain {
      sh_type = SHT_SYMTAB;
      sh_link = link;
      sh_info = inner;
      sh_addralign = structures.word_bytes word;
      sh_entsize = sym_sizes.sym_size word;
    } }
{
    Shdr {
        sh_type: SHT_SYMTAB,
        sh_link: link,
        sh_info: inner,
        sh_addralign: word_bytes(word),
        sh_entsize: sym_size(word),
        ..plain
    }
}

// the header of the table of section numbers
fn shndx_header(plain: Shdr, link: u32) -> Shdr
    ensures { result ≡ record plain { sh_type = SHT_SYMTAB_SHNDX; sh_link = link; sh_addralign = SHNDX_SIZE; sh_entsize = SHNDX_SIZE } }
{
    Shdr {
        sh_type: SHT_SYMTAB_SHNDX,
        sh_link: link,
        sh_addralign: SHNDX_SIZE,
        sh_entsize: SHNDX_SIZE,
        ..plain
    }
}

// the number of the header of the names of sections, where header 0 has it
fn extended_names(number: u32) -> u32
    ensures { result ≡ headers.extended_names number }
{
    if has_room(number) { 0 } else { number }
}

// header 0, where there are so many
fn zero_header(class: ElfClass, heads: u32) -> Shdr
    requires { 1 ≤ heads }
    ensures { (n : Object) → length (elf_heads.heads_of n) ≡ heads → result ≡ headers.zero_shdr class n }
{
    if class.is_big() {
        Shdr {
            sh_size: u64::from(heads),
            sh_link: extended_names(heads - 1),
            ..null_shdr()
        }
    } else {
        null_shdr()
    }
}

// headers with another first one
fn with_first(first: Shdr, shdrs: Vec<Shdr>) -> Vec<Shdr>
    ensures { result.items ≡ headers.with_first first shdrs.items }
{
    let mut shdrs = shdrs;
    if !shdrs.is_empty() {
        shdrs[0] = first;
    }
    shdrs
}

// the number of the signature of the group at a position
fn signature_of(neutral: &Neutral, made: HeaderInputs<'_>, group: u32) -> u32
    requires ready { IsReady neutral.now }
    requires keys { AreKeys neutral.now made.keys.now }
    requires numbers { IsNumbered neutral.now made.numbers.now }
    requires there { group < length neutral.now.groups }
    ensures { (x : Keyed) → slice_get neutral.now.groups group ≡ Some x → result ≡ signature_number (numbered_lines neutral.now) group x }
{
    made.numbers.of_signature(group, made.keys[group as usize])
}

// the section header of what lies at a place, with its name and its size
fn header_by(
    class: ElfClass,
    neutral: &Neutral,
    made: HeaderInputs<'_>,
    head: Head,
    plain: Shdr,
) -> Shdr
    requires fitted { IsFitted (format_of class) neutral.now }
    requires made { IsMadeOf class neutral.now made }
    requires there { IsSome (head_in neutral.now head) }
    ensures { (is : elf_heads.Head) (at : ℕ) → head_in neutral.now head ≡ Some is
        → plain ≡ headers.plain_header class neutral.now at is → result ≡ headers.shdr_of class neutral.now at is }
{
    let word = class.word();
    match head {
        Head::Null => null_shdr(),
        Head::Group(g) => {
            let signature = signature_of(neutral, made, g);
            group_header(plain, made.symtab, signature)
        }
        Head::Section(k) => section_header(plain, neutral.section(k)),
        Head::Relocs(k) => {
            let number = section_number(neutral, k);
            table_header(plain, word, made.symtab, neutral.section(k), number)
        }
        Head::Symtab => symtab_header(plain, word, made.heads - 2, made.inner),
        Head::Shndx => shndx_header(plain, made.symtab),
        Head::Strtab => plain,
        Head::Shstrtab => plain,
    }
}

// the section header of what lies at a place, whose name is looked for first at the position `near`
// among the given names
fn header_of(
    alloc: Global,
    class: ElfClass,
    neutral: &Neutral,
    made: HeaderInputs<'_>,
    near: usize,
    head: Head,
    place: u64,
) -> Result<Shdr, NoMemory>
    requires fitted { IsFitted (format_of class) neutral.now }
    requires made { IsMadeOf class neutral.now made }
    requires listed { IsAmongHeads neutral.now head }
    ensures { IfOk result (λ shdr. (is : elf_heads.Head) → head_in neutral.now head ≡ Some is → shdr ≡ headers.shdr_of class neutral.now place is) }
{
    let name = head_name(alloc, class, neutral, head)?;
    let sh_name = offset_in(&made.bodies.shstrtab, near, name.as_slice());
    let size = body_size(class, neutral.sections(), made.bodies, head);
    let plain = plain_header(sh_name, place, size);
    Ok(header_by(class, neutral, made, head, plain))
}

// the section headers of a file whose parts begin at these places, the first of which is empty
fn shdrs_of(
    alloc: Global,
    class: ElfClass,
    neutral: &Neutral,
    made: HeaderInputs<'_>,
    heads: &[Head],
    places: &[u64],
) -> Result<Vec<Shdr>, NoMemory>
    requires fitted { IsFitted (format_of class) neutral.now }
    requires made { IsMadeOf class neutral.now made }
    requires heads { AreHeads neutral.now heads.now }
    requires places { places.now ≡ begins_by class neutral.now (layout.parts_of neutral.now) }
    ensures { IfOk result (λ shdrs. shdrs.items ≡ headers.made_headers class neutral.now) }
{
    let mut shdrs = Vec::with_capacity(alloc, heads.len())?;
    let mut near = 0;
    for k in 0..heads.len() {
        let shdr = header_of(alloc, class, neutral, made, near, heads[k], places[k + 1])?;
        near += usize::from(shdr.sh_name != 0);
        shdrs.push(shdr)?;
    }
    Ok(shdrs)
}

/// The section headers of a file whose parts begin at these places, as they are written. `NoMemory`
/// where memory ran out. Linear in the headers, but for looking up names in the string table, each
/// at the position of the next given one.
#[tactic(auto, unfolding(oc_elf_file::specs::Headers::stored_headers))]
pub(crate) fn stored_shdrs(
    alloc: Global,
    class: ElfClass,
    neutral: &Neutral,
    made: HeaderInputs<'_>,
    heads: &[Head],
    places: &[u64],
) -> Result<Vec<Shdr>, NoMemory>
    requires fitted { IsFitted (format_of class) neutral.now }
    requires made { IsMadeOf class neutral.now made }
    requires some { 1 ≤ made.heads }
    requires heads { AreHeads neutral.now heads.now }
    requires places { places.now ≡ begins_by class neutral.now (layout.parts_of neutral.now) }
    ensures { IfOk result (λ shdrs. shdrs.items ≡ headers.stored_headers class neutral.now) }
{
    let shdrs = shdrs_of(alloc, class, neutral, made, heads, places)?;
    Ok(with_first(zero_header(class, made.heads), shdrs))
}
