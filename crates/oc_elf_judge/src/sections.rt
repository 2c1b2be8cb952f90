//! Section headers: what they say by themselves, and the conditions on each.
ghost use Rattle.std.specs.Prelude.{◌≡◌, ◌+◌, ◌<◌, ◌≤◌, ◌^◌, length, nat_eq, nat_lt, is_some, false, if◌then◌else◌, ◌&&◌, not, Some, None};
ghost use Rattle.std.specs.List.{list_any};
ghost use Rattle.std.specs.Option.{option_map_or};
ghost use Rattle.oc_base.specs.declared.limits.TheConstants.{MOST_CONTENTS};
ghost use Rattle.oc_linking.specs.FirstFault.{first_broken};
ghost use Rattle.oc_neutral.specs.Building.{is_zero};
ghost use Rattle.oc_shelf.specs.Reading.Sums.{sum_upto};
ghost use Rattle.oc_elf.specs.Frames.{header_at};
ghost use Rattle.oc_elf.specs.Sections as sections;
ghost use Rattle.oc_elf.specs.SectionRules as rules;

use oc_base::{Code, Fault, MOST_CONTENTS, Phase};
use oc_elf::{
    Frame, MOST_SIZE, MOST_SIZES, SHF_COMPRESSED, SHF_LINK_ORDER, SHF_TLS, SHNDX_SIZE, SHT_GROUP,
    SHT_NULL, SHT_REL, SHT_RELA, SHT_STRTAB, SHT_SYMTAB, SHT_SYMTAB_SHNDX, Shdr, foreign_type, has,
    is_carried_type, kind_by, name_in, rel_size, reloc_type, sym_size,
};
use oc_neutral::Kind;
use oc_neutral::elf::{ALIGN_BITS, SHF_ALLOC, SHT_NOBITS};

/// The name of a section; empty where it is not there. Linear in the name.
pub fn section_name<'a>(frame: &Frame<'a>, s: &Shdr) -> &'a [u8]
    ensures { result.now ≡ sections.section_name frame.now s.now }
{
    match name_in(frame.file(), &frame.names(), s.sh_name) {
        Some(name) => name,
        None => &[],
    }
}

/// The kind of a section, where it is carried. Linear in its name.
pub fn kind_of(frame: &Frame, s: &Shdr) -> Kind
    ensures { result ≡ sections.kind_of frame.now s.now }
{
    kind_by(section_name(frame, s), s.sh_type, s.sh_flags)
}

/// Whether the kind has no bytes. Constant time.
pub fn is_zero(kind: Kind) -> bool
    ensures { result ≡ is_zero kind }
{
    matches!(kind, Kind::Zero)
}

/// The fault of section header `k` with this code and place, or number. Constant time.
pub(crate) fn section_fault(code: Code, k: u32, place: u64) -> Fault
    ensures { result ≡ rules.section_fault code k place }
{
    Fault {
        phase: Phase::Section,
        index: k,
        code,
        place,
    }
}

// whether the type has a name here
fn is_known_type(sh_type: u32) -> bool
    ensures { result ≡ list_any (nat_eq sh_type) rules.known_types }
{
    sh_type == SHT_NULL
        || sh_type == SHT_SYMTAB
        || sh_type == SHT_STRTAB
        || sh_type == SHT_RELA
        || sh_type == SHT_REL
        || sh_type == SHT_GROUP
        || sh_type == SHT_SYMTAB_SHNDX
        || is_carried_type(sh_type)
}

// whether the section is of a kind that is left out
#[tactic(auto, unfolding(oc_elf::specs::SectionRules::is_left_out))]
fn is_left_out(frame: &Frame, s: &Shdr) -> bool
    ensures { result ≡ rules.is_left_out frame.now s.now }
{
    has(s.sh_flags, SHF_TLS)
        || has(s.sh_flags, SHF_COMPRESSED)
        || has(s.sh_flags, SHF_LINK_ORDER)
        || s.sh_type == SHT_NOBITS && !has(s.sh_flags, SHF_ALLOC)
        || s.sh_type == foreign_type(frame.word())
        || !is_known_type(s.sh_type) && has(s.sh_flags, SHF_ALLOC)
}

// whether the bytes of a section pass the end of the file
fn passes_end(frame: &Frame, s: &Shdr) -> bool
    ensures { result ≡ nat_lt (length frame.now.file) (s.now.sh_offset + s.now.sh_size) }
{
    let len = frame.file().len() as u64;
    s.sh_offset > len || s.sh_size > len - s.sh_offset
}

// whether the section takes bytes of the file
fn has_bytes(s: &Shdr) -> bool
    ensures { result ≡ rules.has_bytes s.now }
{
    !(s.sh_type == SHT_NULL || s.sh_type == SHT_NOBITS)
}

/// The fault of the conditions on each header. Linear in its name.
#[tactic(auto, unfolding(oc_elf::specs::SectionRules::form_conditions))]
pub(crate) fn form_fault(frame: &Frame, k: u32, place: u64, s: &Shdr) -> Option<Fault>
    ensures { result ≡ first_broken (rules.form_conditions frame.now k place s.now) }
{
    if has_bytes(s) && passes_end(frame, s) {
        return Some(section_fault(Code::Short, k, s.sh_offset));
    }
    if name_in(frame.file(), &frame.names(), s.sh_name).is_none() {
        return Some(section_fault(Code::BadName, k, place));
    }
    if s.sh_type == SHT_SYMTAB_SHNDX && !frame.class().is_big() {
        return Some(section_fault(Code::ExtendedNumbering, k, place));
    }
    None
}

/// Whether a section has whole entries of that size. Constant time.
pub(crate) fn has_entries(size: u64, s: &Shdr) -> bool
    requires { 1 ≤ size }
    ensures { result ≡ rules.has_entries size s.now }
{
    s.sh_entsize == size && s.sh_size % size == 0
}

// whether a symbol table is a good one, where `first` is the first before it
#[tactic(auto, unfolding(oc_elf::specs::SectionRules::is_good_symtab))]
fn is_good_symtab(frame: &Frame, first: Option<u32>, k: u32, s: &Shdr) -> bool
    requires { first ≡ sections.symtab_among frame.now k }
    ensures { result ≡ rules.is_good_symtab frame.now k s.now }
{
    has_entries(sym_size(frame.word()), s)
        && frame.header(s.sh_link).sh_type == SHT_STRTAB
        && first.is_none()
}

// whether a relocation table is a good one, where `before` is the one of the same section before it
#[tactic(auto, unfolding(oc_elf::specs::SectionRules::is_good_table))]
fn is_good_table(frame: &Frame, before: Option<u32>, k: u32, s: &Shdr) -> bool
    requires { s.now.sh_info < length frame.now.headers → before ≡ sections.table_among frame.now k s.now.sh_info }
    ensures { result ≡ rules.is_good_table frame.now k s.now }
{
    has_entries(rel_size(frame.word()), s)
        && frame.header(s.sh_link).sh_type == SHT_SYMTAB
        && s.sh_info < frame.count()
        && before.is_none()
}

// whether a table of section numbers is a good one
#[tactic(auto, unfolding(oc_elf::specs::SectionRules::is_good_shndx))]
fn is_good_shndx(frame: &Frame, k: u32, s: &Shdr) -> bool
    ensures { result ≡ rules.is_good_shndx frame.now k s.now }
{
    let symtab = frame.header(s.sh_link);
    has_entries(SHNDX_SIZE, s)
        && symtab.sh_type == SHT_SYMTAB
        && symtab.sh_size / sym_size(frame.word()) <= s.sh_size / SHNDX_SIZE
        && is_number(frame.shndx_number(), k)
}

// whether a number is present, and is this one
fn is_number(number: Option<u32>, k: u32) -> bool
    ensures { result ≡ option_map_or (λ j. nat_eq j k) number false }
{
    match number {
        Some(j) => j == k,
        None => false,
    }
}

/// The fault of the conditions on kinds and tables, where `first` is the first symbol table before,
/// and `before` the relocation table of the same section before. Constant time.
#[tactic(auto, unfolding(oc_elf::specs::SectionRules::table_conditions))]
pub(crate) fn table_fault(
    frame: &Frame,
    first: Option<u32>,
    before: Option<u32>,
    k: u32,
    place: u64,
    s: &Shdr,
) -> Option<Fault>
    requires first { first ≡ sections.symtab_among frame.now k }
    requires before { s.now.sh_info < length frame.now.headers → before ≡ sections.table_among frame.now k s.now.sh_info }
    ensures { result ≡ first_broken (rules.table_conditions frame.now k place s.now) }
{
    if is_left_out(frame, s) {
        return Some(section_fault(Code::SectionKind, k, place));
    }
    if s.sh_type == SHT_SYMTAB && !is_good_symtab(frame, first, k, s) {
        return Some(section_fault(Code::BadTable, k, place));
    }
    if s.sh_type == reloc_type(frame.word()) && !is_good_table(frame, before, k, s) {
        return Some(section_fault(Code::BadTable, k, place));
    }
    if s.sh_type == SHT_SYMTAB_SHNDX && !is_good_shndx(frame, k, s) {
        return Some(section_fault(Code::BadTable, k, place));
    }
    None
}

/// Whether a number is a power of two from 2^0 to 2^`n`. Linear in `n`.
pub(crate) fn is_power(n: u32, a: u64) -> bool
    requires { n ≤ 63 }
    ensures { result ≡ rules.is_power n a }
{
    for e in 0..n + 1 {
        if a == 1 << e {
            return true;
        }
    }
    false
}

// whether an alignment is 0 or a power of two
fn is_alignment(a: u64) -> bool
    ensures { result ≡ rules.is_alignment a }
{
    a == 0 || is_power(63, a)
}

/// What the sections so far count against the limits.
#[derive(Clone, Copy, Debug, PartialEq, Eq)]
pub(crate) struct Sums {
    /// Against the limit on sizes.
    pub(crate) sizes: u64,
    /// Against the limit on bytes.
    pub(crate) bytes: u64,
}

// what a section counts against the limit on sizes
fn size_counted(s: &Shdr) -> u64
    ensures { result ≡ (if sections.is_carried s.now then s.now.sh_size else 0) }
{
    if is_carried_type(s.sh_type) {
        s.sh_size
    } else {
        0
    }
}

// what a section counts against the limit on bytes
fn bytes_counted(frame: &Frame, s: &Shdr) -> u64
    ensures { result ≡ (if sections.is_carried s.now && not (is_zero (sections.kind_of frame.now s.now)) then s.now.sh_size else 0) }
{
    if is_carried_type(s.sh_type) && !is_zero(kind_of(frame, s)) {
        s.sh_size
    } else {
        0
    }
}

// the fault of the limits, where a section of that size counts `counted` against that on bytes
fn limit_fault(sums: Sums, k: u32, size: u64, counted: u64) -> Option<Fault>
    requires { (sums.sizes ≤ 2147483648) × (sums.bytes ≤ MOST_CONTENTS) × (counted ≤ size) }
    ensures { result ≡ first_broken (rules.limits_by k size (sums.sizes + size) (sums.bytes + counted)) }
{
    if size > MOST_SIZE {
        return Some(section_fault(Code::LimitSection, k, size));
    }
    let sizes = sums.sizes + size;
    if sizes > MOST_SIZES {
        return Some(section_fault(Code::LimitSum, k, sizes));
    }
    let bytes = sums.bytes + counted;
    if bytes > MOST_CONTENTS {
        return Some(section_fault(Code::LimitBytes, k, bytes));
    }
    None
}

/// The fault of the conditions on carried sections, with the sums before. Linear in its name.
#[tactic(auto, unfolding(oc_elf::specs::SectionRules::carried_conditions))]
pub(crate) fn carried_fault(
    frame: &Frame,
    sums: Sums,
    k: u32,
    place: u64,
    s: &Shdr,
) -> Option<Fault>
    requires sizes { (sums.sizes ≡ sum_upto (rules.size_counted frame.now) k) × (sums.sizes ≤ 2147483648) }
    requires bytes { (sums.bytes ≡ sum_upto (rules.bytes_counted frame.now) k) × (sums.bytes ≤ MOST_CONTENTS) }
    requires here { s.now ≡ header_at frame.now.headers k }
    ensures { result ≡ first_broken (rules.carried_conditions frame.now k place s.now) }
{
    if !is_carried_type(s.sh_type) {
        return None;
    }
    if !is_alignment(s.sh_addralign) {
        return Some(section_fault(Code::BadAlign, k, place));
    }
    if s.sh_addralign > 1 << ALIGN_BITS {
        return Some(section_fault(Code::AlignRange, k, place));
    }
    limit_fault(sums, k, s.sh_size, bytes_counted(frame, s))
}

/// The sums with a section more. Linear in its name.
pub(crate) fn counted(frame: &Frame, sums: Sums, k: u32) -> Sums
    requires sizes { sums.sizes + rules.size_counted frame.now k ≤ 2147483648 }
    requires bytes { sums.bytes + rules.bytes_counted frame.now k ≤ MOST_CONTENTS }
    ensures sizes { result.sizes ≡ sums.sizes + rules.size_counted frame.now k }
    ensures bytes { result.bytes ≡ sums.bytes + rules.bytes_counted frame.now k }
{
    let s = frame.header(k);
    Sums {
        sizes: sums.sizes + size_counted(&s),
        bytes: sums.bytes + bytes_counted(frame, &s),
    }
}
