//! What names and flags of a section say.
ghost use Rattle.std.specs.Prelude.{◌≡◌, ◌≤◌, nat_eq};
ghost use Rattle.std.specs.List.{list_any, position};
ghost use Rattle.oc_macho.specs.SectionFaults as rules;
ghost use Rattle.oc_macho.specs.Sections as sections;
ghost use Rattle.oc_neutral.specs.KindRules.{has};
ghost use Rattle.oc_neutral.specs.Mach.Kinds as kinds;

use crate::section_header::SectionHeader;
use oc_neutral::Kind;
use oc_neutral::mach::{
    S_4BYTE_LITERALS, S_8BYTE_LITERALS, S_16BYTE_LITERALS, S_ATTR_PURE_INSTRUCTIONS,
    S_ATTR_SOME_INSTRUCTIONS, S_COALESCED, S_CSTRING_LITERALS, S_LITERAL_POINTERS,
    S_MOD_INIT_FUNC_POINTERS, S_MOD_TERM_FUNC_POINTERS, S_REGULAR, S_ZEROFILL,
};

/// Whether a flag, which is a power of two, is set. Constant time.
pub fn has(flags: u32, flag: u32) -> bool
    requires { 1 ≤ flag }
    ensures { result ≡ has flags flag }
{
    flags / flag % 2 == 1
}

// where the first NUL lies
fn nul_place(bytes: &[u8]) -> Option<usize>
    ensures { result ≡ position (λ c. nat_eq c 0) bytes.now }
{
    bytes.iter().position(|c| *c == 0)
}

/// The bytes before the first NUL, or all. Linear.
pub fn until_nul(bytes: &[u8]) -> &[u8]
    ensures { result.now ≡ sections.until_nul bytes.now }
{
    match nul_place(bytes) {
        Some(end) => &bytes[..end],
        None => bytes,
    }
}

// whether the type in the flags is one that is read
fn is_read_type(flags: u32) -> bool
    ensures { result ≡ kinds.is_read_type flags }
{
    matches!(
        flags % 256,
        S_REGULAR
            | S_ZEROFILL
            | S_CSTRING_LITERALS
            | S_4BYTE_LITERALS
            | S_8BYTE_LITERALS
            | S_LITERAL_POINTERS
            | S_MOD_INIT_FUNC_POINTERS
            | S_MOD_TERM_FUNC_POINTERS
            | S_COALESCED
            | S_16BYTE_LITERALS
    )
}

// whether there is a comma among the bytes
fn has_comma(bytes: &[u8]) -> bool
    ensures { result ≡ list_any kinds.is_comma bytes.now }
{
    bytes.iter().any(|c| *c == b',')
}

/// Whether the segment of a section has a comma in its name, or the section is of a type that is not
/// read. Constant time.
pub fn is_odd(h: &SectionHeader) -> bool
    ensures { result ≡ rules.is_odd h.now }
{
    has_comma(until_nul(&h.segname)) || !is_read_type(h.flags)
}

/// Whether a section has no bytes in the file. Constant time.
pub fn is_zerofill(h: &SectionHeader) -> bool
    ensures { result ≡ sections.is_zerofill h.now }
{
    h.flags % 256 == S_ZEROFILL
}

// the kind of a section in a segment, with its name and flags
#[tactic(auto, unfolding(oc_neutral::specs::Mach::Kinds::mach_kind))]
fn mach_kind(segment: &[u8], section: &[u8], flags: u32) -> Kind
    ensures { result ≡ kinds.mach_kind segment.now section.now flags }
{
    if segment == b"__DWARF".as_slice() {
        return Kind::Debug;
    }
    if segment == b"__LD".as_slice()
        || section == b"__eh_frame".as_slice()
        || section == b"__gcc_except_tab".as_slice()
    {
        return Kind::Exception;
    }
    let number = flags % 256;
    if number == S_MOD_INIT_FUNC_POINTERS {
        return Kind::Init;
    }
    if number == S_MOD_TERM_FUNC_POINTERS {
        return Kind::Fini;
    }
    if number == S_ZEROFILL {
        return Kind::Zero;
    }
    if segment != b"__TEXT".as_slice() {
        return Kind::Data;
    }
    if has(flags, S_ATTR_PURE_INSTRUCTIONS) || has(flags, S_ATTR_SOME_INSTRUCTIONS) {
        return Kind::Code;
    }
    Kind::ReadOnly
}

/// The kind of a section. Constant time.
#[tactic(auto, unfolding(crate::specs::Sections::kind_of))]
pub fn kind_of(h: &SectionHeader) -> Kind
    ensures { result ≡ sections.kind_of h.now }
{
    mach_kind(until_nul(&h.segname), until_nul(&h.sectname), h.flags)
}
