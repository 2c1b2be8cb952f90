//! What the flags of a section say.
ghost use Rattle.std.specs.Prelude.{◌≡◌, ◌≤◌, ◌<◌};
ghost use Rattle.oc_coff.specs.Comdat as comdat;
ghost use Rattle.oc_coff.specs.Sections as sections;
ghost use Rattle.oc_coff.specs.Tables as tables;
ghost use Rattle.oc_neutral.specs.Coff.Kinds as kinds;
ghost use Rattle.oc_neutral.specs.KindRules.{has};

use crate::constants::OVERFLOWED_COUNT;
use crate::section_header::SectionHeader;
use oc_neutral::Kind;
use oc_neutral::coff::{
    IMAGE_SCN_ALIGN_1BYTES, IMAGE_SCN_CNT_CODE, IMAGE_SCN_CNT_UNINITIALIZED_DATA,
    IMAGE_SCN_LNK_COMDAT, IMAGE_SCN_LNK_INFO, IMAGE_SCN_LNK_NRELOC_OVFL, IMAGE_SCN_LNK_REMOVE,
    IMAGE_SCN_MEM_EXECUTE, IMAGE_SCN_MEM_WRITE,
};

/// Whether a flag, which is a power of two, is set. Constant time.
pub fn has(flags: u32, flag: u32) -> bool
    requires { 1 ≤ flag }
    ensures { result ≡ has flags flag }
{
    flags / flag % 2 == 1
}

// whether the name is one of unwind tables
fn is_unwind_name(name: &[u8]) -> bool
    ensures { result ≡ kinds.is_unwind_name name.now }
{
    name == b".pdata".as_slice()
        || name.starts_with(b".pdata$")
        || name == b".xdata".as_slice()
        || name.starts_with(b".xdata$")
        || name.starts_with(b".eh_frame")
}

/// The kind of a section with this name and these flags, where it is carried. Constant time.
#[tactic(auto, unfolding(oc_neutral::specs::Coff::Kinds::coff_kind))]
pub fn kind_by(name: &[u8], flags: u32) -> Option<Kind>
    ensures { result ≡ kinds.coff_kind name.now flags }
{
    if name.starts_with(b".debug") {
        return Some(Kind::Debug);
    }
    if is_unwind_name(name) {
        return Some(Kind::Exception);
    }
    if has(flags, IMAGE_SCN_LNK_INFO) {
        return Some(Kind::Note);
    }
    if has(flags, IMAGE_SCN_LNK_REMOVE) {
        return None;
    }
    if name.starts_with(b".CRT$XC") {
        return Some(Kind::Init);
    }
    if name.starts_with(b".CRT$XT") {
        return Some(Kind::Fini);
    }
    if has(flags, IMAGE_SCN_CNT_UNINITIALIZED_DATA) {
        return Some(Kind::Zero);
    }
    if has(flags, IMAGE_SCN_CNT_CODE) || has(flags, IMAGE_SCN_MEM_EXECUTE) {
        return Some(Kind::Code);
    }
    if has(flags, IMAGE_SCN_MEM_WRITE) {
        return Some(Kind::Data);
    }
    Some(Kind::ReadOnly)
}

/// The alignment in a section's flags, four bits. Constant time.
pub fn align_bits(flags: u32) -> u32
    ensures { result ≡ sections.align_bits flags }
{
    flags / IMAGE_SCN_ALIGN_1BYTES % 16
}

/// Whether a linker treats copies of the section as its own symbol says. Constant time.
pub fn is_comdat(h: &SectionHeader) -> bool
    ensures { result ≡ comdat.is_comdat h.now }
{
    has(h.Characteristics, IMAGE_SCN_LNK_COMDAT)
}

/// Whether the count of its relocation entries is in the first of them. Constant time.
pub fn is_overflowed(h: &SectionHeader) -> bool
    ensures { result ≡ tables.is_overflowed h.now }
{
    has(h.Characteristics, IMAGE_SCN_LNK_NRELOC_OVFL) && h.NumberOfRelocations == OVERFLOWED_COUNT
}

/// Whether a section of that kind has bytes in the file. Constant time.
pub fn is_stored(kind: Option<Kind>, h: &SectionHeader) -> bool
    ensures { result ≡ sections.is_stored kind h.now }
{
    h.PointerToRawData != 0 && kind != Some(Kind::Zero)
}
