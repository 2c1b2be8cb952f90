//! Relocation entries, scattered or not.
ghost use Rattle.std.specs.Prelude.{◌≡◌, ◌+◌, ◌<◌, ◌≤◌, length};
ghost use Rattle.oc_macho.specs.RelocationInfo as info;
ghost use Rattle.oc_macho.specs.declared.relocation_info.TheConstants.{RELOCATION_INFO_SIZE};

use crate::constants::R_SCATTERED;
use oc_base::u32_in;

/// The size of a relocation entry, in bytes (Mach-O reference, "relocation_info").
pub const RELOCATION_INFO_SIZE: usize = 8;

/// What a relocation entry refers to.
#[derive(Clone, Copy, Debug, PartialEq, Eq)]
pub enum Reference {
    /// A symbol by its number: `r_symbolnum`, where `r_extern` is 1.
    Symbol(u32),
    /// A section by its number, from 1; 0 is none: `r_symbolnum`, where `r_extern` is 0.
    Section(u32),
    /// A section by an address that it holds: `r_value` of a scattered entry.
    Address(u32),
}

/// A relocation entry (Mach-O reference, "relocation_info" and "scattered_relocation_info").
#[derive(Clone, Copy, Debug, PartialEq, Eq)]
pub struct RelocationInfo {
    /// Where the field begins in its section, in bytes.
    pub r_address: u32,
    /// 1 where the field is self-relative, and else 0.
    pub r_pcrel: u8,
    /// The field has 2 to that power bytes.
    pub r_length: u8,
    /// One of the constants `X86_64_RELOC_*` or `GENERIC_RELOC_*`.
    pub r_type: u8,
    /// What the entry refers to: `r_symbolnum` with `r_extern`, or `r_value`.
    pub refers: Reference,
}

// a scattered entry of two words
#[tactic(auto, unfolding(crate::specs::RelocationInfo::scattered_of))]
fn scattered_of(first: u32, second: u32) -> RelocationInfo
    ensures entry { result ≡ info.scattered_of first second }
    ensures length { result.r_length < 4 }
{
    RelocationInfo {
        r_address: first % 0x100_0000,
        r_pcrel: (first / 0x4000_0000 % 2) as u8,
        r_length: (first / 0x1000_0000 % 4) as u8,
        r_type: (first / 0x100_0000 % 16) as u8,
        refers: Reference::Address(second),
    }
}

// what an entry that is not scattered refers to, by its second word
#[tactic(auto, unfolding(crate::specs::RelocationInfo::reference_of))]
fn reference_of(second: u32) -> Reference
    ensures { result ≡ info.reference_of second }
{
    let r_symbolnum = second % 0x100_0000;
    if second / 0x800_0000 % 2 == 1 {
        Reference::Symbol(r_symbolnum)
    } else {
        Reference::Section(r_symbolnum)
    }
}

/// The relocation entry of two words. Constant time.
#[tactic(auto, unfolding(crate::specs::RelocationInfo::relocation_info_of))]
pub fn relocation_info_of(first: u32, second: u32) -> RelocationInfo
    ensures entry { result ≡ info.relocation_info_of first second }
    ensures length { result.r_length < 4 }
{
    if first >= R_SCATTERED {
        return scattered_of(first, second);
    }
    RelocationInfo {
        r_address: first,
        r_pcrel: (second / 0x100_0000 % 2) as u8,
        r_length: (second / 0x200_0000 % 4) as u8,
        r_type: (second / 0x1000_0000) as u8,
        refers: reference_of(second),
    }
}

/// The relocation entry at `at`, an offset in the file. Constant time.
#[tactic(auto, unfolding(crate::specs::RelocationInfo::relocation_info_at))]
pub fn relocation_info_at(file: &[u8], at: usize) -> RelocationInfo
    requires { at + RELOCATION_INFO_SIZE ≤ length file.now }
    ensures entry { result ≡ info.relocation_info_at file.now at }
    ensures length { result.r_length < 4 }
{
    relocation_info_of(u32_in(file, at), u32_in(file, at + 4))
}
