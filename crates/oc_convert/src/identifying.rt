//! The format of a file.
ghost use Rattle.std.specs.Prelude.{◌≡◌, if◌then◌else◌};
ghost use Rattle.oc_convert.specs.Identified as formats;
ghost use Rattle.oc_convert.specs.Identified.{identified};

use crate::first_bytes::{
    BIG_CLASS, BIG_COFF, COFF32, COFF64, E_SHNUM32, E_SHNUM64, E_SHOFF32, E_SHOFF64, E_SHSTRNDX32,
    E_SHSTRNDX64, EHDR32_SIZE, EHDR64_SIZE, ELF32, ELF64, MAC32, MAC64, OMF, SHN_XINDEX,
};
use oc_base::{Format, u16_in, u32_in, u64_in};

// whether an ELF file of 32 bits has its sections numbered elsewhere than in its header
fn is_big_elf32(bytes: &[u8]) -> bool
    ensures { result ≡ formats.is_big_elf32 bytes.now }
{
    EHDR32_SIZE <= bytes.len()
        && u32_in(bytes, E_SHOFF32) != 0
        && (u16_in(bytes, E_SHNUM32) == 0 || u16_in(bytes, E_SHSTRNDX32) == SHN_XINDEX)
}

// the same of 64 bits
fn is_big_elf64(bytes: &[u8]) -> bool
    ensures { result ≡ formats.is_big_elf64 bytes.now }
{
    EHDR64_SIZE <= bytes.len()
        && u64_in(bytes, E_SHOFF64) != 0
        && (u16_in(bytes, E_SHNUM64) == 0 || u16_in(bytes, E_SHSTRNDX64) == SHN_XINDEX)
}

// whether a file is an object of COFF with many sections, for a machine
fn is_big_coff(machine: &[u8; 2], bytes: &[u8]) -> bool
    ensures { result ≡ formats.is_big_coff machine.now bytes.now }
{
    bytes.starts_with(&BIG_COFF)
        && 28 <= bytes.len()
        && &bytes[6..8] == machine.as_slice()
        && &bytes[12..28] == BIG_CLASS.as_slice()
}

// the format of a file of ELF of 32 bits
fn elf32(bytes: &[u8]) -> Format
    ensures { result ≡ (if formats.is_big_elf32 bytes.now then Format.BigElf32 else Format.Elf32) }
{
    if is_big_elf32(bytes) {
        return Format::BigElf32;
    }
    Format::Elf32
}

// the same of 64 bits
fn elf64(bytes: &[u8]) -> Format
    ensures { result ≡ (if formats.is_big_elf64 bytes.now then Format.BigElf64 else Format.Elf64) }
{
    if is_big_elf64(bytes) {
        return Format::BigElf64;
    }
    Format::Elf64
}

/// The format of a file, by its first bytes: at most 64 are looked at. `None` where no format begins so.
/// Constant time, no memory.
#[tactic(auto, unfolding(crate::specs::Identified::identified))]
pub fn identify(bytes: &[u8]) -> Option<Format>
    ensures { result ≡ identified bytes.now }
{
    if bytes.starts_with(&ELF32) {
        Some(elf32(bytes))
    } else if bytes.starts_with(&ELF64) {
        Some(elf64(bytes))
    } else if bytes.starts_with(&COFF32) {
        Some(Format::Coff32)
    } else if bytes.starts_with(&COFF64) {
        Some(Format::Coff64)
    } else if is_big_coff(&COFF32, bytes) {
        Some(Format::BigCoff32)
    } else if is_big_coff(&COFF64, bytes) {
        Some(Format::BigCoff64)
    } else if bytes.starts_with(&MAC32) {
        Some(Format::Mac32)
    } else if bytes.starts_with(&MAC64) {
        Some(Format::Mac64)
    } else if bytes.starts_with(&OMF) {
        Some(Format::Omf)
    } else {
        None
    }
}
