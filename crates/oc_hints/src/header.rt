//! What a file says that its object does not hold.
ghost use Rattle.std.specs.Prelude.{◌≡◌, ◌+◌, ◌≤◌, ◌<◌, ◌^◌, true, false, length};
ghost use Rattle.oc_neutral.specs.KindRules.{has};
ghost use Rattle.oc_hints.specs.Case.{case_of};
ghost use Rattle.oc_hints.specs.Sections as sections;

use crate::subject::Subject;
use oc_base::{Word, u32_in, u64_in, word_of};

/// Where e_shoff lies in a file of 32 bits, in bytes (gABI, "ELF Header").
const E_SHOFF32: u64 = 32;
/// The same of 64 bits.
const E_SHOFF64: u64 = 40;
/// The bytes of a section header of 32 bits (gABI, "Section Header").
const SHDR32_SIZE: u64 = 40;
/// The same of 64 bits.
const SHDR64_SIZE: u64 = 64;
/// Where sh_flags lies in a section header of either.
const SH_FLAGS: u64 = 8;

/// Whether a flag, which is a power of two, is set. Constant time.
pub(crate) fn has(flags: u64, flag: u64) -> bool
    requires { 1 ≤ flag }
    ensures { result ≡ has flags flag }
{
    flags / flag % 2 == 1
}

/// The number of the four bytes from `at`, an offset in bytes; 0 where the file is shorter. Constant
/// time.
pub(crate) fn four_or_0(file: &[u8], at: u64) -> u32
    requires { at + 8 < 2 ^ 64 }
    ensures { result ≡ sections.number_or_0 file.now at 4 }
{
    if at + 4 > file.len() as u64 {
        return 0;
    }
    u32_in(file, at as usize)
}

/// The number of the eight bytes from `at`, an offset in bytes; 0 where the file is shorter. Constant
/// time.
pub(crate) fn eight_or_0(file: &[u8], at: u64) -> u64
    requires { at + 8 < 2 ^ 64 }
    ensures { result ≡ sections.number_or_0 file.now at 8 }
{
    if at + 8 > file.len() as u64 {
        return 0;
    }
    u64_in(file, at as usize)
}

// the flags of a section of a file of 32 bits
fn flags32(file: &[u8], number: u32) -> u64
    ensures { result ≡ sections.elf_flags false file.now number }
{
    let start = u64::from(four_or_0(file, E_SHOFF32));
    four_or_0(file, start + SHDR32_SIZE * u64::from(number) + SH_FLAGS).into()
}

// the flags of a section of a file of 64 bits
fn flags64(file: &[u8], number: u32) -> u64
    ensures { result ≡ sections.elf_flags true file.now number }
{
    let start = eight_or_0(file, E_SHOFF64);
    if start > file.len() as u64 {
        return 0;
    }
    eight_or_0(file, start + SHDR64_SIZE * u64::from(number) + SH_FLAGS)
}

/// Whether a section of ELF has a flag, a power of two, by its number in the file. Constant time.
pub(crate) fn has_flag(subject: &Subject, number: u32, flag: u64) -> bool
    requires { 1 ≤ flag }
    ensures { result ≡ sections.has_flag (case_of subject.now) number flag }
{
    match word_of(subject.from()) {
        Word::W32 => has(flags32(subject.file, number), flag),
        Word::W64 => has(flags64(subject.file, number), flag),
    }
}
