//! What differs between formats as targets, one question each.
ghost use Rattle.std.specs.Prelude.{◌≡◌};
ghost use Rattle.oc_neutral.specs.Alignments as alignments;
ghost use Rattle.oc_neutral.specs.Families as families;
ghost use Rattle.oc_neutral.specs.Families.{container_of, family_of};

use oc_base::{Format, plain_of};
use oc_neutral::{coff, elf};

/// Whether two formats are the same, as far as names, tags and debugging information go. Constant time.
pub fn same_format(a: Format, b: Format) -> bool
    ensures { result ≡ families.same_format a b }
{
    matches!(
        (a, b),
        (
            Format::Elf32 | Format::BigElf32,
            Format::Elf32 | Format::BigElf32
        ) | (
            Format::Elf64 | Format::BigElf64,
            Format::Elf64 | Format::BigElf64
        ) | (
            Format::Coff32 | Format::BigCoff32,
            Format::Coff32 | Format::BigCoff32
        ) | (
            Format::Coff64 | Format::BigCoff64,
            Format::Coff64 | Format::BigCoff64
        ) | (Format::Mac32, Format::Mac32)
            | (Format::Mac64, Format::Mac64)
            | (Format::Omf, Format::Omf)
    )
}

/// Whether debugging information can be kept within the format. Constant time.
pub fn keeps_debug(format: Format) -> bool
    ensures { result ≡ (family_of format).keeps_debug }
{
    match format {
        Format::Elf32
        | Format::Elf64
        | Format::BigElf32
        | Format::BigElf64
        | Format::Coff32
        | Format::Coff64
        | Format::BigCoff32
        | Format::BigCoff64
        | Format::Mac32
        | Format::Mac64 => true,
        Format::Omf => false,
    }
}

/// Whether tables for unwinding can come to a target from another format: from COFF to ELF, and from
/// ELF to COFF. Constant time.
pub fn takes_exceptions(target: Format, from: Format) -> bool
    ensures { result ≡ (family_of target).takes_exceptions (container_of from) }
{
    match target {
        Format::Elf32 | Format::Elf64 | Format::BigElf32 | Format::BigElf64 => matches!(
            plain_of(from),
            Format::Coff32 | Format::Coff64
        ),
        Format::Coff32 | Format::Coff64 | Format::BigCoff32 | Format::BigCoff64 => matches!(
            plain_of(from),
            Format::Elf32 | Format::Elf64
        ),
        Format::Mac32 | Format::Mac64 | Format::Omf => false,
    }
}

/// The greatest alignment of a section. Constant time.
pub fn most_align(target: Format) -> u32
    ensures { result ≡ alignments.most_align target }
{
    match target {
        Format::Elf32 | Format::Elf64 | Format::BigElf32 | Format::BigElf64 => 1 << elf::ALIGN_BITS,
        Format::Coff32 | Format::Coff64 | Format::BigCoff32 | Format::BigCoff64 => 1
            << coff::ALIGN_BITS,
        Format::Mac32 | Format::Mac64 => 1 << 15,
        Format::Omf => 256,
    }
}
