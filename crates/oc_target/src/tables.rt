//! The tables of relocation types that are written: their numbers, and what they mean.
ghost use Rattle.std.specs.Prelude.{◌≡◌, map};
ghost use Rattle.oc_target.specs.Tables.{meant, written_rows};

use crate::rows::{Row, Taken};
use oc_base::Format;
use oc_neutral::{Base, Check, Hint, Width, coff, elf, mach};

// a row: the number, and what it means; of a pair both numbers; where it says so, from so many
// bytes after the field's place
macro_rules! row {
    ($number:expr, $second:expr, $behind:expr; $width:ident $check:ident $base:ident $taken:ident $hint:ident) => {
        Row {
            number: $number as u16,
            second: $second,
            width: Width::$width,
            check: Check::$check,
            base: Base::$base,
            taken: Taken::$taken,
            hint: Hint::$hint,
            behind: $behind,
        }
    };
}

/// The types of i386 (i386 psABI, "Relocation Types").
const ELF32: [Row; 10] = [
    row!(elf::R_386_32, None, 0; Four Wrap Address Zero Plain),
    row!(elf::R_386_PC32, None, 0; Four Wrap Address Place Plain),
    row!(elf::R_386_PLT32, None, 0; Four Wrap Address Place Call),
    row!(elf::R_386_GOT32, None, 0; Four Wrap Slot GotBase Plain),
    row!(elf::R_386_GOTOFF, None, 0; Four Wrap Address GotBase Plain),
    row!(elf::R_386_GOTPC, None, 0; Four Wrap GotBase Place Plain),
    row!(elf::R_386_16, None, 0; Two Either Address Zero Plain),
    row!(elf::R_386_8, None, 0; One Either Address Zero Plain),
    row!(elf::R_386_PC16, None, 0; Two Signed Address Place Plain),
    row!(elf::R_386_PC8, None, 0; One Signed Address Place Plain),
];

/// The types of x86-64 (x86-64 psABI, "Relocation Types").
const ELF64: [Row; 13] = [
    row!(elf::R_X86_64_64, None, 0; Eight Wrap Address Zero Plain),
    row!(elf::R_X86_64_32, None, 0; Four Unsigned Address Zero Plain),
    row!(elf::R_X86_64_32S, None, 0; Four Signed Address Zero Plain),
    row!(elf::R_X86_64_16, None, 0; Two Either Address Zero Plain),
    row!(elf::R_X86_64_8, None, 0; One Either Address Zero Plain),
    row!(elf::R_X86_64_PC32, None, 0; Four Signed Address Place Plain),
    row!(elf::R_X86_64_PLT32, None, 0; Four Signed Address Place Call),
    row!(elf::R_X86_64_PC64, None, 0; Eight Wrap Address Place Plain),
    row!(elf::R_X86_64_PC16, None, 0; Two Signed Address Place Plain),
    row!(elf::R_X86_64_PC8, None, 0; One Signed Address Place Plain),
    row!(elf::R_X86_64_GOTPCREL, None, 0; Four Signed Slot Place Plain),
    row!(elf::R_X86_64_GOTOFF64, None, 0; Eight Wrap Address GotBase Plain),
    row!(elf::R_X86_64_GOTPC32, None, 0; Four Signed GotBase Place Plain),
];

/// The types of Intel 386 (PE/COFF, "Type Indicators").
const COFF32: [Row; 5] = [
    row!(coff::IMAGE_REL_I386_DIR32, None, 0; Four Wrap Address Zero Plain),
    row!(coff::IMAGE_REL_I386_DIR32NB, None, 0; Four Wrap Address ImageBase Plain),
    row!(coff::IMAGE_REL_I386_SECREL, None, 0; Four Wrap Address Home Plain),
    row!(coff::IMAGE_REL_I386_SECTION, None, 0; Two Wrap HomeNumber Zero Plain),
    row!(coff::IMAGE_REL_I386_REL32, None, coff::REL32_BEHIND; Four Wrap Address Place Plain),
];

/// The types of x64 (PE/COFF, "Type Indicators").
const COFF64: [Row; 6] = [
    row!(coff::IMAGE_REL_AMD64_ADDR64, None, 0; Eight Wrap Address Zero Plain),
    row!(coff::IMAGE_REL_AMD64_ADDR32, None, 0; Four Unsigned Address Zero Plain),
    row!(coff::IMAGE_REL_AMD64_ADDR32NB, None, 0; Four Unsigned Address ImageBase Plain),
    row!(coff::IMAGE_REL_AMD64_SECREL, None, 0; Four Unsigned Address Home Plain),
    row!(coff::IMAGE_REL_AMD64_SECTION, None, 0; Two Wrap HomeNumber Zero Plain),
    row!(coff::IMAGE_REL_AMD64_REL32, None, coff::REL32_BEHIND; Four Signed Address Place Plain),
];

/// The types of i386 (Mach-O reference, "Relocation Data Structures").
const MAC32: [Row; 3] = [
    row!(mach::GENERIC_RELOC_VANILLA, None, 0; Four Wrap Address Zero Plain),
    row!(mach::GENERIC_RELOC_VANILLA, None, 0; Four Wrap Address Place Plain),
    row!(mach::GENERIC_RELOC_LOCAL_SECTDIFF, Some(mach::GENERIC_RELOC_PAIR as u16), 0; Four Wrap Address Section Plain),
];

/// The types of x86-64 (Mach-O reference, "Relocation Data Structures").
const MAC64: [Row; 7] = [
    row!(mach::X86_64_RELOC_UNSIGNED, None, 0; Eight Wrap Address Zero Plain),
    row!(mach::X86_64_RELOC_UNSIGNED, None, 0; Four Unsigned Address Zero Plain),
    row!(mach::X86_64_RELOC_SIGNED, None, 4; Four Signed Address Place Plain),
    row!(mach::X86_64_RELOC_BRANCH, None, 4; Four Signed Address Place Call),
    row!(mach::X86_64_RELOC_GOT, None, 4; Four Signed Slot Place Plain),
    row!(mach::X86_64_RELOC_SUBTRACTOR, Some(mach::X86_64_RELOC_UNSIGNED as u16), 0; Eight Wrap Address Section Plain),
    row!(mach::X86_64_RELOC_SUBTRACTOR, Some(mach::X86_64_RELOC_UNSIGNED as u16), 0; Four Signed Address Section Plain),
];

/// The types of OMF (TIS OMF 1.1, "FIXUPP"), which has no numbers for them; these are our profile's.
const OMF: [Row; 3] = [
    row!(0, None, 0; Four Wrap Address Zero Plain),
    row!(1, None, 0; Four Wrap Address Home Plain),
    row!(2, None, 4; Four Wrap Address Place Plain),
];
/// The types that a format writes. Constant time, no memory.
pub(crate) fn table_of(target: Format) -> &'static [Row]
    ensures { map meant result.now ≡ written_rows target }
{
    match target {
        Format::Elf32 | Format::BigElf32 => &ELF32,
        Format::Elf64 | Format::BigElf64 => &ELF64,
        Format::Coff32 | Format::BigCoff32 => &COFF32,
        Format::Coff64 | Format::BigCoff64 => &COFF64,
        Format::Mac32 => &MAC32,
        Format::Mac64 => &MAC64,
        Format::Omf => &OMF,
    }
}
