//! What is refused of small inputs, one of each kind (docs/COMMANDS.md, "Messages for objects").
use crate::rows::{Row, show};
use crate::targets::{TO_COFF32, TO_COFF64, TO_ELF32, TO_ELF64, TO_MAC32, TO_MAC64, TO_OMF};
use anyhow::Result;
use std::alloc::Global;

/// What is refused, the words of the conversion, and the input.
type Refusal = (&'static str, &'static [&'static str], &'static str);

/// The words of a conversion with debug sections or exception sections kept or stripped.
const DEBUG_TO_COFF32: &[&str] = &["-fcoff32", "--keep-debug", "a", "b"];

const DEBUG_TO_OMF: &[&str] = &["-fomf", "--keep-debug", "a", "b"];

const EXCEPTIONS_TO_MAC32: &[&str] = &["-fmac32", "--keep-exceptions", "a", "b"];

const EXCEPTIONS_TO_OMF: &[&str] = &["-fomf", "--keep-exceptions", "a", "b"];

const STRIPPED: &[&str] = &["-felf32", "--strip-debug", "a", "b"];

static REFUSALS: [Refusal; 52] = [
    (
        "a field past its section",
        TO_COFF32,
        "field_past_its_section.o",
    ),
    ("fields that meet", TO_COFF32, "fields_that_meet.o"),
    ("a section of 2^31 bytes", TO_COFF32, "section_too_big.o"),
    ("relocations of 2^31 bytes", TO_ELF32, "table_of_2_gib.o"),
    (
        "2^32 - 1 relocations in mac64",
        TO_MAC64,
        "relocations_past_the_end.mac.o",
    ),
    ("256 sections in mac32", TO_MAC32, "sections_256.o"),
    ("debug sections in coff32", DEBUG_TO_COFF32, "call_debug.o"),
    ("debug sections in omf", DEBUG_TO_OMF, "debug_segment.obj"),
    (
        "exceptions in mac32",
        EXCEPTIONS_TO_MAC32,
        "call_exception.o",
    ),
    ("exceptions in omf", EXCEPTIONS_TO_OMF, "call_exception.o"),
    ("initialisers in omf", TO_OMF, "init_array.o"),
    (
        "an alignment of 65,536 in coff32",
        TO_COFF32,
        "aligned_to_65536.o",
    ),
    (
        "an alignment of 65,536 in mac32",
        TO_MAC32,
        "aligned_to_65536.o",
    ),
    (
        "an alignment of 65,536 in omf",
        TO_OMF,
        "aligned_to_65536.o",
    ),
    ("a group in mac32", TO_MAC32, "elf32_group.o"),
    ("a group in omf", TO_OMF, "elf32_group.o"),
    ("a name of 256 bytes in omf", TO_OMF, "name_of_256.o"),
    ("a name with a NUL in elf32", TO_ELF32, "name_with_nul.obj"),
    (
        "a name with a NUL in coff32",
        TO_COFF32,
        "name_with_nul.obj",
    ),
    ("a name with a NUL in mac32", TO_MAC32, "name_with_nul.obj"),
    ("an absolute symbol in omf", TO_OMF, "absolute.o"),
    (
        "an absolute symbol of 33 bits in coff64",
        TO_COFF64,
        "absolute_of_33_bits.o",
    ),
    (
        "a common without a byte in coff32",
        TO_COFF32,
        "common_of_0.o",
    ),
    (
        "a common without a byte in mac32",
        TO_MAC32,
        "common_of_0.o",
    ),
    ("a common without a byte in omf", TO_OMF, "common_of_0.o"),
    (
        "a common aligned above its size in coff32",
        TO_COFF32,
        "common_too_strict.o",
    ),
    (
        "a common aligned to 65,536 in coff32",
        TO_COFF32,
        "common_to_65536.o",
    ),
    (
        "a common aligned to 65,536 in mac32",
        TO_MAC32,
        "common_to_65536.o",
    ),
    (
        "a common aligned to 65,536 in omf",
        TO_OMF,
        "common_to_65536.o",
    ),
    ("a weak symbol in omf", TO_OMF, "weak.o"),
    (
        "a signed field of four bytes in coff64",
        TO_COFF64,
        "signed_32.o",
    ),
    (
        "a field of the GOT in coff64",
        TO_COFF64,
        "gcc_object_to_mac64.o",
    ),
    (
        "a difference of two sections in elf64",
        TO_ELF64,
        "difference_of_two_sections.mac.o",
    ),
    (
        "a difference of two sections in elf32",
        TO_ELF32,
        "empty_end.mac.o",
    ),
    (
        "a difference with an end in an empty section",
        TO_MAC32,
        "empty_end.mac.o",
    ),
    (
        "an addend of 200 in a byte of elf32",
        TO_ELF32,
        "byte_to_200.o",
    ),
    (
        "an addend of 2^31 + 1 from the end of a field in coff64",
        TO_COFF64,
        "addend_too_wide.o",
    ),
    (
        "an addend of 2^31 from the end of a field in coff64",
        TO_COFF64,
        "addend_of_pc32.o",
    ),
    (
        "an addend of 2^31 from the end of a field in mac64",
        TO_MAC64,
        "addend_of_pc32.o",
    ),
    ("an addend of 2^31 in coff64", TO_COFF64, "addend_of_32.o"),
    ("an addend of 2^31 in mac64", TO_MAC64, "addend_of_32.o"),
    (
        "a symbol in what is dropped across formats",
        TO_COFF32,
        "symbol_in_debug.o",
    ),
    (
        "a symbol in what is stripped",
        STRIPPED,
        "symbol_in_debug.o",
    ),
    (
        "a reference to what is dropped across formats",
        TO_COFF32,
        "call_of_debug.o",
    ),
    (
        "a reference to what is stripped",
        STRIPPED,
        "call_of_debug.o",
    ),
    (
        "a reference to an absolute symbol that becomes local",
        &["-fcoff32", "-nl:a", "a", "b"],
        "address_of_absolute.o",
    ),
    (
        "a symbol that a difference takes becomes weak",
        &["-fmac64", "-nw:base", "a", "b"],
        "pinned.mac.o",
    ),
    (
        "an edit that takes a whole name",
        &["-felf32", "-np:main:", "a", "b"],
        "call.o",
    ),
    (
        "a name that another symbol has",
        &["-felf32", "-nr:foo:main", "a", "b"],
        "call.o",
    ),
    (
        "4,294,967,295 copies in a segment of 16 bytes",
        TO_ELF32,
        "repeat_count.obj",
    ),
    (
        "65,535 sections that are not there",
        TO_ELF64,
        "sections_that_are_not_there.obj",
    ),
    (
        "an object of another word",
        TO_COFF64,
        "elf32_call_to_coff32.o",
    ),
];

/// Runs each, and prints what came of it.
pub fn refusals(rt: &HostRuntime, alloc: Global) -> Result<()> {
    for (name, words, input) in &REFUSALS {
        let row = Row::without_output(name, words, input);
        show(rt, name, &row.outcome(rt, alloc)?)?;
    }
    Ok(())
}
