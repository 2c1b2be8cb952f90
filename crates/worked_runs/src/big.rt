//! Objects in the forms for many sections: small ones, in every pair with such a form, with every refusal of
//! reading that is theirs, and three of 70,000 sections (`data/big.py`).
use crate::big_coff::{AMD64, I386, Machine, many_sections, plain_sections};
use crate::rows::{Row, show};
use crate::runs::{OUT, Run, words_of};
use crate::targets::{
    LISTED, TO_BIGCOFF32, TO_BIGCOFF64, TO_BIGELF32, TO_BIGELF64, TO_COFF32, TO_COFF64, TO_ELF32,
    TO_ELF64, TO_MAC32, TO_MAC64, TO_OMF,
};
use anyhow::Result;
use std::alloc::Global;

/// The object of one call in both forms.
const BIG_ELF64: &str = "big_call.o";

const BIG_COFF64: &str = "big_call.obj";

/// The same as plain ELF, COFF and Mach-O.
const ELF64: &str = "call_in_elf64.o";

const COFF64: &str = "call_in_coff64.obj";

const MAC64: &str = "call_in_mac64.o";

/// The object of 32 bits in both forms.
const BIG_ELF32: &str = "big_call_32.o";

const BIG_COFF32: &str = "big_call_32.obj";

/// The same as plain ELF, COFF, Mach-O and OMF.
const ELF32: &str = "elf32_call_to_coff32.o";

const COFF32: &str = "elf32_call_to_coff32.obj";

const MAC32: &str = "call_in_mac32.o";

const OMF: &str = "call_in_omf.obj";

/// What a conversion is called, its words, its input and its output.
type Small = (
    &'static str,
    &'static [&'static str],
    &'static str,
    &'static str,
);

static SMALL: [Small; 28] = [
    ("elf64 to bigcoff64", TO_BIGCOFF64, ELF64, BIG_COFF64),
    ("coff64 to bigcoff64", TO_BIGCOFF64, COFF64, BIG_COFF64),
    (
        "bigcoff64 to bigcoff64",
        TO_BIGCOFF64,
        BIG_COFF64,
        BIG_COFF64,
    ),
    ("bigelf64 to bigcoff64", TO_BIGCOFF64, BIG_ELF64, BIG_COFF64),
    ("bigcoff64 to elf64", TO_ELF64, BIG_COFF64, ELF64),
    ("bigelf64 to elf64", TO_ELF64, BIG_ELF64, ELF64),
    ("bigcoff64 to coff64", TO_COFF64, BIG_COFF64, COFF64),
    ("bigelf64 to coff64", TO_COFF64, BIG_ELF64, COFF64),
    ("bigcoff64 to mac64", TO_MAC64, BIG_COFF64, MAC64),
    ("bigelf64 to mac64", TO_MAC64, BIG_ELF64, MAC64),
    (
        "mac64 to bigcoff64",
        TO_BIGCOFF64,
        MAC64,
        "big_call_from_mac64.obj",
    ),
    ("elf32 to bigcoff32", TO_BIGCOFF32, ELF32, BIG_COFF32),
    ("coff32 to bigcoff32", TO_BIGCOFF32, COFF32, BIG_COFF32),
    (
        "mac32 to bigcoff32",
        TO_BIGCOFF32,
        MAC32,
        "big_call_from_mac32.obj",
    ),
    (
        "omf to bigcoff32",
        TO_BIGCOFF32,
        OMF,
        "big_call_from_omf.obj",
    ),
    ("bigelf32 to bigcoff32", TO_BIGCOFF32, BIG_ELF32, BIG_COFF32),
    (
        "bigcoff32 to bigcoff32",
        TO_BIGCOFF32,
        BIG_COFF32,
        BIG_COFF32,
    ),
    ("bigelf32 to elf32", TO_ELF32, BIG_ELF32, ELF32),
    ("bigelf32 to coff32", TO_COFF32, BIG_ELF32, COFF32),
    ("bigelf32 to mac32", TO_MAC32, BIG_ELF32, MAC32),
    ("bigelf32 to omf", TO_OMF, BIG_ELF32, OMF),
    ("bigcoff32 to elf32", TO_ELF32, BIG_COFF32, ELF32),
    ("bigcoff32 to coff32", TO_COFF32, BIG_COFF32, COFF32),
    ("bigcoff32 to mac32", TO_MAC32, BIG_COFF32, MAC32),
    ("bigcoff32 to omf", TO_OMF, BIG_COFF32, OMF),
    (
        "a section number in the table",
        TO_ELF64,
        "big_told.o",
        ELF64,
    ),
    (
        "a big COFF object of version 3",
        TO_ELF64,
        "big_version_3.obj",
        ELF64,
    ),
    ("symbols of a big COFF object", LISTED, BIG_COFF64, ""),
];

/// What is refused, the words of the conversion, and the input.
type Refusal = (&'static str, &'static [&'static str], &'static str);

static REFUSALS: [Refusal; 23] = [
    ("7 headers in bigelf64, from elf64", TO_BIGELF64, ELF64),
    ("7 headers in bigelf64, from itself", TO_BIGELF64, BIG_ELF64),
    ("7 headers in bigelf64, from coff64", TO_BIGELF64, COFF64),
    ("7 headers in bigelf64, from mac64", TO_BIGELF64, MAC64),
    (
        "7 headers in bigelf64, from bigcoff64",
        TO_BIGELF64,
        BIG_COFF64,
    ),
    ("7 headers in bigelf32, from elf32", TO_BIGELF32, ELF32),
    ("7 headers in bigelf32, from coff32", TO_BIGELF32, COFF32),
    ("7 headers in bigelf32, from mac32", TO_BIGELF32, MAC32),
    ("7 headers in bigelf32, from omf", TO_BIGELF32, OMF),
    ("7 headers in bigelf32, from itself", TO_BIGELF32, BIG_ELF32),
    (
        "7 headers in bigelf32, from bigcoff32",
        TO_BIGELF32,
        BIG_COFF32,
    ),
    ("a big ELF object of another word", TO_ELF32, BIG_ELF64),
    ("a big COFF object of another word", TO_BIGELF32, BIG_COFF64),
    ("no header 0", TO_ELF64, "big_without_header_0.o"),
    (
        "a header 0 that counts no header",
        TO_ELF64,
        "big_of_no_header.o",
    ),
    (
        "a big COFF object of version 1",
        TO_ELF64,
        "big_version_1.obj",
    ),
    (
        "section numbers of eight bytes",
        TO_ELF64,
        "big_entry_of_8.o",
    ),
    (
        "fewer section numbers than symbols",
        TO_ELF64,
        "big_table_is_short.o",
    ),
    (
        "section numbers for strings",
        TO_ELF64,
        "big_table_of_strings.o",
    ),
    (
        "0xffff without section numbers",
        TO_ELF64,
        "big_without_table.o",
    ),
    (
        "a section number past the headers",
        TO_ELF64,
        "big_told_past_the_end.o",
    ),
    ("a value of 1 in section 0", TO_ELF64, "big_told_0.o"),
    ("its symbols", LISTED, "big_told_0.o"),
];

// converts an object of 70,000 sections, and what came of it back
fn there_and_back(
    rt: &HostRuntime,
    alloc: Global,
    machine: Machine,
    names: (&str, &str),
    words: (&[&str], &[&str]),
) -> Result<()> {
    let input = many_sections(alloc, machine)?;
    let there = words_of(alloc, words.0)?;
    let (outcome, files) = Run::of(&there, input.as_slice()).ended(alloc)?;
    show(rt, names.0, &outcome)?;
    if let Some(output) = files.file(OUT) {
        let back = words_of(alloc, words.1)?;
        show(rt, names.1, &Run::of(&back, output).outcome(alloc)?)?;
    }
    Ok(())
}

// 70,000 sections without a symbol of their own: the file of them, and what is too many in elf64
fn without_symbols(rt: &HostRuntime, alloc: Global) -> Result<()> {
    let input = plain_sections(alloc, AMD64)?;
    for (name, target) in [
        ("70,000 sections alone in bigelf64", TO_BIGELF64),
        ("70,000 sections alone in elf64", TO_ELF64),
    ] {
        let words = words_of(alloc, target)?;
        show(rt, name, &Run::of(&words, input.as_slice()).outcome(alloc)?)?;
    }
    Ok(())
}

// more sections than the other formats number
fn too_many(rt: &HostRuntime, alloc: Global) -> Result<()> {
    let input = many_sections(alloc, AMD64)?;
    for (name, target) in [
        ("70,000 sections in elf64", TO_ELF64),
        ("70,000 sections in coff64", TO_COFF64),
        ("70,000 sections in mac64", TO_MAC64),
    ] {
        let words = words_of(alloc, target)?;
        show(rt, name, &Run::of(&words, input.as_slice()).outcome(alloc)?)?;
    }
    Ok(())
}

/// Runs each, and prints what came of it.
pub fn big(rt: &HostRuntime, alloc: Global) -> Result<()> {
    for (name, words, input, want) in &SMALL {
        let row = Row {
            name,
            words,
            input,
            want,
        };
        show(rt, name, &row.outcome(rt, alloc)?)?;
    }
    for (name, words, input) in &REFUSALS {
        let row = Row::without_output(name, words, input);
        show(rt, name, &row.outcome(rt, alloc)?)?;
    }
    without_symbols(rt, alloc)?;
    too_many(rt, alloc)?;
    let names = ("70,000 sections in bigelf64", "back in bigcoff64");
    let words = (TO_BIGELF64, TO_BIGCOFF64);
    there_and_back(rt, alloc, AMD64, names, words)?;
    let names = ("70,000 sections in bigelf32", "back in bigcoff32");
    there_and_back(rt, alloc, I386, names, (TO_BIGELF32, TO_BIGCOFF32))
}
