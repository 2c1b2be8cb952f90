//! Every ordered pair of formats of one word, on the object of one call: the conversion, the symbols of its
//! output, and the output converted to its own format, which is to give it again.
use crate::rows::{Row, show_rows};
use crate::targets::{
    LISTED, TO_COFF32, TO_COFF64, TO_ELF32, TO_ELF64, TO_MAC32, TO_MAC64, TO_OMF,
};
use anyhow::Result;
use std::alloc::Global;

/// The object in each format.
const ELF32: &str = "elf32_call_to_coff32.o";

const COFF32: &str = "elf32_call_to_coff32.obj";

const MAC32: &str = "call_in_mac32.o";

const OMF: &str = "call_in_omf.obj";

const ELF64: &str = "call_in_elf64.o";

const COFF64: &str = "call_in_coff64.obj";

const MAC64: &str = "call_in_mac64.o";

/// What a pair is called, the words of its conversion, its input and its output.
type Pair = (
    &'static str,
    &'static [&'static str],
    &'static str,
    &'static str,
);

/// Mach-O and OMF do not say that `main` is a function, and OMF names `foo` first: so what comes of them differs.
static PAIRS: [Pair; 25] = [
    ("elf32 to elf32", TO_ELF32, ELF32, ELF32),
    ("elf32 to coff32", TO_COFF32, ELF32, COFF32),
    ("elf32 to mac32", TO_MAC32, ELF32, MAC32),
    ("elf32 to omf", TO_OMF, ELF32, OMF),
    ("coff32 to elf32", TO_ELF32, COFF32, ELF32),
    ("coff32 to coff32", TO_COFF32, COFF32, COFF32),
    ("coff32 to mac32", TO_MAC32, COFF32, MAC32),
    ("coff32 to omf", TO_OMF, COFF32, OMF),
    ("mac32 to elf32", TO_ELF32, MAC32, "call_from_mac32.o"),
    ("mac32 to coff32", TO_COFF32, MAC32, "call_from_mac32.obj"),
    ("mac32 to mac32", TO_MAC32, MAC32, MAC32),
    ("mac32 to omf", TO_OMF, MAC32, OMF),
    ("omf to elf32", TO_ELF32, OMF, "call_from_omf.o"),
    ("omf to coff32", TO_COFF32, OMF, "call_from_omf.obj"),
    ("omf to mac32", TO_MAC32, OMF, MAC32),
    ("omf to omf", TO_OMF, OMF, OMF),
    ("elf64 to elf64", TO_ELF64, ELF64, ELF64),
    ("elf64 to coff64", TO_COFF64, ELF64, COFF64),
    ("elf64 to mac64", TO_MAC64, ELF64, MAC64),
    ("coff64 to elf64", TO_ELF64, COFF64, ELF64),
    ("coff64 to coff64", TO_COFF64, COFF64, COFF64),
    ("coff64 to mac64", TO_MAC64, COFF64, MAC64),
    ("mac64 to elf64", TO_ELF64, MAC64, "call_from_mac64.o"),
    ("mac64 to coff64", TO_COFF64, MAC64, "call_from_mac64.obj"),
    ("mac64 to mac64", TO_MAC64, MAC64, MAC64),
];

// the conversion, the listing of the output, and the output to its own format
fn rows_of(pair: Pair) -> [Row; 3] {
    let (name, words, input, want) = pair;
    let conversion = Row {
        name,
        words,
        input,
        want,
    };
    let listing = Row::without_output("its symbols", LISTED, want);
    let again = Row {
        name: "to its own format",
        input: want,
        ..conversion
    };
    [conversion, listing, again]
}

/// Runs the three commands of each pair, and prints what came of each.
pub fn pairs(rt: &HostRuntime, alloc: Global) -> Result<()> {
    for pair in &PAIRS {
        show_rows(rt, alloc, rows_of(*pair).as_slice())?;
    }
    Ok(())
}
