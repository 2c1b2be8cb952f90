//! Conversions, listings and words that are at fault, one of each kind.
use crate::rows::Row;
use crate::targets::{LISTED, TO_ELF32};

static ROWS: [Row; 9] = [
    Row {
        name: "a group from COFF",
        words: TO_ELF32,
        input: "elf32_group.obj",
        want: "elf32_group.back.o",
    },
    Row {
        name: "a true checksum",
        words: TO_ELF32,
        input: "empty.obj",
        want: "empty.o",
    },
    Row {
        name: "no checksum",
        words: TO_ELF32,
        input: "empty_without_checksum.obj",
        want: "empty.o",
    },
    Row {
        name: "a wrong checksum",
        words: TO_ELF32,
        input: "empty_of_a_wrong_checksum.obj",
        want: "",
    },
    Row {
        name: "an empty file",
        words: TO_ELF32,
        input: "",
        want: "",
    },
    Row {
        name: "symbols",
        words: LISTED,
        input: "elf32_call_to_coff32.o",
        want: "",
    },
    Row {
        name: "no word",
        words: &[],
        input: "elf32_call_to_coff32.o",
        want: "",
    },
    Row {
        name: "an unknown option",
        words: &["-fcoff32", "-zz", "a", "b"],
        input: "elf32_call_to_coff32.o",
        want: "",
    },
    Row {
        name: "one word for input and output",
        words: &["-fcoff32", "a", "a"],
        input: "elf32_call_to_coff32.o",
        want: "",
    },
];

/// The rows.
pub fn conversions() -> &'static [Row] {
    &ROWS
}
