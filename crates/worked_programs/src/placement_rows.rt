//! Placements that are at fault: what is wrong with a line comes first, then what is wrong with a section,
//! then with a symbol, each by its number, counted from 1.
use crate::link_rows::LinkRow;

/// What is wrong with the placement of a call of `foo`: its one section has six bytes and is aligned to 10
/// (hexadecimal), its symbols are `main` and `foo`.
type Fault = (&'static str, &'static str);

static FAULTS: [Fault; 23] = [
    (
        "no newline at the end",
        "section 1 1000 1000 1\nname 2000 2000 2 0 foo",
    ),
    (
        "an empty line",
        "section 1 1000 1000 1\n\nname 2000 2000 2 0 foo\n",
    ),
    ("two blanks", "section 1  1000 1000 1\n"),
    ("a blank at the end", "image 1000 \n"),
    ("a carriage return", "image 1000\r\n"),
    ("upper case", "image A\n"),
    ("seventeen digits", "image 00000000000001000\n"),
    ("an unknown word", "sections 1 1000 1000 1\n"),
    ("an escape in upper case", "slot 1 \\x6Foo\n"),
    ("a number of 2^32", "image 100000000\n"),
    (
        "a large number before a bad section",
        "section 0 100000000 0 0\n",
    ),
    ("section 0", "section 0 1000 1000 1\n"),
    ("a second section", "section 2 1000 1000 1\n"),
    ("a group that is not there", "drop 1\n"),
    ("a name that is not there", "slot 1 bar\n"),
    ("a base twice", "got 1000\ngot 1000\n"),
    (
        "a section twice",
        "section 1 1000 1000 1\nsection 1 1000 1000 1\n",
    ),
    (
        "a name and its slot",
        "name 2000 2000 2 0 foo\nslot 1 foo\n",
    ),
    ("an empty placement", ""),
    (
        "a section at no multiple of its alignment",
        "section 1 1008 1000 1\n",
    ),
    (
        "an undefined name without an address",
        "section 1 1000 1000 1\n",
    ),
    (
        "an undefined name with a slot alone",
        "section 1 1000 1000 1\nslot 1 foo\n",
    ),
    (
        "an address for a name that is defined",
        "section 1 1000 1000 1\nname 3000 0 0 0 main\nname 2000 0 0 0 foo\n",
    ),
];

/// The faults of placements of a call of `foo`.
pub fn faults() -> &'static [Fault] {
    &FAULTS
}

static ROWS: [LinkRow; 5] = [
    // the first section has 18 bytes, and ffffffe9 + 18 is above 2^32
    LinkRow {
        name: "a section past the last address",
        object: "bindings.elf32",
        placement: "section 1 ffffffe9 0 1\nsection 2 2000 0 2\nsection 3 3000 0 3\n",
    },
    // the fifth symbol
    LinkRow {
        name: "an undefined name among others",
        object: "bindings.elf32",
        placement: "section 1 1000 0 1\nsection 2 2000 0 2\nsection 3 3000 0 3\n",
    },
    // the sixth symbol is aligned to 4
    LinkRow {
        name: "a common at no multiple of its alignment",
        object: "bindings.elf32",
        placement: "section 1 1000 0 1\nsection 2 2000 0 2\nsection 3 3000 0 3\nname 5000 0 0 0 outside\nname 6002 0 0 0 shared\n",
    },
    // the second section
    LinkRow {
        name: "a member of a group that is not placed",
        object: "group.elf32",
        placement: "section 1 1000 1000 1\n",
    },
    // t is the first symbol
    LinkRow {
        name: "a lost name without an address",
        object: "group.elf32",
        placement: "section 1 1000 1000 1\ndrop 1\n",
    },
];

/// The faults of placements of further objects.
pub fn rows() -> &'static [LinkRow] {
    &ROWS
}
