//! Objects and placements that give a text, each with the arithmetic of its numbers (hexadecimal).
//! The objects are made by `data/objects.sh`.

/// An object that is linked at a placement.
#[derive(Clone, Copy)]
pub struct LinkRow {
    /// What the row shows.
    pub name: &'static str,
    /// The file of the object.
    pub object: &'static str,
    /// The text of the placement.
    pub placement: &'static str,
}

/// Code at 1000, and `foo` at 2000.
pub const CALL: &str = "section 1 1000 1000 1\nname 2000 2000 2 0 foo\n";

/// The object of each format: a call of `foo` at 1000, whose field holds 2000 - 1005 = ffb.
static CALLS: [LinkRow; 11] = [
    LinkRow {
        name: "elf32",
        object: "call.elf32",
        placement: CALL,
    },
    LinkRow {
        name: "coff32",
        object: "call.coff32",
        placement: CALL,
    },
    LinkRow {
        name: "mac32",
        object: "call.mac32",
        placement: CALL,
    },
    LinkRow {
        name: "omf",
        object: "call.omf",
        placement: CALL,
    },
    LinkRow {
        name: "elf64",
        object: "call.elf64",
        placement: CALL,
    },
    LinkRow {
        name: "coff64",
        object: "call.coff64",
        placement: CALL,
    },
    LinkRow {
        name: "mac64",
        object: "call.mac64",
        placement: CALL,
    },
    LinkRow {
        name: "bigelf64",
        object: "call.bigelf64",
        placement: CALL,
    },
    LinkRow {
        name: "bigcoff64",
        object: "call.bigcoff64",
        placement: CALL,
    },
    LinkRow {
        name: "bigelf32",
        object: "call.bigelf32",
        placement: CALL,
    },
    LinkRow {
        name: "bigcoff32",
        object: "call.bigcoff32",
        placement: CALL,
    },
];

/// The object of each format at one placement.
pub fn calls() -> &'static [LinkRow] {
    &CALLS
}

/// `.text` at 1000, `.data` at 2000, `.bss` at 3000, and what lies outside.
const BINDINGS: &str = "\
section 1 1000 1000 1
section 2 2000 2000 2
section 3 3000 3000 3
name 5000 5000 5 0 outside
name 6000 6000 6 0 shared
";

/// The same, with two weak names of the outside.
const WEAK_NAMES: &str = "\
section 1 1000 1000 1
section 2 2000 2000 2
section 3 3000 3000 3
name 5000 5000 5 0 outside
name 6000 6000 6 0 shared
name 7000 7000 7 0 weak_here
name 7100 7000 7 0 weak_other
";

/// The GOT at 4000, with an entry at 4008 for `g` and at 400c for `f`.
const GOT: &str = "\
got 4000
section 1 1000 1000 1
section 2 2000 2000 2
section 3 3000 3000 3
name 4000 4000 0 0 _GLOBAL_OFFSET_TABLE_
name 5000 5000 5 4008 g
slot 400c f
";

/// The image at 400, and `_g` at 5000 in the third section of the image, which begins at 4000.
const PARTS: &str = "\
image 400
section 1 1000 1000 1
section 2 2000 2000 2
section 3 3000 3000 3
name 5000 4000 3 0 _g
";

/// Three sections, and nothing outside.
const ALONE: &str = "\
section 1 1000 1000 1
section 2 2000 2000 2
section 3 3000 3000 3
";

/// The same, with two weak names of the outside.
const ALIASES: &str = "\
section 1 1000 1000 1
section 2 2000 2000 2
section 3 3000 3000 3
name 7000 7000 7 0 _w
name 7100 7000 7 0 _u
";

static ROWS: [LinkRow; 15] = [
    // `\x66` is the letter f
    LinkRow {
        name: "a name in escapes",
        object: "call.elf32",
        placement: "section 1 1000 1000 1\nname 2000 2000 2 0 \\x66oo\n",
    },
    // digits before the first that counts, and lines in another order
    LinkRow {
        name: "leading zeros",
        object: "call.elf32",
        placement: "name 0000000000002000 0 0 0 foo\nsection 0000000001 001000 1000 1\n",
    },
    // a field of four bytes with a sign takes 7fffffff at most, and x is at 80000000
    LinkRow {
        name: "an overflow",
        object: "overflow.elf64",
        placement: "section 1 0 0 1\nname 80000000 80000000 2 0 x\n",
    },
    LinkRow {
        name: "no overflow",
        object: "overflow.elf64",
        placement: "section 1 0 0 1\nname 7fffffff 7fffffff 2 0 x\n",
    },
    // weak_here is its own place, .data + 8; weak_other has none and is 0; number is 1234
    LinkRow {
        name: "every binding",
        object: "bindings.elf32",
        placement: BINDINGS,
    },
    LinkRow {
        name: "weak names that the outside gives",
        object: "bindings.elf32",
        placement: WEAK_NAMES,
    },
    // the first section has 18 bytes, and ffffffe8 + 18 is 2^32
    LinkRow {
        name: "a section that ends at the last address",
        object: "bindings.elf32",
        placement: "section 1 ffffffe8 0 1\nsection 2 2000 0 2\nsection 3 3000 0 3\nname 5000 0 0 0 outside\nname 6000 0 0 0 shared\n",
    },
    // 1010 - 1005 = b
    LinkRow {
        name: "a group",
        object: "group.elf32",
        placement: "section 1 1000 1000 1\nsection 2 1010 1000 1\n",
    },
    // another object defines t, at 2000: 2000 - 1005 = ffb. Where the second section would lie does not count
    LinkRow {
        name: "a discarded group",
        object: "group.elf32",
        placement: "section 1 1000 1000 1\nsection 2 1011 0 0\ndrop 1\nname 2000 2000 2 0 t\n",
    },
    // GOTPC: 4000 + 2 - 1002 = 3000; GOT32X: 4008 - 4000 = 8 and 400c - 4000 = c; GOTOFF: 1000 - 4000 = ffffd000
    LinkRow {
        name: "an offset table",
        object: "got.elf32",
        placement: GOT,
    },
    // DIR32 5000; DIR32NB: 5000 - 400 = 4c00; SECREL: 5000 - 4000 = 1000; SECTION 3; REL32: 5000 + 4 - 1014 = 3ff0
    LinkRow {
        name: "parts of an image",
        object: "parts.coff32",
        placement: PARTS,
    },
    // the default of _w is _d, at 1000, and that of _u an absolute symbol of 0
    LinkRow {
        name: "weak names that stand for others",
        object: "weak.coff32",
        placement: ALONE,
    },
    LinkRow {
        name: "weak names that the outside defines",
        object: "weak.coff32",
        placement: ALIASES,
    },
    // a is at 2000, b at 200c and _f at 1000: b - _f = 100c; a - _f + 4 = 1004; b - a = c
    LinkRow {
        name: "differences of mac32",
        object: "difference.mac32",
        placement: "section 1 1000 1000 1\nsection 2 2000 2000 2\n",
    },
    // the field is at 1001, and the fixup adds 5 to foo: 2000 + 5 - 1005 = 1000
    LinkRow {
        name: "a displacement of omf",
        object: "displacement.omf",
        placement: CALL,
    },
];

/// Objects with each binding and each kind of field.
pub fn rows() -> &'static [LinkRow] {
    &ROWS
}
