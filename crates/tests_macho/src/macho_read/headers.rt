//! Faults of the file header and the commands.
use super::objects::{ALIGN, ALL, TEXT};
use oc_base::Code::{BadHeader, NotRelocatable, Short};
use tests_cases::Case;

static FAULTS: [Case; 30] = [
    // the header is cut
    (31, &[], (0, Short, 0)),
    // and it is for another processor
    (31, &[(4, &[8])], (0, Short, 0)),
    // another processor
    (ALL, &[(4, &[8])], (0, NotRelocatable, 0)),
    // i386
    (ALL, &[(7, &[0])], (0, NotRelocatable, 0)),
    // an executable
    (ALL, &[(12, &[2])], (0, NotRelocatable, 0)),
    // and commands past the end
    (ALL, &[(12, &[2]), (20, &[0x41, 1])], (0, NotRelocatable, 0)),
    // commands past the end
    (ALL, &[(20, &[0x41, 1])], (0, Short, 32)),
    // and one of four bytes
    (ALL, &[(20, &[0x41, 1]), (36, &[4])], (0, Short, 32)),
    // a command of four bytes
    (ALL, &[(36, &[4])], (0, BadHeader, 0)),
    // a command of 82 bytes
    (ALL, &[(212, &[0x52])], (0, BadHeader, 0)),
    // the last command past the end of the commands
    (ALL, &[(212, &[0x54])], (0, BadHeader, 0)),
    // a DYSYMTAB of 76 bytes
    (ALL, &[(212, &[0x4C])], (0, BadHeader, 0)),
    // a SYMTAB of 20 bytes
    (ALL, &[(188, &[0x14])], (0, BadHeader, 0)),
    // a segment without room for its sections
    (ALL, &[(96, &[2])], (0, BadHeader, 0)),
    // a segment of the other word
    (ALL, &[(32, &[1])], (0, BadHeader, 0)),
    // and it is long enough for that word
    (ALL, &[(32, &[1]), (80, &[0, 0, 0, 0])], (0, BadHeader, 0)),
    // one command more
    (ALL, &[(16, &[4])], (0, BadHeader, 0)),
    // more commands than have room
    (ALL, &[(16, &[0xFF, 0xFF, 0xFF, 0xFF])], (0, BadHeader, 0)),
    // no SYMTAB
    (ALL, &[(16, &[1])], (0, BadHeader, 0)),
    // a second SYMTAB
    (ALL, &[(208, &[2])], (0, BadHeader, 0)),
    // no SYMTAB, and a second segment
    (ALL, &[(184, &[0x1B]), (208, &[0x19])], (0, BadHeader, 0)),
    // a second segment
    (ALL, &[(208, &[0x19])], (0, NotRelocatable, 0)),
    // and symbols past the end
    (ALL, &[(208, &[0x19]), (196, &[4])], (0, NotRelocatable, 0)),
    // four symbols
    (ALL, &[(196, &[4])], (0, Short, 304)),
    // symbols that begin a byte later
    (ALL, &[(192, &[0x41])], (0, Short, 321)),
    // no symbols, but they begin past the end
    (ALL, &[(192, &[0x61]), (196, &[0])], (0, Short, 353)),
    // four symbols, and one byte of strings more
    (ALL, &[(196, &[4]), (204, &[0x11])], (0, Short, 304)),
    // one byte of strings more
    (ALL, &[(204, &[0x11])], (0, Short, 336)),
    // strings that begin a byte later
    (ALL, &[(200, &[0x51])], (0, Short, 337)),
    // and an alignment of 2^16
    (
        ALL,
        &[(204, &[0x11]), (TEXT + ALIGN, &[0x10])],
        (0, Short, 336),
    ),
];

static FAULTS_32: [Case; 8] = [
    // the header is cut
    (27, &[], (0, Short, 0)),
    // x86-64
    (ALL, &[(7, &[1])], (0, NotRelocatable, 0)),
    // commands past the end
    (ALL, &[(20, &[0x19, 1])], (0, Short, 28)),
    // a segment of the other word
    (ALL, &[(28, &[0x19])], (0, BadHeader, 0)),
    // a segment without room for its sections
    (ALL, &[(76, &[2])], (0, BadHeader, 0)),
    // a second segment
    (ALL, &[(176, &[1])], (0, NotRelocatable, 0)),
    // four symbols
    (ALL, &[(164, &[4])], (0, Short, 272)),
    // one byte of strings more
    (ALL, &[(172, &[0xD])], (0, Short, 296)),
];

/// The conditions on the header of `CALLED`, in their order.
pub(super) fn faults() -> &'static [Case] {
    &FAULTS
}

/// Those of `CALLED32`, where they differ.
pub(super) fn faults_32() -> &'static [Case] {
    &FAULTS_32
}
