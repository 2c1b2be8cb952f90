//! Objects of modules put together by hand from TIS OMF 1.1.
ghost use Rattle.std.specs.Prelude.{◌≤◌, length};
ghost use Rattle.oc_base.specs.declared.limits.TheConstants.{MOST_INPUT};

use oc_base::{MOST_INPUT, NoMemory, Stop};
use oc_neutral::{Binding, Keep, Kind, Less, Neutral, Target, Value};
use oc_omf_read::OmfReader;
use oc_shows::Reads;
use std::alloc::Global;
use std::test::Fail;
use tests_cases::KEEP;

/// Two fixups by threads: the frame is the group FLAT, and the target `b`; before the second fixup,
/// a later thread of the same number gives `c`.
const THREADS: [u8; 98] = [
    0x80, 3, 0, 1, 0x61, 0, 0x96, 0x18, 0, 0, 4, 0x46, 0x4C, 0x41, 0x54, 4, 0x43, 0x4F, 0x44, 0x45,
    6, 0x44, 0x45, 0x42, 0x53, 0x59, 0x4D, 4, 0x44, 0x41, 0x54, 0x41, 0, 0x99, 9, 0, 0x29, 8, 0, 0,
    0, 3, 3, 1, 0, 0x9A, 2, 0, 2, 0, 0x8C, 7, 0, 1, 0x62, 0, 1, 0x63, 0, 0, 0xA1, 0x0E, 0, 1, 0, 0,
    0, 0, 0, 0, 0, 0, 0, 0, 0, 0, 0, 0x9D, 0x0D, 0, 0x44, 1, 8, 1, 0xE4, 0, 0x8C, 8, 2, 0xE4, 4,
    0x8C, 0, 0x8A, 2, 0, 0, 0,
];

/// A self-relative fixup of `b` in a content of four bytes that is repeated twice in a block, which
/// is repeated three times.
const ITERATED: [u8; 91] = [
    0x80, 3, 0, 1, 0x61, 0, 0x96, 0x18, 0, 0, 4, 0x46, 0x4C, 0x41, 0x54, 4, 0x43, 0x4F, 0x44, 0x45,
    6, 0x44, 0x45, 0x42, 0x53, 0x59, 0x4D, 4, 0x44, 0x41, 0x54, 0x41, 0, 0x99, 9, 0, 0x29, 0x18, 0,
    0, 0, 3, 3, 1, 0, 0x8C, 4, 0, 1, 0x62, 0, 0, 0xA3, 0x17, 0, 1, 0, 0, 0, 0, 3, 0, 0, 0, 1, 0, 2,
    0, 0, 0, 0, 0, 4, 0, 0, 0, 0, 0, 0x9D, 5, 0, 0xA4, 0x0D, 0x56, 1, 0, 0x8A, 2, 0, 0, 0,
];

/// The same content in a block that is repeated 0 times.
const NONE: [u8; 91] = [
    0x80, 3, 0, 1, 0x61, 0, 0x96, 0x18, 0, 0, 4, 0x46, 0x4C, 0x41, 0x54, 4, 0x43, 0x4F, 0x44, 0x45,
    6, 0x44, 0x45, 0x42, 0x53, 0x59, 0x4D, 4, 0x44, 0x41, 0x54, 0x41, 0, 0x99, 9, 0, 0x29, 4, 0, 0,
    0, 3, 3, 1, 0, 0x8C, 4, 0, 1, 0x62, 0, 0, 0xA3, 0x17, 0, 1, 0, 0, 0, 0, 0, 0, 0, 0, 1, 0, 2, 0,
    0, 0, 0, 0, 4, 0, 0, 0, 0, 0, 0x9D, 5, 0, 0xA4, 0x0D, 0x56, 1, 0, 0x8A, 2, 0, 0, 0,
];

/// The frame FLAT, with a displacement and a number in the field; the frame of the target, by its
/// method, by the segment of the data, and by the external itself.
const FRAMES: [u8; 113] = [
    0x80, 3, 0, 1, 0x61, 0, 0x96, 0x18, 0, 0, 4, 0x46, 0x4C, 0x41, 0x54, 4, 0x43, 0x4F, 0x44, 0x45,
    6, 0x44, 0x45, 0x42, 0x53, 0x59, 0x4D, 4, 0x44, 0x41, 0x54, 0x41, 0, 0x99, 9, 0, 0x29, 0x10, 0,
    0, 0, 3, 3, 1, 0, 0x9A, 2, 0, 2, 0, 0x8C, 4, 0, 1, 0x62, 0, 0, 0xA1, 0x16, 0, 1, 0, 0, 0, 0,
    0xFF, 0xFF, 0xFF, 0xFF, 0, 0, 0, 0, 0, 0, 0, 0, 0, 0, 0, 0, 0, 0x9D, 0x17, 0, 0xE4, 0, 0x12, 1,
    1, 5, 0, 0, 0, 0xE4, 4, 0x56, 1, 0xE4, 8, 0x44, 1, 0xE4, 0x0C, 0x26, 1, 1, 0, 0x8A, 2, 0, 0, 0,
];

/// A symbol of the module alone, framed by its segment.
const LOCAL: [u8; 96] = [
    0x80, 3, 0, 1, 0x61, 0, 0x96, 0x18, 0, 0, 4, 0x46, 0x4C, 0x41, 0x54, 4, 0x43, 0x4F, 0x44, 0x45,
    6, 0x44, 0x45, 0x42, 0x53, 0x59, 0x4D, 4, 0x44, 0x41, 0x54, 0x41, 0, 0x99, 9, 0, 0x29, 8, 0, 0,
    0, 3, 3, 1, 0, 0xB4, 4, 0, 1, 0x62, 0, 0, 0xB7, 0x0A, 0, 0, 1, 1, 0x62, 4, 0, 0, 0, 0, 0, 0xA1,
    0x0E, 0, 1, 0, 0, 0, 0, 0, 0, 0, 0, 0, 0, 0, 0, 0, 0x9D, 6, 0, 0xE4, 0, 6, 1, 1, 0, 0x8A, 2, 0,
    0, 0,
];

/// A fixup of a section that is kept with debug sections alone.
const DEBUG: [u8; 84] = [
    0x80, 3, 0, 1, 0x61, 0, 0x96, 0x18, 0, 0, 4, 0x46, 0x4C, 0x41, 0x54, 4, 0x43, 0x4F, 0x44, 0x45,
    6, 0x44, 0x45, 0x42, 0x53, 0x59, 0x4D, 4, 0x44, 0x41, 0x54, 0x41, 0, 0x99, 9, 0, 0x29, 4, 0, 0,
    0, 4, 4, 1, 0, 0x9A, 2, 0, 2, 0, 0x8C, 4, 0, 1, 0x62, 0, 0, 0xA1, 0x0A, 0, 1, 0, 0, 0, 0, 0, 0,
    0, 0, 0, 0x9D, 6, 0, 0xE4, 0, 0x16, 1, 1, 0, 0x8A, 2, 0, 0, 0,
];

/// An external that the module defines later, one that it does not, and a communal of each form.
const SYMBOLS: [u8; 106] = [
    0x80, 3, 0, 1, 0x61, 0, 0x96, 0x18, 0, 0, 4, 0x46, 0x4C, 0x41, 0x54, 4, 0x43, 0x4F, 0x44, 0x45,
    6, 0x44, 0x45, 0x42, 0x53, 0x59, 0x4D, 4, 0x44, 0x41, 0x54, 0x41, 0, 0x99, 9, 0, 0x29, 4, 0, 0,
    0, 3, 3, 1, 0, 0x8C, 7, 0, 1, 0x62, 0, 1, 0x64, 0, 0, 0xB0, 0x1E, 0, 1, 0x63, 0, 0x62, 0x80, 1,
    0x65, 0, 0x62, 0x81, 0, 1, 1, 0x66, 0, 0x62, 0x84, 1, 0, 1, 1, 0x67, 0, 0x62, 0x88, 0, 0, 0,
    0x80, 0, 0x91, 0x0A, 0, 0, 1, 1, 0x62, 2, 0, 0, 0, 0, 0, 0x8A, 2, 0, 0, 0,
];

/// Segments of each class and alignment; of class `BSS` one with empty data, and one with a byte. The
/// last is big.
const SEGMENTS: [u8; 161] = [
    0x80, 3, 0, 1, 0x61, 0, 0x96, 0x22, 0, 0, 4, 0x43, 0x4F, 0x44, 0x45, 5, 0x58, 0x43, 0x4F, 0x44,
    0x45, 5, 0x44, 0x45, 0x42, 0x55, 0x47, 5, 0x43, 0x4F, 0x4E, 0x53, 0x54, 3, 0x42, 0x53, 0x53, 4,
    0x63, 0x6F, 0x64, 0x65, 0, 0x99, 9, 0, 0x29, 1, 0, 0, 0, 1, 2, 1, 0, 0x99, 9, 0, 0x49, 1, 0, 0,
    0, 1, 3, 1, 0, 0x99, 9, 0, 0x69, 1, 0, 0, 0, 1, 4, 1, 0, 0x99, 9, 0, 0x89, 1, 0, 0, 0, 1, 5, 1,
    0, 0x99, 9, 0, 0xA9, 9, 0, 0, 0, 1, 6, 1, 0, 0x99, 9, 0, 0x29, 2, 0, 0, 0, 1, 6, 1, 0, 0x99, 9,
    0, 0x29, 1, 0, 0, 0, 1, 7, 1, 0, 0x98, 7, 0, 0x2B, 0, 0, 1, 5, 1, 0, 0xA1, 6, 0, 5, 9, 0, 0, 0,
    0, 0xA1, 7, 0, 6, 1, 0, 0, 0, 7, 0, 0x8A, 2, 0, 0, 0,
];

/// A relocation: its offset, what it is against, what is taken, and its addend.
type Told = (u32, Target, Less, i64);

/// A module, whether debug sections are kept, and the relocations of its section.
type Case = (&'static [u8], bool, &'static [Told]);

static CASES: [Case; 7] = [
    (
        &THREADS,
        true,
        &[
            (0, Target::Symbol(0), Less::Zero, 0),
            (4, Target::Symbol(1), Less::Zero, 0),
        ],
    ),
    (
        &ITERATED,
        true,
        &[
            (0, Target::Symbol(0), Less::Place, -4),
            (4, Target::Symbol(0), Less::Place, -4),
            (8, Target::Symbol(0), Less::Place, -4),
            (12, Target::Symbol(0), Less::Place, -4),
            (16, Target::Symbol(0), Less::Place, -4),
            (20, Target::Symbol(0), Less::Place, -4),
        ],
    ),
    (&NONE, true, &[]),
    (
        &FRAMES,
        true,
        &[
            (0, Target::Symbol(0), Less::Zero, 4),
            (4, Target::Symbol(0), Less::Home, 0),
            (8, Target::Section(0), Less::Home, 0),
            (12, Target::Symbol(0), Less::Home, 0),
        ],
    ),
    (&LOCAL, true, &[(0, Target::Section(0), Less::Home, 4)]),
    (&DEBUG, true, &[(0, Target::Symbol(0), Less::Zero, 0)]),
    (&DEBUG, false, &[]),
];

/// The symbols of `SYMBOLS`.
static BINDINGS: [Binding; 6] = [
    Binding::Global(Value::Place {
        section: 0,
        offset: 2,
    }),
    Binding::Undefined,
    Binding::Common {
        size: 0x80,
        align: 32,
    },
    Binding::Common {
        size: 0x100,
        align: 32,
    },
    Binding::Common {
        size: 0x1_0001,
        align: 32,
    },
    Binding::Common {
        size: 0x8000_0000,
        align: 32,
    },
];

/// The kinds, alignments and sizes of `SEGMENTS`.
static SECTIONS: [(Kind, u32, u32); 8] = [
    (Kind::Code, 1, 1),
    (Kind::Code, 2, 1),
    (Kind::Debug, 16, 1),
    (Kind::ReadOnly, 256, 1),
    (Kind::Zero, 4, 9),
    (Kind::Data, 1, 2),
    (Kind::Data, 1, 1),
    (Kind::ReadOnly, 1, 65_536),
];

// the cases
fn cases() -> &'static [Case] {
    &CASES
}

// the symbols of `SYMBOLS`
fn bindings() -> &'static [Binding] {
    &BINDINGS
}

// the sections of `SEGMENTS`
fn sections() -> &'static [(Kind, u32, u32)] {
    &SECTIONS
}

// reads a module, with debug sections or without
fn read(alloc: Global, file: &[u8], debug: bool) -> Result<Neutral, Stop>
    requires { length file.now ≤ MOST_INPUT }
{
    OmfReader.read(alloc, file, &Keep { debug, ..KEEP })
}

// the relocations of the first section
fn relocs_of(alloc: Global, object: &Neutral) -> Result<Vec<Told>, NoMemory> {
    let mut told = Vec::new(alloc);
    if object.section_count() == 0 {
        return Ok(told);
    }
    for field in object.relocs(0) {
        let reloc = field.item;
        told.push((field.at, reloc.target, reloc.form.less, reloc.addend))?;
    }
    Ok(told)
}

// the bindings of symbols
fn bindings_of(alloc: Global, object: &Neutral) -> Result<Vec<Binding>, NoMemory> {
    let mut told = Vec::new(alloc);
    for symbol in object.symbols() {
        told.push(symbol.binding)?;
    }
    Ok(told)
}

// the kinds, alignments and sizes of sections
fn sections_of(alloc: Global, object: &Neutral) -> Result<Vec<(Kind, u32, u32)>, NoMemory> {
    let mut told = Vec::new(alloc);
    for section in object.sections() {
        told.push((section.kind, section.align, section.size))?;
    }
    Ok(told)
}

#[test]
fn relocations_are_read(rt: HostRuntime) -> Result<(), Fail> {
    for (file, debug, relocs) in cases() {
        if file.len() as u64 <= MOST_INPUT {
            let object = read(rt.alloc(), file, *debug)?;
            let found = relocs_of(rt.alloc(), &object)?;
            assert_eq!(rt; found.as_slice(), *relocs);
        }
    }
    Ok(())
}

#[test]
fn symbols_are_read(rt: HostRuntime) -> Result<(), Fail> {
    let object = read(rt.alloc(), &SYMBOLS, true)?;
    let found = bindings_of(rt.alloc(), &object)?;
    assert_eq!(rt; found.as_slice(), bindings());
    Ok(())
}

#[test]
fn sections_are_read(rt: HostRuntime) -> Result<(), Fail> {
    let object = read(rt.alloc(), &SEGMENTS, true)?;
    let found = sections_of(rt.alloc(), &object)?;
    assert_eq!(rt; found.as_slice(), sections());
    Ok(())
}
