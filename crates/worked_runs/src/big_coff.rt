//! COFF objects of many sections (winnt.h, "ANON_OBJECT_HEADER_BIGOBJ"), built apart from objconv's own code.
use crate::coff32::{RELOCATION_SIZE, SECTION_SIZE, Section, put_relocation, put_section};
use crate::numbers::{half, word};
use anyhow::Result;
use oc_base::NoMemory;
use std::alloc::Global;

/// How many bytes the file header takes.
const HEADER_SIZE: u32 = 56;

/// The class of such an object.
const CLASS_ID: &[u8; 16] = b"\xC7\xA1\xBA\xD1\xEE\xBA\xA9\x4B\xAF\x20\xFA\xF6\x6A\xA4\xDC\xB8";

/// How many sections an object has here.
pub const SECTIONS: u32 = 70_000;

/// Code that is run and read, at multiples of 1 (PE/COFF, "Section Flags").
const CODE: u32 = 0x6010_0020;

/// A call, with zeros where its distance lies.
const CALL: &[u8; 5] = b"\xe8\0\0\0\0";

/// A machine, and the type of a relocation that is a distance of four bytes (PE/COFF, "Type Indicators").
#[derive(Clone, Copy)]
pub struct Machine {
    pub machine: u16,
    pub distance: u16,
}

/// IMAGE_FILE_MACHINE_I386 and IMAGE_REL_I386_REL32.
pub const I386: Machine = Machine {
    machine: 0x14C,
    distance: 20,
};

/// IMAGE_FILE_MACHINE_AMD64 and IMAGE_REL_AMD64_REL32.
pub const AMD64: Machine = Machine {
    machine: 0x8664,
    distance: 4,
};

/// The functions, by section: the first and the last one, and those at both sides of the first number that
/// ELF cannot say in two bytes.
const FUNCTIONS: [(&[u8; 8], u32); 4] = [
    (b"first\0\0\0", 1),
    (b"low\0\0\0\0\0", 0xFEFF),
    (b"high\0\0\0\0", 0xFF00),
    (b"last\0\0\0\0", SECTIONS),
];

// appends the file header, where so many entries of symbols lie at `table`
fn put_header(bytes: &mut Vec<u8>, machine: u16, table: u32, count: u32) -> Result<(), NoMemory> {
    for number in [0, 0xFFFF, 2, machine, 0, 0] {
        half(bytes, number)?;
    }
    bytes.extend_from_slice(CLASS_ID.as_slice())?;
    for number in [0, 0, 0, 0, SECTIONS, table, count] {
        word(bytes, number)?;
    }
    Ok(())
}

// a section of code
fn code() -> Section {
    Section {
        flags: CODE,
        ..Section::default()
    }
}

// appends so many section headers: the sections have one byte each
fn put_plain(bytes: &mut Vec<u8>, raw: u32, count: u32) -> Result<(), NoMemory> {
    for k in 0..count {
        let one = Section {
            size: 1,
            raw: raw.wrapping_add(k),
            ..code()
        };
        put_section(bytes, b".text\0\0\0", one)?;
    }
    Ok(())
}

// appends the section headers: the sections have one byte each, and the last one is a call
fn put_sections(bytes: &mut Vec<u8>, raw: u32) -> Result<(), NoMemory> {
    put_plain(bytes, raw, SECTIONS - 1)?;
    let call = raw.wrapping_add(SECTIONS - 1);
    let last = Section {
        size: 5,
        raw: call,
        relocations: call.wrapping_add(5),
        count: 1,
        ..code()
    };
    put_section(bytes, b".text\0\0\0", last)
}

/// 70,000 sections of code without symbols of their own, and four functions. The last section calls the first
/// function.
pub fn many_sections(alloc: Global, machine: Machine) -> Result<Vec<u8>> {
    let mut file = Vec::new(alloc);
    let raw = HEADER_SIZE + SECTION_SIZE * SECTIONS;
    put_header(
        &mut file,
        machine.machine,
        raw + SECTIONS + 4 + RELOCATION_SIZE,
        4,
    )?;
    put_sections(&mut file, raw)?;
    file.extend_from_slice(vec![in alloc; 0xc3u8; 69_999]?.as_slice())?;
    file.extend_from_slice(CALL.as_slice())?;
    put_relocation(&mut file, 1, 0, machine.distance)?;
    for (name, section) in FUNCTIONS {
        file.extend_from_slice(name.as_slice())?;
        word(&mut file, 0)?;
        word(&mut file, section)?;
        // a function, of class EXTERNAL, without auxiliary entries
        file.extend_from_slice(b"\x20\0\x02\0")?;
    }
    word(&mut file, 4)?;
    Ok(file)
}

// appends the symbol of a section of one byte: of class STATIC, with one auxiliary entry
fn put_section_symbol(bytes: &mut Vec<u8>, section: u32) -> Result<(), NoMemory> {
    bytes.extend_from_slice(b".text\0\0\0")?;
    word(bytes, 0)?;
    word(bytes, section)?;
    bytes.extend_from_slice(b"\0\0\x03\x01")?;
    word(bytes, 1)?;
    for _ in 0..4 {
        word(bytes, 0)?;
    }
    Ok(())
}

/// 70,000 sections of code of one byte each, with no symbols but their own.
pub fn plain_sections(alloc: Global, machine: Machine) -> Result<Vec<u8>> {
    let mut file = Vec::new(alloc);
    let raw = HEADER_SIZE + SECTION_SIZE * SECTIONS;
    put_header(&mut file, machine.machine, raw + SECTIONS, 2 * SECTIONS)?;
    put_plain(&mut file, raw, SECTIONS)?;
    file.extend_from_slice(vec![in alloc; 0xc3u8; 70_000]?.as_slice())?;
    for k in 0..SECTIONS {
        put_section_symbol(&mut file, k.wrapping_add(1))?;
    }
    word(&mut file, 4)?;
    Ok(file)
}
