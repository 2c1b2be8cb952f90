//! Objects of COFF for i386 that are too big to be kept as files, built apart from objconv's own code. Section
//! headers and relocations are those of all COFF.
use crate::numbers::{half, word};
use anyhow::Result;
use oc_base::NoMemory;
use std::alloc::Global;

/// How many bytes a file header, a section header and a relocation take.
const HEADER_SIZE: u32 = 20;

pub const SECTION_SIZE: u32 = 40;

pub const RELOCATION_SIZE: u32 = 10;

/// Data that are read and written, at multiples of 1 and of 16 (PE/COFF, "Section Flags").
const DATA: u32 = 0xC010_0040;

const DATA_OF_16: u32 = 0xC050_0040;

/// More relocations than a section header counts (IMAGE_SCN_LNK_NRELOC_OVFL).
const OVERFLOW: u32 = 0x0100_0000;

/// The type of an address of 32 bits (IMAGE_REL_I386_DIR32).
const DIR32: u16 = 6;

/// A section header, but for its name (PE/COFF, "Section Table").
#[derive(Clone, Copy, Default)]
pub struct Section {
    pub size: u32,
    pub raw: u32,
    pub relocations: u32,
    pub count: u16,
    pub flags: u32,
}

// appends a file header
fn put_header(
    bytes: &mut Vec<u8>,
    sections: u16,
    table: u32,
    symbols: u32,
) -> Result<(), NoMemory> {
    half(bytes, 0x14C)?;
    half(bytes, sections)?;
    word(bytes, 0)?;
    word(bytes, table)?;
    word(bytes, symbols)?;
    word(bytes, 0)
}

/// Appends a section header.
pub fn put_section(bytes: &mut Vec<u8>, name: &[u8; 8], section: Section) -> Result<(), NoMemory> {
    bytes.extend_from_slice(name.as_slice())?;
    for number in [
        0,
        0,
        section.size,
        section.raw,
        section.relocations,
        0,
        u32::from(section.count),
        section.flags,
    ] {
        word(bytes, number)?;
    }
    Ok(())
}

/// Appends a relocation.
pub fn put_relocation(
    bytes: &mut Vec<u8>,
    at: u32,
    symbol: u32,
    kind: u16,
) -> Result<(), NoMemory> {
    word(bytes, at)?;
    word(bytes, symbol)?;
    half(bytes, kind)
}

/// So many empty sections, and no symbol.
pub fn many_sections(alloc: Global, count: u16) -> Result<Vec<u8>> {
    let mut file = Vec::new(alloc);
    let end = HEADER_SIZE + SECTION_SIZE * u32::from(count);
    put_header(&mut file, count, end, 0)?;
    let section = Section {
        flags: DATA,
        ..Section::default()
    };
    for _k in 0..count {
        put_section(&mut file, b".data\0\0\0", section)?;
    }
    word(&mut file, 4)?;
    Ok(file)
}

/// Two sections whose names lie among the strings: after one of 9,999,995 letters, the offset of
/// the other takes eight digits.
pub fn far_names(alloc: Global) -> Result<Vec<u8>> {
    let mut file = Vec::new(alloc);
    put_header(&mut file, 2, HEADER_SIZE + 2 * SECTION_SIZE, 0)?;
    let section = Section {
        flags: DATA,
        ..Section::default()
    };
    // here the second name comes first, at 4, and the long one at 14
    put_section(&mut file, b"/14\0\0\0\0\0", section)?;
    put_section(&mut file, b"/4\0\0\0\0\0\0", section)?;
    word(&mut file, 14 + 9_999_995 + 1)?;
    file.extend_from_slice(b"last_data\0")?;
    file.extend_from_slice(vec![in alloc; b'a'; 9_999_995]?.as_slice())?;
    file.push(0)?;
    Ok(file)
}

/// How many relocations the next object has.
const RELOCATIONS: u32 = 65_536;

// the relocations of the next object; the first entry counts them and itself
fn overflowing(bytes: &mut Vec<u8>) -> Result<(), NoMemory> {
    put_relocation(bytes, RELOCATIONS + 1, 0, 0)?;
    for k in 0..RELOCATIONS {
        put_relocation(bytes, 4 * k, 2, DIR32)?;
    }
    Ok(())
}

/// A section `.data` that is nothing but addresses of the undefined `x`, one more than its header can count.
pub fn overflowing_relocations(alloc: Global) -> Result<Vec<u8>> {
    let mut file = Vec::new(alloc);
    let raw = HEADER_SIZE + SECTION_SIZE;
    let size = 4 * RELOCATIONS;
    let relocations = raw + size;
    let symbols = relocations + RELOCATION_SIZE * (RELOCATIONS + 1);
    put_header(&mut file, 1, symbols, 3)?;
    let data = Section {
        size,
        raw,
        relocations,
        count: u16::MAX,
        flags: DATA_OF_16 | OVERFLOW,
    };
    put_section(&mut file, b".data\0\0\0", data)?;
    file.extend_from_slice(vec![in alloc; 0u8; 262_144]?.as_slice())?;
    overflowing(&mut file)?;
    // the section's own symbol with its auxiliary entry, and `x`
    file.extend_from_slice(b".data\0\0\0\0\0\0\0\x01\0\0\0\x03\x01")?;
    word(&mut file, size)?;
    file.extend_from_slice(b"\xff\xff\0\0\0\0\0\0\0\0\0\0\0\0")?;
    file.extend_from_slice(b"x\0\0\0\0\0\0\0\0\0\0\0\0\0\0\0\x02\0")?;
    word(&mut file, 4)?;
    Ok(file)
}
