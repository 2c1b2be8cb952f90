//! An object of many sections with relocations, after one that can be dropped. It is read from an
//! ELF file for i386 (gABI, "Sections").
ghost use Rattle.std.specs.Prelude.{◌+◌, ◌*◌, ◌≡◌, ◌≤◌};

use crate::elf::{Header, NONE, file_header, section_header, symbol};
use crate::files::{KEEP_ALL, ask_size, word, zeros};
use anyhow::{Result, anyhow};
use oc_base::NoMemory;
use oc_elf_read::ElfReader32;
use oc_neutral::Neutral;
use oc_shows::Reads;
use std::alloc::Global;

/// The most sections with relocations.
const MOST_SECTIONS: u32 = 5_000;

/// How many relocations each has, of four bytes each.
const EACH: u32 = 1_000;

/// The names of the string table.
const NAMES: &[u8] = b"\0x\0.debug_info\0";

/// Where `.debug_info` lies there.
const DEBUG: u32 = 3;

// where the contents begin: after the file header, a header of no section, that of the section that can be
// dropped, two for each further one, and those of the symbols and their names
fn contents(count: u32) -> u32
    requires { count ≤ 5000 }
    ensures { result ≡ 52 + 40 * (4 + 2 * count) }
{
    52 + 40 * (4 + 2 * count)
}

// appends the headers of so many sections with code
fn code_headers(bytes: &mut Vec<u8>, count: u32) -> Result<(), NoMemory>
    requires { count ≤ 5000 }
{
    for k in 0..count {
        let code = Header {
            sh_type: 1,
            sh_flags: 6,
            sh_offset: contents(count) + 4 * EACH * k,
            sh_size: 4 * EACH,
            ..NONE
        };
        section_header(bytes, &code)?;
    }
    Ok(())
}

// appends the headers of the relocations of these sections, which begin there
fn reloc_headers(bytes: &mut Vec<u8>, count: u32, at: u32) -> Result<(), NoMemory>
    requires count { count ≤ 5000 }
    requires at { at ≤ 100000000 }
{
    for k in 0..count {
        let table = Header {
            sh_type: 9,
            sh_offset: at + 8 * EACH * k,
            sh_size: 8 * EACH,
            sh_link: 2 + 2 * count,
            sh_info: 2 + k,
            sh_entsize: 8,
            ..NONE
        };
        section_header(bytes, &table)?;
    }
    Ok(())
}

// appends the headers of the symbols, which begin there, and of their names
fn last_headers(bytes: &mut Vec<u8>, count: u32, at: u32) -> Result<(), NoMemory>
    requires count { count ≤ 5000 }
    requires at { at ≤ 1000000000 }
{
    let symtab = Header {
        sh_type: 2,
        sh_offset: at,
        sh_size: 32,
        sh_link: 3 + 2 * count,
        sh_info: 1,
        sh_entsize: 16,
        ..NONE
    };
    section_header(bytes, &symtab)?;
    let strtab = Header {
        sh_type: 3,
        sh_offset: at + 32,
        sh_size: NAMES.len() as u32,
        ..NONE
    };
    section_header(bytes, &strtab)
}

// appends all section headers
fn headers(bytes: &mut Vec<u8>, count: u32) -> Result<(), NoMemory>
    requires { count ≤ 5000 }
{
    section_header(bytes, &NONE)?;
    let debug = Header {
        sh_name: DEBUG,
        sh_type: 1,
        sh_offset: contents(count),
        ..NONE
    };
    section_header(bytes, &debug)?;
    code_headers(bytes, count)?;
    let tables = contents(count) + 4 * EACH * count;
    reloc_headers(bytes, count, tables)?;
    last_headers(bytes, count, tables + 8 * EACH * count)
}

// appends R_386_32 relocations of symbol 1, one at each four bytes
fn relocations(bytes: &mut Vec<u8>) -> Result<(), NoMemory> {
    for k in 0..EACH {
        word(bytes, 4 * k)?;
        word(bytes, 256 + 1)?;
    }
    Ok(())
}

// the file of an object of so many sections with relocations
fn file_of(alloc: Global, count: u32) -> Result<Vec<u8>, NoMemory>
    requires { count ≤ 5000 }
{
    let mut bytes = Vec::new(alloc);
    file_header(&mut bytes, (4 + 2 * count) as u16)?;
    headers(&mut bytes, count)?;
    zeros(alloc, &mut bytes, 4 * EACH * count)?;
    for _section in 0..count {
        relocations(&mut bytes)?;
    }
    zeros(alloc, &mut bytes, 16)?;
    symbol(&mut bytes, 1)?;
    bytes.extend_from_slice(NAMES)?;
    Ok(bytes)
}

/// An object of so many sections with 1,000 relocations each, after one that can be dropped.
pub(crate) fn sectioned(alloc: Global, count: u32) -> Result<Neutral> {
    if count > MOST_SECTIONS {
        return Err(anyhow!("at most {MOST_SECTIONS} sections have relocations"));
    }
    let bytes = file_of(alloc, count)?;
    ask_size(bytes.len())?;
    match ElfReader32.read(alloc, bytes.as_slice(), &KEEP_ALL) {
        Ok(object) => Ok(object),
        Err(fault) => Err(anyhow!("not read: {fault:?}")),
    }
}
