//! Times the reading of an ELF object for i386 of many relocations, or of many symbols.
//!
//! KIND is `up`, `down` or `drawn` (relocations of one byte each in ascending, in descending or in a mixed
//! order of offset), `first` or `last` (symbols in ascending or in descending order of name). Judging alone
//! is timed too.
ghost use Rattle.std.specs.Prelude.{◌≤◌, IfOk};

use crate::files::{
    KEEP_ALL, Order, ask_size, counted, half, names, place, read_file, word, zeros,
};
use crate::timing::micros;
use anyhow::{Result, anyhow};
use oc_base::NoMemory;
use oc_elf::ElfClass;
use oc_elf_judge::judge;
use oc_elf_read::ElfReader32;
use std::alloc::Global;
use std::rt::Clock;
use std::time::Instant;

/// Where the contents begin: after the file header and five section headers.
const CONTENTS: u32 = 52 + 5 * 40;

/// The names of the string table: a NUL, and `x`.
const NAMES: &[u8] = b"\0x\0";

/// Appends the file header of an object with so many section headers, the last of which has the names.
pub(crate) fn file_header(bytes: &mut Vec<u8>, headers: u16) -> Result<(), NoMemory>
    requires { 1 ≤ headers }
{
    bytes.extend_from_slice(b"\x7fELF\x01\x01\x01\0\0\0\0\0\0\0\0\0")?;
    half(bytes, 1)?;
    half(bytes, 3)?;
    word(bytes, 1)?;
    word(bytes, 0)?;
    word(bytes, 0)?;
    word(bytes, 52)?;
    word(bytes, 0)?;
    half(bytes, 52)?;
    half(bytes, 0)?;
    half(bytes, 0)?;
    half(bytes, 40)?;
    half(bytes, headers)?;
    half(bytes, headers - 1)
}

/// A section header, but for its address and its alignment, which is 1.
#[derive(Clone, Copy)]
pub(crate) struct Header {
    pub(crate) sh_name: u32,
    pub(crate) sh_type: u32,
    pub(crate) sh_flags: u32,
    pub(crate) sh_offset: u32,
    pub(crate) sh_size: u32,
    pub(crate) sh_link: u32,
    pub(crate) sh_info: u32,
    pub(crate) sh_entsize: u32,
}

/// The first header, of no section.
pub(crate) const NONE: Header = Header {
    sh_name: 0,
    sh_type: 0,
    sh_flags: 0,
    sh_offset: 0,
    sh_size: 0,
    sh_link: 0,
    sh_info: 0,
    sh_entsize: 0,
};

/// Appends a section header.
pub(crate) fn section_header(bytes: &mut Vec<u8>, header: &Header) -> Result<(), NoMemory> {
    word(bytes, header.sh_name)?;
    word(bytes, header.sh_type)?;
    word(bytes, header.sh_flags)?;
    word(bytes, 0)?;
    word(bytes, header.sh_offset)?;
    word(bytes, header.sh_size)?;
    word(bytes, header.sh_link)?;
    word(bytes, header.sh_info)?;
    word(bytes, 1)?;
    word(bytes, header.sh_entsize)
}

// appends the headers: no section, code of a byte for each relocation, the relocations, the symbols,
// and their names
fn headers(bytes: &mut Vec<u8>, relocs: u32, symbols: u32, names: u32) -> Result<(), NoMemory>
    requires relocs { relocs ≤ 8000000 }
    requires symbols { symbols ≤ 8000002 }
{
    section_header(bytes, &NONE)?;
    let code = Header {
        sh_type: 1,
        sh_flags: 6,
        sh_offset: CONTENTS,
        sh_size: relocs,
        ..NONE
    };
    section_header(bytes, &code)?;
    let table = Header {
        sh_type: 9,
        sh_offset: CONTENTS + relocs,
        sh_size: 8 * relocs,
        sh_link: 3,
        sh_info: 1,
        sh_entsize: 8,
        ..NONE
    };
    section_header(bytes, &table)?;
    let symtab = Header {
        sh_type: 2,
        sh_offset: CONTENTS + 9 * relocs,
        sh_size: 16 * symbols,
        sh_link: 4,
        sh_info: 1,
        sh_entsize: 16,
        ..NONE
    };
    section_header(bytes, &symtab)?;
    let strtab = Header {
        sh_type: 3,
        sh_offset: CONTENTS + 9 * relocs + 16 * symbols,
        sh_size: names,
        ..NONE
    };
    section_header(bytes, &strtab)
}

// appends R_386_8 relocations of symbol 1, one at each byte
fn relocations(bytes: &mut Vec<u8>, count: u32, order: Order) -> Result<(), NoMemory> {
    for k in 0..count {
        word(bytes, place(k, count, order))?;
        word(bytes, 256 + 22)?;
    }
    Ok(())
}

/// Appends an undefined GLOBAL symbol with its name at that offset.
pub(crate) fn symbol(bytes: &mut Vec<u8>, name: u32) -> Result<(), NoMemory> {
    word(bytes, name)?;
    word(bytes, 0)?;
    word(bytes, 0)?;
    bytes.push(16)?;
    bytes.push(0)?;
    half(bytes, 0)
}

// appends entry 0, a symbol `x`, and one for each further name
fn symbols(alloc: Global, bytes: &mut Vec<u8>, count: u32) -> Result<(), NoMemory>
    requires { count ≤ 8000000 }
{
    zeros(alloc, bytes, 16)?;
    symbol(bytes, 1)?;
    for k in 0..count {
        symbol(bytes, 3 + 8 * k)?;
    }
    Ok(())
}

// an object of so many relocations, and of so many symbols besides `x`
fn object(alloc: Global, relocs: u32, more: u32, order: Order) -> Result<Vec<u8>, NoMemory>
    requires relocs { relocs ≤ 8000000 }
    requires more { more ≤ 8000000 }
{
    let mut bytes = Vec::new(alloc);
    file_header(&mut bytes, 5)?;
    headers(&mut bytes, relocs, 2 + more, 3 + 8 * more)?;
    zeros(alloc, &mut bytes, relocs)?;
    relocations(&mut bytes, relocs, order)?;
    symbols(alloc, &mut bytes, more)?;
    bytes.extend_from_slice(NAMES)?;
    names(&mut bytes, more, order, 0)?;
    Ok(bytes)
}

// how many relocations and symbols a word stands for, and in which order
fn shape_of(kind: &str, count: u32) -> Result<(u32, u32, Order)>
    requires { count ≤ 8000000 }
    ensures { IfOk result (λ shape. (shape.0 ≤ 8000000) × (shape.1 ≤ 8000000)) }
{
    match kind {
        "up" => Ok((count, 0, Order::Up)),
        "down" => Ok((count, 0, Order::Down)),
        "drawn" => Ok((count, 0, Order::Drawn)),
        "first" => Ok((0, count, Order::Up)),
        "last" => Ok((0, count, Order::Down)),
        _ => Err(anyhow!("KIND is up, down, drawn, first or last")),
    }
}

/// Judges an object of that kind and reads it, and prints how long each took.
pub(crate) fn measure<R: Clock + Print + Eprint>(
    rt: &R,
    alloc: Global,
    kind: &str,
    count: u32,
) -> Result<()> {
    let (relocs, more, order) = shape_of(kind, counted(count)?)?;
    let bytes = object(alloc, relocs, more, order)?;
    let size = bytes.len();
    ask_size(size)?;
    let start = Instant::now(rt)?;
    let found = judge(alloc, ElfClass::Class32, bytes.as_slice(), &KEEP_ALL);
    let judged = micros(rt, start)?;
    println!(rt; "{kind}: {count} in {size} bytes, {found:?}")?;
    eprintln!(rt; "judged in {judged} us")?;
    read_file(rt, alloc, &ElfReader32, bytes.as_slice())
}
