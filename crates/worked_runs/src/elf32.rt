//! Objects of ELF for i386 that are too big to be kept as files, built apart from objconv's own code.
use crate::numbers::{half, word};
use anyhow::Result;
use oc_base::NoMemory;
use std::alloc::Global;

/// A section of the program's bytes, of symbols, of names, and of relocations (gABI, "Section Header").
pub const SHT_PROGBITS: u32 = 1;

pub const SHT_SYMTAB: u32 = 2;

pub const SHT_STRTAB: u32 = 3;

pub const SHT_REL: u32 = 9;

/// How many bytes the file header takes.
const EHDR_SIZE: usize = 52;

/// A section header, but for the place and the size of the section (gABI, "Section Header").
#[derive(Clone, Copy, Default)]
pub struct Shdr {
    pub sh_name: u32,
    pub sh_type: u32,
    pub sh_flags: u32,
    pub sh_link: u32,
    pub sh_info: u32,
    pub sh_addralign: u32,
    pub sh_entsize: u32,
}

/// An entry of a symbol table (gABI, "Symbol Table").
#[derive(Clone, Copy, Default)]
pub struct Sym {
    pub st_name: u32,
    pub st_value: u32,
    pub st_info: u8,
    pub st_shndx: u16,
}

/// Appends a symbol of size 0.
pub fn put_symbol(bytes: &mut Vec<u8>, sym: Sym) -> Result<(), NoMemory> {
    word(bytes, sym.st_name)?;
    word(bytes, sym.st_value)?;
    word(bytes, 0)?;
    bytes.push(sym.st_info)?;
    bytes.push(0)?;
    half(bytes, sym.st_shndx)
}

/// Appends a relocation (psABI i386, "Relocation").
pub fn put_relocation(
    bytes: &mut Vec<u8>,
    r_offset: u32,
    symbol: u32,
    kind: u8,
) -> Result<(), NoMemory> {
    word(bytes, r_offset)?;
    word(bytes, symbol.wrapping_shl(8) | u32::from(kind))
}

/// The names of the last three sections of an object.
const TABLES: &[u8] = b".symtab\0.strtab\0.shstrtab\0";

/// The sections of an object so far: their names, their bytes, which come after the file header,
/// and their headers.
#[derive(Drop)]
pub struct Object {
    alloc: Global,
    names: Vec<u8>,
    parts: Vec<u8>,
    headers: Vec<u8>,
    count: u16,
}

impl Object {
    /// An object of section 0 alone, where these are the names of the sections that are to come, but for
    /// those of its tables.
    pub fn new(alloc: Global, names: &[u8]) -> Result<Object, NoMemory> {
        let mut all = names.to_vec(alloc)?;
        all.extend_from_slice(TABLES)?;
        Ok(Object {
            alloc,
            names: all,
            parts: Vec::new(alloc),
            headers: vec![in alloc; 0u8; 40]?,
            count: 1,
        })
    }

    // where the next byte comes in the file
    fn end(&self) -> Result<u32> {
        Ok(u32::try_from(EHDR_SIZE.saturating_add(self.parts.len()))?)
    }

    // adds zeros up to a multiple of so many bytes, of which there are at most 16
    fn align(&mut self, to: u32) -> Result<()> {
        for _zero in 0..16 {
            if to > 0 && self.end()? % to > 0 {
                self.parts.push(0)?;
            }
        }
        Ok(())
    }

    /// Adds a section of these bytes after the others, at a multiple of its alignment.
    pub fn section(&mut self, shdr: Shdr, bytes: &[u8]) -> Result<()> {
        self.align(shdr.sh_addralign)?;
        let sh_offset = self.end()?;
        let sh_size = u32::try_from(bytes.len())?;
        self.parts.extend_from_slice(bytes)?;
        for number in [
            shdr.sh_name,
            shdr.sh_type,
            shdr.sh_flags,
            0,
            sh_offset,
            sh_size,
            shdr.sh_link,
            shdr.sh_info,
            shdr.sh_addralign,
            shdr.sh_entsize,
        ] {
            word(&mut self.headers, number)?;
        }
        self.count = self.count.saturating_add(1);
        Ok(())
    }

    // adds the symbols, of which the first so many are local, and the two string tables
    fn tables(&mut self, symbols: &[u8], locals: u32, strings: &[u8]) -> Result<()> {
        let names = self.names.to_vec(self.alloc)?;
        let first = u32::try_from(names.len().saturating_sub(TABLES.len()))?;
        let strtab = Shdr {
            sh_name: first.saturating_add(8),
            sh_type: SHT_STRTAB,
            sh_addralign: 1,
            ..Shdr::default()
        };
        let symtab = Shdr {
            sh_name: first,
            sh_type: SHT_SYMTAB,
            sh_link: u32::from(self.count).saturating_add(1),
            sh_info: locals,
            sh_addralign: 4,
            sh_entsize: 16,
            ..strtab
        };
        self.section(symtab, symbols)?;
        self.section(strtab, strings)?;
        let shstrtab = Shdr {
            sh_name: first.saturating_add(16),
            ..strtab
        };
        self.section(shstrtab, names.as_slice())
    }

    /// The file, with these symbols, of which the first so many are local, and their names.
    pub fn finish(mut self, symbols: &[u8], locals: u32, strings: &[u8]) -> Result<Vec<u8>> {
        self.tables(symbols, locals, strings)?;
        self.align(4)?;
        let e_shoff = self.end()?;
        let mut file = b"\x7fELF\x01\x01\x01\0\0\0\0\0\0\0\0\0".to_vec(self.alloc)?;
        half(&mut file, 1)?;
        half(&mut file, 3)?;
        for number in [1, 0, 0, e_shoff, 0] {
            word(&mut file, number)?;
        }
        for number in [52, 0, 0, 40, self.count, self.count.saturating_sub(1)] {
            half(&mut file, number)?;
        }
        file.extend_from_slice(self.parts.as_slice())?;
        file.extend_from_slice(self.headers.as_slice())?;
        Ok(file)
    }
}
