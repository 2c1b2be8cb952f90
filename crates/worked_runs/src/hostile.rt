//! Inputs that ask for much: 70,000 relocations of one section, names that are tails of one text, many
//! undefined names, and aliases of many functions.
use crate::elf32::{Object, SHT_PROGBITS, SHT_REL, Shdr, Sym, put_relocation, put_symbol};
use crate::runs::{add_word, words_of};
use anyhow::Result;
use objconv::Words;
use std::alloc::Global;

/// The symbol that stands for section 1.
const SECTION: Sym = Sym {
    st_name: 0,
    st_value: 0,
    st_info: 3,
    st_shndx: 1,
};

/// An undefined global symbol, with its name at 1.
const OUTSIDE: Sym = Sym {
    st_name: 1,
    st_value: 0,
    st_info: 16,
    st_shndx: 0,
};

/// How many relocations the first object has.
const RELOCATIONS: u32 = 70_000;

/// A section `.data` that is nothing but R_386_32 to the undefined `x`.
pub fn many_relocations(alloc: Global) -> Result<Vec<u8>> {
    let mut object = Object::new(alloc, b"\0.rel.data\0")?;
    let data = Shdr {
        sh_name: 5,
        sh_type: SHT_PROGBITS,
        sh_flags: 3,
        sh_addralign: 16,
        ..Shdr::default()
    };
    object.section(data, vec![in alloc; 0u8; 280_000]?.as_slice())?;
    let mut relocations = Vec::new(alloc);
    for k in 0..RELOCATIONS {
        put_relocation(&mut relocations, 4 * k, 2, 1)?;
    }
    let rel = Shdr {
        sh_name: 1,
        sh_type: SHT_REL,
        sh_flags: 0x40,
        sh_link: 3,
        sh_info: 1,
        sh_addralign: 4,
        sh_entsize: 8,
    };
    object.section(rel, relocations.as_slice())?;
    let mut symbols = Vec::new(alloc);
    for sym in [Sym::default(), SECTION, OUTSIDE] {
        put_symbol(&mut symbols, sym)?;
    }
    object.finish(symbols.as_slice(), 2, b"\0x\0")
}

/// So many undefined names, each a tail of one text of so many letters.
pub fn tails(alloc: Global, count: u32, letters: usize) -> Result<Vec<u8>> {
    let object = Object::new(alloc, b"\0")?;
    let mut symbols = Vec::new(alloc);
    put_symbol(&mut symbols, Sym::default())?;
    for st_name in 1..count.saturating_add(1) {
        put_symbol(&mut symbols, Sym { st_name, ..OUTSIDE })?;
    }
    let mut strings = vec![in alloc; 0u8]?;
    strings.resize(letters.saturating_add(1), b'a')?;
    strings.push(0)?;
    object.finish(symbols.as_slice(), 1, strings.as_slice())
}

// appends a name and its NUL, and the symbol of that name
fn put_named(symbols: &mut Vec<u8>, strings: &mut Vec<u8>, name: &str, sym: Sym) -> Result<()> {
    let st_name = u32::try_from(strings.len())?;
    strings.extend_from_slice(name.as_bytes())?;
    strings.push(0)?;
    put_symbol(symbols, Sym { st_name, ..sym })?;
    Ok(())
}

/// The undefined names `u_0`, `u_1` and so on, `count` of them.
pub fn outside_names(alloc: Global, count: u32) -> Result<Vec<u8>> {
    let object = Object::new(alloc, b"\0")?;
    let mut symbols = Vec::new(alloc);
    put_symbol(&mut symbols, Sym::default())?;
    let mut strings = vec![in alloc; 0u8]?;
    for k in 0..count {
        let name = format!(in alloc; "u_{k}")?;
        put_named(&mut symbols, &mut strings, name.as_str(), OUTSIDE)?;
    }
    object.finish(symbols.as_slice(), 1, strings.as_slice())
}

/// 100,000 functions `f_0`, `f_1` and so on, and ten outside names.
pub fn functions(alloc: Global) -> Result<Vec<u8>> {
    let mut object = Object::new(alloc, b"\0.text\0")?;
    let text = Shdr {
        sh_name: 1,
        sh_type: SHT_PROGBITS,
        sh_flags: 6,
        sh_addralign: 16,
        ..Shdr::default()
    };
    object.section(text, b"\xc3")?;
    let mut symbols = Vec::new(alloc);
    put_symbol(&mut symbols, Sym::default())?;
    let mut strings = vec![in alloc; 0u8]?;
    let function = Sym {
        st_info: 18,
        st_shndx: 1,
        ..OUTSIDE
    };
    for k in 0..100_000 {
        let name = format!(in alloc; "f_{k}")?;
        put_named(&mut symbols, &mut strings, name.as_str(), function)?;
    }
    for k in 0..10 {
        let name = format!(in alloc; "x_{k}")?;
        put_named(&mut symbols, &mut strings, name.as_str(), OUTSIDE)?;
    }
    object.finish(symbols.as_slice(), 1, strings.as_slice())
}

/// A conversion that gives each name that begins with `f_` 167 aliases.
pub fn aliases(alloc: Global) -> Result<Words> {
    let mut words = words_of(alloc, &["-fcoff32", "a", "b"])?;
    for k in 1..168 {
        let word = format!(in alloc; "-ap:f_:a{k}_")?;
        add_word(&mut words, word.as_str())?;
    }
    Ok(words)
}
