//! Times the reading of a COFF object for i386 of many relocations, or of many symbols.
//!
//! KIND is `up`, `down` or `drawn` (relocations of two bytes each in ascending, in descending or in a mixed
//! order of offset), `first` or `last` (symbols in ascending or in descending order of name), `weak` (weak
//! externals, each with an auxiliary entry), `crowded` (each entry looks like a symbol with a name and 255
//! auxiliary entries, and most are auxiliary ones) or `unended` (symbols whose names no NUL ends).
ghost use Rattle.std.specs.Prelude.{◌≡◌, ◌≤◌, IfOk};

use crate::files::{Order, ask_size, counted, half, names, place, read_file, word, zeros};
use anyhow::{Result, anyhow};
use oc_base::NoMemory;
use oc_coff_read::CoffReader32;
use std::alloc::Global;
use std::rt::Clock;

/// Where the contents begin: after the file header and a section header.
const CONTENTS: u32 = 20 + 40;

/// How many auxiliary entries an entry has that is crowded.
const CROWD: u8 = 255;

/// The class of a symbol that is seen by all files.
const EXTERNAL: u8 = 2;

/// The class of a symbol with a default.
const WEAK_EXTERNAL: u8 = 105;

// appends the file header of an object with one section, whose symbol table begins at `symbols_at`
fn file_header(bytes: &mut Vec<u8>, symbols_at: u32, entries: u32) -> Result<(), NoMemory> {
    half(bytes, 0x14C)?;
    half(bytes, 1)?;
    word(bytes, 0)?;
    word(bytes, symbols_at)?;
    word(bytes, entries)?;
    half(bytes, 0)?;
    half(bytes, 0)
}

// appends the header of code of two bytes for each relocation, whose count is in the first entry
fn section_header(bytes: &mut Vec<u8>, relocs: u32) -> Result<(), NoMemory>
    requires { relocs ≤ 8000000 }
{
    bytes.extend_from_slice(b".text\0\0\0")?;
    word(bytes, 0)?;
    word(bytes, 0)?;
    word(bytes, 2 * relocs)?;
    word(bytes, CONTENTS)?;
    word(bytes, CONTENTS + 2 * relocs)?;
    word(bytes, 0)?;
    half(bytes, 0xFFFF)?;
    half(bytes, 0)?;
    word(bytes, 0x6150_0020)
}

// appends a relocation entry: the number of the section of symbol 0
fn relocation(bytes: &mut Vec<u8>, at: u32) -> Result<(), NoMemory> {
    word(bytes, at)?;
    word(bytes, 0)?;
    half(bytes, 10)
}

// appends the entry with the count, and one for each two bytes
fn relocations(bytes: &mut Vec<u8>, count: u32, order: Order) -> Result<(), NoMemory>
    requires { count ≤ 8000000 }
{
    relocation(bytes, count + 1)?;
    for k in 0..count {
        relocation(bytes, 2 * place(k, count, order))?;
    }
    Ok(())
}

/// What the symbols are.
#[derive(Clone, Copy)]
enum Symbols {
    /// Undefined ones.
    Undefined,
    /// Weak externals, each with an auxiliary entry that tags entry 0.
    Weak,
    /// Undefined ones, of which each has 255 auxiliary entries.
    Crowded,
    /// Undefined ones, whose names no NUL ends.
    Unended,
}

// appends an undefined symbol with its name at that offset
fn symbol(bytes: &mut Vec<u8>, name: u32, class: u8, auxiliaries: u8) -> Result<(), NoMemory> {
    word(bytes, 0)?;
    word(bytes, name)?;
    word(bytes, 0)?;
    half(bytes, 0)?;
    half(bytes, 0)?;
    bytes.push(class)?;
    bytes.push(auxiliaries)?;
    Ok(())
}

// appends an auxiliary entry that tags entry 0
fn tag(bytes: &mut Vec<u8>) -> Result<(), NoMemory> {
    word(bytes, 0)?;
    word(bytes, 3)?;
    word(bytes, 0)?;
    word(bytes, 0)?;
    half(bytes, 0)
}

// appends the symbol whose name is at that offset, with its auxiliary entry
fn entries(bytes: &mut Vec<u8>, name: u32, symbols: Symbols) -> Result<(), NoMemory> {
    match symbols {
        Symbols::Undefined | Symbols::Unended => symbol(bytes, name, EXTERNAL, 0),
        Symbols::Crowded => symbol(bytes, name, EXTERNAL, CROWD),
        Symbols::Weak => {
            symbol(bytes, name, WEAK_EXTERNAL, 1)?;
            tag(bytes)
        }
    }
}

// how many entries there are for so many symbols beside symbol 0
fn entry_count(count: u32, symbols: Symbols) -> u32
    requires { count ≤ 8000000 }
{
    match symbols {
        Symbols::Undefined | Symbols::Unended | Symbols::Crowded => 1 + count,
        Symbols::Weak => 1 + 2 * count,
    }
}

// appends symbol 0 with the name `x`, and one for each further name
fn table(bytes: &mut Vec<u8>, count: u32, symbols: Symbols) -> Result<(), NoMemory>
    requires { count ≤ 8000000 }
{
    bytes.extend_from_slice(b"x\0\0\0\0\0\0\0\0\0\0\0\0\0\0\0\x02\0")?;
    for k in 0..count {
        entries(bytes, 4 + 8 * k, symbols)?;
    }
    Ok(())
}

/// What an object has.
#[derive(Clone, Copy)]
struct Shape {
    /// How many relocations.
    relocs: u32,
    /// How many symbols beside symbol 0.
    more: u32,
    /// What these are.
    symbols: Symbols,
    /// The order of the offsets or the names.
    order: Order,
}

// the byte after each name
fn name_end(symbols: Symbols) -> u8 {
    match symbols {
        Symbols::Unended => b'x',
        Symbols::Undefined | Symbols::Weak | Symbols::Crowded => 0,
    }
}

// an object of that shape
fn object(alloc: Global, shape: Shape) -> Result<Vec<u8>, NoMemory>
    requires relocs { shape.relocs ≤ 8000000 }
    requires more { shape.more ≤ 8000000 }
{
    let mut bytes = Vec::new(alloc);
    let symbols_at = CONTENTS + 2 * shape.relocs + 10 * (shape.relocs + 1);
    file_header(
        &mut bytes,
        symbols_at,
        entry_count(shape.more, shape.symbols),
    )?;
    section_header(&mut bytes, shape.relocs)?;
    zeros(alloc, &mut bytes, 2 * shape.relocs)?;
    relocations(&mut bytes, shape.relocs, shape.order)?;
    table(&mut bytes, shape.more, shape.symbols)?;
    word(&mut bytes, 4 + 8 * shape.more)?;
    names(&mut bytes, shape.more, shape.order, name_end(shape.symbols))?;
    Ok(bytes)
}

// what a word stands for, with so many relocations or symbols
fn shape_of(kind: &str, count: u32) -> Result<Shape>
    requires { count ≤ 8000000 }
    ensures { IfOk result (λ shape. (shape.relocs ≤ 8000000) × (shape.more ≤ 8000000)) }
{
    let (relocs, more, symbols, order) = match kind {
        "up" => (count, 0, Symbols::Undefined, Order::Up),
        "down" => (count, 0, Symbols::Undefined, Order::Down),
        "drawn" => (count, 0, Symbols::Undefined, Order::Drawn),
        "first" => (0, count, Symbols::Undefined, Order::Up),
        "last" => (0, count, Symbols::Undefined, Order::Down),
        "weak" => (0, count, Symbols::Weak, Order::Up),
        // each has all its auxiliary entries
        "crowded" => (0, count - count % 256, Symbols::Crowded, Order::Up),
        "unended" => (0, count, Symbols::Unended, Order::Up),
        _ => return Err(anyhow!("KIND is none of those that are known")),
    };
    Ok(Shape {
        relocs,
        more,
        symbols,
        order,
    })
}

/// Reads an object of that kind, and prints how long it took.
pub(crate) fn measure<R: Clock + Print + Eprint>(
    rt: &R,
    alloc: Global,
    kind: &str,
    count: u32,
) -> Result<()> {
    let shape = shape_of(kind, counted(count)?)?;
    let bytes = object(alloc, shape)?;
    let size = bytes.len();
    ask_size(size)?;
    println!(rt; "{kind}: {count} in {size} bytes")?;
    read_file(rt, alloc, &CoffReader32, bytes.as_slice())
}
