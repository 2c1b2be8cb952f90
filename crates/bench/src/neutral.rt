//! Times the building of a neutral object of many relocations, or of many symbols.
//!
//! KIND is `up` or `down` (relocations in ascending or in descending order of offset), `new` (symbols whose
//! names are known to differ), `short` (symbols with names of seven bytes, which are compared), `long` (with
//! names of sixty bytes, which begin alike) or `repeats` (the search for a repeat among names of both
//! lengths, and std's sort of the same names).
ghost use Rattle.std.specs.Prelude.{◌≡◌, ◌<◌, ◌≤◌, ◌^◌};

use crate::MOST;
use crate::objects::code;
use crate::timing::micros;
use anyhow::{Result, anyhow};
use oc_base::{Bytes, Format, NoMemory};
use oc_neutral::{
    Base, Binding, Builder, Check, Form, Hint, Less, Mark, Reloc, Symbol, Target, Visibility, Width,
};
use oc_strings::first_repeat;
use std::alloc::Global;
use std::rt::Clock;
use std::time::Instant;

/// How many equal bytes a long name begins with.
const LONG: usize = 53;

// an undefined symbol of that name
fn undefined(name: Bytes, number: u32) -> Symbol
    ensures { result.name ≡ name }
{
    Symbol {
        name,
        binding: Binding::Undefined,
        mark: Mark::NoType,
        vis: Visibility::Default,
        size: 0,
        pinned: false,
        number,
    }
}

/// The address of the first symbol, in four bytes.
const ADDRESS: Reloc = Reloc {
    target: Target::Symbol(0),
    form: Form {
        base: Base::Address,
        less: Less::Zero,
        width: Width::Four,
        check: Check::Wrap,
    },
    addend: 0,
    hint: Hint::Plain,
};

// a section with room for that many relocations, and a symbol
fn prepared(alloc: Global, count: u32) -> Result<Builder>
    requires { count < 2 ^ 30 }
{
    let mut builder = Builder::new(alloc, Format::Elf32);
    if builder.section_count() > 0 {
        return Err(anyhow!("a new object has no sections"));
    }
    builder.add_section(code(alloc, 4 * count)?)?;
    if builder.symbol_count() > 0 {
        return Err(anyhow!("a new object has no symbols"));
    }
    builder.add_symbol(undefined(Bytes::from_slice(alloc, b"x")?, 1))?;
    Ok(builder)
}

// adds a relocation at place `k` of four bytes each
fn add(builder: &mut Builder, k: u32) -> Result<()>
    requires { k < 2 ^ 30 }
{
    if !builder.can_add(0, 4 * k, ADDRESS) {
        return Err(anyhow!("there is no field {k}"));
    }
    builder.add_reloc(0, 4 * k, ADDRESS)?;
    Ok(())
}

// adds the relocations in ascending order
fn up(builder: &mut Builder, count: u32) -> Result<()>
    requires { count < 2 ^ 30 }
{
    for k in 0..count {
        add(builder, k)?;
    }
    Ok(())
}

// adds the relocations in descending order
fn down(builder: &mut Builder, count: u32) -> Result<()>
    requires { count < 2 ^ 30 }
{
    for k in 0..count {
        add(builder, count - 1 - k)?;
    }
    Ok(())
}

// a name that ends in seven digits of the number, after so many equal bytes
fn name(alloc: Global, front: usize, number: u32) -> Result<Bytes, NoMemory> {
    let mut bytes = vec![in alloc; b'a'; front]?;
    let mut rest = number;
    for _digit in 0..7 {
        bytes.push(b'0' + (rest % 10) as u8)?;
        rest /= 10;
    }
    Ok(Bytes::from_vec(bytes))
}

// names in an order that looks drawn
fn names(alloc: Global, front: usize, count: u32) -> Result<Vec<Bytes>, NoMemory> {
    let mut names = Vec::new(alloc);
    for k in 0..count {
        let number = (u64::from(k) * 7_368_787 % 9_999_991) as u32;
        names.push(name(alloc, front, number)?)?;
    }
    Ok(names)
}

// adds a symbol of each name
fn symbols(builder: &mut Builder, names: Vec<Bytes>) -> Result<()> {
    for name in names {
        if builder.symbol_count() >= MOST {
            return Err(anyhow!("there are too many symbols"));
        }
        builder.add_symbol(undefined(name, 1))?;
    }
    Ok(())
}

// symbols whose names are the bytes of their positions, so that no name is compared
fn new_symbols(alloc: Global, count: u32) -> Result<Builder>
    requires { count < 2 ^ 30 }
{
    let mut builder = Builder::new(alloc, Format::Elf32);
    for k in 0..count {
        let name = Bytes::from_slice(alloc, k.to_le_bytes().as_slice())?;
        builder.add_new_symbol(undefined(name, 1))?;
    }
    Ok(builder)
}

// searches for a repeat among names that differ, and prints how long that took, and how long a sort
// took
fn search<R: Clock + Print + Eprint>(
    rt: &R,
    alloc: Global,
    front: usize,
    count: u32,
) -> Result<()> {
    let names = names(alloc, front, count)?;
    let mut listed = Vec::new(alloc);
    let mut sorted = Vec::new(alloc);
    for name in names.iter() {
        listed.push(Some(name.as_slice()))?;
        sorted.push(name.as_slice())?;
    }
    let start = Instant::now(rt)?;
    let found = first_repeat(alloc, listed.as_slice())?;
    let searched = micros(rt, start)?;
    let start = Instant::now(rt)?;
    sorted.sort_unstable();
    let took = micros(rt, start)?;
    println!(rt; "repeats: {count} names after {front} bytes, {found:?}")?;
    eprintln!(rt; "{searched} us, sorted in {took} us")?;
    Ok(())
}

// what is built
#[derive(Clone, Copy)]
enum Built {
    /// Relocations in ascending order.
    Up,
    /// Relocations in descending order.
    Down,
    /// Symbols whose names are known to differ.
    New,
    /// Symbols with names after so many equal bytes.
    Named(usize),
}

// what the word asks for
fn asked(kind: &str) -> Result<Built> {
    match kind {
        "up" => Ok(Built::Up),
        "down" => Ok(Built::Down),
        "new" => Ok(Built::New),
        "short" => Ok(Built::Named(0)),
        "long" => Ok(Built::Named(LONG)),
        _ => Err(anyhow!("KIND is up, down, new, short, long or repeats")),
    }
}

// for how many relocations there is to be room
fn room_for(built: Built, count: u32) -> u32
    requires { count < 2 ^ 30 }
    ensures { result < 2 ^ 30 }
{
    match built {
        Built::Up | Built::Down => count,
        Built::New | Built::Named(_) => 0,
    }
}

// builds the object, and prints how long it took
fn timed_build<R: Clock + Eprint>(
    rt: &R,
    alloc: Global,
    built: Built,
    count: u32,
) -> Result<Builder>
    requires { count < 2 ^ 30 }
{
    let mut builder = prepared(alloc, room_for(built, count))?;
    let names = match built {
        Built::Named(front) => names(alloc, front, count)?,
        Built::Up | Built::Down | Built::New => Vec::new(alloc),
    };
    let start = Instant::now(rt)?;
    match built {
        Built::Up => up(&mut builder, count)?,
        Built::Down => down(&mut builder, count)?,
        Built::New => builder = new_symbols(alloc, count)?,
        Built::Named(_) => symbols(&mut builder, names)?,
    }
    let took = micros(rt, start)?;
    eprintln!(rt; "built in {took} us")?;
    Ok(builder)
}

/// Builds an object of so many relocations or symbols, or searches among so many names, and prints
/// how long it took.
pub(crate) fn measure<R: Clock + Print + Eprint>(
    rt: &R,
    alloc: Global,
    kind: &str,
    count: u32,
) -> Result<()>
    requires { count ≤ 16000000 }
{
    if kind == "repeats" {
        search(rt, alloc, 0, count)?;
        return search(rt, alloc, LONG, count);
    }
    let builder = timed_build(rt, alloc, asked(kind)?, count)?;
    let symbols = builder.symbol_count();
    println!(rt; "{kind}: {count} added, {symbols} symbols")?;
    Ok(())
}
