//! Times the string table beside two sorts of the same names: from their first bytes on, and from their last
//! bytes on, as the table needs them.
//!
//! KIND is `tails` (names of that length, of which all but the first ten bytes are one of a few tails),
//! `chain` (each name is the one before without its first byte) or `equal`. The table is asked for each
//! name twice: by the search, and at the name's own position.

use crate::timing::micros;
use anyhow::{Result, anyhow};
use oc_base::{Bytes, NoMemory};
use oc_strings::Table;
use std::alloc::Global;
use std::rt::Clock;
use std::time::Instant;

// bytes that look drawn, from the state on
fn drawn(alloc: Global, state: &mut u32, length: usize) -> Result<Vec<u8>, NoMemory> {
    let mut bytes = Vec::new(alloc);
    for _k in 0..length {
        *state = state.wrapping_mul(1664525).wrapping_add(1013904223);
        bytes.push(b'a' + (*state >> 28) as u8)?;
    }
    Ok(bytes)
}

// names of ten drawn bytes and one of four tails
fn tails(alloc: Global, count: usize, length: usize) -> Result<Vec<Bytes>, NoMemory> {
    let mut state = 1;
    let mut names = Vec::new(alloc);
    for _k in 0..count {
        let mut name = drawn(alloc, &mut state, length.min(10))?;
        let mut tail = state >> 30;
        name.extend_from_slice(&drawn(alloc, &mut tail, length.saturating_sub(10))?)?;
        names.push(Bytes::from_vec(name))?;
    }
    Ok(names)
}

// each name is the one before without its first byte
fn chain(alloc: Global, count: usize, length: usize) -> Result<Vec<Bytes>, NoMemory> {
    let mut state = 1;
    let longest = drawn(alloc, &mut state, length)?;
    let mut rest = longest.as_slice();
    let mut names = Vec::new(alloc);
    for _k in 0..count {
        match rest.split_first() {
            Some((_, others)) => {
                names.push(Bytes::from_slice(alloc, rest)?)?;
                rest = others;
            }
            None => break,
        }
    }
    Ok(names)
}

// one name again and again
fn equal(alloc: Global, count: usize, length: usize) -> Result<Vec<Bytes>, NoMemory> {
    let mut names = Vec::new(alloc);
    for _k in 0..count {
        let mut state = 1;
        names.push(Bytes::from_vec(drawn(alloc, &mut state, length)?))?;
    }
    Ok(names)
}

// sorts the names in two ways, and prints how long each took
fn sort<R: Clock + Eprint>(rt: &R, alloc: Global, names: &[Bytes]) -> Result<()> {
    let mut sorted = Vec::new(alloc);
    for name in names {
        sorted.push(name.as_slice())?;
    }
    let start = Instant::now(rt)?;
    sorted.sort_unstable();
    let sort = micros(rt, start)?;
    let start = Instant::now(rt)?;
    sorted.sort_unstable_by(|a, b| a.iter().rev().cmp(b.iter().rev()));
    let backward = micros(rt, start)?;
    eprintln!(rt; "sort {sort} us, from the end {backward} us")?;
    Ok(())
}

// makes the table of the names, and prints how long it took
fn timed_table<R: Clock + Eprint>(rt: &R, alloc: Global, names: &[Bytes]) -> Result<Table> {
    if !Table::fits(1, names) {
        return Err(anyhow!("the names are too long for a table"));
    }
    let start = Instant::now(rt)?;
    let table = Table::of(alloc, 1, names)?;
    let made = micros(rt, start)?;
    eprintln!(rt; "table {made} us")?;
    Ok(table)
}

// asks the table for each name, by the search and at its position, and prints how long each took
fn ask<R: Clock + Print + Eprint>(rt: &R, table: &Table, names: &[Bytes]) -> Result<()> {
    let start = Instant::now(rt)?;
    let found = names
        .iter()
        .filter(|name| table.offset(name.as_slice()).is_some())
        .count();
    let asked = micros(rt, start)?;
    let start = Instant::now(rt)?;
    let found_near = names
        .iter()
        .enumerate()
        .filter(|(k, name)| table.offset_near(*k, name.as_slice()).is_some())
        .count();
    let near = micros(rt, start)?;
    let (count, size) = (names.len(), table.bytes().len());
    println!(rt; "{count} names, {found} found, {found_near} found near, a table of {size} bytes")?;
    eprintln!(rt; "offsets {asked} us, near {near} us")?;
    Ok(())
}

/// Sorts so many names of that length, makes their table and asks it for each name.
pub(crate) fn measure<R: Clock + Print + Eprint>(
    rt: &R,
    alloc: Global,
    kind: &str,
    count: u32,
    length: u32,
) -> Result<()> {
    let (count, length) = (count as usize, length as usize);
    let names = match kind {
        "tails" => tails(alloc, count, length)?,
        "chain" => chain(alloc, count, length)?,
        "equal" => equal(alloc, count, length)?,
        _ => return Err(anyhow!("KIND is tails, chain or equal")),
    };
    sort(rt, alloc, names.as_slice())?;
    let table = timed_table(rt, alloc, names.as_slice())?;
    ask(rt, &table, names.as_slice())
}
