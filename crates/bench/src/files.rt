//! What files of all formats are made of, and how they are read.
ghost use Rattle.std.specs.Prelude.{◌<◌, ◌≤◌, length, IfOk};
ghost use Rattle.oc_base.specs.declared.limits.TheConstants.{MOST_INPUT};

use crate::timing::micros;
use anyhow::{Result, anyhow};
use oc_base::{MOST_INPUT, NoMemory};
use oc_neutral::Keep;
use oc_shows::Reads;
use std::alloc::Global;
use std::rt::Clock;
use std::time::Instant;

/// The most relocations or symbols of a file.
pub(crate) const MOST: u32 = 8_000_000;

/// Sections of all kinds are kept.
pub(crate) const KEEP_ALL: Keep = Keep {
    debug: true,
    exceptions: true,
    notes: true,
};

/// Appends two bytes.
pub(crate) fn half(bytes: &mut Vec<u8>, number: u16) -> Result<(), NoMemory> {
    bytes.extend_from_slice(number.to_le_bytes().as_slice())?;
    Ok(())
}

/// Appends four bytes.
pub(crate) fn word(bytes: &mut Vec<u8>, number: u32) -> Result<(), NoMemory> {
    bytes.extend_from_slice(number.to_le_bytes().as_slice())?;
    Ok(())
}

/// Appends so many zeros.
pub(crate) fn zeros(alloc: Global, bytes: &mut Vec<u8>, count: u32) -> Result<(), NoMemory> {
    bytes.extend_from_slice(vec![in alloc; 0u8; count as usize]?.as_slice())?;
    Ok(())
}

/// The order in which things come.
#[derive(Clone, Copy)]
pub(crate) enum Order {
    /// From the first to the last.
    Up,
    /// From the last to the first.
    Down,
    /// Mixed: each step goes on by a prime, around the end. Of fewer than the prime, each comes
    /// once.
    Drawn,
}

/// A prime above the most relocations.
const STEP: u64 = 8_000_009;

/// The place of step `k` of `count`.
pub(crate) fn place(k: u32, count: u32, order: Order) -> u32
    requires { k < count }
    ensures { result < count }
{
    match order {
        Order::Up => k,
        Order::Down => count - 1 - k,
        Order::Drawn => (u64::from(k) * STEP % u64::from(count)) as u32,
    }
}

// appends a name of seven digits, and the byte after it
fn name(bytes: &mut Vec<u8>, number: u32, after: u8) -> Result<(), NoMemory> {
    let mut scale = 1_000_000u32;
    while scale > 0 {
        bytes.push(b'0' + (number / scale % 10) as u8)?;
        scale /= 10;
    }
    bytes.push(after)?;
    Ok(())
}

/// Appends names of seven digits, each with that byte after it.
pub(crate) fn names(
    bytes: &mut Vec<u8>,
    count: u32,
    order: Order,
    after: u8,
) -> Result<(), NoMemory> {
    for k in 0..count {
        name(bytes, place(k, count, order), after)?;
    }
    Ok(())
}

/// The same number, where a file can have so many relocations or symbols.
pub(crate) fn counted(count: u32) -> Result<u32>
    ensures { IfOk result (λ n. n ≤ 8000000) }
{
    if count > MOST {
        return Err(anyhow!("a file has at most {MOST} relocations or symbols"));
    }
    Ok(count)
}

/// Asks that a file is not longer than the longest that is read.
pub(crate) fn ask_size(size: usize) -> Result<()>
    ensures { IfOk result (λ _. size ≤ MOST_INPUT) }
{
    if size as u64 > MOST_INPUT {
        return Err(anyhow!("a file has at most {MOST_INPUT} bytes, not {size}"));
    }
    Ok(())
}

/// Reads a file, and prints what was read and how long it took.
pub(crate) fn read_file<R: Clock + Print + Eprint, F: Reads>(
    rt: &R,
    alloc: Global,
    reader: &F,
    bytes: &[u8],
) -> Result<()>
    requires { length bytes.now ≤ MOST_INPUT }
{
    let start = Instant::now(rt)?;
    let read = reader.read(alloc, bytes, &KEEP_ALL);
    let took = micros(rt, start)?;
    match read {
        Ok(object) => {
            let (sections, symbols) = (object.section_count(), object.symbol_count());
            println!(rt; "{sections} sections, {symbols} symbols")?;
        }
        Err(fault) => println!(rt; "not read: {fault:?}")?,
    }
    eprintln!(rt; "read in {took} us")?;
    Ok(())
}
