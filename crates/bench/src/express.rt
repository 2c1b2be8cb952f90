//! Times the fitting of an object of ELF to a target, beside a walk over the same object, and the planning
//! of the file and all its windows.
//!
//! KIND is the target, a format but `coff32`.
ghost use Rattle.std.specs.Prelude.{◌≤◌};
ghost use Rattle.bench.specs.Shape.{IsElf};

use crate::MOST;
use crate::objects::{object, timed_walk};
use crate::timing::micros;
use anyhow::{Result, anyhow};
use oc_base::{Format, Stop, word_of};
use oc_coff_write::CoffWriter64;
use oc_elf_write::{ElfWriter32, ElfWriter64};
use oc_express::fit;
use oc_macho_write::{MachWriter32, MachWriter64};
use oc_neutral::Neutral;
use oc_omf_write::OmfWriter;
use oc_target::{Emits, Fitted, Writes};
use std::alloc::Global;
use std::rt::Clock;
use std::time::Instant;

// how many bytes the windows of a planned file have together
fn windows<E: Emits>(plan: &E) -> u64 {
    let mut piece = [0; 4096];
    let mut at = 0u64;
    for _piece in 0..plan.len() / 4096 + 1 {
        let count = plan.window(at, &mut piece);
        at = at.saturating_add(count as u64);
    }
    at
}

// gives all windows of a planned file, and prints how long that and the planning took
fn give<R: Clock + Eprint, E: Emits>(rt: &R, start: Instant, plan: &E) -> Result<()> {
    let planned = micros(rt, start)?;
    let start = Instant::now(rt)?;
    let bytes = windows(plan);
    let given = micros(rt, start)?;
    eprintln!(rt; "planned in {planned} us, {bytes} bytes given in {given} us")?;
    Ok(())
}

// plans the file of an object that is ready for a target, and gives all its windows
fn emit<R: Clock + Eprint>(rt: &R, alloc: Global, fitted: Fitted) -> Result<()> {
    let format = fitted.neutral().format();
    let start = Instant::now(rt)?;
    match format {
        Format::Elf32 => give(rt, start, &ElfWriter32.plan(alloc, fitted)?),
        Format::Elf64 => give(rt, start, &ElfWriter64.plan(alloc, fitted)?),
        Format::Coff64 => give(rt, start, &CoffWriter64.plan(alloc, fitted)?),
        Format::Mac32 => give(rt, start, &MachWriter32.plan(alloc, fitted)?),
        Format::Mac64 => give(rt, start, &MachWriter64.plan(alloc, fitted)?),
        Format::Omf => give(rt, start, &OmfWriter.plan(alloc, fitted)?),
        Format::Coff32
        | Format::BigElf32
        | Format::BigElf64
        | Format::BigCoff32
        | Format::BigCoff64 => Ok(()),
    }
}

// fits the object to a target, and prints how long that took
fn fitted<R: Clock + Eprint>(
    rt: &R,
    alloc: Global,
    target: Format,
    neutral: Neutral,
) -> Result<Result<Fitted, Stop>>
    requires { IsElf neutral }
{
    neutral.is_object();
    if neutral.symbol_count() > MOST || word_of(neutral.format()) != word_of(target) {
        return Err(anyhow!("the object cannot be fitted"));
    }
    let start = Instant::now(rt)?;
    let fitted = fit(alloc, target, neutral);
    let took = micros(rt, start)?;
    eprintln!(rt; "fitted in {took} us")?;
    Ok(fitted)
}

// the target of that name
fn target_of(kind: &str) -> Result<Format> {
    match kind {
        "elf32" => Ok(Format::Elf32),
        "elf64" => Ok(Format::Elf64),
        "coff64" => Ok(Format::Coff64),
        "mac32" => Ok(Format::Mac32),
        "mac64" => Ok(Format::Mac64),
        "omf" => Ok(Format::Omf),
        _ => Err(anyhow!("KIND is elf32, elf64, coff64, mac32, mac64 or omf")),
    }
}

/// Fits an object of so many symbols and relocations, plans its file where that is asked, and
/// prints how long each took.
pub(crate) fn measure<R: Clock + Print + Eprint>(
    rt: &R,
    alloc: Global,
    kind: &str,
    symbols: u32,
    relocs: u32,
    plans: bool,
) -> Result<()>
    requires { relocs ≤ 16000000 }
{
    let target = target_of(kind)?;
    let neutral = object(alloc, word_of(target), symbols, relocs)?;
    timed_walk(rt, &neutral)?;
    match fitted(rt, alloc, target, neutral)? {
        Err(fault) => {
            println!(rt; "{target:?}: {symbols} symbols, {relocs} relocations, {fault:?}")?;
            Ok(())
        }
        Ok(fitted) => {
            println!(rt; "{target:?}: {symbols} symbols, {relocs} relocations, fitted")?;
            if plans {
                emit(rt, alloc, fitted)
            } else {
                Ok(())
            }
        }
    }
}
