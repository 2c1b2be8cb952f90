//! The readers of both words.
ghost use Rattle.std.specs.Prelude.{◌≡◌, ◌≤◌, length, None, IfErr, IfOk, OnOk};
ghost use Rattle.oc_base.specs.declared.limits.TheConstants.{MOST_INPUT};
ghost use Rattle.oc_base.specs.Stops.{IsStop};
ghost use Rattle.oc_linking.specs.FirstFault.{first_fault};
ghost use Rattle.oc_shows.specs.Readable.{IsReadable};
ghost use Rattle.oc_shows.specs.Shows.{Shows};
ghost use Rattle.oc_shelf.specs.Reading.Slots.{AreSlots};
ghost use Rattle.oc_macho.specs.Rules.{fault_of, mach_dialect, rest_stages};
ghost use Rattle.oc_macho.specs.Tables.{tables_of};
ghost use Rattle.oc_macho_judge.specs.Holders.{AreHolders};
ghost use Rattle.oc_macho_read.specs.Adding.{IsClean};
ghost use Rattle.oc_macho_read.specs.Built as built;

use crate::added_relocs::add_relocations;
use crate::aims::RelocContext;
use crate::built_sections::add_sections;
use crate::built_symbols::add_symbols;
use oc_base::{NoMemory, Stop, Word};
use oc_macho::{Frame, format_of};
use oc_macho_judge::{Found, judged};
use oc_neutral::{Builder, Keep, Neutral, are_bytes};
use oc_shelf::Slots;
use oc_shows::Reads;
use std::alloc::Global;

// the sections and symbols of a file that are carried, and the positions of its symbols
fn start(alloc: Global, frame: &Frame, keep: &Keep) -> Result<(Builder, Slots), NoMemory>
    requires read { built.AreRead frame.now }
    requires clean { IsClean frame.now keep.now }
    ensures started { IfOk result (λ made. made.0 ≡ built.started frame.now keep.now) }
    ensures placed { IfOk result (λ made. AreSlots (built.symbol_position frame.now keep.now) (length frame.now.symbols) made.1) }
{
    let mut builder = Builder::new(alloc, format_of(frame.word()));
    add_sections(alloc, frame, &mut builder)?;
    let positions = add_symbols(alloc, frame, keep, &mut builder)?;
    Ok((builder, positions))
}

// the object of a file of that word without faults, by what is found in it
fn object_of(alloc: Global, file: &[u8], found: &Found, keep: &Keep) -> Result<Neutral, NoMemory>
    requires tables { found.now.frame ≡ tables_of found.now.frame.word file.now }
    requires holders { AreHolders found.now.frame found.now.holders }
    requires clean { first_fault (rest_stages found.now.frame keep.now) ≡ None }
    ensures shows { IfOk result (Shows (mach_dialect found.now.frame.word) file.now keep.now) }
    ensures readable { IfOk result IsReadable }
{
    are_bytes(file);
    let (mut builder, positions) = start(alloc, &found.frame, keep)?;
    builder.is_draft();
    // the proof asks that there are few
    let _count = found.frame.symbol_count();
    let known = RelocContext {
        keep: *keep,
        positions: &positions,
        holders: &found.holders,
    };
    add_relocations(alloc, &found.frame, &known, &mut builder)?;
    Ok(builder.finish())
}

// reads a file
fn read_bytes(alloc: Global, word: Word, bytes: &[u8], keep: &Keep) -> Result<Neutral, Stop>
    requires { length bytes.now ≤ MOST_INPUT }
    ensures well_formed { OnOk result (fault_of word bytes.now keep.now ≡ None) }
    ensures shows { IfOk result (Shows (mach_dialect word) bytes.now keep.now) }
    ensures readable { IfOk result IsReadable }
    ensures fault { IfErr result (IsStop (fault_of word bytes.now keep.now)) }
{
    let found = judged(alloc, word, bytes, keep)?;
    Ok(object_of(alloc, bytes, &found, keep)?)
}

/// The reader of Mach-O objects of 32 bits, for i386.
///
/// The time is that of `judged`, and linear in the bytes of the file. Names of symbols that weigh more
/// than 1 GiB, and tables of more than 2^23 relocations, are want of memory before any is taken
/// (`oc_weight`).
#[derive(Clone, Copy, Debug)]
pub struct MachReader32;

impl Reads for MachReader32 {
    ghost use Rattle.oc_base.specs.declared.format.Word.TheVariants.{W32};
    ghost use Rattle.oc_macho.specs.Rules.{mach_dialect};
    ghost use Rattle.oc_macho_read.specs.Shown.{mach_is_dialect};

    ghost dialect = { mach_dialect W32 };

    fn read(&self, alloc: Global, bytes: &[u8], keep: &Keep) -> Result<Neutral, Stop> {
        read_bytes(alloc, Word::W32, bytes, keep)
    }

    ghost law = { mach_is_dialect W32 };
}

/// The reader of Mach-O objects of 64 bits, for x86-64.
///
/// The time is that of `judged`, and linear in the bytes of the file. Names of symbols that weigh more
/// than 1 GiB, and tables of more than 2^23 relocations, are want of memory before any is taken
/// (`oc_weight`).
#[derive(Clone, Copy, Debug)]
pub struct MachReader64;

impl Reads for MachReader64 {
    ghost use Rattle.oc_base.specs.declared.format.Word.TheVariants.{W64};
    ghost use Rattle.oc_macho.specs.Rules.{mach_dialect};
    ghost use Rattle.oc_macho_read.specs.Shown.{mach_is_dialect};

    ghost dialect = { mach_dialect W64 };

    fn read(&self, alloc: Global, bytes: &[u8], keep: &Keep) -> Result<Neutral, Stop> {
        read_bytes(alloc, Word::W64, bytes, keep)
    }

    ghost law = { mach_is_dialect W64 };
}
