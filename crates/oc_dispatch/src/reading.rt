//! The object of a file of any format.
ghost use Rattle.std.specs.Prelude.{◌≡◌, ◌≤◌, length, None, IfErr, IfOk, OnOk};
ghost use Rattle.oc_base.specs.declared.limits.TheConstants.{MOST_INPUT};
ghost use Rattle.oc_base.specs.Stops.{IsStop};
ghost use Rattle.oc_shows.specs.Computed.{object_in};
ghost use Rattle.oc_shows.specs.Readable.{IsReadable};
ghost use Rattle.oc_shows.specs.Shows.{Shows};
ghost use Rattle.oc_neutral.specs.Dialects.{IsDialect};
ghost use Rattle.oc_convert.specs.Dispatched.{reading_refusal};
ghost use Rattle.oc_built.specs.Built.{IsRead, built};

use crate::header::header_refusal;
use oc_base::{Code, Format, Stop};
use oc_big_coff::{BigCoffReader32, BigCoffReader64};
use oc_big_elf::{BigElfReader32, BigElfReader64};
use oc_coff_read::{CoffReader32, CoffReader64};
use oc_convert::identify;
use oc_elf_read::{ElfReader32, ElfReader64};
use oc_macho_read::{MachReader32, MachReader64};
use oc_neutral::{Keep, Neutral};
use oc_omf_read::OmfReader;
use oc_shows::{Reads, shown_object_is_computed};
use std::alloc::Global;

// the object of a file that this reader reads
fn read_by<R: Reads>(alloc: Global, reader: &R, bytes: &[u8], keep: &Keep) -> Result<Neutral, Stop>
    requires { length bytes.now ≤ MOST_INPUT }
    ensures well_formed { OnOk result (R.dialect.rules.fault bytes.now keep.now ≡ None) }
    ensures refused { IfErr result (IsStop (R.dialect.rules.fault bytes.now keep.now)) }
    ensures computed { IfOk result (λ n. n ≡ object_in R.dialect bytes.now keep.now) }
    ensures shows { IfOk result (Shows R.dialect bytes.now keep.now) }
    ensures readable { IfOk result IsReadable }
    ensures dialect { OnOk result (IsDialect R.dialect) }
{
    shown_object_is_computed();
    let neutral = reader.read(alloc, bytes, keep)?;
    neutral.is_object();
    Ok(neutral)
}

/// The object of a file of at most 67,108,864 bytes, of which only what `keep` says is examined for
/// relocations. The format of the file is found by its first bytes.
///
/// `Refused` exactly where there is a first refusal: in the file header `UnknownFormat`, where the
/// first bytes are those of no format; else the first fault of the file, of any class. Where there is
/// none, it is the one object that shows the file. `NoMemory` where memory ran out, or, on any machine,
/// where the names of sections, symbols and groups of ELF and COFF, of symbols of Mach-O or of segments of
/// OMF weigh more than 1 GiB, a name 64 more than its bytes, where all tables of relocations have more than
/// 2^23 entries, or where a module of OMF has more than 9,586,980 relocated fields (`oc_weight`).
///
/// Takes the memory and time of reading: some 1 GiB and 10 seconds for the worst files known, but for
/// modules of OMF with millions of names (measured: docs/SAFETY.md).
#[tactic(auto, unfolding(oc_built::specs::Built::built))]
pub fn read_any(alloc: Global, bytes: &[u8], keep: &Keep) -> Result<Neutral, Stop>
    requires { length bytes.now ≤ MOST_INPUT }
    ensures well_formed { OnOk result (reading_refusal built keep.now bytes.now ≡ None) }
    ensures refused { IfErr result (IsStop (reading_refusal built keep.now bytes.now)) }
    ensures read { IfOk result (IsRead keep.now bytes.now) }
{
    match identify(bytes) {
        None => Err(header_refusal(Code::UnknownFormat)),
        Some(Format::Elf32) => read_by(alloc, &ElfReader32, bytes, keep),
        Some(Format::Elf64) => read_by(alloc, &ElfReader64, bytes, keep),
        Some(Format::Coff32) => read_by(alloc, &CoffReader32, bytes, keep),
        Some(Format::Coff64) => read_by(alloc, &CoffReader64, bytes, keep),
        Some(Format::Mac32) => read_by(alloc, &MachReader32, bytes, keep),
        Some(Format::Mac64) => read_by(alloc, &MachReader64, bytes, keep),
        Some(Format::Omf) => read_by(alloc, &OmfReader, bytes, keep),
        Some(Format::BigElf32) => read_by(alloc, &BigElfReader32, bytes, keep),
        Some(Format::BigElf64) => read_by(alloc, &BigElfReader64, bytes, keep),
        Some(Format::BigCoff32) => read_by(alloc, &BigCoffReader32, bytes, keep),
        Some(Format::BigCoff64) => read_by(alloc, &BigCoffReader64, bytes, keep),
    }
}
