//! Reading in a form of COFF, and the readers of the two forms for few sections.
ghost use Rattle.std.specs.Prelude.{◌≡◌, ◌≤◌, length, None, IfErr, IfOk, OnOk};
ghost use Rattle.oc_base.specs.declared.limits.TheConstants.{MOST_INPUT};
ghost use Rattle.oc_base.specs.Stops.{IsStop};
ghost use Rattle.oc_linking.specs.FirstFault.{first_fault};
ghost use Rattle.oc_shows.specs.Readable.{IsReadable};
ghost use Rattle.oc_shows.specs.Shows.{Shows};
ghost use Rattle.oc_coff.specs.Rules.{coff_dialect, dialect_by, fault_by, fault_of};
ghost use Rattle.oc_coff_judge.specs.Found.{IsFound};
ghost use Rattle.oc_coff_judge.specs.Relocs.{rest_stages};

use crate::added_relocs::add_relocations;
use crate::built_symbols::Positions;
use crate::started::start;
use oc_base::{NoMemory, Stop, Word};
use oc_coff::{Coff, CoffForm, Shape, read_coff, shape_of, word_of};
use oc_coff_judge::{Found, check_rest, symbol_positions};
use oc_neutral::{Keep, Neutral, are_bytes};
use oc_shows::Reads;
use std::alloc::Global;

// the object of a file without faults, by what was found in it
fn object_of(
    alloc: Global,
    word: Word,
    coff: &Coff,
    keep: &Keep,
    found: &Found,
) -> Result<Neutral, NoMemory>
    requires clean { first_fault (rest_stages word coff.now keep.now) ≡ None }
    requires found { IsFound coff.now found.now }
    ensures shows { IfOk result (Shows (dialect_by word coff.now.shape) coff.now.bytes keep.now) }
    ensures readable { IfOk result IsReadable }
{
    coff.is_headed();
    are_bytes(coff.file());
    let numbers = found.numbers.as_slice();
    let symbols = symbol_positions(alloc, coff, numbers, &found.sections, &found.tagged)?;
    let mut builder = start(alloc, word, coff, found, &symbols)?;
    builder.is_draft();
    let positions = Positions {
        sections: &found.sections,
        tagged: &found.tagged,
        symbols: &symbols,
    };
    add_relocations(alloc, word, coff, keep, &positions, &mut builder)?;
    Ok(builder.finish())
}

// reads a file
fn read_file(
    alloc: Global,
    word: Word,
    shape: Shape,
    file: &[u8],
    keep: &Keep,
) -> Result<Neutral, Stop>
    requires { length file.now ≤ MOST_INPUT }
    ensures clean { OnOk result (fault_by word shape file.now keep.now ≡ None) }
    ensures stop { IfErr result (IsStop (fault_by word shape file.now keep.now)) }
    ensures shows { IfOk result (Shows (dialect_by word shape) file.now keep.now) }
    ensures readable { IfOk result IsReadable }
{
    let coff = match read_coff(shape, file) {
        Err(fault) => return Err(Stop::Refused(fault)),
        Ok(coff) => coff,
    };
    let found = match check_rest(alloc, word, &coff, keep) {
        Err(stop) => return Err(stop),
        Ok(found) => found,
    };
    match object_of(alloc, word, &coff, keep, &found) {
        Err(NoMemory) => Err(Stop::NoMemory),
        Ok(object) => Ok(object),
    }
}

/// The object of a file of at most 67,108,864 bytes in a form of COFF (PE/COFF; for many sections the
/// structures of winnt.h, "ANON_OBJECT_HEADER_BIGOBJ", "IMAGE_SYMBOL_EX" and "IMAGE_AUX_SYMBOL_EX"). It has
/// all carried sections and symbols, and relocations in the sections that are kept.
///
/// Refused exactly where the file has a fault when it is read in that form under `keep`, with the first one;
/// `NoMemory` where memory ran out, or where the names weigh more than 1 GiB, or all relocation tables have
/// more than 2^23 entries (`oc_weight`).
///
/// The time is linear in the bytes of the file, and that of n log2(n) steps for n symbols or relocations,
/// in any order of names and offsets: some 1 GiB and 10 seconds for the worst files known (measured:
/// docs/SAFETY.md).
pub fn read_object(
    alloc: Global,
    form: CoffForm,
    bytes: &[u8],
    keep: &Keep,
) -> Result<Neutral, Stop>
    requires { length bytes.now ≤ MOST_INPUT }
    ensures well_formed { OnOk result (fault_of form bytes.now keep.now ≡ None) }
    ensures shows { IfOk result (Shows (coff_dialect form) bytes.now keep.now) }
    ensures readable { IfOk result IsReadable }
    ensures fault { IfErr result (IsStop (fault_of form bytes.now keep.now)) }
{
    read_file(alloc, word_of(form), shape_of(form), bytes, keep)
}

/// The reader of COFF objects of 32 bits, for i386. The time is that of `read_object`.
#[derive(Clone, Copy, Debug)]
pub struct CoffReader32;

impl Reads for CoffReader32 {
    ghost use Rattle.oc_base.specs.declared.format.Word.TheVariants.{W32};
    ghost use Rattle.oc_coff.specs.declared.form.CoffForm.TheVariants.{Usual32};
    ghost use Rattle.oc_coff.specs.declared.form.Shape.TheVariants.{Usual};
    ghost use Rattle.oc_coff.specs.Rules.{coff_dialect};
    ghost use Rattle.oc_coff_read.specs.Shown.{coff_is_dialect};

    ghost dialect = { coff_dialect Usual32 };

    fn read(&self, alloc: Global, bytes: &[u8], keep: &Keep) -> Result<Neutral, Stop> {
        read_object(alloc, CoffForm::Usual32, bytes, keep)
    }

    ghost law = { coff_is_dialect W32 Usual };
}

/// The reader of COFF objects of 64 bits, for x64. The time is that of `read_object`.
#[derive(Clone, Copy, Debug)]
pub struct CoffReader64;

impl Reads for CoffReader64 {
    ghost use Rattle.oc_base.specs.declared.format.Word.TheVariants.{W64};
    ghost use Rattle.oc_coff.specs.declared.form.CoffForm.TheVariants.{Usual64};
    ghost use Rattle.oc_coff.specs.declared.form.Shape.TheVariants.{Usual};
    ghost use Rattle.oc_coff.specs.Rules.{coff_dialect};
    ghost use Rattle.oc_coff_read.specs.Shown.{coff_is_dialect};

    ghost dialect = { coff_dialect Usual64 };

    fn read(&self, alloc: Global, bytes: &[u8], keep: &Keep) -> Result<Neutral, Stop> {
        read_object(alloc, CoffForm::Usual64, bytes, keep)
    }

    ghost law = { coff_is_dialect W64 Usual };
}
