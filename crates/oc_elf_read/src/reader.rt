//! The readers of objects with few sections, and the reading that all classes share.
ghost use Rattle.std.specs.Prelude.{◌≡◌, ◌≤◌, length, None, IfErr, IfOk, OnOk};
ghost use Rattle.oc_base.specs.declared.limits.TheConstants.{MOST_INPUT};
ghost use Rattle.oc_base.specs.Stops.{IsStop};
ghost use Rattle.oc_linking.specs.FirstFault.{first_fault};
ghost use Rattle.oc_shows.specs.Readable.{IsReadable};
ghost use Rattle.oc_shows.specs.Shows.{Shows};
ghost use Rattle.oc_elf.specs.Elf.{elf_dialect, fault_in, rest_stages};
ghost use Rattle.oc_elf_judge.specs.Known.{IsFound};

use crate::added_relocs::add_relocations;
use crate::started::start;
use oc_base::{NoMemory, Stop};
use oc_elf::{ElfClass, Frame, read_frame};
use oc_elf_judge::{Aims, Found, check_rest, table_header};
use oc_neutral::{Keep, Neutral, are_bytes};
use oc_shows::Reads;
use std::alloc::Global;

// the object of a file without faults
fn object_of(alloc: Global, frame: &Frame, keep: &Keep, found: &Found) -> Result<Neutral, NoMemory>
    requires clean { first_fault (rest_stages frame.now keep.now) ≡ None }
    requires found { IsFound frame.now found.now.tables.symtab found.now.tables.relocs found.now.tables.owners found.now.sections found.now.symbols }
    ensures shows { IfOk result (Shows (elf_dialect frame.now.class) frame.now.file keep.now) }
    ensures readable { IfOk result IsReadable }
{
    frame.is_frame();
    are_bytes(frame.file());
    let table = table_header(frame, found.tables.symtab);
    let mut builder = start(alloc, frame, &table, &found.tables.owners, &found.sections)?;
    builder.is_draft();
    let aims = Aims {
        table: &table,
        sections: &found.sections,
        symbols: &found.symbols,
    };
    add_relocations(
        alloc,
        frame,
        keep,
        &found.tables.relocs,
        &aims,
        &mut builder,
    )?;
    Ok(builder.finish())
}

/// The object of an ELF file of that class, of at most 67,108,864 bytes: with all carried sections and
/// symbols, and with the relocations of the sections that are kept (gABI, "Sections", "Symbol Table" and
/// "Relocation").
///
/// Refused exactly where the file has a fault when it is read under `keep`, with the first one;
/// `NoMemory` where memory ran out, or where the names weigh more than 1 GiB, or all relocation tables have
/// more than 2^23 entries (`oc_weight`). The time is that of `judge`, and linear in the bytes of the file.
pub fn read_elf(alloc: Global, class: ElfClass, bytes: &[u8], keep: &Keep) -> Result<Neutral, Stop>
    requires { length bytes.now ≤ MOST_INPUT }
    ensures well_formed { OnOk result (fault_in class bytes.now keep.now ≡ None) }
    ensures shows { IfOk result (Shows (elf_dialect class) bytes.now keep.now) }
    ensures readable { IfOk result IsReadable }
    ensures fault { IfErr result (IsStop (fault_in class bytes.now keep.now)) }
{
    let frame = match read_frame(alloc, class, bytes) {
        Err(stop) => return Err(stop),
        Ok(frame) => frame,
    };
    let found = match check_rest(alloc, &frame, keep) {
        Err(stop) => return Err(stop),
        Ok(found) => found,
    };
    match object_of(alloc, &frame, keep, &found) {
        Err(NoMemory) => Err(Stop::NoMemory),
        Ok(object) => Ok(object),
    }
}

/// The reader of ELF objects of 32 bits, for i386.
///
/// The time is that of `judge`, and linear in the bytes of the file.
#[derive(Clone, Copy, Debug)]
pub struct ElfReader32;

impl Reads for ElfReader32 {
    ghost use Rattle.oc_elf.specs.Elf.{elf_dialect, elf_is_dialect};
    ghost use Rattle.oc_elf.specs.declared.class.ElfClass.TheVariants.{Class32};

    ghost dialect = { elf_dialect Class32 };

    fn read(&self, alloc: Global, bytes: &[u8], keep: &Keep) -> Result<Neutral, Stop> {
        read_elf(alloc, ElfClass::Class32, bytes, keep)
    }

    ghost law = { elf_is_dialect Class32 };
}

/// The reader of ELF objects of 64 bits, for x86-64.
///
/// The time is that of `judge`, and linear in the bytes of the file.
#[derive(Clone, Copy, Debug)]
pub struct ElfReader64;

impl Reads for ElfReader64 {
    ghost use Rattle.oc_elf.specs.Elf.{elf_dialect, elf_is_dialect};
    ghost use Rattle.oc_elf.specs.declared.class.ElfClass.TheVariants.{Class64};

    ghost dialect = { elf_dialect Class64 };

    fn read(&self, alloc: Global, bytes: &[u8], keep: &Keep) -> Result<Neutral, Stop> {
        read_elf(alloc, ElfClass::Class64, bytes, keep)
    }

    ghost law = { elf_is_dialect Class64 };
}
