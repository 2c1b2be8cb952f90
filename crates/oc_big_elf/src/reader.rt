//! The readers of both words.
ghost use Rattle.oc_elf.specs.Elf.{elf_dialect, elf_is_dialect};
ghost use Rattle.oc_elf.specs.declared.class.ElfClass.TheVariants.{Big32, Big64};

use oc_base::Stop;
use oc_elf::ElfClass;
use oc_elf_read::read_elf;
use oc_neutral::{Keep, Neutral};
use oc_shows::Reads;
use std::alloc::Global;

/// The reader of ELF objects of 32 bits with many sections, for i386: the number of section headers
/// and that of the header of their names may be in header 0, and the section numbers of symbols in
/// a table of their own (gABI, "ELF Header", "Sections" and "Symbol Table").
///
/// The time is that of `judge`, and linear in the bytes of the file.
#[derive(Clone, Copy, Debug)]
pub struct BigElfReader32;

impl Reads for BigElfReader32 {
    ghost dialect = { elf_dialect Big32 };

    fn read(&self, alloc: Global, bytes: &[u8], keep: &Keep) -> Result<Neutral, Stop> {
        read_elf(alloc, ElfClass::Big32, bytes, keep)
    }

    ghost law = { elf_is_dialect Big32 };
}

/// The reader of ELF objects of 64 bits with many sections, for x86-64; numbers are stored as in
/// those of 32 bits (gABI, "ELF Header", "Sections" and "Symbol Table").
///
/// The time is that of `judge`, and linear in the bytes of the file.
#[derive(Clone, Copy, Debug)]
pub struct BigElfReader64;

impl Reads for BigElfReader64 {
    ghost dialect = { elf_dialect Big64 };

    fn read(&self, alloc: Global, bytes: &[u8], keep: &Keep) -> Result<Neutral, Stop> {
        read_elf(alloc, ElfClass::Big64, bytes, keep)
    }

    ghost law = { elf_is_dialect Big64 };
}
