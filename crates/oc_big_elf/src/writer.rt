//! The writers of both words.
ghost use Rattle.oc_elf.specs.Elf.{elf_dialect};
ghost use Rattle.oc_elf.specs.declared.class.ElfClass.TheVariants.{Big32, Big64};
ghost use Rattle.oc_elf_file.specs.Canonical.{elf_file};
ghost use Rattle.oc_elf_write.specs.Writing.{writes_elf};

use oc_base::NoMemory;
use oc_elf::ElfClass;
use oc_elf_write::{Plan, plan_object};
use oc_target::{Fitted, Writes};
use std::alloc::Global;

/// Writes ELF for i386 with many sections: every object that is ready for it, as its canonical
/// file. The number of section headers is in header 0, as is that of the header of their names
/// where it is a reserved one, and the section numbers of symbols, where they are reserved ones,
/// are in a table of their own (gABI, "ELF Header", "Sections" and "Symbol Table").
///
/// A plan takes the time of `plan_object`.
#[derive(Clone, Copy, Debug)]
pub struct BigElfWriter32;

impl Writes for BigElfWriter32 {
    type Plan = Plan;

    ghost dialect = { elf_dialect Big32 };

    ghost canonical = { elf_file Big32 };

    fn plan(&self, alloc: Global, fitted: Fitted) -> Result<Plan, NoMemory> {
        plan_object(alloc, ElfClass::Big32, fitted)
    }

    ghost law = { writes_elf Big32 };
}

/// Writes ELF for x86-64 with many sections; numbers are stored as in that for i386 (gABI, "ELF
/// Header", "Sections" and "Symbol Table").
///
/// A plan takes the time of `plan_object`.
#[derive(Clone, Copy, Debug)]
pub struct BigElfWriter64;

impl Writes for BigElfWriter64 {
    type Plan = Plan;

    ghost dialect = { elf_dialect Big64 };

    ghost canonical = { elf_file Big64 };

    fn plan(&self, alloc: Global, fitted: Fitted) -> Result<Plan, NoMemory> {
        plan_object(alloc, ElfClass::Big64, fitted)
    }

    ghost law = { writes_elf Big64 };
}
