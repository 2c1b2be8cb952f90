//! The writers of ELF with few sections.
ghost use Rattle.oc_elf.specs.declared.class.ElfClass.TheVariants.{Class32, Class64};
ghost use Rattle.oc_elf.specs.Elf.{elf_dialect};
ghost use Rattle.oc_elf_file.specs.Canonical.{elf_file};
ghost use Rattle.oc_elf_write.specs.Writing.{writes_elf};

use crate::plan::Plan;
use crate::planning::plan_object;
use oc_base::NoMemory;
use oc_elf::ElfClass;
use oc_target::{Fitted, Writes};
use std::alloc::Global;

/// Writes ELF for i386: every object that is ready for it, as its canonical file.
#[derive(Clone, Copy, Debug)]
pub struct ElfWriter32;

/// Writes ELF for x86-64: every object that is ready for it, as its canonical file.
#[derive(Clone, Copy, Debug)]
pub struct ElfWriter64;

impl Writes for ElfWriter32 {
    type Plan = Plan;

    ghost dialect = { elf_dialect Class32 };

    ghost canonical = { elf_file Class32 };

    fn plan(&self, alloc: Global, fitted: Fitted) -> Result<Plan, NoMemory> {
        plan_object(alloc, ElfClass::Class32, fitted)
    }

    ghost law = { writes_elf Class32 };
}

impl Writes for ElfWriter64 {
    type Plan = Plan;

    ghost dialect = { elf_dialect Class64 };

    ghost canonical = { elf_file Class64 };

    fn plan(&self, alloc: Global, fitted: Fitted) -> Result<Plan, NoMemory> {
        plan_object(alloc, ElfClass::Class64, fitted)
    }

    ghost law = { writes_elf Class64 };
}
