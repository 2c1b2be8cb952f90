//! The writers of Mach-O.
ghost use Rattle.oc_base.specs.declared.format.Word.TheVariants.{W32, W64};
ghost use Rattle.oc_macho.specs.Rules.{mach_dialect};
ghost use Rattle.oc_macho_file.specs.Canonical.{mach_file};
ghost use Rattle.oc_macho_write.specs.Writing.{writes_mach};

use crate::plan::Plan;
use crate::planning::plan_object;
use oc_base::{NoMemory, Word};
use oc_target::{Fitted, Writes};
use std::alloc::Global;

/// Writes Mach-O for i386: every object that is ready for it, as its canonical file.
#[derive(Clone, Copy, Debug)]
pub struct MachWriter32;

/// Writes Mach-O for x86-64: every object that is ready for it, as its canonical file.
#[derive(Clone, Copy, Debug)]
pub struct MachWriter64;

impl Writes for MachWriter32 {
    type Plan = Plan;

    ghost dialect = { mach_dialect W32 };

    ghost canonical = { mach_file W32 };

    fn plan(&self, alloc: Global, fitted: Fitted) -> Result<Plan, NoMemory> {
        let plan = plan_object(alloc, Word::W32, fitted)?;
        Ok(plan)
    }

    ghost law = { writes_mach W32 };
}

impl Writes for MachWriter64 {
    type Plan = Plan;

    ghost dialect = { mach_dialect W64 };

    ghost canonical = { mach_file W64 };

    fn plan(&self, alloc: Global, fitted: Fitted) -> Result<Plan, NoMemory> {
        let plan = plan_object(alloc, Word::W64, fitted)?;
        Ok(plan)
    }

    ghost law = { writes_mach W64 };
}
