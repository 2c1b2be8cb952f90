//! The writers of the two forms of COFF for few sections.
ghost use Rattle.oc_coff.specs.declared.form.CoffForm.TheVariants.{Usual32, Usual64};
ghost use Rattle.oc_coff_file.specs.Canonical.{coff_file};
ghost use Rattle.oc_coff.specs.Rules.{coff_dialect};
ghost use Rattle.oc_coff_write.specs.Writing.{writes_coff};

use crate::plan::Plan;
use crate::planning::plan_object;
use oc_base::NoMemory;
use oc_coff::CoffForm;
use oc_target::{Fitted, Writes};
use std::alloc::Global;

/// Writes COFF for i386: every object that is ready for it, as its canonical file.
#[derive(Clone, Copy, Debug)]
pub struct CoffWriter32;

/// Writes COFF for x64: every object that is ready for it, as its canonical file.
#[derive(Clone, Copy, Debug)]
pub struct CoffWriter64;

impl Writes for CoffWriter32 {
    type Plan = Plan;

    ghost dialect = { coff_dialect Usual32 };

    ghost canonical = { coff_file Usual32 };

    fn plan(&self, alloc: Global, fitted: Fitted) -> Result<Plan, NoMemory> {
        let plan = plan_object(alloc, CoffForm::Usual32, fitted)?;
        Ok(plan)
    }

    ghost law = { writes_coff Usual32 };
}

impl Writes for CoffWriter64 {
    type Plan = Plan;

    ghost dialect = { coff_dialect Usual64 };

    ghost canonical = { coff_file Usual64 };

    fn plan(&self, alloc: Global, fitted: Fitted) -> Result<Plan, NoMemory> {
        let plan = plan_object(alloc, CoffForm::Usual64, fitted)?;
        Ok(plan)
    }

    ghost law = { writes_coff Usual64 };
}
