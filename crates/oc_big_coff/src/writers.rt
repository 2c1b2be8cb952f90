//! The writers of objects of many sections.
ghost use Rattle.oc_coff.specs.declared.form.CoffForm.TheVariants.{Big32, Big64};
ghost use Rattle.oc_coff_file.specs.Canonical.{coff_file};
ghost use Rattle.oc_coff.specs.Rules.{coff_dialect};
ghost use Rattle.oc_coff_write.specs.Writing.{writes_coff};

use oc_base::NoMemory;
use oc_coff::CoffForm;
use oc_coff_write::{Plan, plan_object};
use oc_target::{Fitted, Writes};
use std::alloc::Global;

/// Writes COFF of many sections for i386: every object that is ready for it, as its canonical file. The time
/// is that of `plan_object`.
#[derive(Clone, Copy, Debug)]
pub struct BigCoffWriter32;

/// Writes COFF of many sections for x64: every object that is ready for it, as its canonical file. The time
/// is that of `plan_object`.
#[derive(Clone, Copy, Debug)]
pub struct BigCoffWriter64;

impl Writes for BigCoffWriter32 {
    type Plan = Plan;

    ghost dialect = { coff_dialect Big32 };

    ghost canonical = { coff_file Big32 };

    fn plan(&self, alloc: Global, fitted: Fitted) -> Result<Plan, NoMemory> {
        let plan = plan_object(alloc, CoffForm::Big32, fitted)?;
        Ok(plan)
    }

    ghost law = { writes_coff Big32 };
}

impl Writes for BigCoffWriter64 {
    type Plan = Plan;

    ghost dialect = { coff_dialect Big64 };

    ghost canonical = { coff_file Big64 };

    fn plan(&self, alloc: Global, fitted: Fitted) -> Result<Plan, NoMemory> {
        let plan = plan_object(alloc, CoffForm::Big64, fitted)?;
        Ok(plan)
    }

    ghost law = { writes_coff Big64 };
}
