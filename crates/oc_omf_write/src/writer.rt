//! The writer of OMF.
ghost use Rattle.oc_omf_file.specs.Canonical.{omf_file};
ghost use Rattle.oc_omf.specs.Rules.{omf_dialect};
ghost use Rattle.oc_omf_write.specs.Writing.{writes_omf};

use crate::plan::Plan;
use crate::planning::plan_object;
use oc_base::NoMemory;
use oc_target::{Fitted, Writes};
use std::alloc::Global;

/// Writes OMF: every object that is ready for it, as its canonical file.
#[derive(Clone, Copy, Debug)]
pub struct OmfWriter;

impl Writes for OmfWriter {
    type Plan = Plan;

    ghost dialect = { omf_dialect };

    ghost canonical = { omf_file };

    fn plan(&self, alloc: Global, fitted: Fitted) -> Result<Plan, NoMemory> {
        let plan = plan_object(alloc, fitted)?;
        Ok(plan)
    }

    ghost law = { writes_omf };
}
