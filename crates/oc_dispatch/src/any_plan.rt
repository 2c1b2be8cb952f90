//! The planned file of any format.
ghost use Rattle.std.specs.Prelude.{◌≡◌, ℕ, List};

use oc_target::Emits;

/// The planned file of any format.
#[derive(Debug, Drop)]
pub enum AnyPlan {
    /// A file of ELF.
    Elf(oc_elf_write::Plan),
    /// A file of COFF.
    Coff(oc_coff_write::Plan),
    /// A file of Mach-O.
    Mach(oc_macho_write::Plan),
    /// A module of OMF.
    Omf(oc_omf_write::Plan),
}

impl Emits for AnyPlan {
    ghost use Rattle.oc_dispatch.specs.declared.any_plan.AnyPlan.TheVariants as any;

    ghost file = { elim [
      | any.Elf plan ↦ ⟦<oc_elf_write::Plan as Emits>⟧.file plan
      | any.Coff plan ↦ ⟦<oc_coff_write::Plan as Emits>⟧.file plan
      | any.Mach plan ↦ ⟦<oc_macho_write::Plan as Emits>⟧.file plan
      | any.Omf plan ↦ ⟦<oc_omf_write::Plan as Emits>⟧.file plan
    ] };

    fn len(&self) -> u64 {
        match self {
            AnyPlan::Elf(plan) => plan.len(),
            AnyPlan::Coff(plan) => plan.len(),
            AnyPlan::Mach(plan) => plan.len(),
            AnyPlan::Omf(plan) => plan.len(),
        }
    }

    fn window(&self, at: u64, to: &mut [u8]) -> usize {
        match self {
            AnyPlan::Elf(plan) => plan.window(at, to),
            AnyPlan::Coff(plan) => plan.window(at, to),
            AnyPlan::Mach(plan) => plan.window(at, to),
            AnyPlan::Omf(plan) => plan.window(at, to),
        }
    }
}

/// A plan that is one of any format.
pub(crate) trait PlansAny: Emits {
    /// The plan as one of any format: it has the same file. Constant time.
    fn any(self) -> AnyPlan
        ensures { ⟦<AnyPlan as Emits>⟧.file result ≡ Self.Emits.file self };
}

impl PlansAny for oc_elf_write::Plan {
    fn any(self) -> AnyPlan {
        AnyPlan::Elf(self)
    }
}

impl PlansAny for oc_coff_write::Plan {
    fn any(self) -> AnyPlan {
        AnyPlan::Coff(self)
    }
}

impl PlansAny for oc_macho_write::Plan {
    fn any(self) -> AnyPlan {
        AnyPlan::Mach(self)
    }
}

impl PlansAny for oc_omf_write::Plan {
    fn any(self) -> AnyPlan {
        AnyPlan::Omf(self)
    }
}
