//! A fault: what is refused, and where.
ghost use Rattle.std.specs.Prelude.{◌≡◌};
ghost use Rattle.oc_base.specs.Faults.{fault_at};

use crate::code::Code;

/// The stage at which a fault is found, in the order in which the stages are judged.
#[derive(Clone, Copy, Debug, PartialEq, Eq)]
pub enum Phase {
    /// The file header.
    Header,
    /// The section headers.
    Section,
    /// The symbol table.
    Symbol,
    /// The relocation entries.
    Relocation,
    /// Dropping sections and editing names.
    Edit,
    /// What the target can express of sections.
    TargetSection,
    /// What the target can express of symbols.
    TargetSymbol,
    /// What the target can express of relocations.
    TargetRelocation,
}

/// What kind of refusal a code is.
#[derive(Clone, Copy, Debug, PartialEq, Eq)]
pub enum Class {
    /// The file breaks a rule of its own format.
    Malformed,
    /// The file holds what is outside the profile, or what the target cannot express.
    Refused,
    /// The file, or its output, is larger than the stated limits.
    Limit,
}

/// One refusal.
#[derive(Clone, Copy, Debug, PartialEq, Eq)]
pub struct Fault {
    /// The stage that judged it.
    pub phase: Phase,
    /// The number of the section, symbol or entry under examination.
    pub index: u32,
    /// Why it is refused.
    pub code: Code,
    /// The byte place of the structure, or the counted number where a limit is passed.
    pub place: u64,
}

/// The structure under examination: a fault without its code.
#[derive(Clone, Copy, Debug, PartialEq, Eq)]
pub struct Spot {
    /// The stage that judges it.
    pub phase: Phase,
    /// The number of the section, symbol or entry under examination.
    pub index: u32,
    /// The byte place of the structure.
    pub place: u64,
}

impl Spot {
    /// The fault of this structure with that code. Constant time, no memory.
    pub fn fault(self, code: Code) -> Fault
        ensures { result ≡ fault_at self code }
    {
        Fault {
            phase: self.phase,
            index: self.index,
            code,
            place: self.place,
        }
    }
}
