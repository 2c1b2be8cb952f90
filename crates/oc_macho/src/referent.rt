//! What relocation entries refer to, as far as the conditions on them ask.
ghost use Rattle.std.specs.Prelude.{◌≡◌};
ghost use Rattle.oc_macho.specs.Referents as referents;

/// What a reference is to.
#[derive(Clone, Copy, Debug, PartialEq, Eq)]
pub enum Referent {
    /// Nothing is present.
    Nothing,
    /// Something is present to which no field can refer.
    Unfit,
    /// Something to which a field can refer.
    Fit {
        /// Whether it is a symbol that is seen by all files.
        external: bool,
        /// Whether it has a place that no other definition can change.
        placed: bool,
    },
}

impl Referent {
    /// Whether nothing is present. Constant time.
    pub fn is_nothing(self) -> bool
        ensures { result ≡ referents.is_nothing self }
    {
        match self {
            Referent::Nothing => true,
            Referent::Unfit | Referent::Fit { .. } => false,
        }
    }

    /// Whether it is present, and cannot be the target of a field which reads a slot, or not.
    /// Constant time.
    pub fn cannot_be_target(self, slot: bool) -> bool
        ensures { result ≡ referents.cannot_be_target slot self }
    {
        match self {
            Referent::Nothing => false,
            Referent::Unfit => true,
            Referent::Fit { external, .. } => slot && !external,
        }
    }

    /// Whether it is present, and cannot be taken from a target. Constant time.
    pub fn cannot_be_taken(self) -> bool
        ensures { result ≡ referents.cannot_be_taken self }
    {
        match self {
            Referent::Nothing => false,
            Referent::Unfit => true,
            Referent::Fit { placed, .. } => !placed,
        }
    }
}
