//! Why a step stops.
ghost use Rattle.std.specs.Prelude.{◌≡◌};

use crate::answers::NoMemory;
use crate::fault::Fault;
use std::alloc::{AllocError, AllocFailed};
use thiserror::Error;

/// Why a step stops: at a refusal, or for lack of memory.
#[derive(Clone, Copy, Debug, PartialEq, Eq, Error)]
pub enum Stop {
    /// The first refusal: its code gives its class.
    #[error("the input is refused")]
    Refused(Fault),
    /// Memory ran out.
    #[error("out of memory")]
    NoMemory,
}

impl From<AllocError> for Stop {
    ghost use Rattle.std.specs.Prelude.{◌≡◌};
    ghost use Rattle.oc_base.specs.declared.stop.Stop.TheVariants as stop;

    ghost from_gives = { λ _ e. e ≡ stop.NoMemory };

    fn from(_: AllocError) -> Stop {
        Stop::NoMemory
    }
}

impl<T: Drop> From<AllocFailed<T>> for Stop {
    ghost use Rattle.std.specs.Prelude.{◌≡◌};
    ghost use Rattle.oc_base.specs.declared.stop.Stop.TheVariants as stop;

    ghost from_gives = { λ _ e. e ≡ stop.NoMemory };

    fn from(_failed: AllocFailed<T>) -> Stop {
        Stop::NoMemory
    }
}

impl From<NoMemory> for Stop {
    ghost use Rattle.std.specs.Prelude.{◌≡◌};
    ghost use Rattle.oc_base.specs.declared.stop.Stop.TheVariants as stop;

    ghost from_gives = { λ _ e. e ≡ stop.NoMemory };

    fn from(_: NoMemory) -> Stop {
        Stop::NoMemory
    }
}
