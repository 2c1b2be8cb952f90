//! Why iterated data are refused.
use oc_base::OutOfView;
use std::alloc::{AllocError, AllocFailed};
use thiserror::Error;

/// Why bytes are no iterated data, or are not read.
#[derive(Clone, Copy, Debug, PartialEq, Eq, Error)]
pub enum BlockFault {
    /// A count or a content passes the end.
    #[error("a block passes the end of its entry")]
    BadBlock,
    /// A block is nested more than 32 deep.
    #[error("blocks are nested more than 32 deep")]
    TooDeep,
    /// Memory ran out.
    #[error("out of memory")]
    NoMemory,
}

/// Why the copies of content bytes are not given.
#[derive(Clone, Copy, Debug, PartialEq, Eq, Error)]
pub enum CopyFault {
    /// The four bytes do not lie in one content.
    #[error("the bytes are not of one content")]
    NotContent,
    /// Memory ran out.
    #[error("out of memory")]
    NoMemory,
}

impl From<AllocError> for CopyFault {
    ghost use Rattle.std.specs.Prelude.{◌≡◌};
    ghost use Rattle.oc_omf_records.specs.declared.faults.CopyFault.TheVariants.{NoMemory};

    ghost from_gives = { λ _ fault. fault ≡ NoMemory };

    fn from(_: AllocError) -> CopyFault {
        CopyFault::NoMemory
    }
}

impl From<OutOfView> for BlockFault {
    ghost use Rattle.std.specs.Prelude.{◌≡◌};
    ghost use Rattle.oc_omf_records.specs.declared.faults.BlockFault.TheVariants.{BadBlock};

    ghost from_gives = { λ _ fault. fault ≡ BadBlock };

    fn from(_: OutOfView) -> BlockFault {
        BlockFault::BadBlock
    }
}

impl From<AllocError> for BlockFault {
    ghost use Rattle.std.specs.Prelude.{◌≡◌};
    ghost use Rattle.oc_omf_records.specs.declared.faults.BlockFault.TheVariants.{NoMemory};

    ghost from_gives = { λ _ fault. fault ≡ NoMemory };

    fn from(_: AllocError) -> BlockFault {
        BlockFault::NoMemory
    }
}

impl<T: Drop> From<AllocFailed<T>> for BlockFault {
    ghost use Rattle.std.specs.Prelude.{◌≡◌};
    ghost use Rattle.oc_omf_records.specs.declared.faults.BlockFault.TheVariants.{NoMemory};

    ghost from_gives = { λ _ fault. fault ≡ NoMemory };

    fn from(_failed: AllocFailed<T>) -> BlockFault {
        BlockFault::NoMemory
    }
}
