//! Why a call on the index over a store failed.
ghost use Rattle.std.specs.Prelude.{◌≡◌};
ghost use Rattle.wu_base.specs.declared.troubles.Trouble.TheVariants.{NoMemory as RanOutOfMemory};

use crate::memory::NoMemory;
use std::alloc::{AllocError, AllocFailed};
use thiserror::Error;

/// Why a call on the index over a store failed.
#[derive(Clone, Copy, Debug, PartialEq, Eq, Error)]
pub enum Trouble {
    /// The call ran out of memory.
    #[error("no memory")]
    NoMemory,
    /// The store failed; its count of faults rose.
    #[error("store failed")]
    StoreFault,
    /// The blob isn't what its record says: absent, of another size, or with other bytes.
    #[error("store damaged at blob {blob}")]
    Damaged { blob: u64 },
}

impl From<NoMemory> for Trouble {
    ghost from_gives = { λ _ trouble. trouble ≡ RanOutOfMemory };

    fn from(_error: NoMemory) -> Trouble {
        Trouble::NoMemory
    }
}

impl From<AllocError> for Trouble {
    ghost from_gives = { λ _ trouble. trouble ≡ RanOutOfMemory };

    fn from(_error: AllocError) -> Trouble {
        Trouble::NoMemory
    }
}

impl<T: Drop> From<AllocFailed<T>> for Trouble {
    ghost from_gives = { λ _ trouble. trouble ≡ RanOutOfMemory };

    fn from(_error: AllocFailed<T>) -> Trouble {
        Trouble::NoMemory
    }
}
