//! How reading ends before the end of the input.
ghost use Rattle.std.specs.Prelude.{◌≡◌};
ghost use Rattle.wu_script.specs.declared.ends.ReadEnd.TheVariants.{NoMemory as OutOfMemory};

use std::alloc::{AllocError, AllocFailed};
use thiserror::Error;
use wu_base::NoMemory;

/// Why no item could be read.
#[derive(Clone, Copy, Debug, PartialEq, Eq, Error)]
pub enum ReadEnd {
    /// The source failed; its count of faults rose.
    #[error("the source failed")]
    ReadFault,
    /// The source gave more bytes than it may.
    #[error("the input is too long")]
    InputTooLong,
    /// There was no memory.
    #[error("no memory")]
    NoMemory,
}

impl From<AllocError> for ReadEnd {
    ghost from_gives = { λ _ e. e ≡ OutOfMemory };

    fn from(_error: AllocError) -> ReadEnd {
        ReadEnd::NoMemory
    }
}

impl<T: Drop> From<AllocFailed<T>> for ReadEnd {
    ghost from_gives = { λ _ e. e ≡ OutOfMemory };

    fn from(_error: AllocFailed<T>) -> ReadEnd {
        ReadEnd::NoMemory
    }
}

impl From<NoMemory> for ReadEnd {
    ghost from_gives = { λ _ e. e ≡ OutOfMemory };

    fn from(_error: NoMemory) -> ReadEnd {
        ReadEnd::NoMemory
    }
}
