//! Why an engine can't be opened over a store.
ghost use Rattle.std.specs.Prelude.{◌≡◌};
ghost use Rattle.wu_engine.specs.declared.faults.BeginFault.TheVariants.{NoMemory as WantsMemory};

use std::alloc::AllocError;
use thiserror::Error;
use wu_base::{NoMemory, Trouble};
use wu_outside::Fault;

/// Why an engine can't be opened over a store. The causes stand at [`Engine::begin`](crate::Engine::begin).
#[derive(Clone, Copy, Debug, PartialEq, Eq, Error)]
pub enum BeginFault {
    /// There was no memory.
    #[error("no memory")]
    NoMemory,
    /// The store failed; its count of faults rose.
    #[error("the store failed")]
    StoreFault,
    /// What the store has of this blob isn't what was saved; the root counts as blob 0.
    #[error("the store is damaged at blob {blob}")]
    Damaged {
        /// The blob's number.
        blob: u64,
    },
    /// The store has room for no further session: its next address is at least SPENT_AT, or its next blob at
    /// least BLOBS_SPENT_AT.
    #[error("the store is spent at {next}")]
    Spent {
        /// The first of the two numbers that is.
        next: u64,
    },
}

impl From<AllocError> for BeginFault {
    ghost from_gives = { λ _ e. e ≡ WantsMemory };

    fn from(_error: AllocError) -> BeginFault {
        BeginFault::NoMemory
    }
}

impl From<NoMemory> for BeginFault {
    ghost from_gives = { λ _ e. e ≡ WantsMemory };

    fn from(_error: NoMemory) -> BeginFault {
        BeginFault::NoMemory
    }
}

impl From<Fault> for BeginFault {
    ghost use Rattle.wu_engine.specs.Opening.{fault_of_call};

    ghost from_gives = { λ fault e. e ≡ fault_of_call fault };

    fn from(fault: Fault) -> BeginFault {
        match fault {
            Fault::Failed => BeginFault::StoreFault,
            Fault::NoMemory => BeginFault::NoMemory,
        }
    }
}

impl From<Trouble> for BeginFault {
    ghost use Rattle.wu_engine.specs.Opening.{fault_of_trouble};

    ghost from_gives = { λ trouble e. e ≡ fault_of_trouble trouble };

    fn from(trouble: Trouble) -> BeginFault {
        match trouble {
            Trouble::NoMemory => BeginFault::NoMemory,
            Trouble::StoreFault => BeginFault::StoreFault,
            Trouble::Damaged { blob } => BeginFault::Damaged { blob },
        }
    }
}
