//! Why the program ends before its input does.
use std::alloc::{AllocError, AllocFailed};
use std::io;
use thiserror::Error;
use wu_base::NoMemory;
use wu_mirror::Fault;

/// What is wrong in a line.
#[derive(Clone, Copy, Debug, PartialEq, Eq, Error)]
pub enum Flaw {
    /// The input ends in the midst of a batch or of a line.
    #[error("the input ends here")]
    Cut,
    /// The line is no header of a batch.
    #[error("no header of a batch")]
    Header,
    /// The line sets no groups.
    #[error("no line of a user")]
    User,
    /// The line begins no change.
    #[error("no change of a node")]
    Change,
    /// The line tells nothing of the change that it stands in, or tells it again.
    #[error("no part of this change")]
    Part,
    /// The line speaks of another node than its change.
    #[error("another node than that of the change")]
    Number,
    /// A node that is made has no line that makes it.
    #[error("a node that nothing makes")]
    Unmade,
    /// The mask of an access list isn't the group's digit of the mode.
    #[error("a list with another mask than the mode's")]
    Mask,
}

/// Why the program ends.
#[derive(Debug, Drop, Error)]
pub enum Stop {
    /// A line can't be read.
    #[error("line {line}: {flaw}")]
    Line {
        /// Counted from 1.
        line: u64,
        /// What is wrong.
        flaw: Flaw,
    },
    /// A batch was read whole and can't be planned.
    #[error("the batch that ends at line {line}: number {number}: {fault}")]
    Batch {
        /// Counted from 1.
        line: u64,
        /// The node, or the user.
        number: u32,
        /// What is wrong.
        fault: Fault,
    },
    /// Reading or writing failed.
    #[error("{0}")]
    Stream(io::Error),
    /// Out of memory.
    #[error("no memory")]
    NoMemory,
}

impl From<io::Error> for Stop {
    fn from(error: io::Error) -> Stop {
        Stop::Stream(error)
    }
}

impl From<NoMemory> for Stop {
    fn from(_error: NoMemory) -> Stop {
        Stop::NoMemory
    }
}

impl From<AllocError> for Stop {
    fn from(_error: AllocError) -> Stop {
        Stop::NoMemory
    }
}

impl<T: Drop> From<AllocFailed<T>> for Stop {
    fn from(_error: AllocFailed<T>) -> Stop {
        Stop::NoMemory
    }
}
