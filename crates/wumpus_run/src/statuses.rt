//! How a session ends.
ghost use Rattle.std.specs.Prelude.{◌≡◌, ◌<◌};
ghost use Rattle.wumpus_run.specs.Ended.{status_of, status_of_fault, status_of_opening};
ghost use Rattle.wumpus_run.specs.Ended.{status_of_saving, status_of_trouble};
ghost use Rattle.wumpus_run.specs.Session.{code_of};

use wu_base::Trouble;
use wu_engine::BeginFault;
use wu_outside::Fault;
use wu_script::ReadEnd;

/// How a session ended. The causes stand at [`run`](crate::run).
#[derive(Clone, Copy, Debug, PartialEq, Eq)]
pub enum Status {
    /// The source was read to its end, every reply was written, and what the script left is saved; or the line of
    /// a demonstration was written.
    Done,
    /// The command-line arguments are invalid.
    Usage,
    /// The source failed.
    ReadFault,
    /// The sink failed.
    WriteFault,
    /// Out of memory.
    NoMemory,
    /// The input has more bytes than its limit.
    InputTooLong,
    /// The store failed.
    StoreFault,
    /// What the store has of this blob isn't what was put there; the root counts as blob 0.
    Damaged { blob: u64 },
    /// The store leaves no room for a session, by this next address or next blob.
    Spent { next: u64 },
}

impl Status {
    /// The exit status of the program, from 0 to 8.
    pub fn code(&self) -> u8
        ensures { result ≡ code_of self.now }
    {
        match self {
            Status::Done => 0,
            Status::Usage => 1,
            Status::ReadFault => 2,
            Status::WriteFault => 3,
            Status::NoMemory => 4,
            Status::InputTooLong => 5,
            Status::StoreFault => 6,
            Status::Damaged { .. } => 7,
            Status::Spent { .. } => 8,
        }
    }
}

/// How a session ends with a save.
pub fn status_of_saving(saved: Result<(), Trouble>) -> Status
    ensures { result ≡ status_of_saving saved }
{
    match saved {
        Ok(()) => Status::Done,
        Err(trouble) => status_of_trouble(trouble),
    }
}

/// How a session ends where the store couldn't be opened.
pub fn status_of_opening(fault: BeginFault) -> Status
    ensures { result ≡ status_of_opening fault }
{
    match fault {
        BeginFault::NoMemory => Status::NoMemory,
        BeginFault::StoreFault => Status::StoreFault,
        BeginFault::Damaged { blob } => Status::Damaged { blob },
        BeginFault::Spent { next } => Status::Spent { next },
    }
}

/// How a session ends where no item could be read.
pub fn status_of(end: ReadEnd) -> Status
    ensures { result ≡ status_of end }
{
    match end {
        ReadEnd::ReadFault => Status::ReadFault,
        ReadEnd::InputTooLong => Status::InputTooLong,
        ReadEnd::NoMemory => Status::NoMemory,
    }
}

/// How a session ends where an item couldn't be answered, or the state not be saved.
pub fn status_of_trouble(trouble: Trouble) -> Status
    ensures { result ≡ status_of_trouble trouble }
{
    match trouble {
        Trouble::NoMemory => Status::NoMemory,
        Trouble::StoreFault => Status::StoreFault,
        Trouble::Damaged { blob } => Status::Damaged { blob },
    }
}

/// How a session ends where a reply couldn't be written.
pub fn status_of_fault(fault: Fault) -> Status
    ensures { result ≡ status_of_fault fault }
{
    match fault {
        Fault::Failed => Status::WriteFault,
        Fault::NoMemory => Status::NoMemory,
    }
}
