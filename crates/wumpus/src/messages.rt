//! What is printed to standard error.
ghost use Rattle.std.specs.Prelude.{Some};
ghost use Rattle.wumpus.specs.Messages.{message_of};

use std::fmt;
use wumpus_run::Status;

/// What is printed of how a session ended; nothing of one that is done.
#[derive(Clone, Copy)]
pub struct Message {
    pub status: Status,
}

impl fmt::Display for Message {
    ghost output = { λ message. Some (message_of message.status) };

    fn fmt<W: fmt::Write>(&self, f: &mut fmt::Formatter<W>) -> fmt::Result {
        match self.status {
            Status::Done => Ok(()),
            Status::Usage => write!(
                f,
                "usage: wumpus run [--max-input=N] [--flush=N] | wumpus demo N | wumpus check"
            ),
            Status::ReadFault => write!(f, "cannot read the input"),
            Status::WriteFault => write!(f, "cannot write the output"),
            Status::NoMemory => write!(f, "no memory"),
            Status::InputTooLong => write!(f, "input too long"),
            Status::StoreFault => write!(f, "store failed"),
            Status::Damaged { blob } => write!(f, "store damaged at blob {blob}"),
            Status::Spent { next } => write!(f, "store spent at {next}"),
        }
    }
}
