//! The codes of statuses.
use std::alloc::Global;
use wu_rows::{NoAnswer, number_text};
use wumpus_run::Status;

/// The code of the status of this name.
pub fn code(alloc: Global, name: &str) -> Result<String, NoAnswer> {
    let status = named(name)?;
    number_text(alloc, u64::from(status.code()))
}

fn named(name: &str) -> Result<Status, NoAnswer> {
    match name {
        "done" => Ok(Status::Done),
        "usage" => Ok(Status::Usage),
        "read fault" => Ok(Status::ReadFault),
        "write fault" => Ok(Status::WriteFault),
        "no memory" => Ok(Status::NoMemory),
        "input too long" => Ok(Status::InputTooLong),
        "store fault" => Ok(Status::StoreFault),
        "damaged at blob 1" => Ok(Status::Damaged { blob: 1 }),
        "spent at 9" => Ok(Status::Spent { next: 9 }),
        _ => Err(NoAnswer::BadRow),
    }
}
