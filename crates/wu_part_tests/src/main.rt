//! Compares the answers of calls on parts, and of jobs that make them, with those of the table on
//! standard input. Reads a part again with each bit changed, and reads back lists of several
//! lengths.
#![tactic(auto)]

mod blobs;
mod changes;
mod jobs;
mod lists;
mod reading;
mod records;
mod trips;

use std::alloc::Global;
use std::io;
use wu_rows::{NoAnswer, compare};

fn main(rt: HostRuntime) -> io::Result<()> {
    compare(
        &rt,
        |alloc, subject, call, arguments| answer(alloc, subject, call, arguments),
    )?;
    changes::compare_changes(&rt)?;
    trips::compare_trips(&rt)
}

/// The answer of the call to the arguments.
fn answer(
    alloc: Global,
    subject: &str,
    call: &str,
    arguments: &[&str],
) -> Result<String, NoAnswer> {
    match subject {
        "wu_part" => reading::answer(alloc, call, arguments),
        "jobs" => jobs::answer(alloc, call, arguments),
        _ => Err(NoAnswer::BadRow),
    }
}
