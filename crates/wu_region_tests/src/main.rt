//! Compares the extents of expressions, and what cursors answer, with those of the table on
//! standard input and with one another.
#![tactic(auto)]

mod cursors;
mod plain;
mod solving;

use std::alloc::Global;
use std::io;
use wu_rows::{NoAnswer, compare};

fn main(rt: HostRuntime) -> io::Result<()> {
    compare(
        &rt,
        |alloc, library, call, arguments| answer(alloc, library, call, arguments),
    )
}

/// The answer of the library's call to the arguments.
fn answer(
    alloc: Global,
    library: &str,
    call: &str,
    arguments: &[&str],
) -> Result<String, NoAnswer> {
    match library {
        "wu_solve" => solving::answer(alloc, call, arguments),
        "wu_cursor" => cursors::answer(alloc, call, arguments),
        _ => Err(NoAnswer::BadRow),
    }
}
