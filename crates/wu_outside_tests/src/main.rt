//! Compares what sources, sinks and stores in memory answer with the tables on standard input, also
//! where calls fail or a crash comes, and random calls with those on a plain map.
#![tactic(auto)]

mod failing;
mod random;
mod stores;
mod streams;

use std::alloc::Global;
use std::io;
use wu_rows::{NoAnswer, compare};

fn main(rt: HostRuntime) -> io::Result<()> {
    compare(&rt, answer)?;
    failing::compare_failing(&rt)?;
    random::compare_stores(&rt)?;
    random::compare_crashes(&rt)
}

/// The answer of the call to the arguments.
fn answer(
    alloc: Global,
    subject: &str,
    call: &str,
    arguments: &[&str],
) -> Result<String, NoAnswer> {
    match subject {
        "streams" => streams::answer(alloc, call, arguments),
        "stores" => stores::answer(alloc, call, arguments),
        _ => Err(NoAnswer::BadRow),
    }
}
