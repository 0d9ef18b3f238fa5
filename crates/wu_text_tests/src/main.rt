//! Compares the answers of calls on texts and their words, on expressions and on questions with
//! those of the table on standard input.
#![tactic(auto)]

mod expressions;
mod extents;
mod questions;
mod snips;
mod terms;
mod tokens;

use std::alloc::Global;
use std::io;
use wu_rows::{NoAnswer, compare};

fn main(rt: HostRuntime) -> io::Result<()> {
    compare(
        &rt,
        |alloc, library, call, arguments| answer(alloc, library, call, arguments),
    )
}

/// The answer of the library's call to the arguments.
fn answer(
    alloc: Global,
    library: &str,
    call: &str,
    arguments: &[&str],
) -> Result<String, NoAnswer> {
    match library {
        "wu_token" => tokens::answer(alloc, call, arguments),
        "wu_snip" => snips::answer(alloc, call, arguments),
        "wu_terms" => terms::answer(alloc, call, arguments),
        "wu_gcl" => expressions::answer(alloc, call, arguments),
        "wu_ask" => questions::answer(alloc, call, arguments),
        _ => Err(NoAnswer::BadRow),
    }
}
