//! Compares the answers of calls on byte strings, numbers, permissions and fields with those of
//! the table on standard input, and reads back numbers beside each power of two.
#![tactic(auto)]

mod access;
mod base;
mod demo;
mod fields;
mod log2;
mod vbyte;

use std::alloc::Global;
use std::io;
use wu_rows::{NoAnswer, compare};

fn main(rt: HostRuntime) -> io::Result<()> {
    compare(
        &rt,
        |alloc, library, call, arguments| answer(alloc, library, call, arguments),
    )?;
    vbyte::compare_powers(&rt)
}

/// The answer of the library's call to the arguments.
fn answer(
    alloc: Global,
    library: &str,
    call: &str,
    arguments: &[&str],
) -> Result<String, NoAnswer> {
    match library {
        "wu_base" => base::answer(alloc, call, arguments),
        "wu_vbyte" => vbyte::answer(alloc, call, arguments),
        "wu_log2" => log2::answer(alloc, call, arguments),
        "wu_access" => access::answer(alloc, call, arguments),
        "wu_fields" => fields::answer(alloc, call, arguments),
        "wu_demo" => demo::answer(alloc, call, arguments),
        _ => Err(NoAnswer::BadRow),
    }
}
