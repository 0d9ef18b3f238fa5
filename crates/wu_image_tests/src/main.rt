//! Compares the answers of the calls on roots and checkpoints with those of the table on standard
//! input. Reads a checkpoint again with each byte changed.
#![tactic(auto)]

mod changes;
mod checkpoints;
mod roots;

use std::alloc::Global;
use std::io;
use wu_image::{
    each_checkpoint_has_one_spelling, each_root_has_one_spelling, other_blobs_count_for_nothing,
};
use wu_rows::{NoAnswer, bytes, compare, number};

fn main(rt: HostRuntime) -> io::Result<()> {
    laws();
    compare(
        &rt,
        |alloc, _, call, arguments| answer(alloc, call, arguments),
    )?;
    changes::compare_changes(&rt)
}

/// What holds of all roots, checkpoints and images; nothing is done.
fn laws() {
    each_root_has_one_spelling();
    each_checkpoint_has_one_spelling();
    other_blobs_count_for_nothing();
}

/// The answer of the call to the arguments.
fn answer(alloc: Global, call: &str, arguments: &[&str]) -> Result<String, NoAnswer> {
    match (call, arguments) {
        ("read_root", [field]) => roots::read(alloc, &bytes(alloc, field)?),
        ("write_root", [checkpoint, size, next_address, next_blob]) => roots::written(
            alloc,
            number(checkpoint)?,
            number(size)?,
            number(next_address)?,
            number(next_blob)?,
        ),
        ("read_checkpoint", [field]) => checkpoints::read(alloc, &bytes(alloc, field)?),
        _ => Err(NoAnswer::BadRow),
    }
}
