//! Compares the answers of the calls of a Parts, in memory and over a store in memory of which
//! calls fail, with those of the table on standard input, and what is fetched of many postings
//! over many frames with a plain filter.
#![tactic(auto)]

ghost use Rattle.std.specs.Prelude.{◌≤◌};

mod fetching;
mod frames;
mod many;
mod memory;
mod questions;

use std::alloc::Global;
use std::io;
use wu_parts_rows::{By, Index, Stop, empty_index, stopped_text};
use wu_rows::{NoAnswer, compare, number};

fn main(rt: HostRuntime) -> io::Result<()> {
    compare(
        &rt,
        |alloc, _, call, arguments| answer(alloc, call, arguments),
    )?;
    many::compare_fetches(&rt)
}

/// The answer of the call to the arguments. Where it asks the store, the calls of that which fail
/// come first.
fn answer(alloc: Global, call: &str, arguments: &[&str]) -> Result<String, NoAnswer> {
    match call {
        "Parts::full" => over_full(alloc, call, arguments),
        "Parts::count_of" => over_store(alloc, call, 1, "", arguments),
        "Parts::flush" if arguments.len() == 3 => over_store(alloc, call, 1, "", arguments),
        "Parts::flush" | "Parts::fetch" | "Parts::tally" | "Parts::gather" | "Parts::work" => {
            over_failing(alloc, call, arguments)
        }
        _ => in_memory(alloc, call, arguments),
    }
}

fn over_full(alloc: Global, call: &str, arguments: &[&str]) -> Result<String, NoAnswer> {
    let [flush_at, others @ ..] = arguments else {
        return Err(NoAnswer::BadRow);
    };
    over_store(alloc, call, number(flush_at)?, "", others)
}

fn over_failing(alloc: Global, call: &str, arguments: &[&str]) -> Result<String, NoAnswer> {
    let [fails, others @ ..] = arguments else {
        return Err(NoAnswer::BadRow);
    };
    over_store(alloc, call, 1, fails, others)
}

/// The same over an index whose memory is full at so many postings, and of whose store these calls
/// fail.
fn over_store(
    alloc: Global,
    call: &str,
    flush_at: u64,
    fails: &str,
    arguments: &[&str],
) -> Result<String, NoAnswer> {
    let mut index = empty_index(alloc, flush_at, 1, fails)?;
    stopped_text(alloc, told(alloc, &mut index, call, arguments))
}

/// What the index tells at the row.
fn told(alloc: Global, index: &mut Index, call: &str, arguments: &[&str]) -> Result<String, Stop>
    requires { index.old.parts.memory.end ≤ index.old.space.next }
{
    match call {
        "Parts::full" => questions::fullness(alloc, index, arguments),
        "Parts::flush" => questions::flushed(alloc, index, arguments),
        "Parts::fetch" => questions::fetched(alloc, index, arguments),
        "Parts::tally" => questions::tallied(alloc, index, arguments),
        "Parts::count_of" => questions::counted(alloc, index, arguments),
        "Parts::gather" => questions::gathered(alloc, index, arguments),
        "Parts::work" => questions::worked(alloc, index, arguments),
        _ => Err(Stop::NoAnswer(NoAnswer::BadRow)),
    }
}

/// The answer of a call that needs no store.
fn in_memory(alloc: Global, call: &str, arguments: &[&str]) -> Result<String, NoAnswer> {
    let next_blob = match (call, arguments) {
        ("Parts::draw_blob", [next_blob]) => number(next_blob)?,
        _ => 1,
    };
    let mut index = empty_index(alloc, 1, next_blob, "")?;
    remembered(alloc, &mut index, call, arguments)
}

/// What the memory of the index tells at the row.
fn remembered(
    alloc: Global,
    index: &mut Index,
    call: &str,
    arguments: &[&str],
) -> Result<String, NoAnswer>
    requires { index.old.parts.memory.end ≤ index.old.space.next }
{
    match call {
        "Parts::add" => memory::fetched(alloc, index, By::Tokens, arguments),
        "Parts::add_text" => memory::fetched(alloc, index, By::Text, arguments),
        "Parts::stored" => memory::stored(alloc, index, arguments),
        "Parts::draw_blob" => memory::drawn(alloc, &mut index.parts),
        "Parts::retire" => memory::retired(alloc, &mut index.parts, arguments),
        "Parts::clear_stale" => memory::cleared(alloc, &mut index.parts, arguments),
        "Parts::part" => memory::parts_of_none(alloc, &index.parts),
        _ => Err(NoAnswer::BadRow),
    }
}
