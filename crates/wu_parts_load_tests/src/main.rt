//! Compares what parts tell that are opened in place of others with the table on standard input.
#![tactic(auto)]

ghost use Rattle.std.specs.Prelude.{◌+◌, ◌<◌, ◌≤◌, [], ◌∷◌, IfOk, IsTrue, OnOk};
ghost use Rattle.wu_parts.specs.Loading.{AreLoadable};

use std::alloc::Global;
use std::io;
use wu_base::{ADDRESSES_MAX, PartRec};
use wu_outside::ReadRange;
use wu_parts::Parts;
use wu_parts_rows::{Index, Stop, empty_index, fetch, go_on, records_text, stopped_text};
use wu_rows::{NoAnswer, compare, numbers, numbers_text, pieces};

fn main(rt: HostRuntime) -> io::Result<()> {
    compare(&rt, |alloc, _, _, arguments| answer(alloc, arguments))
}

/// What is told of an opening, over a store of which calls fail.
fn answer(alloc: Global, arguments: &[&str]) -> Result<String, NoAnswer> {
    let [fails, others @ ..] = arguments else {
        return Err(NoAnswer::BadRow);
    };
    let mut index = empty_index(alloc, 1, 1, fails)?;
    stopped_text(alloc, loaded(alloc, &mut index, others))
}

/// After the steps the parts of two records are opened, and then further steps are done. Gives the
/// ranges that the opening read, and the trouble, or else what is recorded at the end and the
/// term's addresses in the files that are live.
fn loaded(alloc: Global, index: &mut Index, arguments: &[&str]) -> Result<String, Stop>
    requires { index.old.parts.memory.end ≤ index.old.space.next }
{
    let [steps, records, more, term] = arguments else {
        return Err(Stop::NoAnswer(NoAnswer::BadRow));
    };
    go_on(alloc, index, steps)?;
    let before = index.store.reads().len();
    let opened = open_two(alloc, index, records);
    let mut text = ranges_text(alloc, index.store.reads(), before)?;
    let outcome = outcome(alloc, index, opened, more, term);
    put_text(&mut text, stopped_text(alloc, outcome))?;
    Ok(text)
}

fn put_text(text: &mut String, more: Result<String, NoAnswer>) -> Result<(), NoAnswer> {
    Ok(text.push_str(more?.as_str())?)
}

/// What is recorded after the opening and the steps, and the term's addresses then.
fn outcome(
    alloc: Global,
    index: &mut Index,
    opened: Result<(), Stop>,
    steps: &str,
    term: &str,
) -> Result<String, Stop>
    requires { OnOk opened (index.old.parts.memory.end ≤ index.old.space.next) }
{
    opened?;
    let found = fetched(alloc, index, steps, term)?;
    Ok(with_records(alloc, &index.parts, found.as_str())?)
}

/// The term's addresses after the steps, in the files that are live then.
fn fetched(alloc: Global, index: &mut Index, steps: &str, term: &str) -> Result<String, Stop>
    requires { index.old.parts.memory.end ≤ index.old.space.next }
{
    go_on(alloc, index, steps)?;
    let found = fetch(
        alloc,
        &mut index.parts,
        &mut index.store,
        &index.space,
        term,
    )?;
    Ok(numbers_text(alloc, found.as_slice())?)
}

fn with_records(alloc: Global, parts: &Parts, found: &str) -> Result<String, NoAnswer> {
    let records = records_text(alloc, parts)?;
    Ok(format!(in alloc; "{records} {found}")?)
}

/// Opens the parts of the two records in place of those that there are. The next blob is then 100,
/// and 9 flushes made a part.
fn open_two(alloc: Global, index: &mut Index, records: &str) -> Result<(), Stop>
    ensures { OnOk result (index.new.parts.memory.end ≤ index.new.space.next) }
{
    let (first, second) = two_records(alloc, records)?;
    if second.high >= index.space.next() {
        return Err(Stop::NoAnswer(NoAnswer::BadRow));
    }
    index.parts = Parts::load(alloc, &mut index.store, &[first, second], 1, 100, 9)?;
    index.earlier = 100;
    Ok(())
}

/// The two records, which have a bar between them, if their parts may be opened.
fn two_records(alloc: Global, records: &str) -> Result<(PartRec, PartRec), NoAnswer>
    ensures { IfOk result (λ two. AreLoadable (two.0 ∷ two.1 ∷ []) 100 9) }
{
    let (first, second) = both(alloc, records)?;
    if are_loadable(&first, &second) {
        Ok((first, second))
    } else {
        Err(NoAnswer::BadRow)
    }
}

fn both(alloc: Global, records: &str) -> Result<(PartRec, PartRec), NoAnswer> {
    match pieces(alloc, records)?.as_slice() {
        [first, second] => Ok((record(alloc, first)?, record(alloc, second)?)),
        _ => Err(NoAnswer::BadRow),
    }
}
/// The record with these numbers: blob, size, generation, lowest address, highest address,
/// postings.
fn record(alloc: Global, text: &str) -> Result<PartRec, NoAnswer> {
    match numbers(alloc, text)?.as_slice() {
        [blob, size, generation, low, high, stored] => Ok(PartRec {
            blob: *blob,
            size: *size,
            generation: u32::try_from(*generation).map_err(|_| NoAnswer::BadRow)?,
            low: *low,
            high: *high,
            stored: *stored,
        }),
        _ => Err(NoAnswer::BadRow),
    }
}

/// Whether the two records may be opened: one stands after the other, their blobs are below 100,
/// and their generations are at most 2 and don't rise.
fn are_loadable(first: &PartRec, second: &PartRec) -> bool
    ensures { IsTrue result → (first.now.low + first.now.stored ≤ first.now.high + 1) × (first.now.high < second.now.low)
        × (second.now.low + second.now.stored ≤ second.now.high + 1) × (first.now.blob < 100) × (second.now.blob < 100)
        × (first.now.generation ≤ 2) × (second.now.generation ≤ first.now.generation) }
{
    has_room(first)
        && has_room(second)
        && first.high < second.low
        && first.blob < 100
        && second.blob < 100
        && first.generation <= 2
        && second.generation <= first.generation
}

/// Whether the span has room for the postings.
fn has_room(part: &PartRec) -> bool
    ensures { IsTrue result → part.now.low + part.now.stored ≤ part.now.high + 1 }
{
    part.low < ADDRESSES_MAX
        && part.high < ADDRESSES_MAX
        && part.stored < ADDRESSES_MAX
        && part.low + part.stored <= part.high + 1
}

/// The ranges that were read since, each as a blob, a place and a length.
fn ranges_text(alloc: Global, ranges: &[ReadRange], before: usize) -> Result<String, NoAnswer> {
    let mut text = String::new(alloc);
    for range in ranges.iter().skip(before) {
        let blob = range.blob;
        let at = range.at;
        let len = range.len;
        write!(text, "{blob}:{at}+{len} ")?;
    }
    Ok(text)
}
