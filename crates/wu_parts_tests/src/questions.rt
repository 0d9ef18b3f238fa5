//! What rows ask for of an index after steps.
ghost use Rattle.std.specs.Prelude.{◌≤◌};

use crate::frames::{gather, tally};
use std::alloc::Global;
use wu_base::{Range, Worked};
use wu_outside::{MemStore, Store};
use wu_parts::Parts;
use wu_parts_rows::{Index, Stop, fetch, go_on, records_text, work};
use wu_rows::{
    NoAnswer, bytes_text, flag_text, number, number_text, numbers_text, plain_text, small_number,
};

/// Whether memory is full after the steps.
pub fn fullness(alloc: Global, index: &mut Index, arguments: &[&str]) -> Result<String, Stop>
    requires { index.old.parts.memory.end ≤ index.old.space.next }
{
    let [steps] = arguments else {
        return Err(Stop::NoAnswer(NoAnswer::BadRow));
    };
    go_on(alloc, index, steps)?;
    Ok(flag_text(alloc, index.parts.full())?)
}

/// What is recorded of the parts after the steps, or the bytes of a blob.
pub fn flushed(alloc: Global, index: &mut Index, arguments: &[&str]) -> Result<String, Stop>
    requires { index.old.parts.memory.end ≤ index.old.space.next }
{
    match arguments {
        [steps] => recorded(alloc, index, steps),
        [steps, _, blob] => held(alloc, index, steps, blob),
        _ => Err(Stop::NoAnswer(NoAnswer::BadRow)),
    }
}

fn recorded(alloc: Global, index: &mut Index, steps: &str) -> Result<String, Stop>
    requires { index.old.parts.memory.end ≤ index.old.space.next }
{
    go_on(alloc, index, steps)?;
    Ok(records_text(alloc, &index.parts)?)
}

fn held(alloc: Global, index: &mut Index, steps: &str, blob: &str) -> Result<String, Stop>
    requires { index.old.parts.memory.end ≤ index.old.space.next }
{
    go_on(alloc, index, steps)?;
    Ok(blob_text(alloc, &mut index.store, number(blob)?)?)
}

/// The bytes of the blob.
fn blob_text(alloc: Global, store: &mut MemStore, blob: u64) -> Result<String, NoAnswer> {
    let mut buffer = [0u8; 4096];
    match store.read(blob, 0, &mut buffer) {
        Ok(Some(count)) if count <= buffer.len() => bytes_text(alloc, &buffer[..count]),
        Ok(None) => plain_text(alloc, "none"),
        _ => Err(NoAnswer::BadRow),
    }
}

/// The term's addresses after the steps, in the files that are live then.
pub fn fetched(alloc: Global, index: &mut Index, arguments: &[&str]) -> Result<String, Stop>
    requires { index.old.parts.memory.end ≤ index.old.space.next }
{
    let [steps, term] = arguments else {
        return Err(Stop::NoAnswer(NoAnswer::BadRow));
    };
    go_on(alloc, index, steps)?;
    let found = fetch(
        alloc,
        &mut index.parts,
        &mut index.store,
        &index.space,
        term,
    )?;
    Ok(numbers_text(alloc, found.as_slice())?)
}

/// How many addresses the term has after the steps in the files that are live then, and how many of
/// these have one.
pub fn tallied(alloc: Global, index: &mut Index, arguments: &[&str]) -> Result<String, Stop>
    requires { index.old.parts.memory.end ≤ index.old.space.next }
{
    let [steps, term] = arguments else {
        return Err(Stop::NoAnswer(NoAnswer::BadRow));
    };
    go_on(alloc, index, steps)?;
    tally(
        alloc,
        &mut index.parts,
        &mut index.store,
        &index.space,
        term,
    )
}

/// How many addresses the parts have of the term after the steps.
pub fn counted(alloc: Global, index: &mut Index, arguments: &[&str]) -> Result<String, Stop>
    requires { index.old.parts.memory.end ≤ index.old.space.next }
{
    let [steps, term] = arguments else {
        return Err(Stop::NoAnswer(NoAnswer::BadRow));
    };
    go_on(alloc, index, steps)?;
    Ok(number_text(alloc, index.parts.count_of(term.as_bytes()))?)
}

/// Which of the term's addresses lie in a frame after the steps, and how many were gathered in the
/// files that are live then.
pub fn gathered(alloc: Global, index: &mut Index, arguments: &[&str]) -> Result<String, Stop>
    requires { index.old.parts.memory.end ≤ index.old.space.next }
{
    let [steps, term, start, len] = arguments else {
        return Err(Stop::NoAnswer(NoAnswer::BadRow));
    };
    go_on(alloc, index, steps)?;
    let frame = Range {
        start: number(start)?,
        len: number(len)?,
    };
    gather(
        alloc,
        &mut index.parts,
        &mut index.store,
        &index.space,
        term,
        frame,
    )
}

/// What so many units answer after the steps, what is recorded then, and which blobs are no longer
/// needed.
pub fn worked(alloc: Global, index: &mut Index, arguments: &[&str]) -> Result<String, Stop>
    requires { index.old.parts.memory.end ≤ index.old.space.next }
{
    let [steps, units] = arguments else {
        return Err(Stop::NoAnswer(NoAnswer::BadRow));
    };
    go_on(alloc, index, steps)?;
    let units = small_number(units)?;
    let worked = work(&mut index.parts, &mut index.store, &index.space, units)?;
    Ok(worked_text(alloc, worked, &index.parts)?)
}

fn worked_text(alloc: Global, worked: Worked, parts: &Parts) -> Result<String, NoAnswer> {
    let answer = match worked {
        Worked::Idle => "idle",
        Worked::Busy => "busy",
    };
    let records = records_text(alloc, parts)?;
    let stale = parts.stale();
    Ok(format!(in alloc; "{answer} {records} {stale:?}")?)
}
