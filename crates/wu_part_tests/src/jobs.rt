//! What jobs answer step by step over a store in memory.
ghost use Rattle.std.specs.Prelude.{◌+◌, ◌≤◌, All};
ghost use Rattle.wu_base.specs.declared.limits.TheConstants.{ADDRESSES_MAX};
ghost use Rattle.wu_part.specs.Parts.{IsRecorded};
ghost use Rattle.wu_base.specs.Ranges.{AreApart};

use crate::records::{Part, part_of};
use std::alloc::Global;
use wu_base::{GENERATION_MAX, Range, Trouble};
use wu_job::{Job, Progress};
use wu_outside::{MemStore, Store};
use wu_rows::{NoAnswer, bytes, bytes_text, numbers};
use wu_space_rows::ranges_of;

/// What the steps of the row's job answer. The arguments are the parts, the live ranges, what the
/// store holds of each part's blob, `-` for nothing, and which calls of the store fail.
pub fn answer(alloc: Global, call: &str, arguments: &[&str]) -> Result<String, NoAnswer> {
    let mut job = job_of(alloc, call, arguments)?;
    match arguments {
        [_, _, held, fails] => steps_over(alloc, &mut job, held, "-", fails),
        [_, _, _, held, other, fails] => steps_over(alloc, &mut job, held, other, fails),
        _ => Err(NoAnswer::BadRow),
    }
}

fn job_of(alloc: Global, call: &str, arguments: &[&str]) -> Result<Job, NoAnswer> {
    match (call, arguments) {
        ("start_collect", [part, live, ..]) => collecting(alloc, part, live),
        ("start_merge", [left, right, live, ..]) => merging(alloc, left, right, live),
        _ => Err(NoAnswer::BadRow),
    }
}

fn collecting(alloc: Global, part: &str, live: &str) -> Result<Job, NoAnswer> {
    let live = ranges_of(alloc, live)?;
    let part = part_of(alloc, 1, part)?;
    collect(alloc, &part, &live)
}

fn collect(alloc: Global, part: &Part, live: &[Range]) -> Result<Job, NoAnswer>
    requires part { IsRecorded part.now.recorded part.now.directory }
    requires apart { AreApart live.now }
    requires bounded { All (λ range. range.start + range.len ≤ ADDRESSES_MAX) live.now }
{
    Ok(Job::start_collect(alloc, &part.recorded, &part.directory, live)?)
}

fn merging(alloc: Global, left: &str, right: &str, live: &str) -> Result<Job, NoAnswer> {
    let live = ranges_of(alloc, live)?;
    let left = part_of(alloc, 1, left)?;
    merging_with(alloc, &left, right, &live)
}

fn merging_with(alloc: Global, left: &Part, right: &str, live: &[Range]) -> Result<Job, NoAnswer>
    requires left { IsRecorded left.now.recorded left.now.directory }
    requires apart { AreApart live.now }
    requires bounded { All (λ range. range.start + range.len ≤ ADDRESSES_MAX) live.now }
{
    let right = part_of(alloc, 2, right)?;
    merge(alloc, left, &right, live)
}

fn merge(alloc: Global, left: &Part, right: &Part, live: &[Range]) -> Result<Job, NoAnswer>
    requires left { IsRecorded left.now.recorded left.now.directory }
    requires right { IsRecorded right.now.recorded right.now.directory }
    requires apart { AreApart live.now }
    requires bounded { All (λ range. range.start + range.len ≤ ADDRESSES_MAX) live.now }
{
    if left.recorded.generation != right.recorded.generation
        || left.recorded.generation >= GENERATION_MAX
        || left.recorded.high >= right.recorded.low
    {
        return Err(NoAnswer::BadRow);
    }
    Ok(Job::start_merge(
        alloc,
        &left.recorded,
        &left.directory,
        &right.recorded,
        &right.directory,
        live,
    )?)
}

/// What the steps of the job answer over a store with blobs 1 and 2.
fn steps_over(
    alloc: Global,
    job: &mut Job,
    held: &str,
    other: &str,
    fails: &str,
) -> Result<String, NoAnswer> {
    let fails = numbers(alloc, fails)?;
    let mut store = MemStore::new(alloc, fails, u64::MAX);
    steps(alloc, &mut store, job, held, other)
}

/// How many units there are, what each step answers up to the last one or to a trouble, and the
/// ranges that were read.
fn steps(
    alloc: Global,
    store: &mut MemStore,
    job: &mut Job,
    held: &str,
    other: &str,
) -> Result<String, NoAnswer> {
    put(alloc, store, 1, held)?;
    put(alloc, store, 2, other)?;
    let mut text = units_text(alloc, job.units_left())?;
    put_steps(alloc, &mut text, store, job)?;
    put_reads(&mut text, store)?;
    Ok(text)
}

/// Gives the blob the bytes of the field.
fn put(alloc: Global, store: &mut MemStore, blob: u64, field: &str) -> Result<(), NoAnswer> {
    if field == "-" {
        return Ok(());
    }
    match store.put(blob, &bytes(alloc, field)?) {
        Ok(()) => Ok(()),
        Err(_) => Err(NoAnswer::BadRow),
    }
}

fn units_text(alloc: Global, units: u64) -> Result<String, NoAnswer> {
    Ok(format!(in alloc; "{units} units:")?)
}

fn put_steps(
    alloc: Global,
    text: &mut String,
    store: &mut MemStore,
    job: &mut Job,
) -> Result<(), NoAnswer> {
    for _ in 0..job.units_left() {
        if job.units_left() == 0 {
            break;
        }
        match job.step(store) {
            Ok(progress) => put_progress(alloc, text, &progress)?,
            Err(trouble) => return put_trouble(text, trouble),
        }
    }
    Ok(())
}

fn put_progress(alloc: Global, text: &mut String, progress: &Progress) -> Result<(), NoAnswer> {
    match progress {
        Progress::More => text.push_str(" more")?,
        Progress::Done(None) => text.push_str(" done, no part")?,
        Progress::Done(Some(bytes)) => {
            text.push_str(" done ")?;
            text.push_str(bytes_text(alloc, bytes)?.as_str())?;
        }
    }
    Ok(())
}

fn put_trouble(text: &mut String, trouble: Trouble) -> Result<(), NoAnswer> {
    match trouble {
        Trouble::NoMemory => return Err(NoAnswer::NoMemory),
        Trouble::StoreFault => text.push_str(" store fault")?,
        Trouble::Damaged { blob } => write!(text, " damaged {blob}")?,
    }
    Ok(())
}

/// Appends the ranges read, each as `1@77+4` with its blob, its place and its length.
fn put_reads(text: &mut String, store: &MemStore) -> Result<(), NoAnswer> {
    text.push_str("; reads")?;
    for range in store.reads() {
        let (blob, at, len) = (range.blob, range.at, range.len);
        write!(text, " {blob}@{at}+{len}")?;
    }
    Ok(())
}
