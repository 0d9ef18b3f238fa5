//! Stores in memory, and what a crash leaves of them.
use std::alloc::Global;
use wu_outside::{MemStore, PlainStore, ReadRange};
use wu_outside_rows::{Call, answer as answer_of_call, answers_of};
use wu_rows::{NoAnswer, number, numbers, numbers_text};

/// The answer of the call to the arguments.
pub fn answer(alloc: Global, call: &str, arguments: &[&str]) -> Result<String, NoAnswer> {
    match (call, arguments) {
        ("PlainStore" | "PlainStore::reads", [calls]) => plainly(alloc, call, calls),
        ("MemStore", [fails, stop, _]) | ("MemStore::crashed", [fails, stop, _, _, _]) => {
            in_memory(alloc, fails, stop, arguments)
        }
        ("MemStore::crashed", [puts, choice, later]) => {
            after_puts(alloc, number(puts)?, choice, later)
        }
        _ => Err(NoAnswer::BadRow),
    }
}

/// What a plain store answers to the calls, or the ranges that they read.
fn plainly(alloc: Global, call: &str, calls: &str) -> Result<String, NoAnswer> {
    let mut store = PlainStore::new(alloc);
    let answers = answers_of(alloc, &mut store, calls);
    if call == "PlainStore" {
        answers
    } else {
        ranges_after(alloc, answers, store.reads())
    }
}

/// The ranges that were read for the answers, each as a blob, a place and a length.
fn ranges_after(
    alloc: Global,
    answers: Result<String, NoAnswer>,
    ranges: &[ReadRange],
) -> Result<String, NoAnswer> {
    answers?;
    let mut numbers = Vec::new(alloc);
    for range in ranges {
        let ReadRange { blob, at, len } = *range;
        numbers.extend_from_slice(&[blob, at, len])?;
    }
    numbers_text(alloc, &numbers)
}

/// What a store answers in which the named calls fail, and all from the stop on.
fn in_memory(
    alloc: Global,
    fails: &str,
    stop: &str,
    arguments: &[&str],
) -> Result<String, NoAnswer> {
    let stop = match stop {
        "never" => u64::MAX,
        _ => number(stop)?,
    };
    let fails = numbers(alloc, fails)?;
    let mut store = MemStore::new(alloc, fails, stop);
    told(alloc, &mut store, arguments)
}

fn told(alloc: Global, store: &mut MemStore, arguments: &[&str]) -> Result<String, NoAnswer> {
    match arguments {
        [_, _, calls] => described(alloc, store, calls),
        [_, _, calls, choice, later] => {
            answers_of(alloc, store, calls)?;
            after_crash(alloc, store, choice, later)
        }
        _ => Err(NoAnswer::BadRow),
    }
}

/// What is left of a store with so many blobs, none of them synced.
fn after_puts(alloc: Global, puts: u64, choice: &str, later: &str) -> Result<String, NoAnswer> {
    let mut store = MemStore::new(alloc, Vec::new(alloc), u64::MAX);
    put_and_crash(alloc, &mut store, puts, choice, later)
}

fn put_and_crash(
    alloc: Global,
    store: &mut MemStore,
    puts: u64,
    choice: &str,
    later: &str,
) -> Result<String, NoAnswer> {
    for blob in 0..puts {
        answer_of_call(alloc, store, Call::Put(blob, b"x"))?;
    }
    after_crash(alloc, store, choice, later)
}

/// What is answered to the calls by what a crash leaves of the store.
fn after_crash(
    alloc: Global,
    store: &MemStore,
    choice: &str,
    later: &str,
) -> Result<String, NoAnswer> {
    let mut left = store.crashed(number(choice)?)?;
    described(alloc, &mut left, later)
}

/// The answers of the calls, and how many calls there were then and how many of them failed.
fn described(alloc: Global, store: &mut MemStore, calls: &str) -> Result<String, NoAnswer> {
    let mut text = answers_of(alloc, store, calls)?;
    put_counts(&mut text, store.calls(), store.faults())?;
    Ok(text)
}

/// Appends how many calls there were and how many of them failed.
pub fn put_counts(text: &mut String, calls: u64, faults: u64) -> Result<(), NoAnswer> {
    Ok(write!(text, " {calls} calls, {faults} failed")?)
}
