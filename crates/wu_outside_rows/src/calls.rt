//! Calls of a store as values, and their answers as text.
use std::alloc::Global;
use wu_outside::{Fault, Store};
use wu_rows::{NoAnswer, first_word, number, number_text, pieces, plain_text};

/// A call of a store.
#[derive(Clone, Copy)]
pub enum Call<'a> {
    /// The size of a blob.
    Size(u64),
    /// A read of a blob from a place, with a buffer of that length, at most 64.
    Read(u64, u64, u64),
    /// A put of a blob.
    Put(u64, &'a [u8]),
    /// A removal of a blob.
    Remove(u64),
    /// A read of the root with a buffer of that length, at most 64.
    Root(u64),
    /// A new root.
    SetRoot(&'a [u8]),
    /// A sync.
    Sync,
}

/// The answers of the field's calls, each in brackets.
pub fn answers_of<D: Store>(alloc: Global, store: &mut D, calls: &str) -> Result<String, NoAnswer> {
    let mut text = String::new(alloc);
    for written in &pieces(alloc, calls)? {
        let given = answer_of_written(alloc, store, written)?;
        put_answer(&mut text, given.as_str())?;
    }
    Ok(text)
}

/// The answer of a call that is written as `read 1 0 8` or `put 1 some bytes`.
fn answer_of_written<D: Store>(
    alloc: Global,
    store: &mut D,
    written: &str,
) -> Result<String, NoAnswer> {
    let (verb, rest) = first_word(written);
    match verb {
        "size" => answer(alloc, store, Call::Size(number(rest)?)),
        "read" => answer(alloc, store, read_of(rest)?),
        "put" => answer_of_put(alloc, store, rest),
        "remove" => answer(alloc, store, Call::Remove(number(rest)?)),
        "root" => answer(alloc, store, Call::Root(number(rest)?)),
        "set_root" => answer(alloc, store, Call::SetRoot(rest.as_bytes())),
        "sync" => answer(alloc, store, Call::Sync),
        _ => Err(NoAnswer::BadRow),
    }
}

fn read_of(rest: &str) -> Result<Call<'static>, NoAnswer> {
    let (blob, rest) = first_word(rest);
    let (at, len) = first_word(rest);
    Ok(Call::Read(number(blob)?, number(at)?, number(len)?))
}

fn answer_of_put<D: Store>(alloc: Global, store: &mut D, rest: &str) -> Result<String, NoAnswer> {
    let (blob, bytes) = first_word(rest);
    answer(alloc, store, Call::Put(number(blob)?, bytes.as_bytes()))
}

fn put_answer(text: &mut String, given: &str) -> Result<(), NoAnswer> {
    text.push('[')?;
    text.push_str(given)?;
    text.push(']')?;
    Ok(())
}

/// What a call answers: `ok`, `none`, a number, a number and bytes, `failed` or `no memory`.
pub fn answer<D: Store>(alloc: Global, store: &mut D, call: Call) -> Result<String, NoAnswer> {
    match call {
        Call::Size(blob) => of_size(alloc, store.size(blob)),
        Call::Read(blob, at, len) => of_read(alloc, store, blob, at, len),
        Call::Put(blob, bytes) => of_nothing(alloc, store.put(blob, bytes)),
        Call::Remove(blob) => of_nothing(alloc, store.remove(blob)),
        Call::Root(len) => of_root(alloc, store, len),
        Call::SetRoot(bytes) => of_nothing(alloc, store.set_root(bytes)),
        Call::Sync => of_nothing(alloc, store.sync()),
    }
}

fn of_read<D: Store>(
    alloc: Global,
    store: &mut D,
    blob: u64,
    at: u64,
    len: u64,
) -> Result<String, NoAnswer> {
    let mut buf = [0u8; 64];
    let len = len.min(64) as usize;
    let count = store.read(blob, at, &mut buf[..len]);
    of_bytes(alloc, count, &buf[..len])
}

fn of_root<D: Store>(alloc: Global, store: &mut D, len: u64) -> Result<String, NoAnswer> {
    let mut buf = [0u8; 64];
    let len = len.min(64) as usize;
    let count = store.root(&mut buf[..len]);
    of_bytes(alloc, count, &buf[..len])
}

/// The answer of a size.
pub fn of_size(alloc: Global, size: Result<Option<u64>, Fault>) -> Result<String, NoAnswer> {
    match size {
        Ok(None) => plain_text(alloc, "none"),
        Ok(Some(size)) => number_text(alloc, size),
        Err(fault) => of_fault(alloc, fault),
    }
}

/// The answer of a count, with as many of the bytes as there are.
pub fn of_bytes(
    alloc: Global,
    count: Result<Option<usize>, Fault>,
    bytes: &[u8],
) -> Result<String, NoAnswer> {
    match count {
        Ok(None) => plain_text(alloc, "none"),
        Ok(Some(count)) => of_count(alloc, count, &bytes[..count.min(bytes.len())]),
        Err(fault) => of_fault(alloc, fault),
    }
}

fn of_count(alloc: Global, count: usize, bytes: &[u8]) -> Result<String, NoAnswer> {
    let given = str::from_utf8(bytes).unwrap_or("no text");
    Ok(format!(in alloc; "{count} {given}")?)
}

/// The answer of a change.
pub fn of_nothing(alloc: Global, done: Result<(), Fault>) -> Result<String, NoAnswer> {
    match done {
        Ok(()) => plain_text(alloc, "ok"),
        Err(fault) => of_fault(alloc, fault),
    }
}

fn of_fault(alloc: Global, fault: Fault) -> Result<String, NoAnswer> {
    match fault {
        Fault::Failed => plain_text(alloc, "failed"),
        Fault::NoMemory => plain_text(alloc, "no memory"),
    }
}
