//! Sessions over stores that fail or lose what they are given.
use crate::stored::Stored;
use std::alloc::Global;
use wu_outside::{Fault, MemStore, Store};
use wu_rows::{NoAnswer, numbers, words};
use wumpus_run_rows::ending;

/// A store that loses each blob, and tells nothing.
#[derive(Drop)]
struct LosingStore {}

impl Store for LosingStore {
    ghost use Rattle.std.specs.Prelude.{None};

    ghost holds = { λ _. None };

    ghost reads = { λ _. None };

    ghost moments = { λ _. None };

    ghost faults = { λ _. 0 };

    fn size(&mut self, _blob: u64) -> Result<Option<u64>, Fault> {
        Ok(None)
    }

    fn read(&mut self, _blob: u64, _at: u64, _buf: &mut [u8]) -> Result<Option<usize>, Fault> {
        Ok(None)
    }

    fn put(&mut self, _blob: u64, _bytes: &[u8]) -> Result<(), Fault> {
        Ok(())
    }

    fn remove(&mut self, _blob: u64) -> Result<(), Fault> {
        Ok(())
    }

    fn root(&mut self, _buf: &mut [u8]) -> Result<Option<usize>, Fault> {
        Ok(None)
    }

    fn set_root(&mut self, _bytes: &[u8]) -> Result<(), Fault> {
        Ok(())
    }

    fn sync(&mut self) -> Result<(), Fault> {
        Ok(())
    }

    ghost told_alike = { λ _. Prim.tt };
}

/// How the session that the words ask for ends over a store of which these calls fail, how often it
/// calls the store, and what it has written then.
pub fn failing(
    alloc: Global,
    words_field: &str,
    fails: &str,
    field: &str,
) -> Result<String, NoAnswer> {
    let words = words(alloc, words_field)?;
    let mut store = MemStore::new(alloc, numbers(alloc, fails)?, u64::MAX);
    let ending = ending(alloc, words.as_slice(), Vec::new(alloc), &mut store, field)?;
    let calls = store.calls();
    Ok(format!(in alloc; "{calls} {ending}")?)
}

/// How the session that the words ask for is ended by each call of the store that fails, one in
/// each of so many runs: it has written the front of what it writes where none fails. What the next
/// session writes then, from each call on where it writes something else.
pub fn failing_in_turn(
    alloc: Global,
    words_field: &str,
    field: &str,
    next_field: &str,
) -> Result<String, NoAnswer> {
    let words = words(alloc, words_field)?;
    let mut store = MemStore::new(alloc, Vec::new(alloc), u64::MAX);
    let whole = ending(alloc, words.as_slice(), Vec::new(alloc), &mut store, field)?;
    let mut text = format!(in alloc; "{whole}")?;
    let mut last = String::new(alloc);
    for call in 0..store.calls() {
        let mut store = MemStore::new(alloc, Vec::from_slice(alloc, &[call])?, u64::MAX);
        let ended = ending(alloc, words.as_slice(), Vec::new(alloc), &mut store, field)?;
        if !is_front(ended.as_str(), whole.as_str()) {
            return Err(NoAnswer::BadRow);
        }
        let next = ending(alloc, &["run"], Vec::new(alloc), &mut store, next_field)?;
        if next.as_str() != last.as_str() {
            write!(text, " | {call} {next}")?;
            last = next;
        }
    }
    Ok(text)
}

/// What of the changes since its last sync a store keeps that stops: none, all, or those of two
/// neighbours that stand at a pattern.
const CHOICES: [u64; 3] = [0, u64::MAX, 0x5555_5555_5555_5555];

/// What the session that the words ask for has written over what is stored, where the store stops
/// at one of its calls, one in each of so many runs, and what the next session writes over what a
/// crash then left, for each of the choices: told from each call on where one of these differs.
pub fn crashed_in_turn(
    alloc: Global,
    stored: &mut Stored,
    words_field: &str,
    field: &str,
    next_field: &str,
) -> Result<String, NoAnswer> {
    let words = words(alloc, words_field)?;
    let mut store = stored.copied(alloc, u64::MAX)?;
    let first = store.calls();
    let mut text = ending(alloc, words.as_slice(), Vec::new(alloc), &mut store, field)?;
    let mut last = String::new(alloc);
    for call in first..store.calls() {
        let store = stored.copied(alloc, call)?;
        let told = crashed(alloc, words.as_slice(), store, field, next_field)?;
        if told.as_str() != last.as_str() {
            write!(text, " | {} {told}", call - first)?;
            last = told;
        }
    }
    Ok(text)
}

/// The same over this store, which stops.
fn crashed(
    alloc: Global,
    words: &[&str],
    mut store: MemStore,
    field: &str,
    next_field: &str,
) -> Result<String, NoAnswer> {
    let mut text = ending(alloc, words, Vec::new(alloc), &mut store, field)?;
    for choice in CHOICES {
        let mut left = store.crashed(choice)?;
        let next = ending(alloc, &["run"], Vec::new(alloc), &mut left, next_field)?;
        write!(text, ", {next}")?;
    }
    Ok(text)
}

/// Whether a session that a fault of the store ended has written the front of what the other one
/// has.
fn is_front(ended: &str, whole: &str) -> bool {
    match (
        ended.strip_prefix("store fault: "),
        whole.strip_prefix("done: "),
    ) {
        (Some(front), Some(output)) => output.starts_with(front),
        _ => false,
    }
}

/// How a session ends over a store that loses each blob, and what it has written then.
pub fn losing(alloc: Global, field: &str) -> Result<String, NoAnswer> {
    ending(alloc, &["run"], Vec::new(alloc), &mut LosingStore {}, field)
}
