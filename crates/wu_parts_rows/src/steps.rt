//! The steps of a row, which are done to an index one after the other.
ghost use Rattle.std.specs.Prelude.{◌≤◌, OnOk};

use crate::indexes::{Index, Stop, fetch, flush, work};
use crate::texts::{By, next_number, put_field};
use std::alloc::Global;
use wu_outside::{MemStore, Store};
use wu_rows::{NoAnswer, bytes, first_word, number, pieces, small_number};
use wu_space_rows::release;

/// A step, as a row writes it.
#[derive(Clone, Copy)]
enum Step<'a> {
    /// `!` flushes memory.
    Flush,
    /// `-N` gives up the file of that number.
    Release(u32),
    /// `~N BYTES` puts the bytes into the blob of that number.
    PutBlob(u64, &'a str),
    /// `?TERM` fetches the term.
    Fetch(&'a str),
    /// `+N` does so many units of background work.
    Work(u32),
    /// Any other step is the text of a file.
    Text(&'a str),
}

/// The step that is written so.
fn step_of(step: &str) -> Result<Step<'_>, NoAnswer> {
    if step == "!" {
        return Ok(Step::Flush);
    }
    if let Some(file) = step.strip_prefix('-') {
        return Ok(Step::Release(small_number(file)?));
    }
    if let Some(blob) = step.strip_prefix('~') {
        let (blob, held) = first_word(blob);
        return Ok(Step::PutBlob(number(blob)?, held));
    }
    if let Some(term) = step.strip_prefix('?') {
        return Ok(Step::Fetch(term));
    }
    match step.strip_prefix('+') {
        Some(units) => Ok(Step::Work(small_number(units)?)),
        None => Ok(Step::Text(step)),
    }
}

/// Does the steps, which have a bar between each two. A text is that of the file that has the
/// step's number, counted from 1 on, or after an opening from 101 on. Stops at the first trouble.
pub fn go_on(alloc: Global, index: &mut Index, steps: &str) -> Result<(), Stop>
    requires { index.old.parts.memory.end ≤ index.old.space.next }
{
    for step in &pieces(alloc, steps)? {
        index.earlier = next_number(index.earlier)?;
        take(alloc, index, step_of(step)?)?;
    }
    Ok(())
}

/// Does a step.
fn take(alloc: Global, index: &mut Index, step: Step) -> Result<(), Stop>
    requires { index.old.parts.memory.end ≤ index.old.space.next }
    ensures { OnOk result (index.new.parts.memory.end ≤ index.new.space.next) }
{
    match step {
        Step::Flush => flush(&mut index.parts, &mut index.store, &index.space)?,
        Step::Release(file) => release(&mut index.space, file),
        Step::PutBlob(blob, held) => put_blob(alloc, &mut index.store, blob, held)?,
        Step::Fetch(term) => {
            fetch(
                alloc,
                &mut index.parts,
                &mut index.store,
                &index.space,
                term,
            )?;
        }
        Step::Work(units) => {
            work(&mut index.parts, &mut index.store, &index.space, units)?;
        }
        Step::Text(text) => put_field(
            alloc,
            By::Text,
            &mut index.parts,
            &mut index.space,
            index.earlier,
            text,
        )?,
    }
    Ok(())
}

/// Puts the bytes into the blob. No row lets that fail.
fn put_blob(alloc: Global, store: &mut MemStore, blob: u64, held: &str) -> Result<(), NoAnswer> {
    match store.put(blob, &bytes(alloc, held)?) {
        Ok(()) => Ok(()),
        Err(_) => Err(NoAnswer::BadRow),
    }
}
