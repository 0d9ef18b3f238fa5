//! The calls of a Parts that need no store.
ghost use Rattle.std.specs.Prelude.{◌≤◌};

use crate::fetching::{fetch_live, release_others};
use std::alloc::Global;
use wu_base::PartRec;
use wu_parts::Parts;
use wu_parts_rows::{By, Index, put_texts};
use wu_rows::{NoAnswer, bytes, number_text, numbers, numbers_text, optional_text};
use wu_space::Space;

/// The addresses of the term in the seen ones of the texts' files, where memory has no postings of
/// the skipped ones.
pub fn fetched(
    alloc: Global,
    index: &mut Index,
    by: By,
    arguments: &[&str],
) -> Result<String, NoAnswer>
    requires { index.old.parts.memory.end ≤ index.old.space.next }
{
    let [texts, skipped, seen, term] = arguments else {
        return Err(NoAnswer::BadRow);
    };
    put_texts(
        alloc,
        by,
        &mut index.parts,
        &mut index.space,
        texts,
        skipped,
    )?;
    release_others(alloc, &mut index.space, 100, seen)?;
    found(alloc, &index.parts, &index.space, term)
}

fn found(alloc: Global, parts: &Parts, space: &Space, term: &str) -> Result<String, NoAnswer> {
    let term = bytes(alloc, term)?;
    let found = fetch_live(parts, space, &term)?;
    numbers_text(alloc, found.as_slice())
}

/// How many postings the texts have.
pub fn stored(alloc: Global, index: &mut Index, arguments: &[&str]) -> Result<String, NoAnswer>
    requires { index.old.parts.memory.end ≤ index.old.space.next }
{
    let [texts] = arguments else {
        return Err(NoAnswer::BadRow);
    };
    put_texts(
        alloc,
        By::Text,
        &mut index.parts,
        &mut index.space,
        texts,
        "",
    )?;
    number_text(alloc, index.parts.stored())
}

/// A number that is drawn, the next one, and the one after it.
pub fn drawn(alloc: Global, parts: &mut Parts) -> Result<String, NoAnswer> {
    if parts.next_blob() >= 1_000_000 {
        return Err(NoAnswer::BadRow);
    }
    let first = parts.draw_blob();
    let second = parts.draw_blob();
    numbers_text(alloc, &[first, second, parts.next_blob()])
}

/// The blobs that are no longer needed.
pub fn retired(alloc: Global, parts: &mut Parts, arguments: &[&str]) -> Result<String, NoAnswer> {
    let [blobs] = arguments else {
        return Err(NoAnswer::BadRow);
    };
    for blob in &numbers(alloc, blobs)? {
        parts.retire(*blob)?;
    }
    numbers_text(alloc, parts.stale())
}

/// What is left of the blobs that are no longer needed, once they are cleared.
pub fn cleared(alloc: Global, parts: &mut Parts, arguments: &[&str]) -> Result<String, NoAnswer> {
    retired(alloc, parts, arguments)?;
    parts.clear_stale();
    numbers_text(alloc, parts.stale())
}

/// The blob of the first part of a new Parts, where it has neither parts nor flushes.
pub fn parts_of_none(alloc: Global, parts: &Parts) -> Result<String, NoAnswer> {
    if parts.count() > 0 || parts.flushes() > 0 {
        return Err(NoAnswer::BadRow);
    }
    optional_text(alloc, parts.part(0).map(|part: PartRec| part.blob))
}
