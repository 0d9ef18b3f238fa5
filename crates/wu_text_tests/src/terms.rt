//! What is told of the terms of a user.
use std::alloc::Global;
use wu_base::{Bytes, Range};
use wu_rows::{
    NoAnswer, ascending_numbers, byte_strings, bytes, bytes_text, first_word, list_text, number,
    number_text, pieces, plain_text, small_number,
};
use wu_terms::{Candidates, TermFiles, files_with, list_terms, prefix_of};

/// The answer of the call to the arguments.
pub fn answer(alloc: Global, call: &str, arguments: &[&str]) -> Result<String, NoAnswer> {
    match call {
        "prefix_of" => prefix_asked(alloc, arguments),
        "Candidates" => words_added(alloc, arguments),
        "files_with" => frames_counted(alloc, arguments),
        "list_terms" => words_listed(alloc, arguments, false),
        "list_terms, top" => words_listed(alloc, arguments, true),
        _ => Err(NoAnswer::BadRow),
    }
}

fn prefix_asked(alloc: Global, arguments: &[&str]) -> Result<String, NoAnswer> {
    let [field] = arguments else {
        return Err(NoAnswer::BadRow);
    };
    match prefix_of(alloc, &bytes(alloc, field)?)? {
        Some(prefix) => bytes_text(alloc, prefix.as_slice()),
        None => plain_text(alloc, "none"),
    }
}

fn words_added(alloc: Global, arguments: &[&str]) -> Result<String, NoAnswer> {
    let [prefix, terms] = arguments else {
        return Err(NoAnswer::BadRow);
    };
    let mut candidates = Candidates::new(alloc, &bytes(alloc, prefix)?)?;
    for term in &byte_strings(alloc, terms)? {
        candidates.add_term(term.as_slice())?;
    }
    list_text(alloc, &candidates.into_list())
}

/// The frames that the pieces are written for, each by its start and its length, in the order of their starts.
fn frames_of(alloc: Global, field: &str) -> Result<Vec<Range>, NoAnswer> {
    let mut frames = Vec::new(alloc);
    for piece in &pieces(alloc, field)? {
        let (start, len) = first_word(piece);
        frames.push(Range {
            start: number(start)?,
            len: number(len)?,
        })?;
    }
    Ok(frames)
}

fn frames_counted(alloc: Global, arguments: &[&str]) -> Result<String, NoAnswer> {
    let [at, frames] = arguments else {
        return Err(NoAnswer::BadRow);
    };
    let mut frames = frames_of(alloc, frames)?;
    frames.sort_unstable_by_key(|frame| frame.start);
    number_text(alloc, files_with(&ascending_numbers(alloc, at)?, &frames))
}

/// The lines that the pieces are written for, each by a number of files and a word.
fn lines_of(alloc: Global, field: &str) -> Result<Vec<TermFiles>, NoAnswer> {
    let mut lines = Vec::new(alloc);
    for piece in &pieces(alloc, field)? {
        let (files, word) = first_word(piece);
        lines.push(TermFiles {
            files: number(files)?,
            word: Bytes::from(bytes(alloc, word)?),
        })?;
    }
    Ok(lines)
}

fn words_listed(alloc: Global, arguments: &[&str], top: bool) -> Result<String, NoAnswer> {
    let [lines, count] = arguments else {
        return Err(NoAnswer::BadRow);
    };
    let listing = list_terms(lines_of(alloc, lines)?, small_number(count)?, top);
    let mut shown = number_text(alloc, listing.total)?;
    for line in &listing.shown {
        shown.push_str(bytes_text(alloc, line.word.as_slice())?.as_str())?;
        shown.push_str(number_text(alloc, line.files)?.as_str())?;
    }
    Ok(shown)
}
