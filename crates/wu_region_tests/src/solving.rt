//! The extents of expressions, and those that are found by trying every extent.
ghost use Rattle.std.specs.Prelude.{All};
ghost use Rattle.wu_solve.specs.Solving.{IsFrame};

use crate::plain::solve_plainly;
use std::alloc::Global;
use wu_base::{Bytes, Extent, NoMemory, Range};
use wu_gcl::{Expr, terms_of};
use wu_region_rows::{
    are_apart, corpus_of, expression, frames_of, joined_frame, lists_of, places_of, solved,
};
use wu_rows::{
    NoAnswer, bytes, bytes_text, extents_text, flag_text, list_text, number, number_text,
    numbers_text, plain_text,
};
use wu_solve::{
    Counts, count, count_apart, extents_ascend, find_term, frames_met, frames_of_texts,
    frames_within, needed_terms, needed_terms_stand, only_term, solve, solve_apart,
};

/// The answer of the call to the arguments.
pub fn answer(alloc: Global, call: &str, arguments: &[&str]) -> Result<String, NoAnswer> {
    match call {
        "solve" => extents(alloc, arguments),
        "solve, counted" => counts(alloc, arguments),
        "solve, plainly" => agreement(alloc, arguments),
        "solve_apart" => extents_apart(alloc, arguments),
        "count_apart" => counts_apart(alloc, arguments),
        "only_term" => term_alone(alloc, arguments),
        "needed_terms" => needed(alloc, arguments),
        "find_term" => list_place(alloc, arguments),
        "frames_met" => frames_with(alloc, arguments),
        "frames_within" => first_frames(alloc, arguments),
        _ => law(alloc, call),
    }
}

/// What holds of all frames and lists; nothing is done.
fn law(alloc: Global, call: &str) -> Result<String, NoAnswer> {
    match call {
        "extents_ascend" => extents_ascend(),
        "frames_of_texts" => frames_of_texts(),
        "needed_terms_stand" => needed_terms_stand(),
        _ => return Err(NoAnswer::BadRow),
    }
    plain_text(alloc, "a law")
}

/// The extents in the texts with these numbers, or where all texts are one frame.
fn extents(alloc: Global, arguments: &[&str]) -> Result<String, NoAnswer> {
    match arguments {
        [texts, "joined", expr] => extents_in_all(alloc, texts, expr),
        [texts, numbers, expr] => extents_in(alloc, texts, numbers, expr),
        _ => Err(NoAnswer::BadRow),
    }
}

fn extents_in(alloc: Global, texts: &str, numbers: &str, expr: &str) -> Result<String, NoAnswer> {
    let corpus = corpus_of(alloc, texts)?;
    let frames = frames_of(alloc, &corpus, numbers)?;
    let expr = expression(alloc, expr)?;
    extents_text(alloc, &solved(alloc, &expr, &corpus.terms, &frames)?)
}

/// The extents where all texts are one frame.
fn extents_in_all(alloc: Global, texts: &str, expr: &str) -> Result<String, NoAnswer> {
    let corpus = corpus_of(alloc, texts)?;
    let frame = joined_frame(&corpus);
    let expr = expression(alloc, expr)?;
    extents_text(alloc, &solved(alloc, &expr, &corpus.terms, &[frame])?)
}

/// How many extents the expression has in the texts with these numbers, and in how many of them.
fn counts(alloc: Global, arguments: &[&str]) -> Result<String, NoAnswer> {
    let [texts, numbers, expr] = arguments else {
        return Err(NoAnswer::BadRow);
    };
    let corpus = corpus_of(alloc, texts)?;
    let frames = frames_of(alloc, &corpus, numbers)?;
    let expr = expression(alloc, expr)?;
    let (_, counts) = solved_and_counted(alloc, &expr, &corpus.terms, &frames)?;
    numbers_text(alloc, &[counts.hits, counts.files])
}

/// The extents where all texts are one frame, which lies apart from all others.
fn extents_apart(alloc: Global, arguments: &[&str]) -> Result<String, NoAnswer> {
    let [texts, expr] = arguments else {
        return Err(NoAnswer::BadRow);
    };
    let corpus = corpus_of(alloc, texts)?;
    let frame = joined_frame(&corpus);
    let expr = expression(alloc, expr)?;
    let lists = lists_of(alloc, &terms_of(alloc, &expr)?, &corpus.terms)?;
    extents_text(alloc, &solve_apart(alloc, &expr, &[frame], &lists)?)
}

/// How many extents there are then, and in how many frames.
fn counts_apart(alloc: Global, arguments: &[&str]) -> Result<String, NoAnswer> {
    let [texts, expr] = arguments else {
        return Err(NoAnswer::BadRow);
    };
    let corpus = corpus_of(alloc, texts)?;
    let frame = joined_frame(&corpus);
    let expr = expression(alloc, expr)?;
    let lists = lists_of(alloc, &terms_of(alloc, &expr)?, &corpus.terms)?;
    if solve_apart(alloc, &expr, &[frame], &lists)?.len() as u64 > 1 << 47 {
        return Err(NoAnswer::BadRow);
    }
    let counts = count_apart(alloc, &expr, &[frame], &lists)?;
    numbers_text(alloc, &[counts.hits, counts.files])
}

/// The term whose addresses are the expression's extents, if it is one word or one tag alone.
fn term_alone(alloc: Global, arguments: &[&str]) -> Result<String, NoAnswer> {
    let [expr] = arguments else {
        return Err(NoAnswer::BadRow);
    };
    let expr = expression(alloc, expr)?;
    match only_term(&expr) {
        Some(term) => bytes_text(alloc, term),
        None => plain_text(alloc, "none"),
    }
}

/// Whether trying every extent of each text gives the same extents, and as many.
fn agreement(alloc: Global, arguments: &[&str]) -> Result<String, NoAnswer> {
    let [texts, numbers, expr] = arguments else {
        return Err(NoAnswer::BadRow);
    };
    let corpus = corpus_of(alloc, texts)?;
    let frames = frames_of(alloc, &corpus, numbers)?;
    let expr = expression(alloc, expr)?;
    flag_text(alloc, agrees(alloc, &expr, &corpus.terms, &frames)?)
}

fn agrees(alloc: Global, expr: &Expr, terms: &[Bytes], frames: &[Range]) -> Result<bool, NoMemory>
    requires { All IsFrame frames.now }
{
    let mut plain = Vec::new(alloc);
    let mut files = 0u64;
    for frame in frames {
        let found = solve_plainly(alloc, expr, *frame, terms)?;
        files = files.saturating_add(found.len().min(1) as u64);
        plain.extend_from_slice(&found)?;
    }
    let hits = plain.len() as u64;
    let (found, counts) = solved_and_counted(alloc, expr, terms, frames)?;
    Ok(found.as_slice() == plain.as_slice() && counts == Counts { hits, files })
}

/// The terms that the expression needs.
fn needed(alloc: Global, arguments: &[&str]) -> Result<String, NoAnswer> {
    let [expr] = arguments else {
        return Err(NoAnswer::BadRow);
    };
    let expr = expression(alloc, expr)?;
    list_text(alloc, &needed_terms(alloc, &expr)?)
}

/// The place of the term's list among those of the terms of the expression.
fn list_place(alloc: Global, arguments: &[&str]) -> Result<String, NoAnswer> {
    let [expr, term] = arguments else {
        return Err(NoAnswer::BadRow);
    };
    let term = bytes(alloc, term)?;
    let expr = expression(alloc, expr)?;
    let lists = lists_of(alloc, &terms_of(alloc, &expr)?, &[])?;
    match find_term(&lists, &term) {
        Some(place) => number_text(alloc, place as u64),
        None => plain_text(alloc, "none"),
    }
}

/// Where the frames start in which the term stands, of those of the texts with these numbers, which
/// ascend.
fn frames_with(alloc: Global, arguments: &[&str]) -> Result<String, NoAnswer> {
    let [texts, numbers, term] = arguments else {
        return Err(NoAnswer::BadRow);
    };
    let corpus = corpus_of(alloc, texts)?;
    let frames = frames_of(alloc, &corpus, numbers)?;
    if !are_apart(&frames) {
        return Err(NoAnswer::BadRow);
    }
    let places = places_of(alloc, &bytes(alloc, term)?, &corpus.terms)?;
    let mut starts = Vec::new(alloc);
    for frame in &frames_met(alloc, &places, &frames)? {
        starts.push(frame.start)?;
    }
    numbers_text(alloc, &starts)
}

/// How many of the first of the texts with these numbers have no more than so many tokens together.
fn first_frames(alloc: Global, arguments: &[&str]) -> Result<String, NoAnswer> {
    let [texts, numbers, most] = arguments else {
        return Err(NoAnswer::BadRow);
    };
    let corpus = corpus_of(alloc, texts)?;
    let frames = frames_of(alloc, &corpus, numbers)?;
    if frames.is_empty() {
        return Err(NoAnswer::BadRow);
    }
    number_text(alloc, frames_within(&frames, number(most)?) as u64)
}

/// What the expression means over the terms, frame by frame, and how often and in how many frames
/// it has an extent.
fn solved_and_counted(
    alloc: Global,
    expr: &Expr,
    terms: &[Bytes],
    frames: &[Range],
) -> Result<(Vec<Extent>, Counts), NoMemory>
    requires { All IsFrame frames.now }
{
    let words = terms_of(alloc, expr)?;
    let lists = lists_of(alloc, &words, terms)?;
    let found = solve(alloc, expr, frames, &lists)?;
    if found.len() as u64 > 1 << 47 {
        return Err(NoMemory);
    }
    let counts = count(alloc, expr, frames, &lists)?;
    Ok((found, counts))
}
