//! Texts in one space of addresses, and the lists of their terms.
ghost use Rattle.std.specs.Prelude.{All, IfOk, IsTrue, ◌↔◌};
ghost use Rattle.std.specs.List.Sorted.{IsStrictlyIncreasing, IsStrictlySortedBy};
ghost use Rattle.std.specs.Cmp.Lexicographic.{slice_cmp};
ghost use Rattle.std.specs.Ordering.{nat_cmp};
ghost use Rattle.wu_solve.specs.Addresses.{AreLists};
ghost use Rattle.wu_solve.specs.Solving.{IsFrame};
ghost use Rattle.wu_base.specs.Ranges.{AreApart};

use std::alloc::Global;
use wu_base::{Bytes, Extent, NoMemory, Range, Sequence, TEXT_MAX, TermList};
use wu_gcl::{Expr, terms_of};
use wu_rows::{NoAnswer, byte_strings, numbers};
use wu_solve::solve;
use wu_token::tokens;

/// The terms of texts, one text after the other, and the frame of each text.
#[derive(Drop)]
pub struct Corpus {
    pub terms: Vec<Bytes>,
    pub frames: Vec<Range>,
}

/// The corpus of the field's texts.
pub fn corpus_of(alloc: Global, field: &str) -> Result<Corpus, NoAnswer> {
    let mut terms = Vec::new(alloc);
    let mut frames = Vec::new(alloc);
    for text in &byte_strings(alloc, field)? {
        let start = terms.len() as u64;
        put_terms(alloc, &mut terms, text.as_slice())?;
        let len = (terms.len() as u64).saturating_sub(start);
        frames.push(Range { start, len })?;
    }
    Ok(Corpus { terms, frames })
}

/// Appends the terms of the text.
fn put_terms(alloc: Global, terms: &mut Vec<Bytes>, text: &[u8]) -> Result<(), NoMemory> {
    if text.len() > TEXT_MAX {
        return Ok(());
    }
    for token in tokens(alloc, text)? {
        terms.push(token.term)?;
    }
    Ok(())
}

/// The addresses at which the term stands.
pub fn places_of(alloc: Global, term: &[u8], terms: &[Bytes]) -> Result<Vec<u64>, NoMemory>
    ensures { IfOk result (λ v. IsStrictlyIncreasing v.items) }
{
    let mut places = Vec::new(alloc);
    for i in 0..terms.len() {
        if terms[i].as_slice() == term {
            places.push(i as u64)?;
        }
    }
    Ok(places)
}

/// The lists of distinct words, ascending, over the terms.
pub fn lists_of(alloc: Global, words: &[Bytes], terms: &[Bytes]) -> Result<Vec<TermList>, NoMemory>
    requires { IsStrictlySortedBy (slice_cmp nat_cmp) words.now }
    ensures { IfOk result (λ v. AreLists v.items) }
{
    let mut lists = Vec::new(alloc);
    for word in words {
        let at = Sequence::from(places_of(alloc, word.as_slice(), terms)?);
        lists.push(TermList {
            term: word.clone()?,
            at,
        })?;
    }
    Ok(lists)
}

/// The lists of any words over the terms.
pub fn word_lists(
    alloc: Global,
    words: &[Bytes],
    terms: &[Bytes],
) -> Result<Vec<TermList>, NoMemory>
    ensures { IfOk result (λ lists. All (λ word. IsStrictlyIncreasing word.at) lists.items) }
{
    let mut lists = Vec::new(alloc);
    for word in words {
        let at = Sequence::from(places_of(alloc, word.as_slice(), terms)?);
        lists.push(TermList {
            term: word.clone()?,
            at,
        })?;
    }
    Ok(lists)
}

/// The frame of the text with this number; an empty one where there is no such text.
pub fn frame_of(corpus: &Corpus, number: usize) -> Range
    ensures { IsFrame result }
{
    match corpus.frames.get(number) {
        Some(frame) if frame.start < 1 << 46 && frame.len < 1 << 46 => *frame,
        _ => Range { start: 0, len: 0 },
    }
}

/// The whole corpus as one frame; an empty one where it is too long.
pub fn joined_frame(corpus: &Corpus) -> Range
    ensures { IsFrame result }
{
    let len = corpus.terms.len() as u64;
    if len < 1 << 46 {
        Range { start: 0, len }
    } else {
        Range { start: 0, len: 0 }
    }
}

/// The frames of the texts with the field's numbers.
pub fn frames_of(alloc: Global, corpus: &Corpus, field: &str) -> Result<Vec<Range>, NoAnswer>
    ensures { IfOk result (λ frames. All IsFrame frames.items) }
{
    let mut frames = Vec::new(alloc);
    for number in &numbers(alloc, field)? {
        frames.push(frame_of(corpus, *number as usize))?;
    }
    Ok(frames)
}

/// Whether each frame ends before the next one starts.
pub fn are_apart(frames: &[Range]) -> bool
    requires { All IsFrame frames.now }
    ensures { IsTrue result ↔ AreApart frames.now }
{
    for i in 1..frames.len() {
        let last = frames[i - 1];
        if frames[i].start < last.start + last.len {
            return false;
        }
    }
    true
}

/// What the expression means over the terms, frame by frame.
pub fn solved(
    alloc: Global,
    expr: &Expr,
    terms: &[Bytes],
    frames: &[Range],
) -> Result<Vec<Extent>, NoMemory>
    requires { All IsFrame frames.now }
{
    let words = terms_of(alloc, expr)?;
    let lists = lists_of(alloc, &words, terms)?;
    solve(alloc, expr, frames, &lists)
}
