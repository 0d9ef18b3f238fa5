//! Marks in a directory's bytes.
ghost use Rattle.std.specs.Prelude.{◌≡◌, ◌<◌, ◌≤◌, ◌||◌, true, Contains, MatchBool, OnErr, OnOk, drop, get_or, length, nat_le};
ghost use Rattle.wu_part.specs.declared.marks.TheConstants.{TERMS_BETWEEN, BYTES_BETWEEN};
ghost use Rattle.wu_part.specs.declared.marks.Mark.{Mark};
ghost use Rattle.wu_part.specs.Marks.{IsAtMost, IsLast, NoneAt, StandsBefore, is_far, with_mark};

use crate::entry_reading::take_term;
use wu_base::NoMemory;

/// A place in the bytes of a directory's entries: the entry of the term of this number, counted from 0,
/// begins at `offset`, and its first block at `place` of the part's blob.
#[derive(Clone, Copy)]
pub(crate) struct Mark {
    pub(crate) number: u64,
    pub(crate) offset: usize,
    pub(crate) place: u64,
}

/// So many terms after the last mark the next one is put: few, since each term between is passed over
/// where a term is looked for.
const TERMS_BETWEEN: u64 = 8;

/// So many bytes after the last mark the next one is put, though fewer terms are between: a long list
/// of blocks is passed over once at most.
const BYTES_BETWEEN: usize = 512;

/// Puts the mark at the end, where the last one is far enough away. Only there it takes memory.
#[inline]
pub(crate) fn put_mark(
    marks: &mut Vec<Mark>,
    number: u64,
    offset: usize,
    place: u64,
) -> Result<(), NoMemory>
    ensures ok { OnOk result (marks.new.items ≡ with_mark marks.old.items number offset place) }
    ensures err { OnErr result (is_far marks.old.items number offset ≡ true) }
{
    if is_far(marks, number, offset) {
        marks.push(Mark {
            number,
            offset,
            place,
        })?;
    }
    Ok(())
}

/// Whether the last mark is far enough away for another one.
#[inline]
fn is_far(marks: &[Mark], number: u64, offset: usize) -> bool
    ensures { result ≡ is_far marks.now number offset }
{
    match marks.last() {
        Some(last) => is_distance(
            number.saturating_sub(last.number),
            offset.saturating_sub(last.offset),
        ),
        None => is_distance(number, offset),
    }
}

/// Whether two marks are far enough from each other, with so many terms and bytes between.
#[inline]
fn is_distance(terms: u64, bytes: usize) -> bool
    ensures { result ≡ (nat_le TERMS_BETWEEN terms || nat_le BYTES_BETWEEN bytes) }
{
    terms >= TERMS_BETWEEN || bytes >= BYTES_BETWEEN
}

/// The last mark of an entry whose term isn't after this one: one of the marks, or else `start`.
pub(crate) fn mark_before(bytes: &[u8], marks: &[Mark], start: Mark, term: &[u8]) -> Mark
    requires { (mark : Mark) → Contains marks.now mark → mark.offset ≤ length bytes.now }
    ensures { IsLast (λ mark. IsAtMost (drop mark.offset bytes.now) term.now) marks.now start result }
{
    let mut best = start;
    let mut from = 0;
    let mut to = marks.len();
    while from < to {
        let middle = from + (to - from) / 2;
        let mark = mark_at(marks, middle);
        if is_at_most(bytes, &mark, term) {
            best = mark;
            from = middle + 1;
        } else {
            to = middle;
        }
    }
    best
}

/// The mark at the place.
fn mark_at(marks: &[Mark], place: usize) -> Mark
    requires { place < length marks.now }
    ensures { result ≡ get_or marks.now place result }
{
    marks[place]
}

/// Whether the term of the mark's entry isn't after this one.
fn is_at_most(bytes: &[u8], mark: &Mark, term: &[u8]) -> bool
    requires { mark.now.offset ≤ length bytes.now }
    ensures { MatchBool result (IsAtMost (drop mark.now.offset bytes.now) term.now)
        (IsAtMost (drop mark.now.offset bytes.now) term.now → ⊥) }
{
    match take_term(&bytes[mark.offset..]) {
        Some((first, _)) => first.cmp(&term).is_le(),
        None => false,
    }
}

/// The last mark of an entry with this number at most: one of the marks, or else `start`.
///
/// From mark to mark the number grows by `TERMS_BETWEEN` at most, and mostly by that. So the mark is
/// guessed first, and a search is for those terms that long entries come before.
pub(crate) fn mark_up_to(marks: &[Mark], start: Mark, number: u64) -> Mark
    ensures { IsLast (λ mark. mark.number ≤ number) marks.now start result }
{
    let guess = guessed(marks, number);
    let (mut best, mut from) = mark_near(marks, guess, start, number);
    let mut to = end_near(marks, guess, number);
    while from < to {
        let middle = from + (to - from) / 2;
        let mark = mark_at(marks, middle);
        if mark.number <= number {
            best = mark;
            from = middle + 1;
        } else {
            to = middle;
        }
    }
    best
}

/// How many marks have this number at most, where all stand as far from each other as they may.
fn guessed(marks: &[Mark], number: u64) -> usize
    ensures { result ≤ length marks.now }
{
    let most = marks.len();
    let guess = number / TERMS_BETWEEN;
    if guess < most as u64 {
        guess as usize
    } else {
        most
    }
}

/// The mark before the guess, and the guess, where that mark has this number at most; or else `start`,
/// and 0: where a search begins.
fn mark_near(marks: &[Mark], guess: usize, start: Mark, number: u64) -> (Mark, usize)
    requires { guess ≤ length marks.now }
    ensures found { StandsBefore (λ mark. mark.number ≤ number) marks.now start result.0 result.1 }
    ensures low { result.1 ≤ guess }
{
    if guess == 0 {
        return (start, 0);
    }
    let mark = mark_at(marks, guess - 1);
    if mark.number <= number {
        (mark, guess)
    } else {
        (start, 0)
    }
}

/// Where a search ends: at the guess, where the mark there has a higher number.
fn end_near(marks: &[Mark], guess: usize, number: u64) -> usize
    requires { guess ≤ length marks.now }
    ensures none { NoneAt (λ mark. mark.number ≤ number) marks.now result }
    ensures high { guess ≤ result }
    ensures within { result ≤ length marks.now }
{
    if guess < marks.len() && mark_at(marks, guess).number > number {
        guess
    } else {
        marks.len()
    }
}
