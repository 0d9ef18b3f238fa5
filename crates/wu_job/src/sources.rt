//! The parts of a job, and how far it has gone through their terms.
ghost use Rattle.std.specs.Prelude.{◌≡◌, ◌⊎◌, ◌<◌, ◌≤◌, [], ◌∷◌, None, Some, drop, if◌then◌else◌, length, map, option_map, slice_get, IfOk};
ghost use Rattle.std.specs.Option.{option_copied};
ghost use Rattle.wu_base.specs.declared.limits.TheConstants.{ADDRESSES_MAX, WORD_MAX};
ghost use Rattle.wu_job.specs.Sources.{AreAllPassed, AreTerms, AreWhole, lesser_of, merged, order_of, passed, terms_from, terms_of, with_entry};
ghost use Rattle.wu_job.specs.Fronts.{IsFront, entries_of_other};

use std::alloc::Global;
use std::cmp::Ordering;
use wu_base::{Bytes, NoMemory, PartRec};
use wu_part::{Directory, Entry, Terms};

/// A part of a job.
#[derive(Drop)]
pub(crate) struct Source {
    pub recorded: PartRec,
    pub directory: Directory,
}

/// The places of the first terms that are left, in the left part and in the right one.
#[derive(Clone, Copy, Debug)]
pub(crate) struct Places {
    pub left: usize,
    pub right: usize,
}

impl Places {
    pub(crate) const START: Places = Places { left: 0, right: 0 };
}

/// The entries at the places, in the left part and in the right one, each found once for all that a step asks of
/// them.
#[derive(Drop)]
pub(crate) struct Front<'a> {
    pub left: Option<Entry<'a>>,
    pub right: Option<Entry<'a>>,
}

/// The entries of the first terms that are left.
pub(crate) fn front_at<'a>(left: &'a Source, right: &'a Option<Source>, places: Places) -> Front<'a>
    ensures { IsFront left.now right.now places result }
{
    Front {
        left: entry_at(left, places.left),
        right: entry_of_other(right, places.right),
    }
}

/// The entry at the place.
fn entry_at(source: &Source, place: usize) -> Option<Entry<'_>>
    ensures { result ≡ slice_get source.now.directory.terms place }
{
    source.directory.term_at(place)
}

/// The entry at the place of the other part, where there is one.
fn entry_of_other(source: &Option<Source>, place: usize) -> Option<Entry<'_>>
    ensures { result ≡ slice_get (entries_of_other source.now) place }
{
    match source {
        Some(source) => entry_at(source, place),
        None => None,
    }
}

/// The term of the entry.
fn term_of<'a>(entry: &Option<Entry<'a>>) -> Option<&'a [u8]>
    ensures { option_copied result ≡ option_map (λ entry. entry.term) entry.now }
{
    match entry {
        Some(entry) => Some(entry.term()),
        None => None,
    }
}

/// The place after the term, where it is the entry's at the place.
fn place_after(entry: &Option<Entry<'_>>, term: &[u8], place: usize) -> usize
    requires { place < ADDRESSES_MAX ⊎ (entry.now ≡ None) }
    ensures { result ≡ passed (option_map (λ entry. entry.term) entry.now) term.now place }
{
    match term_of(entry) {
        Some(head) if head == term => place + 1,
        _ => place,
    }
}

/// A law: what holds of the directories, and that the left one has a term.
pub(crate) fn are_whole(left: &Source, right: &Option<Source>)
    ensures whole { AreWhole left.now right.now }
    ensures some { 0 < length (terms_of left.now) }
{
    left.directory.is_spelled();
    match right {
        Some(source) => source.directory.is_spelled(),
        None => {}
    }
}

/// The lesser of two terms.
fn lesser<'a>(first: Option<&'a [u8]>, second: Option<&'a [u8]>) -> Option<&'a [u8]>
    ensures { option_copied result ≡ lesser_of (option_copied first.entry) (option_copied second.entry) }
{
    match (first, second) {
        (Some(a), Some(b)) => { if b.cmp(&a).is_lt() { Some(b) } else { Some(a) } }
        (Some(a), None) => Some(a),
        (None, other) => other,
    }
}

/// The first of the terms that are left, and the places after it.
#[derive(Drop)]
pub(crate) struct First {
    pub term: Bytes,
    pub after: Places,
}

/// The first of the terms that are left.
pub(crate) fn first_of(
    alloc: Global,
    left: &Source,
    right: &Option<Source>,
    places: Places,
    front: &Front<'_>,
) -> Result<First, NoMemory>
    requires some { 0 < length (terms_from left.now right.now places) }
    requires front { IsFront left.now right.now places front.now }
    ensures left { IfOk result (λ first. terms_from left.now right.now places ≡ first.term ∷ terms_from left.now right.now first.after) }
    ensures passed { IfOk result (λ first. AreAllPassed left.now right.now places → AreAllPassed left.now right.now first.after) }
    ensures bounded { IfOk result (λ first. (0 < length first.term) × (length first.term ≤ WORD_MAX)) }
{
    match first_term(left, right, places, front) {
        Some(term) => Ok(First {
            term: Bytes::from_slice(alloc, term)?,
            after: places_after(left, right, places, front, term),
        }),
        None => Err(NoMemory),
    }
}

/// The first of the terms that are left.
fn first_term<'a>(
    left: &Source,
    right: &Option<Source>,
    places: Places,
    front: &Front<'a>,
) -> Option<&'a [u8]>
    requires { IsFront left.now right.now places front.now }
    ensures { option_copied result ≡ slice_get (terms_from left.now right.now places) 0 }
{
    are_whole(left, right);
    lesser(term_of(&front.left), term_of(&front.right))
}

/// The places after the first term that is left.
fn places_after(
    left: &Source,
    right: &Option<Source>,
    places: Places,
    front: &Front<'_>,
    term: &[u8],
) -> Places
    requires front { IsFront left.now right.now places front.now }
    requires first { slice_get (terms_from left.now right.now places) 0 ≡ Some term.now }
    ensures left { terms_from left.now right.now places ≡ term.now ∷ terms_from left.now right.now result }
    ensures passed { AreAllPassed left.now right.now places → AreAllPassed left.now right.now result }
    ensures bounded { (0 < length term.now) × (length term.now ≤ WORD_MAX) }
{
    are_whole(left, right);
    Places {
        left: place_after(&front.left, term, places.left),
        right: place_after(&front.right, term, places.right),
    }
}

/// How many terms the parts have, where each counts once. Walks through both side by side.
pub(crate) fn count_terms(left: &Source, right: &Option<Source>) -> u64
    ensures count { result ≡ length (terms_from left.now right.now Places.START) }
    ensures some { 0 < result }
{
    are_whole(left, right);
    match right {
        Some(right) => count_merged(left.directory.terms(), right.directory.terms()),
        None => left.directory.term_count() as u64,
    }
}

/// How many terms the entries have, where each counts once.
fn count_merged(mut left: Terms<'_>, mut right: Terms<'_>) -> u64
    requires terms { AreTerms (map (λ entry. entry.term) left) }
    requires others { AreTerms (map (λ entry. entry.term) right) }
    ensures { result ≡ length (merged (map (λ entry. entry.term) left.entry) (map (λ entry. entry.term) right.entry)) }
{
    let mut first = left.next();
    let mut second = right.next();
    let mut count = 0;
    while let Some(order) = order_of(&first, &second) {
        first = entry_after(first, &mut left, order.is_le());
        second = entry_after(second, &mut right, order.is_ge());
        count += 1;
    }
    count
}

/// How the terms of two entries compare: an entry alone is before what isn't there. None where there is none.
fn order_of(first: &Option<Entry<'_>>, second: &Option<Entry<'_>>) -> Option<Ordering>
    ensures { result ≡ order_of (option_map (λ entry. entry.term) first.now) (option_map (λ entry. entry.term) second.now) }
{
    match (first, second) {
        (Some(a), Some(b)) => Some(a.term().cmp(&b.term())),
        (Some(_), None) => Some(Ordering::Less),
        (None, Some(_)) => Some(Ordering::Greater),
        (None, None) => None,
    }
}

/// The entry after that one, where it is `done`, and else that one.
fn entry_after<'a>(entry: Option<Entry<'a>>, rest: &mut Terms<'a>, done: bool) -> Option<Entry<'a>>
    requires { entry ≡ None → rest.old ≡ [] }
    ensures left { with_entry result rest.new ≡ if done then drop 1 (with_entry entry.entry rest.old) else with_entry entry.entry rest.old }
    ensures ended { result ≡ None → rest.new ≡ [] }
{
    if done { rest.next() } else { entry }
}
