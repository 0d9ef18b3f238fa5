//! Walks over a directory's entries.
ghost use Rattle.std.specs.Prelude.{◌≡◌, [], ◌∷◌, ◌<◌, ◌≤◌, ◌⊎◌, ℕ, List, Contains, MatchOption, drop, filter, get_or, length, map};
ghost use Rattle.std.specs.List.{AllByRecursion};
ghost use Rattle.std.specs.List.Sorted.{IsStrictlySortedBy};
ghost use Rattle.std.specs.Cmp.Lexicographic.{slice_cmp};
ghost use Rattle.std.specs.Ordering.{nat_cmp};
ghost use Rattle.wu_base.specs.declared.limits.TheConstants.{ADDRESSES_MAX};
ghost use Rattle.wu_part.specs.declared.entries.TermEntry.{TermEntry};
ghost use Rattle.wu_part.specs.declared.marks.TheConstants.{TERMS_BETWEEN};
ghost use Rattle.wu_part.specs.Marks.{IsAfter, IsMark, entries_from};
ghost use Rattle.wu_part.specs.Searches.{begins_before, is_from};

use crate::cursors::Entry;
use crate::entry_reading::{take_count, take_entry, take_term};
use crate::marks::Mark;
use crate::reading::Head;
use std::marker::Model;

/// The entries that are left of a walk over a directory's, in order. Contracts see the list of them.
#[derive(Drop)]
pub struct Terms<'a> {
    head: &'a Head,
    size: u64,
    left: u64,
    rest: &'a [u8],
    place: u64,
}

impl<'a> Model for Terms<'a> {
    ghost use Rattle.std.specs.Prelude.{List};
    ghost use Rattle.wu_part.specs.declared.entries.TermEntry.{TermEntry};

    ghost Value = { List TermEntry };

    ghost use Rattle.wu_part.specs.Walks.{entries_left, IsWalk};

    ghost view = { entries_left };

    ghost invariant = { IsWalk };
}

impl<'a> Iterator for Terms<'a> {
    ghost use Rattle.std.specs.Iterator.{YieldsFirst, item_count};

    type Item = Entry<'a>;

    ghost next_gives = { YieldsFirst (λ left. left) };

    ghost remaining = { item_count (λ left. left) };

    fn next(&mut self) -> Option<Entry<'a>> {
        if self.left == 0 {
            return None;
        }
        let Some(next) = take_entry(self.rest, self.head, self.place, self.size) else {
            return None;
        };
        self.left -= 1;
        self.rest = next.rest;
        self.place = next.end;
        Some(next.entry)
    }
}

impl<'a> Terms<'a> {
    /// Whether an entry is left, and the term of the first one stands before this one.
    fn begins_before(&self, term: &[u8]) -> bool
        ensures { result ≡ begins_before term.now self.now }
    {
        if self.left == 0 {
            return false;
        }
        match take_term(self.rest) {
            Some((first, _)) => first.cmp(&term).is_lt(),
            None => false,
        }
    }

    /// The first entry that is left. Its blocks aren't gone through, however many it has.
    fn first(&self) -> Option<Entry<'a>>
        ensures { MatchOption result (self.now ≡ []) (λ entry. (later : List TermEntry) × (self.now ≡ entry ∷ later)) }
    {
        if self.left == 0 {
            return None;
        }
        let Some((term, rest)) = take_term(self.rest) else {
            return None;
        };
        let Some((count, bytes)) = take_count(rest) else {
            return None;
        };
        Some(Entry {
            term,
            count,
            low: self.head.low,
            bytes,
            place: self.place,
        })
    }
}

/// A walk over the entries from the mark on.
pub(crate) fn terms_from<'a>(head: &'a Head, size: u64, bytes: &'a [u8], mark: Mark) -> Terms<'a>
    requires mark { IsMark head.now size bytes.now mark (entries_from head.now bytes.now mark) }
    requires high { head.now.high < ADDRESSES_MAX }
    ensures { result ≡ entries_from head.now bytes.now mark }
{
    Terms {
        head,
        size,
        left: head.terms - mark.number,
        rest: &bytes[mark.offset..],
        place: mark.place,
    }
}

/// The entry of the term, among entries whose terms ascend: it is one of the first few, if it is there.
pub(crate) fn entry_among<'a>(mut terms: Terms<'a>, term: &[u8]) -> Option<Entry<'a>>
    requires sorted { IsStrictlySortedBy (slice_cmp nat_cmp) (map (λ entry. entry.term) terms) }
    requires near { AllByRecursion (IsAfter term.now) (drop TERMS_BETWEEN terms) }
    ensures { MatchOption result ((entry : TermEntry) → Contains terms.entry entry → entry.term ≡ term.now → ⊥)
        (λ entry. Contains terms.entry entry × (entry.term ≡ term.now)) }
{
    while terms.begins_before(term) {
        let Some(_) = terms.next() else {
            return None;
        };
    }
    let Some(entry) = terms.first() else {
        return None;
    };
    // No entry before the term is left.
    if entry.term() == term {
        Some(entry)
    } else {
        None
    }
}

/// The entries whose terms don't stand before this one, among entries whose terms ascend.
pub(crate) fn entries_since<'a>(mut terms: Terms<'a>, term: &[u8]) -> Terms<'a>
    requires { IsStrictlySortedBy (slice_cmp nat_cmp) (map (λ entry. entry.term) terms) }
    ensures { result ≡ filter (is_from term.now) terms.entry }
{
    while terms.begins_before(term) {
        let Some(_) = terms.next() else {
            return terms;
        };
    }
    terms
}

/// The entry after so many others: few of them, or else few are left.
pub(crate) fn entry_after<'a>(mut terms: Terms<'a>, count: u64) -> Option<Entry<'a>>
    requires { (count < TERMS_BETWEEN) ⊎ (length terms ≤ TERMS_BETWEEN) }
    ensures { MatchOption result (length terms.entry ≤ count) (λ entry. (count < length terms.entry) ×
        (entry ≡ get_or terms.entry count entry)) }
{
    for _ in 0..count {
        let Some(_) = terms.next() else {
            return None;
        };
    }
    terms.next()
}
