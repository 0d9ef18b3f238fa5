//! The places of a phrase in a frame, found by leaping over the places that one of its words leaves out.
ghost use Rattle.std.specs.Prelude.{◌+◌, ◌-◌, ◌<◌, length, MatchOption};
ghost use Rattle.wu_cursor.specs.Places.{IsFirstPlace, HasNoneFrom, IsLastPlace, HasNoneTo, IsLeap, IsLeapBack};
ghost use Rattle.wu_gcl.specs.Extents.{words_stand};
ghost use Rattle.wu_solve.specs.Addresses.{stands_by, AreLists};
ghost use Rattle.wu_solve.specs.Solving.{IsFrame};

use crate::places::{first_place, last_place};
use wu_base::{Bytes, Range, TermList};

/// The first place that no word leaves out, where each is sought from the place on that those before
/// it allow. If it is `from` itself, the words stand there.
fn leap(words: &[Bytes], lists: &[TermList], frame: Range, from: u64) -> Option<u64>
    requires lists { AreLists lists.now }
    requires frame { IsFrame frame }
    requires words { 0 < length words.now }
    ensures { MatchOption result
        (HasNoneFrom (frame.len + 1 - length words.now) (words_stand (stands_by lists.now frame.start) words.now) from)
        (IsLeap (frame.len + 1 - length words.now) (words_stand (stands_by lists.now frame.start) words.now) from) }
{
    let mut place = from;
    for i in 0..words.len() {
        let found = first_place(lists, words[i].as_slice(), frame, place + i as u64)?;
        place = found - i as u64;
    }
    Some(place)
}

/// The last place that no word leaves out, where each is sought up to the place that those before it
/// allow. If it is `to` itself, the words stand there.
fn leap_back(words: &[Bytes], lists: &[TermList], frame: Range, to: u64) -> Option<u64>
    requires lists { AreLists lists.now }
    requires frame { IsFrame frame }
    requires words { 0 < length words.now }
    ensures { MatchOption result
        (HasNoneTo (frame.len + 1 - length words.now) (words_stand (stands_by lists.now frame.start) words.now) to)
        (IsLeapBack (frame.len + 1 - length words.now) (words_stand (stands_by lists.now frame.start) words.now) to) }
{
    let mut place = to;
    for i in 0..words.len() {
        let found = last_place(lists, words[i].as_slice(), frame, place + i as u64)?;
        if found < i as u64 {
            return None;
        }
        place = found - i as u64;
    }
    Some(place)
}

/// The first place at or after the place `from` where the words stand one after the other.
pub fn first_standing(words: &[Bytes], lists: &[TermList], frame: Range, from: u64) -> Option<u64>
    requires lists { AreLists lists.now }
    requires frame { IsFrame frame }
    requires words { 0 < length words.now }
    ensures { MatchOption result
        (HasNoneFrom (frame.len + 1 - length words.now) (words_stand (stands_by lists.now frame.start) words.now) from)
        (IsFirstPlace (frame.len + 1 - length words.now) (words_stand (stands_by lists.now frame.start) words.now) from) }
{
    let mut place = from;
    loop {
        let next = leap(words, lists, frame, place)?;
        if next == place {
            return Some(place);
        }
        place = next;
    }
}

/// The last place at or before the place `to` where the words stand one after the other.
pub fn last_standing(words: &[Bytes], lists: &[TermList], frame: Range, to: u64) -> Option<u64>
    requires lists { AreLists lists.now }
    requires frame { IsFrame frame }
    requires words { 0 < length words.now }
    ensures { MatchOption result
        (HasNoneTo (frame.len + 1 - length words.now) (words_stand (stands_by lists.now frame.start) words.now) to)
        (IsLastPlace (frame.len + 1 - length words.now) (words_stand (stands_by lists.now frame.start) words.now) to) }
{
    let mut place = to;
    loop {
        let next = leap_back(words, lists, frame, place)?;
        if next == place {
            return Some(place);
        }
        place = next;
    }
}
