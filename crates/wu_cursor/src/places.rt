//! The places of a term in a frame, counted from the frame's start.
ghost use Rattle.std.specs.Prelude.{◌≡◌, ℕ, ◌+◌, MatchOption};
ghost use Rattle.std.specs.List.Sorted.{IsStrictlyIncreasing};
ghost use Rattle.wu_cursor.specs.Places.{IsFirstPlace, HasNoneFrom, IsLastPlace, HasNoneTo};
ghost use Rattle.wu_solve.specs.Addresses.{is_among, has_address, stands_by, AreLists, EndsBelow};
ghost use Rattle.wu_solve.specs.Solving.{IsFrame};

use wu_base::{Range, TermList};
use wu_solve::find_term;

/// The term's addresses; none, if it has no list.
fn addresses_of<'a>(lists: &'a [TermList], term: &[u8]) -> &'a [u64]
    requires { AreLists lists.now }
    ensures ascending { IsStrictlyIncreasing result.now }
    ensures same { (address : ℕ) → is_among result.now address ≡ has_address lists.now term.now address }
{
    match find_term(lists, term) {
        Some(place) => lists[place].at.as_slice(),
        None => &[],
    }
}

/// How many addresses in front are below the bound.
fn below(addresses: &[u64], bound: u64) -> usize
    requires { IsStrictlyIncreasing addresses.now }
    ensures { EndsBelow addresses.now bound result }
{
    addresses.partition_point(|address| *address < bound)
}

/// The place of the first address in the frame at or after the place `from`.
fn first_address(addresses: &[u64], frame: Range, from: u64) -> Option<u64>
    requires ascending { IsStrictlyIncreasing addresses.now }
    requires frame { IsFrame frame }
    ensures { MatchOption result (HasNoneFrom frame.len (λ p. is_among addresses.now (frame.start + p)) from)
        (IsFirstPlace frame.len (λ p. is_among addresses.now (frame.start + p)) from) }
{
    if from >= frame.len {
        return None;
    }
    let index = below(addresses, frame.start + from);
    if index == addresses.len() {
        return None;
    }
    let address = addresses[index];
    if address >= frame.start + frame.len {
        return None;
    }
    Some(address - frame.start)
}

/// The place of the last address in the frame at or before the place `to`.
fn last_address(addresses: &[u64], frame: Range, to: u64) -> Option<u64>
    requires ascending { IsStrictlyIncreasing addresses.now }
    requires frame { IsFrame frame }
    ensures { MatchOption result (HasNoneTo frame.len (λ p. is_among addresses.now (frame.start + p)) to)
        (IsLastPlace frame.len (λ p. is_among addresses.now (frame.start + p)) to) }
{
    if frame.len == 0 {
        return None;
    }
    let top = to.min(frame.len - 1);
    let index = below(addresses, frame.start + top + 1);
    if index == 0 {
        return None;
    }
    let address = addresses[index - 1];
    if address < frame.start {
        return None;
    }
    Some(address - frame.start)
}

/// The first place in the frame at or after the place `from` where the term stands.
pub fn first_place(lists: &[TermList], term: &[u8], frame: Range, from: u64) -> Option<u64>
    requires lists { AreLists lists.now }
    requires frame { IsFrame frame }
    ensures { MatchOption result (HasNoneFrom frame.len (stands_by lists.now frame.start term.now) from)
        (IsFirstPlace frame.len (stands_by lists.now frame.start term.now) from) }
{
    first_address(addresses_of(lists, term), frame, from)
}

/// The last place in the frame at or before the place `to` where the term stands.
pub fn last_place(lists: &[TermList], term: &[u8], frame: Range, to: u64) -> Option<u64>
    requires lists { AreLists lists.now }
    requires frame { IsFrame frame }
    ensures { MatchOption result (HasNoneTo frame.len (stands_by lists.now frame.start term.now) to)
        (IsLastPlace frame.len (stands_by lists.now frame.start term.now) to) }
{
    last_address(addresses_of(lists, term), frame, to)
}
