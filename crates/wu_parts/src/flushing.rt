//! What a flush makes of memory: the lists of its live postings, by the bytes of their terms, each written as it is cut.
ghost use Rattle.std.specs.Prelude.{◌≡◌, ◌↔◌, ◌+◌, ◌-◌, ◌^◌, ◌≤◌, ◌++◌, ◌∷◌, ◌<◌, ℕ, [], true, IfOk, IsOk, IsPermutation, IsTrue, OnOk, filter, get_or, length, map, nat_eq};
ghost use Rattle.std.specs.List.{AllByRecursion, IsDistinct};
ghost use Rattle.std.specs.List.Sorted.{IsStrictlySortedBy};
ghost use Rattle.std.specs.Cmp.Lexicographic.{pointwise, slice_cmp};
ghost use Rattle.std.specs.Map.{keys_of};
ghost use Rattle.std.specs.Ordering.{nat_cmp};
ghost use Rattle.wu_layout.specs.Postings.{is_live};
ghost use Rattle.wu_lists.specs.Ascending.{AscendBetween, AreInOrder};
ghost use Rattle.wu_parts.specs.Addressing.{IsRising};
ghost use Rattle.wu_parts.specs.Chains.{addressed, chained, end_of, places_of};
ghost use Rattle.wu_parts.specs.LeadingBytes.{IsBytes, IsNumbered, behind, number_of};
ghost use Rattle.wu_parts.specs.LiveLists.{live_lists};
ghost use Rattle.wu_token.specs.Words.{IsTerm};

use crate::addressing::Addressing;
use crate::chains::{Chain, addresses_from};
use crate::frames::{first_start, within_frames};
use indexmap::IndexMap;
use std::alloc::Global;
use wu_base::{ADDRESSES_MAX, Bytes, NoMemory, Range, Sequence, TermList};
use wu_part::Builder;

/// How many bytes are reserved for each posting of a new part: mostly enough, where what a posting takes hangs on the
/// distance to the one before it of its term.
const POSTING_BYTES: usize = 2;

/// The terms with their chains, each behind the number of its first bytes, by the terms' bytes.
pub(crate) fn by_term(
    alloc: Global,
    chains: &IndexMap<Vec<u8>, Chain>,
) -> Result<Vec<(u64, (&[u8], Chain))>, NoMemory>
    ensures entries { IfOk result (λ entries. IsPermutation (map chained chains.now.entries) (map behind entries.items)) }
    ensures ascending { IfOk result (λ entries. IsStrictlySortedBy (slice_cmp nat_cmp) (keys_of (map behind entries.items))) }
    ensures distinct { OnOk result (IsDistinct (pointwise nat_eq) (keys_of (map chained chains.now.entries))) }
{
    let mut entries = in_map_order(alloc, chains)?;
    // Numbers are compared at once. Only terms that share theirs are compared by all of their bytes.
    entries.sort_unstable_by_key(|entry| (entry.0, entry.1.0));
    Ok(entries)
}

/// The terms with their chains, in the order of the map, each behind the number of its first bytes.
fn in_map_order(
    alloc: Global,
    chains: &IndexMap<Vec<u8>, Chain>,
) -> Result<Vec<(u64, (&[u8], Chain))>, NoMemory>
    ensures entries { IfOk result (λ entries. map behind entries.items ≡ map chained chains.now.entries) }
    ensures numbers { IfOk result (λ entries. AllByRecursion IsNumbered entries.items) }
    ensures distinct { OnOk result (IsDistinct (pointwise nat_eq) (keys_of (map chained chains.now.entries))) }
{
    let mut entries = Vec::with_capacity(alloc, chains.len())?;
    for (term, chain) in chains.iter() {
        let term = term.as_slice();
        entries.push((leading(term), (term, *chain)))?;
    }
    Ok(entries)
}

/// The first eight bytes of the term as a number, the first one highest; zeros stand behind a shorter term.
/// Where two terms differ in it, it tells which is first.
fn leading(term: &[u8]) -> u64
    ensures number { result ≡ number_of term.now }
    ensures bytes { IsBytes term.now }
{
    u64::from_be_bytes([
        byte_at(term, 0),
        byte_at(term, 1),
        byte_at(term, 2),
        byte_at(term, 3),
        byte_at(term, 4),
        byte_at(term, 5),
        byte_at(term, 6),
        byte_at(term, 7),
    ])
}

/// The byte at that place of the term, or 0 behind its end.
fn byte_at(term: &[u8], place: usize) -> u8
    ensures { result ≡ get_or term.now place 0 }
{
    match term.get(place) {
        Some(byte) => *byte,
        None => 0,
    }
}

/// The lists of these terms at the live addresses, without the terms that stand at none: each is written and dropped
/// before the next one is cut. Where all addresses from the first place's on are live, none is looked up.
pub(crate) fn cut_to_live(
    alloc: Global,
    entries: &[(u64, (&[u8], Chain))],
    links: &[u32],
    addressing: &Addressing,
    live: &[Range],
) -> Result<Builder, NoMemory>
    requires terms { AllByRecursion (λ e. IsTerm e.1.0.now) entries.now }
    requires chains { AllByRecursion (λ e. AscendBetween 0 (length links.now) (places_of links.now e.1.1)) entries.now }
    requires few { length links.now < 2 ^ 32 }
    requires rising { IsRising addressing.now }
    requires bounded { end_of addressing.now links.now ≤ ADDRESSES_MAX }
    requires order { AreInOrder 0 (2 ^ 64 - 1) live.now }
    ensures { IfOk result (λ lists. lists.lists ≡ live_lists live.now (map (addressed addressing.now links.now) (map behind entries.now))) }
{
    let end = addressing.address_of(links.len() as u32);
    let all_live = are_covered(addressing.start(), end, live);
    let low = addressing.start().max(first_start(live));
    let mut lists = Builder::with_room(alloc, low, links.len() * POSTING_BYTES)?;
    for entry in entries {
        let addresses = addresses_from(alloc, entry.1.1, links, addressing, 0)?;
        put_live(alloc, &mut lists, entry.1.0, addresses, live, all_live)?;
    }
    Ok(lists)
}

/// Whether each address from `start` up to `end` lies in one of the ranges, where these are in order.
fn are_covered(start: u64, end: u64, ranges: &[Range]) -> bool
    requires { AreInOrder 0 (2 ^ 64 - 1) ranges.now }
    ensures { IsTrue result ↔ ((address : ℕ) → start ≤ address → address < end → is_live ranges.now address ≡ true) }
{
    let mut reached = start;
    for range in ranges {
        if reached < range.start {
            return end <= reached;
        }
        reached = reached.max(range.start + range.len);
    }
    end <= reached
}

/// Adds the list of the term at those of the addresses that are live, if there are any.
fn put_live(
    alloc: Global,
    lists: &mut Builder,
    term: &[u8],
    addresses: Vec<u64>,
    live: &[Range],
    all_live: bool,
) -> Result<(), NoMemory>
    requires term { IsTerm term.now }
    requires ascend { AscendBetween 0 ADDRESSES_MAX addresses.items }
    requires order { AreInOrder 0 (2 ^ 64 - 1) live.now }
    requires all { IsTrue all_live → AllByRecursion (λ address. is_live live.now address ≡ true) addresses.items }
    requires low { AllByRecursion (λ address. is_live live.now address ≡ true → lists.old.low ≤ address) addresses.items }
    ensures { OnOk result (lists.new ≡ record lists.old {
      lists = lists.old.lists ++ live_lists live.now ((term.now, addresses.items) ∷ []);
    }) }
{
    let at = live_among(alloc, addresses, live, all_live)?;
    if at.is_empty() {
        return Ok(());
    }
    let term = Bytes::from_slice(alloc, term)?;
    lists.add(&TermList { term, at })?;
    Ok(())
}

/// Those of the addresses that are live. Where all are, it takes no time and no memory.
fn live_among(
    alloc: Global,
    addresses: Vec<u64>,
    live: &[Range],
    all_live: bool,
) -> Result<Sequence<u64>, NoMemory>
    requires ascend { AscendBetween 0 (2 ^ 64 - 1) addresses.items }
    requires order { AreInOrder 0 (2 ^ 64 - 1) live.now }
    requires all { IsTrue all_live → AllByRecursion (λ address. is_live live.now address ≡ true) addresses.items }
    ensures at { IfOk result (λ at. at ≡ filter (is_live live.now) addresses.items) }
    ensures free { IsTrue all_live → IsOk result }
{
    if all_live {
        return Ok(Sequence::from(addresses));
    }
    within_frames(alloc, &addresses, live)
}
