//! The extents of an expression that has no operator, over frames that lie apart.
ghost use Rattle.std.specs.Prelude.{◌≡◌, ℕ, ◌+◌, ◌-◌, ◌^◌, ◌<◌, ◌≤◌, true, List, [], ◌∷◌, ◌++◌, All, length, drop, take, filter, map, nat_eq, nat_lt, slice_index, slice_index_or, IfOk, OnOk, if◌then◌else◌};
ghost use Rattle.std.specs.List.{range_with_len};
ghost use Rattle.std.specs.List.Sorted.{IsStrictlyIncreasing};
ghost use Rattle.wu_gcl.specs.Extents.{words_stand};
ghost use Rattle.wu_gcl.specs.Regions.{Phrase, Window};
ghost use Rattle.wu_solve.specs.Addresses.{is_among, has_address, AreLists};
ghost use Rattle.wu_base.specs.declared.addresses.TermList.{TermList};
ghost use Rattle.wu_solve.specs.Frames.{lies_in_one};
ghost use Rattle.wu_solve.specs.Operands.{run_from, run_around, runs_around};
ghost use Rattle.wu_solve.specs.Prefixes.{PrefixStands};
ghost use Rattle.wu_solve.specs.Solving.{moved, frame_hits, frames_hits, IsFrame};
ghost use Rattle.wu_base.specs.Ranges.{AreApart};

use crate::framing::{end_of, frame_at};
use crate::lookup::{
    Remembered, address_at, addresses_from, addresses_of, behind, has_address, is_at, rarest,
};
use crate::overlaps::{Stretch, farther, known_words, overlaps};
use std::alloc::Global;
use wu_base::{Bytes, Extent, NoMemory, Range, TermList};

/// The extents with so many places before and after one of the addresses that lie in one frame.
fn runs_in(
    alloc: Global,
    addresses: &[u64],
    before: u64,
    after: u64,
    frames: &[Range],
) -> Result<Vec<Extent>, NoMemory>
    requires ascending { IsStrictlyIncreasing addresses.now }
    requires frames { All IsFrame frames.now }
    requires apart { AreApart frames.now }
    requires fits { before + after < 2 ^ 63 }
    ensures { IfOk result (λ v. v.items ≡ filter (lies_in_one frames.now) (runs_around before after addresses.now)) }
{
    let mut found = Vec::new(alloc);
    let mut rest = addresses_from(addresses, before);
    let mut place = 0;
    while let Some(address) = rest.first() {
        let start = *address - before;
        place = frame_at(frames, place, start);
        if place == frames.len() {
            return Ok(found);
        }
        let frame = frames[place];
        if start < frame.start {
            rest = addresses_from(rest, frame.start + before);
        } else {
            let count = put_around(&mut found, rest, before, after, end_of(&frame))?;
            rest = behind(rest, count);
        }
    }
    Ok(found)
}

/// Puts the extents around the addresses in front that start before the end of the first one's frame,
/// but those that end behind it. Gives how many these addresses are.
#[inline(always)]
fn put_around(
    found: &mut Vec<Extent>,
    addresses: &[u64],
    before: u64,
    after: u64,
    end: u64,
) -> Result<usize, NoMemory>
    requires some { 0 < length addresses.now }
    requires first { slice_index addresses.now 0 - before < end }
    requires room { (k : ℕ) → k < length addresses.now → before ≤ slice_index addresses.now k }
    requires fits { end + before + after < 2 ^ 64 }
    ensures some { IfOk result (λ count. 0 < count) }
    ensures within { IfOk result (λ count. count ≤ length addresses.now) }
    ensures inside { IfOk result (λ count. (k : ℕ) → k < count → slice_index addresses.now k - before < end) }
    ensures put { IfOk result (λ count. found.new.items
        ≡ found.old.items ++ filter (λ x. nat_lt x.end end) (map (run_around before after) (take count addresses.now))) }
{
    let mut count = 0;
    while count < addresses.len() && addresses[count] - before < end {
        let address = addresses[count];
        let extent = Extent {
            start: address - before,
            end: address + after,
        };
        put_before(found, extent, end)?;
        count += 1;
    }
    Ok(count)
}

/// Puts the extent, if it ends before the end of its frame.
#[inline(always)]
fn put_before(found: &mut Vec<Extent>, extent: Extent, end: u64) -> Result<(), NoMemory>
    ensures { OnOk result (found.new.items ≡ found.old.items ++ (if nat_lt extent.end end then extent ∷ [] else [])) }
{
    if extent.end < end {
        found.push(extent)?;
    }
    Ok(())
}

/// The places of the term.
pub fn term(
    alloc: Global,
    term: &[u8],
    frames: &[Range],
    lists: &[TermList],
) -> Result<Vec<Extent>, NoMemory>
    requires lists { AreLists lists.now }
    requires frames { All IsFrame frames.now }
    requires apart { AreApart frames.now }
    ensures { IfOk result (λ v. v.items ≡ frames_hits (Phrase (term.now ∷ [])) lists.now frames.now) }
{
    runs_in(alloc, addresses_of(lists, term), 0, 0, frames)
}

/// The extents at which the words stand one after the other.
pub fn phrase(
    alloc: Global,
    words: &[Bytes],
    frames: &[Range],
    lists: &[TermList],
) -> Result<Vec<Extent>, NoMemory>
    requires lists { AreLists lists.now }
    requires frames { All IsFrame frames.now }
    requires apart { AreApart frames.now }
    ensures { IfOk result (λ v. v.items ≡ frames_hits (Phrase words.now) lists.now frames.now) }
{
    match words {
        [] => Ok(Vec::new(alloc)),
        [word] => term(alloc, word.as_slice(), frames, lists),
        _ => words_together(alloc, words, frames, lists),
    }
}

/// The extents of a phrase, found from the addresses of its rarest word.
fn words_together(
    alloc: Global,
    words: &[Bytes],
    frames: &[Range],
    lists: &[TermList],
) -> Result<Vec<Extent>, NoMemory>
    requires some { 0 < length words.now }
    requires lists { AreLists lists.now }
    requires frames { All IsFrame frames.now }
    requires apart { AreApart frames.now }
    ensures { IfOk result (λ v. v.items ≡ frames_hits (Phrase words.now) lists.now frames.now) }
{
    let rarest = rarest(words, lists);
    let addresses = addresses_of(lists, words[rarest].as_slice());
    let after = words.len() - rarest - 1;
    let runs = runs_in(alloc, addresses, rarest as u64, after as u64, frames)?;
    standing(alloc, words, rarest, runs, lists)
}

/// Those of the extents at whose start the words stand one after the other, where the word at the
/// known place is known to stand at each.
fn standing(
    alloc: Global,
    words: &[Bytes],
    known: usize,
    extents: Vec<Extent>,
    lists: &[TermList],
) -> Result<Vec<Extent>, NoMemory>
    requires lists { AreLists lists.now }
    requires low { All (λ x. x.start < 2 ^ 47) extents.items }
    requires known { All (λ x. has_address lists.now (slice_index_or words.now known []) (x.start + known) ≡ true) extents.items }
    ensures { IfOk result (λ v. v.items ≡ filter (λ x. words_stand (has_address lists.now) words.now x.start) extents.items) }
{
    if is_first_repeated(words) {
        return standing_again(alloc, words, &extents, lists);
    }
    word_by_word(alloc, words, known, extents, lists)
}

/// Whether the first word stands at a later place of the phrase too. Only the way to the extents
/// depends on it.
fn is_first_repeated(words: &[Bytes]) -> bool {
    for i in 1..words.len() {
        if words[i] == words[0] {
            return true;
        }
    }
    false
}

/// The same for each word in turn, beside the extents that the words before it left. Where the phrase
/// doesn't repeat its first word, and no address has two terms, no two extents share an address at
/// which words of both stand, so that words are looked up no more often than there are extents and
/// addresses under them.
fn word_by_word(
    alloc: Global,
    words: &[Bytes],
    known: usize,
    extents: Vec<Extent>,
    lists: &[TermList],
) -> Result<Vec<Extent>, NoMemory>
    requires lists { AreLists lists.now }
    requires low { All (λ x. x.start < 2 ^ 47) extents.items }
    requires known { All (λ x. has_address lists.now (slice_index_or words.now known []) (x.start + known) ≡ true) extents.items }
    ensures { IfOk result (λ v. v.items ≡ filter (λ x. words_stand (has_address lists.now) words.now x.start) extents.items) }
{
    let mut left = extents;
    for place in 0..words.len() {
        left = with_word(alloc, words, known, place, left, lists)?;
    }
    Ok(left)
}

/// Those of the extents that have the word of the phrase at its place.
fn with_word(
    alloc: Global,
    words: &[Bytes],
    known: usize,
    place: usize,
    extents: Vec<Extent>,
    lists: &[TermList],
) -> Result<Vec<Extent>, NoMemory>
    requires place { place < length words.now }
    requires lists { AreLists lists.now }
    requires low { All (λ x. x.start < 2 ^ 47) extents.items }
    requires known { All (λ x. has_address lists.now (slice_index_or words.now known []) (x.start + known) ≡ true) extents.items }
    ensures { IfOk result (λ v. v.items ≡ filter (λ x. has_address lists.now (slice_index_or words.now place []) (x.start + place)) extents.items) }
{
    if place == known {
        return Ok(extents);
    }
    let addresses = addresses_of(lists, words[place].as_slice());
    with_address(alloc, &extents, place as u64, addresses)
}

/// Those of the extents that have one of the addresses so far behind their start.
fn with_address(
    alloc: Global,
    extents: &[Extent],
    offset: u64,
    addresses: &[u64],
) -> Result<Vec<Extent>, NoMemory>
    requires ascending { IsStrictlyIncreasing addresses.now }
    requires low { All (λ x. x.start < 2 ^ 47) extents.now }
    requires fits { offset < 2 ^ 63 }
    ensures { IfOk result (λ v. v.items ≡ filter (λ x. is_among addresses.now (x.start + offset)) extents.now) }
{
    let mut found = Vec::new(alloc);
    let mut place = 0;
    for extent in extents {
        let address = extent.start + offset;
        place = address_at(addresses, place, address);
        if is_at(addresses, place, address) {
            found.push(*extent)?;
        }
    }
    Ok(found)
}

/// Those of the extents at whose start the words stand one after the other. Where no address has two
/// terms, words are looked up at most twice as often as there are extents and addresses under them,
/// however often the phrase repeats itself: what an earlier match tells of a later one isn't looked
/// up again.
fn standing_again(
    alloc: Global,
    words: &[Bytes],
    extents: &[Extent],
    lists: &[TermList],
) -> Result<Vec<Extent>, NoMemory>
    requires lists { AreLists lists.now }
    requires low { All (λ x. x.start < 2 ^ 47) extents.now }
    ensures { IfOk result (λ v. v.items ≡ filter (λ x. words_stand (has_address lists.now) words.now x.start) extents.now) }
{
    let overlaps = overlaps(alloc, words)?;
    let start = Remembered { list: 0, place: 0 };
    let mut remembered = vec![in alloc; start; words.len()]?;
    let mut stretch = Stretch { start: 0, count: 0 };
    let mut found = Vec::new(alloc);
    for extent in extents {
        let known = known_words(stretch, &overlaps, extent.start);
        let count = words_from(lists, words, &mut remembered, extent.start, known);
        let here = Stretch {
            start: extent.start,
            count,
        };
        stretch = farther(stretch, here);
        if count == words.len() {
            found.push(*extent)?;
        }
    }
    Ok(found)
}

/// How many of the words, the first ones, stand one after the other from the address on, where so
/// many are known to. For each word it is remembered where it was sought.
fn words_from(
    lists: &[TermList],
    words: &[Bytes],
    remembered: &mut [Remembered],
    address: u64,
    known: usize,
) -> usize
    requires lists { AreLists lists.now }
    requires each { length words.now ≤ length remembered.old }
    requires fits { address + length words.now < 2 ^ 64 }
    requires within { known ≤ length words.now }
    requires known { PrefixStands (has_address lists.now) words.now address known }
    ensures within { result ≤ length words.now }
    ensures stand { PrefixStands (has_address lists.now) words.now address result }
    ensures whole { words_stand (has_address lists.now) words.now address ≡ nat_eq result (length words.now) }
{
    for count in known..words.len() {
        let word = words[count].as_slice();
        if !has_address(lists, word, &mut remembered[count], address + count as u64) {
            return count;
        }
    }
    words.len()
}

/// Each extent of so many addresses, frame by frame.
pub fn windows(alloc: Global, size: u16, frames: &[Range]) -> Result<Vec<Extent>, NoMemory>
    requires { All IsFrame frames.now }
    ensures { (lists : List TermList) → IfOk result (λ v. v.items ≡ frames_hits (Window size) lists frames.now) }
{
    let mut found = Vec::new(alloc);
    for frame in frames {
        put_windows(&mut found, u64::from(size), *frame)?;
    }
    Ok(found)
}

/// Puts each extent of so many addresses of the frame.
fn put_windows(found: &mut Vec<Extent>, size: u64, frame: Range) -> Result<(), NoMemory>
    requires { IsFrame frame }
    ensures { (lists : List TermList) → OnOk result (found.new.items ≡ found.old.items ++ frame_hits (Window size) lists frame) }
{
    if size == 0 || frame.len < size {
        return Ok(());
    }
    put_runs(found, size - 1, frame.start, frame.len - size + 1)
}

/// Puts so many extents, from the start on, each with so many addresses after its first.
fn put_runs(found: &mut Vec<Extent>, after: u64, start: u64, count: u64) -> Result<(), NoMemory>
    requires { start + count + after < 2 ^ 63 }
    ensures { OnOk result (found.new.items ≡ found.old.items ++ map (moved start) (map (run_from after) (range_with_len 0 count))) }
{
    for i in 0..count {
        found.push(Extent {
            start: start + i,
            end: start + (i + after),
        })?;
    }
    Ok(())
}
