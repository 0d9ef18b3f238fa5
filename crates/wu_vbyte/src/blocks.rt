//! Blocks of ascending addresses.
ghost use Rattle.std.specs.Prelude.{◌≡◌, [], ◌++◌, ◌+◌, ◌-◌, ◌<◌, ◌≤◌, ◌⊎◌, ℕ, List, OnOk, OnErr, IfOk, IfSome, IfNone, MatchBool, length, drop, slice_index};
ghost use Rattle.std.specs.List.Sorted.{IsStrictlyIncreasing};
ghost use Rattle.wu_vbyte.specs.declared.blocks.TheConstants.{BLOCK_LEN};
ghost use Rattle.wu_vbyte.specs.Numbers.{StartsWithNumber};
ghost use Rattle.wu_vbyte.specs.Blocks.{SpellsBlock, SpellsAfterFirst, IsSpelledFromTo, SpellsFromTo, AppendsBlock, AreFromTo};

use crate::numbers::{next_number, put_number};
use crate::short::{are_small, are_small_in_block, decode_short, is_short};
use std::alloc::Global;
use wu_base::NoMemory;

/// The most addresses of a block.
pub const BLOCK_LEN: usize = 128;

/// Appends the spelling of the block of these addresses: 1 to `BLOCK_LEN` of them, strictly ascending, none
/// below `low`, from which the first is counted. Out of memory, the one error, `out` is as it was.
pub fn put_block(out: &mut Vec<u8>, low: u64, addresses: &[u64]) -> Result<(), NoMemory>
    requires some { 0 < length addresses.now }
    requires few { length addresses.now ≤ BLOCK_LEN }
    requires low { low ≤ slice_index addresses.now 0 }
    requires ascending { IsStrictlyIncreasing addresses.now }
    ensures ok { OnOk result (AppendsBlock out.old.items low addresses.now out.new.items) }
    ensures err { OnErr result (out.new.items ≡ out.old.items) }
{
    let before = out.len();
    if append_gaps(out, low, addresses).is_ok() {
        Ok(())
    } else {
        out.truncate(before);
        Err(NoMemory)
    }
}

/// Appends the spelling of the block. Out of memory, `out` may have gained bytes.
fn append_gaps(out: &mut Vec<u8>, low: u64, addresses: &[u64]) -> Result<(), NoMemory>
    requires some { 0 < length addresses.now }
    requires low { low ≤ slice_index addresses.now 0 }
    requires ascending { IsStrictlyIncreasing addresses.now }
    ensures ok { OnOk result (AppendsBlock out.old.items low addresses.now out.new.items) }
    ensures err { OnErr result ((more : List ℕ) × (out.new.items ≡ out.old.items ++ more)) }
{
    put_number(out, addresses[0] - low)?;
    for place in 1..addresses.len() {
        put_number(out, addresses[place] - addresses[place - 1])?;
    }
    Ok(())
}

/// Whether the bytes are the spelling of `count` addresses from `first` to `last`, all of the bytes. The first is
/// counted from `low`. Takes no memory.
pub fn is_block(bytes: &[u8], low: u64, count: usize, first: u64, last: u64) -> bool
    ensures { MatchBool result ((addresses : List ℕ) × SpellsBlock low addresses bytes.now × AreFromTo count first last addresses)
        ((addresses : List ℕ) → SpellsBlock low addresses bytes.now → AreFromTo count first last addresses → ⊥) }
{
    if !is_enough(bytes.len(), count) {
        return false;
    }
    if last < first {
        return false;
    }
    match after_first(bytes, low, first) {
        Some(rest) => are_later(rest, count, first, last),
        None => false,
    }
}

/// The addresses of the block that the bytes spell, which were checked by [`is_block`]. Takes memory once. Out of
/// memory is the one error.
pub fn decode_block(
    alloc: Global,
    bytes: &[u8],
    low: u64,
    count: usize,
    first: u64,
    last: u64,
) -> Result<Vec<u64>, NoMemory>
    requires { (addresses : List ℕ) × SpellsBlock low addresses bytes.now × AreFromTo count first last addresses }
    ensures { IfOk result (λ found. SpellsBlock low found.items bytes.now × AreFromTo count first last found.items) }
{
    let Some(rest) = after_first(bytes, low, first) else {
        unreachable!()
    };
    decode_later(alloc, rest, count, first, last)
}

/// The `count` addresses from `first` to `last` of which the bytes are the spelling, all of the bytes. The first is
/// counted from `low`. `None` exactly where they are no such spelling: see [`is_block`]. Takes memory once at
/// most, and only where they are.
pub fn take_block(
    alloc: Global,
    bytes: &[u8],
    low: u64,
    count: usize,
    first: u64,
    last: u64,
) -> Result<Option<Vec<u64>>, NoMemory>
    ensures found { IfOk result (λ block. IfSome block (λ found. SpellsBlock low found.items bytes.now × AreFromTo count first last found.items)) }
    ensures none { IfOk result (λ block. IfNone block ((addresses : List ℕ) → SpellsBlock low addresses bytes.now →
        AreFromTo count first last addresses → ⊥)) }
    ensures err { OnErr result ((addresses : List ℕ) × SpellsBlock low addresses bytes.now
        × AreFromTo count first last addresses) }
{
    if !is_block(bytes, low, count, first, last) {
        return Ok(None);
    }
    Ok(Some(decode_block(alloc, bytes, low, count, first, last)?))
}

/// Whether so many bytes may hold so many addresses, which take a byte each at least.
fn is_enough(bytes: usize, count: usize) -> bool
    ensures { MatchBool result ((0 < count) × (count ≤ bytes)) ((count ≡ 0) ⊎ (bytes < count)) }
{
    0 < count && count <= bytes
}

/// The bytes after the first number, where that is the one of the address `first`.
fn after_first(bytes: &[u8], low: u64, first: u64) -> Option<&[u8]>
    ensures found { IfSome result (λ rest. (low ≤ first) × StartsWithNumber bytes.now (first - low) rest.now) }
    ensures none { IfNone result ((rest : List ℕ) → low ≤ first → StartsWithNumber bytes.now (first - low) rest → ⊥) }
{
    match next_number(bytes) {
        Some((number, rest)) => {
            if is_first(number, low, first) {
                Some(rest)
            } else {
                None
            }
        }
        None => None,
    }
}

/// Whether the number is how far `first` is above `low`.
fn is_first(number: u64, low: u64, first: u64) -> bool
    ensures { MatchBool result ((low ≤ first) × (number ≡ first - low)) (low ≤ first → number ≡ first - low → ⊥) }
{
    low <= first && number == first - low
}

/// The address after `before`, up to `last`, of which the bytes start with the number, and the rest.
#[inline(always)]
fn next_address(bytes: &[u8], before: u64, last: u64) -> Option<(u64, &[u8])>
    requires { before ≤ last }
    ensures found { IfSome result (λ next. (before < next.0) × (next.0 ≤ last) ×
        StartsWithNumber bytes.now (next.0 - before) next.1.now) }
    ensures none { IfNone result ((address : ℕ) (rest : List ℕ) → before < address → address ≤ last →
        StartsWithNumber bytes.now (address - before) rest → ⊥) }
{
    match next_number(bytes) {
        Some((gap, rest)) => {
            if is_gap(gap, last - before) {
                Some((before + gap, rest))
            } else {
                None
            }
        }
        None => None,
    }
}

/// Whether a number is the difference of two addresses of a block, of which the later is at most so
/// far away.
#[inline(always)]
fn is_gap(number: u64, room: u64) -> bool
    ensures { MatchBool result ((0 < number) × (number ≤ room)) ((number ≡ 0) ⊎ (room < number)) }
{
    0 < number && number <= room
}

/// Whether the bytes are those of a block of `count` addresses from `first` to `last` after the first number.
fn are_later(bytes: &[u8], count: usize, first: u64, last: u64) -> bool
    requires count { 0 < count }
    requires within { first ≤ last }
    ensures { MatchBool result
        (IsSpelledFromTo count first last bytes.now)
        ((addresses : List ℕ) → SpellsAfterFirst first addresses bytes.now → AreFromTo count first last addresses → ⊥) }
{
    if are_small(bytes, first) {
        is_short(bytes, count, first, last)
    } else {
        are_gaps(bytes, count, first, last)
    }
}

/// The addresses of a block of which the bytes are the spelling after the first number. Out of memory is the one
/// error.
fn decode_later(
    alloc: Global,
    bytes: &[u8],
    count: usize,
    first: u64,
    last: u64,
) -> Result<Vec<u64>, NoMemory>
    requires { IsSpelledFromTo count first last bytes.now }
    ensures { IfOk result (λ found. SpellsFromTo count first last bytes.now found.items) }
{
    if are_small_in_block(bytes, count, first, last) {
        decode_short(alloc, bytes, count, first, last)
    } else {
        decode_gaps(alloc, bytes, count, first, last)
    }
}

/// The same, number by number.
fn decode_gaps(
    alloc: Global,
    bytes: &[u8],
    count: usize,
    first: u64,
    last: u64,
) -> Result<Vec<u64>, NoMemory>
    requires { IsSpelledFromTo count first last bytes.now }
    ensures { IfOk result (λ found. SpellsFromTo count first last bytes.now found.items) }
{
    let mut addresses = Vec::with_capacity(alloc, count)?;
    addresses.push_reserved(first);
    let mut rest = bytes;
    let mut before = first;
    for _ in 1..count {
        let Some((address, after)) = next_address(rest, before, last) else {
            unreachable!()
        };
        addresses.push_reserved(address);
        before = address;
        rest = after;
    }
    Ok(addresses)
}

/// The same as [`are_later`], number by number.
fn are_gaps(bytes: &[u8], count: usize, first: u64, last: u64) -> bool
    requires count { 0 < count }
    requires within { first ≤ last }
    ensures { MatchBool result (IsSpelledFromTo count first last bytes.now)
        ((addresses : List ℕ) → SpellsAfterFirst first addresses bytes.now → AreFromTo count first last addresses → ⊥) }
{
    let mut rest = bytes;
    let mut before = first;
    for _ in 1..count {
        let Some((address, after)) = next_address(rest, before, last) else {
            return false;
        };
        before = address;
        rest = after;
    }
    is_complete(rest, last, before)
}

/// Whether the block has ended: at the end of the bytes, with the last address.
fn is_complete(rest: &[u8], last: u64, address: u64) -> bool
    ensures { MatchBool result ((rest.now ≡ []) × (address ≡ last)) (rest.now ≡ [] → address ≡ last → ⊥) }
{
    rest.is_empty() && address == last
}

/// A law: each block of ascending addresses from `low` on has one spelling, and a spelling is that
/// of one block.
pub fn each_block_has_one_spelling()
    ensures some { (low : ℕ) (addresses : List ℕ) → 0 < length addresses → low ≤ slice_index addresses 0 → IsStrictlyIncreasing addresses →
        (code : List ℕ) × SpellsBlock low addresses code }
    ensures spelling { (low : ℕ) (addresses code other : List ℕ) → SpellsBlock low addresses code → SpellsBlock low addresses other → code ≡ other }
    ensures block { (low : ℕ) (addresses others code : List ℕ) → SpellsBlock low addresses code → SpellsBlock low others code → addresses ≡ others }
{}

/// A law: no block's spelling begins that of another block of as many addresses.
pub fn no_block_begins_another()
    ensures { (low : ℕ) (addresses others code other rest left : List ℕ) → SpellsBlock low addresses code → SpellsBlock low others other →
        length addresses ≡ length others → code ++ rest ≡ other ++ left → (addresses ≡ others) × (rest ≡ left) }
{}
