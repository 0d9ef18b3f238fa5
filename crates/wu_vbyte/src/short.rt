//! Blocks whose numbers take one byte or two each, as those of a frequent word: they are read byte by
//! byte with no branch on where a number ends, which can't be foretold.
ghost use Rattle.std.specs.Prelude.{◌≡◌, ◌+◌, ◌*◌, ◌%◌, ◌^◌, ◌<◌, ◌≤◌, ◌⊎◌, ℕ, List, IfOk, MatchBool, length};
ghost use Rattle.wu_vbyte.specs.declared.short.TheConstants.{SHORT_LEN, FIRST_MAX};
ghost use Rattle.wu_vbyte.specs.Blocks.{SpellsAfterFirst, IsSpelledFromTo, SpellsFromTo, AreFromTo, AreShort, AreSingle, HasEnd, HasPart, HaveEach};

use std::alloc::Global;
use wu_base::NoMemory;

/// The most bytes of a block that is read here.
const SHORT_LEN: usize = 255;

/// The most that the first address of such a block is, so that no sum is above 2^64 - 1.
const FIRST_MAX: u64 = 1 << 63;

/// Whether the numbers are short, and no sum of some of them and `first` is above 2^64 - 1: blocks of such
/// numbers are checked and decoded here.
pub fn are_small(bytes: &[u8], first: u64) -> bool
    ensures { MatchBool result ((length bytes.now ≤ 255) × (first ≤ 2 ^ 63) × AreShort 0 bytes.now)
        (length bytes.now ≤ 255 → first ≤ 2 ^ 63 → AreShort 0 bytes.now → ⊥) }
{
    bytes.len() <= SHORT_LEN && first <= FIRST_MAX && are_short(bytes)
}

/// The same of a block's spelling. Where its addresses lie near to each other no byte is looked at.
pub fn are_small_in_block(bytes: &[u8], count: usize, first: u64, last: u64) -> bool
    requires { IsSpelledFromTo count first last bytes.now }
    ensures { MatchBool result ((length bytes.now ≤ 255) × (first ≤ 2 ^ 63) × AreShort 0 bytes.now)
        (length bytes.now ≤ 255 → first ≤ 2 ^ 63 → AreShort 0 bytes.now → ⊥) }
{
    if is_near(first, last) && bytes.len() <= SHORT_LEN && first <= FIRST_MAX {
        true
    } else {
        are_small(bytes, first)
    }
}

/// Whether no difference between addresses from `first` to `last` can take more than two bytes.
fn is_near(first: u64, last: u64) -> bool
    requires { first ≤ last }
    ensures { MatchBool result (last < first + 2 ^ 14) (first + 2 ^ 14 ≤ last) }
{
    last - first < 1 << 14
}

/// Whether the bytes are those of a block of `count` addresses from `first` to `last` after the first number.
pub fn is_short(bytes: &[u8], count: usize, first: u64, last: u64) -> bool
    requires few { length bytes.now ≤ 255 }
    requires first { first ≤ 2 ^ 63 }
    requires short { AreShort 0 bytes.now }
    ensures { MatchBool result
        (IsSpelledFromTo count first last bytes.now)
        ((addresses : List ℕ) → SpellsAfterFirst first addresses bytes.now → AreFromTo count first last addresses → ⊥) }
{
    // Sums of few bits, so that many bytes are added at once.
    let mut all: u16 = 0;
    let mut high: u16 = 0;
    let mut unended: u8 = 0;
    let mut before = 0;
    for at in 0..bytes.len() {
        let byte = bytes[at];
        all += bits(byte);
        high += high_bits(before, byte);
        unended += goes_on(byte);
        before = byte;
    }
    let taken = bytes.len() + 1 - usize::from(unended);
    let total = first + u64::from(all) + u64::from(high) * 127;
    is_whole(before, taken, count, total, last)
}

/// Whether a block ends after this byte: no number goes on, and there are `count` addresses, up to `last`.
#[inline(always)]
fn is_whole(byte: u8, taken: usize, count: usize, total: u64, last: u64) -> bool
    ensures { MatchBool result ((byte < 128) × (taken ≡ count) × (total ≡ last)) (byte < 128 → taken ≡ count → total ≡ last → ⊥) }
{
    byte < 128 && taken == count && total == last
}

/// The addresses of a block of which the bytes are the spelling after the first number. Out of memory is the
/// one error.
pub fn decode_short(
    alloc: Global,
    bytes: &[u8],
    count: usize,
    first: u64,
    last: u64,
) -> Result<Vec<u64>, NoMemory>
    requires few { length bytes.now ≤ 255 }
    requires first { first ≤ 2 ^ 63 }
    requires short { AreShort 0 bytes.now }
    requires spelled { IsSpelledFromTo count first last bytes.now }
    ensures { IfOk result (λ found. SpellsFromTo count first last bytes.now found.items) }
{
    if bytes.len() + 1 == count {
        return decode_single(alloc, bytes, first, last);
    }
    let parts = parts_of(bytes);
    let ends = ends_of(bytes);
    let mut addresses = [0; SHORT_LEN + 1];
    addresses[0] = first;
    let mut taken = 1;
    let mut total = first;
    for at in 0..bytes.len() {
        total += u64::from(parts[at]);
        addresses[taken] = total;
        // `ends` has only 0 and 1. The remainder changes nothing: by it the sum is seen to stay small.
        taken += usize::from(ends[at] % 2);
    }
    let mut found = Vec::with_capacity(alloc, count)?;
    found.extend_from_slice(&addresses[..taken])?;
    Ok(found)
}

/// The same of a block of an address more than bytes: each byte is a number.
fn decode_single(alloc: Global, bytes: &[u8], first: u64, last: u64) -> Result<Vec<u64>, NoMemory>
    requires few { length bytes.now ≤ SHORT_LEN }
    requires first { first ≤ FIRST_MAX }
    requires single { AreSingle bytes.now }
    requires spelled { IsSpelledFromTo (length bytes.now + 1) first last bytes.now }
    ensures { IfOk result (λ found. SpellsFromTo (length bytes.now + 1) first last bytes.now found.items) }
{
    let mut addresses = [0; SHORT_LEN + 1];
    addresses[0] = first;
    let mut total = first;
    for at in 0..bytes.len() {
        total += u64::from(bytes[at]);
        addresses[at + 1] = total;
    }
    let mut found = Vec::with_capacity(alloc, bytes.len() + 1)?;
    found.extend_from_slice(&addresses[..bytes.len() + 1])?;
    Ok(found)
}

/// Whether no byte is 0, and none of two neighbours but one goes on with a number. Takes no branch on a byte, so
/// that many are looked at at once.
fn are_short(bytes: &[u8]) -> bool
    requires { length bytes.now ≤ SHORT_LEN }
    ensures { MatchBool result (AreShort 0 bytes.now) (AreShort 0 bytes.now → ⊥) }
{
    let mut faults: u8 = 0;
    let mut before = 0;
    for at in 0..bytes.len() {
        let byte = bytes[at];
        faults += fault(before, byte);
        before = byte;
    }
    faults == 0
}

/// 1 where the byte, after the byte before it, isn't one of short numbers, and else 0.
#[inline(always)]
fn fault(before: u8, byte: u8) -> u8
    ensures few { result ≤ 1 }
    ensures none { result ≡ 0 → (0 < byte) × ((before < 128) ⊎ (byte < 128)) }
    ensures one { 0 < result → 0 < byte → (before < 128) ⊎ (byte < 128) → ⊥ }
{
    u8::from(byte == 0 || before >= 128 && byte >= 128)
}

/// What each byte adds to its number. Takes no branch on a byte, so that many are looked at at once.
#[inline(always)]
fn parts_of(bytes: &[u8]) -> [u16; SHORT_LEN]
    requires { length bytes.now ≤ SHORT_LEN }
    ensures long { length result ≡ SHORT_LEN }
    ensures parts { HaveEach HasPart 0 bytes.now result }
{
    let mut parts = [0; SHORT_LEN];
    let mut before = 0;
    for at in 0..bytes.len() {
        let byte = bytes[at];
        parts[at] = part(before, byte);
        before = byte;
    }
    parts
}

/// How many numbers end at each byte, found in the same way.
#[inline(always)]
fn ends_of(bytes: &[u8]) -> [u8; SHORT_LEN]
    requires { length bytes.now ≤ SHORT_LEN }
    ensures long { length result ≡ SHORT_LEN }
    ensures ends { HaveEach HasEnd 0 bytes.now result }
{
    let mut ends = [0; SHORT_LEN];
    for at in 0..bytes.len() {
        ends[at] = ended(bytes[at]);
    }
    ends
}

/// What a byte adds to the number, after the byte before it, which goes on with the number where its top
/// bit is set.
#[inline(always)]
fn part(before: u8, byte: u8) -> u16
    ensures { HasPart before byte result }
{
    let low = u16::from(byte % 128);
    if before < 128 { low } else { low * 128 }
}

/// The bits of a number that the byte has.
#[inline(always)]
fn bits(byte: u8) -> u16
    ensures { result ≡ byte % 128 }
{
    u16::from(byte % 128)
}

/// The same of a byte that goes on with a number, and else 0.
#[inline(always)]
fn high_bits(before: u8, byte: u8) -> u16
    ensures below { result < 128 }
    ensures small { before < 128 → result ≡ 0 }
    ensures large { 128 ≤ before → result ≡ byte % 128 }
{
    if before < 128 {
        0
    } else {
        u16::from(byte % 128)
    }
}

/// How many numbers go on after the byte: 1 or 0.
#[inline(always)]
fn goes_on(byte: u8) -> u8
    ensures few { result ≤ 1 }
    ensures none { byte < 128 → result ≡ 0 }
    ensures one { 128 ≤ byte → result ≡ 1 }
{
    byte / 128
}

/// How many numbers end at the byte.
#[inline(always)]
fn ended(byte: u8) -> u8
    ensures { (before : ℕ) → HasEnd before byte result }
{
    u8::from(byte < 128)
}
