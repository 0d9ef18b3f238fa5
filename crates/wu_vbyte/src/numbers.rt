//! Numbers from 0 to 2^64 - 1.
ghost use Rattle.std.specs.Prelude.{◌≡◌, ◌++◌, ◌+◌, ◌*◌, ◌%◌, ◌^◌, ◌<◌, ◌≤◌, ◌⊎◌, ⊤, ℕ, slice_index, List, OnOk, OnErr, IfSome, IfNone, MatchBool, length, drop};
ghost use Rattle.wu_vbyte.specs.Numbers.{SpellsNumber, StartsWithNumber, IsNumberAt, AppendsNumber};

use wu_base::NoMemory;

/// How many bits of a number one byte has.
const GROUP_BITS: u32 = 7;

/// The place in a number of the bits that a tenth byte has. There the number has one bit left.
const LAST_SHIFT: u32 = 63;

/// Appends the spelling of the number, at most ten bytes. Out of memory, `out` is as it was.
pub fn put_number(out: &mut Vec<u8>, number: u64) -> Result<(), NoMemory>
    ensures ok { OnOk result (AppendsNumber out.old.items number out.new.items) }
    ensures err { OnErr result (out.new.items ≡ out.old.items) }
{
    let before = out.len();
    if append_groups(out, number).is_ok() {
        Ok(())
    } else {
        out.truncate(before);
        Err(NoMemory)
    }
}

/// Appends the spelling of the number. Out of memory, `out` may have gained bytes.
fn append_groups(out: &mut Vec<u8>, number: u64) -> Result<(), NoMemory>
    ensures ok { OnOk result (AppendsNumber out.old.items number out.new.items) }
    ensures err { OnErr result ((more : List ℕ) × (out.new.items ≡ out.old.items ++ more)) }
{
    let mut rest = number;
    while rest >= 128 {
        out.push(continued(rest))?;
        rest >>= GROUP_BITS;
    }
    out.push(rest as u8)?;
    Ok(())
}

/// The byte of the number's lowest seven bits, where another byte follows.
fn continued(number: u64) -> u8
    ensures { result ≡ 128 + number % 128 }
{
    128 + (number % 128) as u8
}

/// The number whose spelling stands at `place`, and the place after it. `None` exactly where no
/// spelling of a number below 2^64 stands there. `place` is counted in bytes from 0 and is at most their
/// number. Takes no memory.
#[inline]
pub fn take_number(bytes: &[u8], place: usize) -> Option<(u64, usize)>
    requires { place ≤ length bytes.now }
    ensures found { IfSome result (λ found. IsNumberAt bytes.now place found.0 found.1) }
    ensures none { IfNone result ((number : ℕ) (rest : List ℕ) → number < 2 ^ 64 →
        StartsWithNumber (drop place bytes.now) number rest → ⊥) }
{
    match next_number(&bytes[place..]) {
        Some((number, rest)) => Some((number, bytes.len() - rest.len())),
        None => None,
    }
}

/// The number that the bytes start with, and the rest. `None` exactly where they start with no
/// spelling of a number below 2^64. Takes no memory.
#[inline(always)]
pub fn next_number(bytes: &[u8]) -> Option<(u64, &[u8])>
    ensures found { IfSome result (λ next. StartsWithNumber bytes.now next.0 next.1.now) }
    ensures none { IfNone result ((number : ℕ) (rest : List ℕ) → number < 2 ^ 64 → StartsWithNumber bytes.now number rest → ⊥) }
{
    // Most numbers of a block take one byte or two, so the callers have these two cases in their loops.
    let [low, after_low @ ..] = bytes else {
        return None;
    };
    if is_last(*low) {
        return Some((u64::from(*low), after_low));
    }
    let [high, after_high @ ..] = after_low else {
        return None;
    };
    if is_second(*high) {
        return Some((two_groups(*low, *high), after_high));
    }
    next_groups(bytes)
}

/// The number that the bytes start with, and the rest, as `next_number` tells them: for numbers most of
/// which take three bytes or four. `None` exactly where they start with no spelling of a number below
/// 2^64. Takes no memory.
#[inline(always)]
pub fn next_large(bytes: &[u8]) -> Option<(u64, &[u8])>
    ensures found { IfSome result (λ next. StartsWithNumber bytes.now next.0 next.1.now) }
    ensures none { IfNone result ((number : ℕ) (rest : List ℕ) → number < 2 ^ 64 → StartsWithNumber bytes.now number rest → ⊥) }
{
    // One test of the length serves four bytes.
    if bytes.len() >= 4 && !is_last(bytes[0]) && !is_last(bytes[1]) {
        if is_second(bytes[2]) {
            return Some((three_groups(bytes[0], bytes[1], bytes[2]), &bytes[3..]));
        }
        if !is_last(bytes[2]) && is_second(bytes[3]) {
            let number = four_groups(bytes[0], bytes[1], bytes[2], bytes[3]);
            return Some((number, &bytes[4..]));
        }
    }
    next_number(bytes)
}

/// Whether the byte ends a spelling of two bytes, or of three or four.
#[inline(always)]
fn is_second(byte: u8) -> bool
    ensures { MatchBool result ((0 < byte) × (byte < 128)) ⊤ }
{
    0 < byte && byte < 128
}

/// The number of two bytes, of which the first one has the lowest seven bits.
#[inline(always)]
fn two_groups(low: u8, high: u8) -> u64
    requires { high < 128 }
    ensures { result ≡ low % 128 + high * 2 ^ 7 }
{
    u64::from(low % 128) + (u64::from(high) << GROUP_BITS)
}

/// The number of three bytes, of which the first one has the lowest seven bits.
#[inline(always)]
fn three_groups(low: u8, middle: u8, high: u8) -> u64
    requires { high < 128 }
    ensures { result ≡ low % 128 + middle % 128 * 2 ^ 7 + high * 2 ^ 14 }
{
    two_groups(low, middle % 128) + (u64::from(high) << (2 * GROUP_BITS))
}

/// The number of four bytes, of which the first one has the lowest seven bits.
#[inline(always)]
fn four_groups(low: u8, second: u8, third: u8, high: u8) -> u64
    requires { high < 128 }
    ensures { result ≡ low % 128 + second % 128 * 2 ^ 7 + third % 128 * 2 ^ 14 + high * 2 ^ 21 }
{
    three_groups(low, second, third % 128) + (u64::from(high) << (3 * GROUP_BITS))
}

/// The number of two bytes or more that the bytes start with, and the rest. `None` exactly where they
/// start with no spelling of a number below 2^64.
#[inline(never)]
fn next_groups(bytes: &[u8]) -> Option<(u64, &[u8])>
    requires some { 0 < length bytes.now }
    requires continued { 128 ≤ slice_index bytes.now 0 }
    ensures found { IfSome result (λ next. StartsWithNumber bytes.now next.0 next.1.now) }
    ensures none { IfNone result ((number : ℕ) (rest : List ℕ) → number < 2 ^ 64 → StartsWithNumber bytes.now number rest → ⊥) }
{
    let mut number = u64::from(bytes[0] % 128);
    let mut shift = GROUP_BITS;
    for at in 1..bytes.len() {
        let byte = bytes[at];
        if is_last(byte) {
            if !is_end(byte, shift) {
                return None;
            }
            return Some((with_group(number, byte, shift), &bytes[at + 1..]));
        }
        if shift == LAST_SHIFT {
            return None;
        }
        number = with_group(number, byte % 128, shift);
        shift += GROUP_BITS;
    }
    None
}

/// Whether a last byte ends a spelling of two bytes or more: it is worth more than 0, and where the
/// number has one bit left, no more than that bit.
fn is_end(byte: u8, shift: u32) -> bool
    requires { shift ≤ 63 }
    ensures { MatchBool result ((0 < byte) × (shift ≡ 63 → byte ≡ 1)) ((byte ≡ 0) ⊎ (shift ≡ 63) × (1 < byte)) }
{
    byte == 1 || byte > 1 && shift < LAST_SHIFT
}

/// The number with seven more bits above the lowest `shift` ones.
fn with_group(number: u64, group: u8, shift: u32) -> u64
    requires shift { shift ≤ 63 }
    requires below { number < 2 ^ shift }
    requires fits { (group + 1) * 2 ^ shift ≤ 2 ^ 64 }
    ensures { result ≡ number + group * 2 ^ shift }
{
    number + (u64::from(group) << shift)
}

/// Whether the byte is the last of a spelling.
#[inline(always)]
fn is_last(byte: u8) -> bool
    ensures { MatchBool result (byte < 128) (128 ≤ byte) }
{
    byte < 128
}

/// A law: each number has one spelling, of at most ten bytes where the number is below 2^64, and a
/// spelling is that of one number.
pub fn each_number_has_one_spelling()
    ensures some { (number : ℕ) → (code : List ℕ) × SpellsNumber number code }
    ensures length { (number : ℕ) (code : List ℕ) → number < 2 ^ 64 → SpellsNumber number code → length code ≤ 10 }
    ensures spelling { (number : ℕ) (code other : List ℕ) → SpellsNumber number code → SpellsNumber number other → code ≡ other }
    ensures number { (number other : ℕ) (code : List ℕ) → SpellsNumber number code → SpellsNumber other code → number ≡ other }
{}

/// A law: no spelling begins another, so bytes begin with at most one.
pub fn no_number_begins_another()
    ensures { (bytes : List ℕ) (number other : ℕ) (rest left : List ℕ) → StartsWithNumber bytes number rest →
        StartsWithNumber bytes other left → (number ≡ other) × (rest ≡ left) }
{}
