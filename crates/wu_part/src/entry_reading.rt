//! Reading of one entry of a directory: its term, its count and its blocks.
ghost use Rattle.std.specs.Prelude.{◌≡◌, ◌==◌, ℕ, List, [], ◌∷◌, ◌++◌, ◌+◌, ◌<◌, ◌≤◌, ◌^◌, ◌||◌, IfSome, IfNone, MatchBool, length};
ghost use Rattle.std.specs.List.{list_any};
ghost use Rattle.wu_base.specs.declared.limits.TheConstants.{ADDRESSES_MAX, WORD_MAX};
ghost use Rattle.wu_vbyte.specs.Numbers.{StartsWithNumber};
ghost use Rattle.wu_part.specs.declared.entries.TermEntry.{TermEntry};
ghost use Rattle.wu_part.specs.declared.entries.BlockEntry.{BlockEntry};
ghost use Rattle.wu_part.specs.Directories.{StartsWithNumbers};
ghost use Rattle.wu_part.specs.Entries.{IsNextBlock, AreNextBlocks, HasBlocks, IsNextEntry};

use crate::cursors::Entry;
use crate::entries::{BlockEntry, first_count};
use crate::reading::Head;
use wu_base::WORD_MAX;
use wu_vbyte::{next_large, next_number};

/// An entry that bytes start with, the rest of the bytes, where its blocks end, and whether some block
/// of it begins at the part's lowest address and some ends at its highest.
#[derive(Drop)]
pub(crate) struct NextEntry<'a> {
    pub(crate) entry: Entry<'a>,
    pub(crate) rest: &'a [u8],
    pub(crate) end: u64,
    pub(crate) begins: bool,
    pub(crate) ends: bool,
}

/// The entry that the bytes start with; its blocks begin at `place`. `None` exactly where the bytes
/// start with no entry whose blocks end at `size` at the latest.
#[inline(always)]
pub(crate) fn take_entry<'a>(
    bytes: &'a [u8],
    head: &Head,
    place: u64,
    size: u64,
) -> Option<NextEntry<'a>>
    requires high { head.now.high < ADDRESSES_MAX }
    requires place { place ≤ size }
    ensures found { IfSome result (λ next. IsNextEntry head.now size bytes.now place next.entry next.rest.now next.end) }
    ensures begins { IfSome result (λ next. next.begins ≡ list_any (λ block. block.first == head.now.low) next.entry.blocks) }
    ensures ends { IfSome result (λ next. next.ends ≡ list_any (λ block. block.last == head.now.high) next.entry.blocks) }
    ensures none { IfNone result ((entry : TermEntry) (rest : List ℕ) (end : ℕ)
        → IsNextEntry head.now size bytes.now place entry rest end → ⊥) }
{
    let Some((term, rest)) = take_term(bytes) else {
        return None;
    };
    let Some((count, rest)) = take_count(rest) else {
        return None;
    };
    let Some(blocks) = take_blocks(rest, head, count, place, size) else {
        return None;
    };
    Some(NextEntry {
        entry: Entry {
            term,
            count,
            low: head.low,
            bytes: rest,
            place,
        },
        rest: blocks.rest,
        end: blocks.end,
        begins: blocks.begins,
        ends: blocks.ends,
    })
}

/// The term that the bytes start with, after its length, and the rest.
#[inline]
pub(crate) fn take_term(bytes: &[u8]) -> Option<(&[u8], &[u8])>
    ensures found { IfSome result (λ next. StartsWithNumber bytes.now (length next.0.now) (next.0.now ++ next.1.now)
        × (0 < length next.0.now) × (length next.0.now ≤ WORD_MAX)) }
    ensures none { IfNone result ((term rest : List ℕ) → 0 < length term → length term ≤ WORD_MAX
        → StartsWithNumber bytes.now (length term) (term ++ rest) → ⊥) }
{
    let Some((length, rest)) = next_number(bytes) else {
        return None;
    };
    if is_term_length(length, rest.len()) {
        Some(rest.split_at(length as usize))
    } else {
        None
    }
}

/// Whether a term may have this length, where so many bytes are left.
#[inline]
fn is_term_length(length: u64, left: usize) -> bool
    ensures { MatchBool result ((0 < length) × (length ≤ WORD_MAX) × (length ≤ left)) (0 < length → length ≤ WORD_MAX → length ≤ left → ⊥) }
{
    0 < length && length <= WORD_MAX as u64 && length <= left as u64
}

/// The number of addresses that the bytes start with, at least 1, and the rest.
#[inline(always)]
pub(crate) fn take_count(bytes: &[u8]) -> Option<(u64, &[u8])>
    ensures found { IfSome result (λ next. StartsWithNumber bytes.now next.0 next.1.now × (0 < next.0)) }
    ensures none { IfNone result ((number : ℕ) (rest : List ℕ) → 0 < number → number < 2 ^ 64 → StartsWithNumber bytes.now number rest
        → ⊥) }
{
    let Some((count, rest)) = next_number(bytes) else {
        return None;
    };
    if count > 0 { Some((count, rest)) } else { None }
}

/// What comes after blocks that bytes start with: the rest of the bytes, where the blocks end, and
/// whether some of them begins at the part's lowest address and some ends at its highest.
#[derive(Clone, Copy)]
struct AfterBlocks<'a> {
    rest: &'a [u8],
    end: u64,
    begins: bool,
    ends: bool,
}

/// What comes after the blocks of so many addresses that the bytes start with, which begin at `place`.
/// `None` exactly where the bytes start with no such blocks that end at `size` at the latest.
#[inline(always)]
fn take_blocks<'a>(
    bytes: &'a [u8],
    head: &Head,
    count: u64,
    place: u64,
    size: u64,
) -> Option<AfterBlocks<'a>>
    requires high { head.now.high < ADDRESSES_MAX }
    requires place { place ≤ size }
    ensures found { IfSome result (λ after. HasBlocks head.now size count bytes.now place after) }
    ensures none { IfNone result ((blocks : List BlockEntry) (rest : List ℕ) (end : ℕ)
        → AreNextBlocks head.now size head.now.low count bytes.now place blocks rest end → ⊥) }
{
    let mut after = AfterBlocks {
        rest: bytes,
        end: place,
        begins: false,
        ends: false,
    };
    let mut from = head.low;
    let mut left = count;
    while left > 0 {
        let in_block = first_count(left);
        let Some((block, rest)) = take_block_entry(
            after.rest, head, from, in_block, after.end, size,
        ) else {
            return None;
        };
        let begins = is_noted(after.begins, block.first, head.low);
        let ends = is_noted(after.ends, block.last, head.high);
        after = AfterBlocks {
            rest,
            end: after.end + block.len,
            begins,
            ends,
        };
        from = block.last + 1;
        left -= in_block;
    }
    Some(after)
}

/// Whether it was noted before, or the address is the wanted one.
#[inline(always)]
fn is_noted(before: bool, address: u64, wanted: u64) -> bool
    ensures { result ≡ (before || address == wanted) }
{
    before || address == wanted
}

/// The block of so many addresses, none of them below `from`, that the bytes start with, and the rest.
#[inline(always)]
fn take_block_entry<'a>(
    bytes: &'a [u8],
    head: &Head,
    from: u64,
    count: u64,
    place: u64,
    size: u64,
) -> Option<(BlockEntry, &'a [u8])>
    requires high { head.now.high < ADDRESSES_MAX }
    requires some { 0 < count }
    requires from { head.now.low ≤ from }
    requires place { place ≤ size }
    ensures found { IfSome result (λ next. IsNextBlock head.now size from count bytes.now place next.0 next.1.now) }
    ensures none { IfNone result ((block : BlockEntry) (rest : List ℕ)
        → IsNextBlock head.now size from count bytes.now place block rest → ⊥) }
{
    let Some((above, span, len, rest)) = three_numbers(bytes) else {
        return None;
    };
    if !fits(above, span, head) {
        return None;
    }
    let first = head.low + above;
    let block = BlockEntry {
        first,
        last: first + span,
        at: place,
        len,
    };
    if is_block(first, span, from, count) && is_room(len, place, size) {
        Some((block, rest))
    } else {
        None
    }
}

/// Whether an address so far above the lowest, and one so far above that, are at most the highest.
#[inline]
fn fits(above: u64, span: u64, head: &Head) -> bool
    ensures { MatchBool result (head.now.low + above + span ≤ head.now.high) (head.now.high < head.now.low + above + span) }
{
    head.low <= head.high && above <= head.high - head.low && span <= head.high - head.low - above
}

/// Whether a block of so many addresses, none below `from`, may begin at `first` and end so far above.
#[inline]
fn is_block(first: u64, span: u64, from: u64, count: u64) -> bool
    requires { 0 < count }
    ensures { MatchBool result ((from ≤ first) × (count ≤ span + 1) × (count ≡ 1 → span ≡ 0))
        (from ≤ first → count ≤ span + 1 → (count ≡ 1 → span ≡ 0) → ⊥) }
{
    from <= first && count - 1 <= span && (count > 1 || span == 0)
}

/// Whether so many bytes fit between the place and the part's end.
#[inline]
fn is_room(len: u64, place: u64, size: u64) -> bool
    requires { place ≤ size }
    ensures { MatchBool result (place + len ≤ size) (size < place + len) }
{
    len <= size - place
}

/// The three numbers that the bytes start with, and the rest. The first two are mostly large.
#[inline(always)]
pub(crate) fn three_numbers(bytes: &[u8]) -> Option<(u64, u64, u64, &[u8])>
    ensures found { IfSome result (λ next. StartsWithNumbers bytes.now (next.0 ∷ next.1 ∷ next.2 ∷ []) next.3.now) }
    ensures none { IfNone result ((a b c : ℕ) (rest : List ℕ) → a < 2 ^ 64 → b < 2 ^ 64 → c < 2 ^ 64
        → StartsWithNumbers bytes.now (a ∷ b ∷ c ∷ []) rest → ⊥) }
{
    let Some((first, rest)) = next_large(bytes) else {
        return None;
    };
    let Some((second, rest)) = next_large(rest) else {
        return None;
    };
    let Some((third, rest)) = next_number(rest) else {
        return None;
    };
    Some((first, second, third, rest))
}
