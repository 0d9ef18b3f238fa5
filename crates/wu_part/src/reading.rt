//! Reading of directories and blocks.
ghost use Rattle.std.specs.Prelude.{◌≡◌, ℕ, List, [], ◌+◌, ◌-◌, ◌<◌, ◌≤◌, true, IfOk, IfSome, IfNone, MatchBool, OnErr, length};
ghost use Rattle.std.specs.declared.cmp.Ordering.TheVariants.{Less};
ghost use Rattle.std.specs.Cmp.Lexicographic.{slice_cmp};
ghost use Rattle.std.specs.Ordering.{nat_cmp};
ghost use Rattle.wu_base.specs.declared.limits.TheConstants.{ADDRESSES_MAX, GENERATION_MAX};
ghost use Rattle.wu_vbyte.specs.Blocks.{SpellsBlock, AreFromTo};
ghost use Rattle.wu_part.specs.declared.entries.TermEntry.{TermEntry};
ghost use Rattle.wu_part.specs.Directories.{PartDirectory, SpellsDirectory};
ghost use Rattle.wu_part.specs.Entries.{StartsWithHead, IsNextEntry, HasFirstEntry, HasAnEntry, AreEntries, PassesEntry, IsWhole};
ghost use Rattle.wu_part.specs.Marks.{HasEntries, IsChecked};

use crate::directories::Directory;
use crate::entries::BlockEntry;
use crate::entry_bytes::EntryBytes;
use crate::entry_reading::{take_entry, three_numbers};
use crate::headers::HEADER_LEN;
use crate::marks::{Mark, put_mark};
use std::alloc::Global;
use wu_base::{ADDRESSES_MAX, GENERATION_MAX, NoMemory};
use wu_vbyte::{next_number, take_block};

/// The directory of a part of `size` bytes whose spelling the bytes are. `None` exactly where they are
/// no such spelling. Takes memory only where they were found to begin with an entry, and for a copy of them only once
/// all were checked.
pub fn read_directory(alloc: Global, bytes: &[u8], size: u64) -> Result<Option<Directory>, NoMemory>
    ensures found { IfOk result (λ read. IfSome read (λ directory. SpellsDirectory directory bytes.now × (directory.size ≡ size))) }
    ensures none { IfOk result (λ read. IfNone read ((directory : PartDirectory) → SpellsDirectory directory bytes.now
        → directory.size ≡ size → ⊥)) }
    ensures err { OnErr result (HasAnEntry size bytes.now) }
{
    let checked = match check_directory(alloc, bytes, size)? {
        Some(checked) => checked,
        None => return Ok(None),
    };
    let bytes = Vec::from_slice(alloc, bytes)?;
    Ok(Some(directory_with(checked, bytes, size)))
}

/// What [`read_directory`] gives of these bytes, which the directory keeps. Takes memory only where they were found to
/// begin with an entry.
pub fn keep_directory(
    alloc: Global,
    bytes: Vec<u8>,
    size: u64,
) -> Result<Option<Directory>, NoMemory>
    ensures found { IfOk result (λ read. IfSome read (λ directory. SpellsDirectory directory bytes.items × (directory.size ≡ size))) }
    ensures none { IfOk result (λ read. IfNone read ((directory : PartDirectory) → SpellsDirectory directory bytes.items
        → directory.size ≡ size → ⊥)) }
    ensures err { OnErr result (HasAnEntry size bytes.items) }
{
    let checked = match check_directory(alloc, &bytes, size)? {
        Some(checked) => checked,
        None => return Ok(None),
    };
    Ok(Some(directory_with(checked, bytes, size)))
}

/// What the bytes of a directory were found to hold: its head, where in them its entries begin, where in the part the
/// first block does, and marks in the entries.
#[derive(Drop)]
struct Checked {
    head: Head,
    start: usize,
    place: u64,
    marks: Vec<Mark>,
}

/// What the bytes hold of the directory of a part of `size` bytes. `None` exactly where they are no such spelling.
fn check_directory(alloc: Global, bytes: &[u8], size: u64) -> Result<Option<Checked>, NoMemory>
    ensures found { IfOk result (λ read. IfSome read (λ checked. IsChecked size bytes.now checked)) }
    ensures none { IfOk result (λ read. IfNone read ((directory : PartDirectory) → SpellsDirectory directory bytes.now
        → directory.size ≡ size → ⊥)) }
    ensures err { OnErr result (HasAnEntry size bytes.now) }
{
    let (head, rest) = match take_head(bytes) {
        Some(taken) => taken,
        None => return Ok(None),
    };
    let place = (HEADER_LEN + bytes.len()) as u64;
    if size < place {
        return Ok(None);
    }
    let marks = match take_entries(alloc, rest, &head, place, size)? {
        Some(marks) => marks,
        None => return Ok(None),
    };
    let start = bytes.len() - rest.len();
    Ok(Some(Checked {
        head,
        start,
        place,
        marks,
    }))
}

/// The directory of a part of `size` bytes with these bytes, which it keeps.
fn directory_with(checked: Checked, bytes: Vec<u8>, size: u64) -> Directory
    requires { IsChecked size bytes.items checked }
    ensures { SpellsDirectory result bytes.items × (result.size ≡ size) }
{
    Directory {
        head: checked.head,
        size,
        place: checked.place,
        bytes: EntryBytes::new(bytes, checked.start),
        marks: checked.marks,
    }
}

/// The block's `count` addresses, of which the bytes are the spelling, all of the bytes; `low` is the
/// part's lowest address. `None` exactly where they are no such spelling. Takes memory once at most, and only
/// where they are.
pub fn read_block(
    alloc: Global,
    bytes: &[u8],
    low: u64,
    entry: &BlockEntry,
    count: usize,
) -> Result<Option<Vec<u64>>, NoMemory>
    ensures found { IfOk result (λ block. IfSome block (λ found. SpellsBlock low found.items bytes.now
        × AreFromTo count entry.now.first entry.now.last found.items)) }
    ensures none { IfOk result (λ block. IfNone block ((addresses : List ℕ) → SpellsBlock low addresses bytes.now
        → AreFromTo count entry.now.first entry.now.last addresses → ⊥)) }
    ensures err { OnErr result ((addresses : List ℕ) × SpellsBlock low addresses bytes.now
        × AreFromTo count entry.now.first entry.now.last addresses) }
{
    take_block(alloc, bytes, low, count, entry.first, entry.last)
}

/// What a directory begins with: its numbers, the last of them that of its terms.
#[derive(Clone, Copy)]
pub(crate) struct Head {
    pub(crate) generation: u32,
    pub(crate) low: u64,
    pub(crate) high: u64,
    pub(crate) stored: u64,
    pub(crate) terms: u64,
}

/// The head of a directory, and its entries' bytes. `None` only where the bytes are no directory.
fn take_head(bytes: &[u8]) -> Option<(Head, &[u8])>
    ensures found { IfSome result (λ taken. StartsWithHead bytes.now taken.0 taken.1.now) }
    ensures none { IfNone result ((directory : PartDirectory) → SpellsDirectory directory bytes.now → ⊥) }
{
    let Some((generation, low, span, rest)) = three_numbers(bytes) else {
        return None;
    };
    let Some((stored, rest)) = next_number(rest) else {
        return None;
    };
    let Some((terms, rest)) = next_number(rest) else {
        return None;
    };
    if !are_numbers(generation, low, span, stored) {
        return None;
    }
    let head = Head {
        generation: generation as u32,
        low,
        high: low + span,
        stored,
        terms,
    };
    Some((head, rest))
}

/// Whether these may be the generation, the lowest address, how far the highest is above it, and the
/// number of addresses.
fn are_numbers(generation: u64, low: u64, span: u64, stored: u64) -> bool
    ensures { MatchBool result ((generation ≤ GENERATION_MAX) × (low + span < ADDRESSES_MAX) × (0 < stored) × (stored ≤ span + 1))
        (generation ≤ GENERATION_MAX → low + span < ADDRESSES_MAX → 0 < stored → stored ≤ span + 1 → ⊥) }
{
    generation <= u64::from(GENERATION_MAX)
        && low < ADDRESSES_MAX
        && span < ADDRESSES_MAX - low
        && 0 < stored
        && stored <= span + 1
}

/// How far the entries of a directory were read: the bytes that are left, where the next entry's blocks
/// begin, the last term, how many addresses are to come, and whether some block began at the part's
/// lowest address and some ended at its highest.
#[derive(Clone, Copy)]
struct Reached<'a> {
    rest: &'a [u8],
    place: u64,
    term: &'a [u8],
    left: u64,
    begun: bool,
    ended: bool,
}

/// Marks in the bytes, which spell the entries of a directory with this head, all of the bytes, where
/// the blocks stand from `place` to `size`. `None` exactly where they spell no such entries. Takes memory only once the
/// first entry was read.
#[inline(never)]
fn take_entries(
    alloc: Global,
    bytes: &[u8],
    head: &Head,
    place: u64,
    size: u64,
) -> Result<Option<Vec<Mark>>, NoMemory>
    requires high { head.now.high < ADDRESSES_MAX }
    requires place { place ≤ size }
    ensures found { IfOk result (λ read. IfSome read (λ marks. HasEntries head.now size bytes.now place marks.items)) }
    ensures none { IfOk result (λ read. IfNone read ((terms : List TermEntry)
        → AreEntries head.now size head.now.terms bytes.now place terms → IsWhole head.now terms → ⊥)) }
    ensures err { OnErr result (HasFirstEntry head.now size bytes.now place) }
{
    let mut marks = Vec::new(alloc);
    let mut reached = Reached {
        rest: bytes,
        place,
        term: &[],
        left: head.stored,
        begun: false,
        ended: false,
    };
    for number in 0..head.terms {
        let offset = bytes.len() - reached.rest.len();
        put_mark(&mut marks, number, offset, reached.place)?;
        reached = match pass_entry(head, size, &reached) {
            Some(next) => next,
            None => return Ok(None),
        };
    }
    if is_end(reached.rest, reached.place, size) && is_all(&reached) {
        Ok(Some(marks))
    } else {
        Ok(None)
    }
}

/// Whether the entries have ended, and their blocks at the part's end.
fn is_end(rest: &[u8], end: u64, size: u64) -> bool
    ensures { MatchBool result ((rest.now ≡ []) × (end ≡ size)) (rest.now ≡ [] → end ≡ size → ⊥) }
{
    rest.is_empty() && end == size
}

/// Whether the entries have all addresses, the lowest and the highest too.
fn is_all(reached: &Reached<'_>) -> bool
    ensures { MatchBool result ((reached.now.left ≡ 0) × (reached.now.begun ≡ true) × (reached.now.ended ≡ true))
        (reached.now.left ≡ 0 → reached.now.begun ≡ true → reached.now.ended ≡ true → ⊥) }
{
    reached.left == 0 && reached.begun && reached.ended
}

/// How far the entries are read with one entry more. `None` exactly where no entry that may follow
/// comes next.
#[inline(always)]
fn pass_entry<'a>(head: &Head, size: u64, from: &Reached<'a>) -> Option<Reached<'a>>
    requires high { head.now.high < ADDRESSES_MAX }
    requires place { from.now.place ≤ size }
    ensures found { IfSome result (λ next. PassesEntry head.now size from.now next) }
    ensures none { IfNone result ((entry : TermEntry) (rest : List ℕ) (end : ℕ)
        → IsNextEntry head.now size from.now.rest.now from.now.place entry rest end
        → slice_cmp nat_cmp from.now.term.now entry.term ≡ Less → entry.count ≤ from.now.left → ⊥) }
{
    let Some(next) = take_entry(from.rest, head, from.place, size) else {
        return None;
    };
    let term = next.entry.term();
    let count = next.entry.count();
    if ascends(from.term, term) && count <= from.left {
        Some(Reached {
            rest: next.rest,
            place: next.end,
            term,
            left: from.left - count,
            begun: from.begun || next.begins,
            ended: from.ended || next.ends,
        })
    } else {
        None
    }
}

/// Whether the term stands after the one before it.
#[inline(always)]
fn ascends(before: &[u8], term: &[u8]) -> bool
    ensures { MatchBool result (slice_cmp nat_cmp before.now term.now ≡ Less) (slice_cmp nat_cmp before.now term.now ≡ Less → ⊥) }
{
    // Neighbours mostly differ within a few bytes, where a call of `cmp` costs more than the bytes do.
    for at in 0..before.len().min(term.len()) {
        if before[at] != term[at] {
            return before[at] < term[at];
        }
    }
    before.len() < term.len()
}
