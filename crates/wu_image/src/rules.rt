//! The rules of the layout, on what is recorded of texts and parts.
ghost use Rattle.std.specs.Prelude.{◌≡◌, ◌↔◌, ℕ, [], ◌∷◌, ◌++◌, ◌+◌, ◌*◌, ◌^◌, ◌<◌, ◌≤◌, true, false, eqb, nat_lt, IfOk, IfSome, IfNone};
ghost use Rattle.std.specs.Prelude.{MatchBool, OnOk, filter, get_or, length, map};
ghost use Rattle.std.specs.List.{AllByRecursion, IsDistinct, list_any};
ghost use Rattle.wu_base.specs.declared.addresses.PartRec.{PartRec};
ghost use Rattle.wu_base.specs.declared.limits.TheConstants.{GENERATION_MAX, TEXT_MAX};
ghost use Rattle.wu_image.specs.LayoutRules.{AreLayoutRules, IsPart, IsText, SpansAscend, lies_in, named_blobs};
ghost use Rattle.wu_image.specs.Checks.{AreApart, AreInOrder, ArePartsFrom, RangesLieInParts, IsNextPart, RiseFrom};

use crate::records::FileRec;
use std::alloc::Global;
use wu_base::{GENERATION_MAX, NoMemory, PartRec, Range, TEXT_MAX};

/// Whether records of texts and parts keep the rules of the layout. Takes memory for a few words of each
/// text and part, and time that is near linear in their number.
pub(crate) fn keep_rules(
    alloc: Global,
    next_address: u64,
    next_blob: u64,
    flushes: u64,
    files: &[FileRec],
    parts: &[PartRec],
) -> Result<bool, NoMemory>
    ensures { IfOk result (λ keep. MatchBool keep (AreLayoutRules next_address next_blob flushes files.now parts.now)
        (AreLayoutRules next_address next_blob flushes files.now parts.now → ⊥)) }
{
    if !are_parts(parts, next_address, flushes) {
        return Ok(false);
    }
    if !are_texts(files, next_address) {
        return Ok(false);
    }
    let apart = are_apart(alloc, files)?;
    if !apart {
        return Ok(false);
    }
    let homes = have_homes(alloc, files, parts)?;
    if !homes {
        return Ok(false);
    }
    let blobs = are_blobs(alloc, next_blob, files, parts)?;
    Ok(blobs)
}

// ---- parts

/// Whether the parts ascend and their generations never rise, whether each is one that may be, and whether
/// so many flushes may have made them.
fn are_parts(parts: &[PartRec], next_address: u64, flushes: u64) -> bool
    ensures { MatchBool result (ArePartsFrom 0 GENERATION_MAX flushes next_address parts.now × (flushes < 2 ^ 62))
        (ArePartsFrom 0 GENERATION_MAX flushes next_address parts.now → flushes < 2 ^ 62 → ⊥) }
{
    if flushes >= 1 << GENERATION_MAX {
        return false;
    }
    let mut from = 0;
    let mut limit = GENERATION_MAX;
    let mut flushes_left = flushes;
    for part in parts {
        if !is_next_part(part, from, limit, flushes_left, next_address) {
            return false;
        }
        from = part.high + 1;
        limit = part.generation;
        flushes_left -= 1 << part.generation;
    }
    true
}

/// Whether the part's span lies from an address on and before the next address, its generation is at most
/// the limit, and it may be one that these flushes made.
fn is_next_part(part: &PartRec, from: u64, limit: u32, flushes: u64, next_address: u64) -> bool
    requires { limit ≤ GENERATION_MAX }
    ensures { MatchBool result (IsNextPart from limit flushes next_address part.now)
        (IsNextPart from limit flushes next_address part.now → ⊥) }
{
    is_span(part, from, next_address)
        && part.generation <= limit
        && 1 << part.generation <= flushes
        && is_part(part)
}

/// Whether the part's span lies from an address on and before the next address.
fn is_span(part: &PartRec, from: u64, next_address: u64) -> bool
    ensures { MatchBool result ((from ≤ part.now.low) × (part.now.low ≤ part.now.high) × (part.now.high < next_address))
        (from ≤ part.now.low → part.now.low ≤ part.now.high → part.now.high < next_address → ⊥) }
{
    from <= part.low && part.low <= part.high && part.high < next_address
}

/// Whether the addresses that are stored have room in the span, and the part is large enough.
fn is_part(part: &PartRec) -> bool
    ensures { MatchBool result (IsPart part.now) (IsPart part.now → ⊥) }
{
    part.size >= PART_MIN
        && part.stored > 0
        && part.stored - 1 <= part.high.saturating_sub(part.low)
}

/// The fewest bytes of a part: its header has 16.
const PART_MIN: u64 = 17;

// ---- texts

/// Whether each record of a text is one that may be.
fn are_texts(files: &[FileRec], next_address: u64) -> bool
    ensures { MatchBool result (AllByRecursion (IsText next_address) files.now) (AllByRecursion (IsText next_address) files.now → ⊥) }
{
    for file in files {
        if !is_text(file, next_address) {
            return false;
        }
    }
    true
}

/// Whether a record of a text is one that may be.
fn is_text(file: &FileRec, next_address: u64) -> bool
    ensures { MatchBool result (IsText next_address file.now) (IsText next_address file.now → ⊥) }
{
    is_length(file) && is_kept(file) && ends_by(&file.range, next_address)
}

/// Whether the length of a text may be, and whether its range may be as long as it is.
fn is_length(file: &FileRec) -> bool
    ensures { MatchBool result ((file.now.len ≤ TEXT_MAX) × (2 ≤ file.now.range.len) × (file.now.range.len ≤ 3 * file.now.len + 2))
        (file.now.len ≤ TEXT_MAX → 2 ≤ file.now.range.len → file.now.range.len ≤ 3 * file.now.len + 2 → ⊥) }
{
    let len = u64::from(file.len);
    len <= TEXT_MAX as u64 && file.range.len >= 2 && file.range.len <= 3 * len + 2
}

/// Whether a text has a blob, unless it is empty.
fn is_kept(file: &FileRec) -> bool
    ensures { MatchBool result ((file.now.blob ≡ 0) ↔ (file.now.len ≡ 0)) ((file.now.blob ≡ 0) ↔ (file.now.len ≡ 0) → ⊥) }
{
    (file.blob == 0) == (file.len == 0)
}

/// Whether the range ends by the address.
fn ends_by(range: &Range, end: u64) -> bool
    ensures { MatchBool result (range.now.start + range.now.len ≤ end) (end < range.now.start + range.now.len) }
{
    range.start <= end && range.len <= end - range.start
}

// ---- ranges

/// Whether no address is in the ranges of two files. Each range ends below 2^64.
fn are_apart(alloc: Global, files: &[FileRec]) -> Result<bool, NoMemory>
    requires { AllByRecursion (λ file. (0 < file.range.len) × (file.range.start + file.range.len < 2 ^ 64)) files.now }
    ensures { IfOk result (λ apart. MatchBool apart (AreApart files.now) (AreApart files.now → ⊥)) }
{
    let mut ranges = ranges_of(alloc, files)?;
    ranges.sort_unstable_by_key(|range| range.start);
    Ok(are_in_order(&ranges))
}

/// The files' ranges.
fn ranges_of(alloc: Global, files: &[FileRec]) -> Result<Vec<Range>, NoMemory>
    ensures { IfOk result (λ ranges. ranges.items ≡ map (λ file. file.range) files.now) }
{
    let mut ranges = Vec::with_capacity(alloc, files.len())?;
    for file in files {
        ranges.push(file.range)?;
    }
    Ok(ranges)
}

/// Whether each range ends before the next one starts.
fn are_in_order(ranges: &[Range]) -> bool
    requires { AllByRecursion (λ range. range.start + range.len < 2 ^ 64) ranges.now }
    ensures { MatchBool result (AreInOrder 0 ranges.now) (AreInOrder 0 ranges.now → ⊥) }
{
    let mut from = 0;
    for range in ranges {
        if range.start < from {
            return false;
        }
        from = range.start + range.len;
    }
    true
}

/// Whether each file's range lies in a part, and each part has as many addresses as the ranges that lie in
/// it. The parts' spans ascend.
fn have_homes(alloc: Global, files: &[FileRec], parts: &[PartRec]) -> Result<bool, NoMemory>
    requires filled { AllByRecursion (λ file. 0 < file.range.len) files.now }
    requires spans { (next : ℕ) × SpansAscend 0 parts.now next }
    ensures { IfOk result (λ have. MatchBool have (RangesLieInParts files.now parts.now) (RangesLieInParts files.now parts.now → ⊥)) }
{
    let mut room = stored_of(alloc, parts)?;
    for file in files {
        let Some(place) = home_of(parts, &file.range) else {
            return Ok(false);
        };
        if room[place] < file.range.len {
            return Ok(false);
        }
        room[place] -= file.range.len;
    }
    Ok(true)
}

/// How many addresses each part has.
fn stored_of(alloc: Global, parts: &[PartRec]) -> Result<Vec<u64>, NoMemory>
    ensures { IfOk result (λ stored. stored.items ≡ map (λ part. part.stored) parts.now) }
{
    let mut stored = Vec::with_capacity(alloc, parts.len())?;
    for part in parts {
        stored.push(part.stored)?;
    }
    Ok(stored)
}

/// The place of the part in whose span the range lies, or `None` where it lies in none.
fn home_of(parts: &[PartRec], range: &Range) -> Option<usize>
    requires filled { 0 < range.now.len }
    requires spans { (next : ℕ) × SpansAscend 0 parts.now next }
    ensures found { IfSome result (λ place. (place < length parts.now)
        × ((d : PartRec) → lies_in range.now (get_or parts.now place d) ≡ true)) }
    ensures none { IfNone result (list_any (λ part. lies_in range.now part) parts.now ≡ false) }
{
    let place = parts.partition_point(|part| part.high < range.start);
    if place == parts.len() {
        return None;
    }
    if is_home(&parts[place], range) {
        Some(place)
    } else {
        None
    }
}

/// Whether the range lies in the part's span.
fn is_home(part: &PartRec, range: &Range) -> bool
    requires { 0 < range.now.len }
    ensures { result ≡ lies_in range.now part.now }
{
    part.low <= range.start && range.start <= part.high && range.len - 1 <= part.high - range.start
}

// ---- blobs

/// Whether the blobs of texts and parts differ and were drawn.
fn are_blobs(
    alloc: Global,
    next_blob: u64,
    files: &[FileRec],
    parts: &[PartRec],
) -> Result<bool, NoMemory>
    ensures { IfOk result (λ are. MatchBool are
        (IsDistinct eqb (named_blobs files.now parts.now)
        × AllByRecursion (λ blob. (0 < blob) × (blob < next_blob)) (named_blobs files.now parts.now))
        (IsDistinct eqb (named_blobs files.now parts.now)
        → AllByRecursion (λ blob. (0 < blob) × (blob < next_blob)) (named_blobs files.now parts.now) → ⊥)) }
{
    let mut blobs = blobs_of(alloc, files, parts)?;
    if !are_drawn(&blobs, next_blob) {
        return Ok(false);
    }
    blobs.sort_unstable();
    Ok(rise(&blobs))
}

/// The blobs of texts that aren't empty, and those of parts.
fn blobs_of(alloc: Global, files: &[FileRec], parts: &[PartRec]) -> Result<Vec<u64>, NoMemory>
    ensures { IfOk result (λ blobs. blobs.items ≡ named_blobs files.now parts.now) }
{
    let mut blobs = Vec::new(alloc);
    for file in files {
        push_blob(&mut blobs, file.blob)?;
    }
    for part in parts {
        blobs.push(part.blob)?;
    }
    Ok(blobs)
}

/// Puts a text's blob at the end, unless it is 0, which is no blob.
fn push_blob(blobs: &mut Vec<u64>, blob: u64) -> Result<(), NoMemory>
    ensures { OnOk result (blobs.new.items ≡ blobs.old.items ++ filter (nat_lt 0) (blob ∷ [])) }
{
    if blob > 0 {
        blobs.push(blob)?;
        Ok(())
    } else {
        Ok(())
    }
}

/// Whether each of the blobs was drawn.
fn are_drawn(blobs: &[u64], next_blob: u64) -> bool
    ensures { MatchBool result (AllByRecursion (λ blob. (0 < blob) × (blob < next_blob)) blobs.now)
        (AllByRecursion (λ blob. (0 < blob) × (blob < next_blob)) blobs.now → ⊥) }
{
    for blob in blobs {
        if !is_drawn(*blob, next_blob) {
            return false;
        }
    }
    true
}

fn is_drawn(blob: u64, next_blob: u64) -> bool
    ensures { MatchBool result ((0 < blob) × (blob < next_blob)) (0 < blob → blob < next_blob → ⊥) }
{
    0 < blob && blob < next_blob
}

/// Whether each number is above the one before it. None of them is the greatest of 64 bits.
fn rise(numbers: &[u64]) -> bool
    requires { AllByRecursion (λ number. number + 1 < 2 ^ 64) numbers.now }
    ensures { MatchBool result (RiseFrom 0 numbers.now) (RiseFrom 0 numbers.now → ⊥) }
{
    let mut from = 0;
    for number in numbers {
        if *number < from {
            return false;
        }
        from = *number + 1;
    }
    true
}
