//! The walk over the parts of the index and the texts, side by side by address.
ghost use Rattle.std.specs.Prelude.{◌≡◌, ℕ, ◌+◌, ◌-◌, ◌<◌, ◌≤◌, ◌++◌, true, List, Ok, MatchBool};
ghost use Rattle.std.specs.Prelude.{IfNone, IfOk, IfSome, OnOk, Some, length, drop, take, sum_by};
ghost use Rattle.std.specs.List.{AllByRecursion, list_any};
ghost use Rattle.std.specs.List.Sorted.{IsNonDecreasingBy};
ghost use Rattle.wu_base.specs.declared.addresses.TermList.{TermList};
ghost use Rattle.wu_base.specs.Ranges.{AreApart};
ghost use Rattle.wu_outside.specs.Faults.{HasFaultCause};
ghost use Rattle.wu_outside.specs.Reading.{OnlyReads};
ghost use Rattle.wu_part.specs.Parts.{IsBroken};
ghost use Rattle.wu_image.specs.LayoutRules.{SpansAscend, lies_in};
ghost use Rattle.wu_check.specs.Indexing.{IsIndexOf};
ghost use Rattle.wu_check.specs.Places.{total_of};
ghost use Rattle.wu_check.specs.Reads.{ReadsAll, ReadsAllOf, ReadsFront, ReadsFrontOf};
ghost use Rattle.wu_check.specs.Reads.{TriesIndex, TriesOwn, TriesPart};
ghost use Rattle.wu_check.specs.Reads.{index_ranges, part_ranges, texts_ranges};
ghost use Rattle.wu_check.specs.Walking.{AreCompared, FindsText, FindsWrong, HasIndex, IsIndexFor};
ghost use Rattle.wu_check.specs.Walking.{IsReadable, IsVerdict, UnlessText, leftmost_of, ranges_of};
ghost use Rattle.wu_check.specs.Walking.{verdict_if, verdict_without};

use crate::blobs::read_whole;
use crate::indexing::{PartIndex, index_part};
use crate::texts::{compare_file, first_broken};
use std::alloc::Global;
use wu_base::{ADDRESSES_MAX, NoMemory, PartRec, Range};
use wu_image::FileRec;
use wu_outside::{Fault, Store};

/// What is found of a part and of the texts whose ranges lie within its span.
#[derive(Clone, Copy)]
enum Verdict {
    /// Each text is as it was recorded, and so is the part, which has their tokens.
    Sound,
    /// Each text is as it was recorded, and the part isn't, or it has other tokens.
    WrongPart,
    /// The text in that blob is the first that isn't as it was recorded.
    BrokenText { blob: u64 },
}

/// The blob of the first text that isn't as it was recorded, or, where all are, of the leftmost
/// part that isn't, or that hasn't the tokens of the texts within its span. The files stand in the
/// order of their addresses, and the parts from left to right. Each text and each part is read
/// once.
pub(crate) fn first_wrong<D: Store>(
    alloc: Global,
    store: &mut D,
    files: &[FileRec],
    parts: &[PartRec],
) -> Result<Option<u64>, Fault>
    requires files { AllByRecursion IsReadable files.now }
    requires ascend { IsNonDecreasingBy (λ file. file.range.start) files.now }
    requires apart { AreApart (ranges_of files.now) }
    requires homes { 0 < length parts.now
        → AllByRecursion (λ file. list_any (λ part. lies_in file.range part) parts.now ≡ true)
        files.now }
    requires spans { (next : ℕ) × SpansAscend 0 parts.now next }
    ensures found { IfOk result (λ found. IfSome (D.holds store.old)
        (λ content. FindsWrong content files.now parts.now found)) }
    ensures reads { OnlyReads D.Store store.old store.new result }
    ensures ranges { ReadsFrontOf (TriesIndex files.now parts.now)
        (D.reads store.old) (D.reads store.new) }
    ensures whole { IfOk result (λ found. IfNone found
        (ReadsAll (index_ranges files.now parts.now) (D.reads store.old) (D.reads store.new))) }
    ensures cause { HasFaultCause (D.faults store.old) (D.faults store.new) result }
{
    let mut wrong = None;
    let mut done = 0;
    for part in parts {
        let end = done + count_started(&files[done..], part.high);
        let verdict = check_part(alloc, store, part, &files[done..end])?;
        if let Verdict::BrokenText { blob } = verdict {
            return Ok(Some(blob));
        }
        wrong = leftmost(wrong, verdict, part.blob);
        done = end;
    }
    match first_broken(alloc, store, &files[done..])? {
        Some(blob) => Ok(Some(blob)),
        None => Ok(wrong),
    }
}

/// How many of the files, which stand in the order of their addresses, start at or before the
/// address: the first ones. Takes time logarithmic in their number.
fn count_started(files: &[FileRec], address: u64) -> usize
    requires { IsNonDecreasingBy (λ file. file.range.start) files.now }
    ensures within { result ≤ length files.now }
    ensures started { AllByRecursion (λ file. file.range.start ≤ address) (take result files.now) }
    ensures others { AllByRecursion (λ file. address < file.range.start) (drop result files.now) }
{
    files.partition_point(|file| file.range.start <= address)
}

/// The leftmost wrong part, where one more was looked at.
fn leftmost(wrong: Option<u64>, verdict: Verdict, blob: u64) -> Option<u64>
    ensures { result ≡ leftmost_of wrong verdict blob }
{
    match (wrong, verdict) {
        (None, Verdict::WrongPart) => Some(blob),
        _ => wrong,
    }
}

/// What is found of the part and of the texts of these files, whose ranges lie within its span, in
/// their order.
fn check_part<D: Store>(
    alloc: Global,
    store: &mut D,
    part: &PartRec,
    files: &[FileRec],
) -> Result<Verdict, Fault>
    requires files { AllByRecursion IsReadable files.now }
    requires apart { AreApart (ranges_of files.now) }
    requires lie { AllByRecursion (λ file. lies_in file.range part.now ≡ true) files.now }
    ensures verdict { IfOk result (λ verdict. IfSome (D.holds store.old)
        (λ content. IsVerdict content part.now files.now verdict)) }
    ensures reads { OnlyReads D.Store store.old store.new result }
    ensures ranges { ReadsFrontOf (TriesOwn part.now files.now)
        (D.reads store.old) (D.reads store.new) }
    ensures tried { IfOk result (λ verdict. UnlessText verdict
        (ReadsAllOf (TriesOwn part.now files.now) (D.reads store.old) (D.reads store.new))) }
    ensures whole { result ≡ Ok Verdict.Sound
        → ReadsAll (part_ranges part.now ++ texts_ranges files.now)
        (D.reads store.old) (D.reads store.new) }
    ensures cause { HasFaultCause (D.faults store.old) (D.faults store.new) result }
{
    match index_of(alloc, store, part, files)? {
        Some(index) => compare_texts(alloc, store, &index, files),
        None => Ok(without_part(first_broken(alloc, store, files)?)),
    }
}

/// What is found of a broken part, with the first text that is broken.
fn without_part(broken: Option<u64>) -> Verdict
    ensures { result ≡ verdict_without broken }
{
    match broken {
        Some(blob) => Verdict::BrokenText { blob },
        None => Verdict::WrongPart,
    }
}

/// The part's lists, indexed by the ranges of the files. None where the part isn't as it was
/// recorded.
fn index_of<D: Store>(
    alloc: Global,
    store: &mut D,
    part: &PartRec,
    files: &[FileRec],
) -> Result<Option<PartIndex>, Fault>
    requires apart { AreApart (ranges_of files.now) }
    requires lie { AllByRecursion (λ file. lies_in file.range part.now ≡ true) files.now }
    ensures found { IfOk result (λ found. IfSome found (λ index. IfSome (D.holds store.old)
        (λ content. HasIndex content part.now files.now index))) }
    ensures long { IfOk result (λ found. IfSome found
        (λ index. length index.numbers.items ≡ total_of (ranges_of files.now))) }
    ensures none { IfOk result (λ found. IfNone found (IfSome (D.holds store.old)
        (λ content. IsBroken part.now (content.blobs part.now.blob)))) }
    ensures reads { OnlyReads D.Store store.old store.new result }
    ensures ranges { ReadsFront (part_ranges part.now) (D.reads store.old) (D.reads store.new) }
    ensures whole { IfOk result (λ found. IfSome found (λ _.
        ReadsAll (part_ranges part.now) (D.reads store.old) (D.reads store.new))) }
    ensures tried { OnOk result
        (ReadsAllOf (TriesPart part.now) (D.reads store.old) (D.reads store.new)) }
    ensures cause { HasFaultCause (D.faults store.old) (D.faults store.new) result }
{
    // No part has an address from the limit on, so one that is recorded so is broken.
    if part.high >= ADDRESSES_MAX {
        return Ok(None);
    }
    let ranges = ranges_of(alloc, files)?;
    match read_whole(alloc, store, part.blob, part.size)? {
        Some(bytes) => Ok(index_part(alloc, part, &bytes, &ranges)?),
        None => Ok(None),
    }
}

/// The files' ranges.
fn ranges_of(alloc: Global, files: &[FileRec]) -> Result<Vec<Range>, NoMemory>
    ensures { IfOk result (λ ranges. ranges.items ≡ ranges_of files.now) }
{
    let mut ranges = Vec::with_capacity(alloc, files.len())?;
    for file in files {
        ranges.push(file.range)?;
    }
    Ok(ranges)
}

/// Compares the texts of the files, one after another, with the part that is indexed by their
/// ranges.
fn compare_texts<D: Store>(
    alloc: Global,
    store: &mut D,
    index: &PartIndex,
    files: &[FileRec],
) -> Result<Verdict, Fault>
    requires files { AllByRecursion IsReadable files.now }
    requires long { length index.now.numbers.items ≡ total_of (ranges_of files.now) }
    ensures compared { IfOk result (λ verdict. (lists : List TermList)
        → IsIndexFor (ranges_of files.now) lists index.now
        → IfSome (D.holds store.old) (λ content. AreCompared content lists files.now verdict)) }
    ensures reads { OnlyReads D.Store store.old store.new result }
    ensures ranges { ReadsFront (texts_ranges files.now) (D.reads store.old) (D.reads store.new) }
    ensures whole { IfOk result (λ verdict. UnlessText verdict
        (ReadsAll (texts_ranges files.now) (D.reads store.old) (D.reads store.new))) }
    ensures cause { HasFaultCause (D.faults store.old) (D.faults store.new) result }
{
    let mut same = true;
    let mut place = 0;
    for file in files {
        match compare_file(alloc, store, index, place, file)? {
            Some(found) => same = same && found,
            None => return Ok(Verdict::BrokenText { blob: file.blob }),
        }
        place += file.range.len as usize;
    }
    Ok(verdict_of(same))
}

/// What is found where no text is wrong, and the part has their tokens or hasn't.
fn verdict_of(same: bool) -> Verdict
    ensures { result ≡ verdict_if same }
{
    if same {
        Verdict::Sound
    } else {
        Verdict::WrongPart
    }
}
