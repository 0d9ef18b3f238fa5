//! The texts that a checkpoint records, as a store has them.
ghost use Rattle.std.specs.Prelude.{◌≡◌, ◌≢◌, ◌<◌, ◌≤◌, true, [], List, Ok, MatchBool};
ghost use Rattle.std.specs.Prelude.{IfNone, IfOk, IfSome, length};
ghost use Rattle.std.specs.List.{AllByRecursion};
ghost use Rattle.wu_base.specs.declared.addresses.Range.{Range};
ghost use Rattle.wu_base.specs.declared.addresses.TermList.{TermList};
ghost use Rattle.wu_base.specs.declared.limits.TheConstants.{TEXT_MAX};
ghost use Rattle.wu_outside.specs.Faults.{HasFaultCause};
ghost use Rattle.wu_outside.specs.Reading.{OnlyReads};
ghost use Rattle.wu_token.specs.Tokens.{tokens_of};
ghost use Rattle.wu_image.specs.Images.{IsByAddress};
ghost use Rattle.wu_check.specs.Places.{IsAtPlace};
ghost use Rattle.wu_check.specs.Reads.{ReadsAll, ReadsFront, text_ranges, texts_ranges};
ghost use Rattle.wu_check.specs.Terms.{HaveTermsFrom};
ghost use Rattle.wu_check.specs.Walking.{FindsText, IsCompared, IsIndexFor, IsReadable, IsTextIn};
ghost use Rattle.wu_check.specs.Wrong.{IsWrongText};

use crate::blobs::read_whole;
use crate::comparing::compare_text;
use crate::indexing::PartIndex;
use std::alloc::Global;
use wu_base::NoMemory;
use wu_image::FileRec;
use wu_outside::{Fault, Store};
use wu_token::token_count;

/// The files in the order of their addresses.
pub(crate) fn by_address(alloc: Global, files: &[FileRec]) -> Result<Vec<FileRec>, NoMemory>
    ensures { IfOk result (λ order. IsByAddress files.now order.items) }
{
    let mut order = Vec::with_capacity(alloc, files.len())?;
    order.extend_from_slice(files)?;
    order.sort_unstable_by_key(|file| file.range.start);
    Ok(order)
}

/// The recorded text, which has the recorded length; the empty text is not read. None where its
/// blob is absent or has another size.
fn text_of<D: Store>(alloc: Global, store: &mut D, file: &FileRec) -> Result<Option<Vec<u8>>, Fault>
    requires { IsReadable file.now }
    ensures found { IfOk result (λ found. IfSome found (λ text. IfSome (D.holds store.old)
        (λ content. IsTextIn content file.now text.items))) }
    ensures size { IfOk result (λ found. IfSome found (λ text. length text.items ≡ file.now.len)) }
    ensures none { IfOk result (λ found. IfNone found (IfSome (D.holds store.old)
        (λ content. IsWrongText content file.now))) }
    ensures reads { OnlyReads D.Store store.old store.new result }
    ensures ranges { ReadsFront (text_ranges file.now) (D.reads store.old) (D.reads store.new) }
    ensures whole { IfOk result (λ found. IfSome found (λ _.
        ReadsAll (text_ranges file.now) (D.reads store.old) (D.reads store.new))) }
    ensures cause { HasFaultCause (D.faults store.old) (D.faults store.new) result }
{
    if file.blob == 0 {
        return Ok(Some(Vec::new(alloc)));
    }
    read_whole(alloc, store, file.blob, u64::from(file.len))
}

/// Whether a text of so many tokens has as many as the file's range is long. The empty text has.
fn has_tokens(file: &FileRec, count: u64) -> bool
    ensures { MatchBool result (0 < file.now.blob → count ≡ file.now.range.len)
        ((0 < file.now.blob) × (count ≢ file.now.range.len)) }
{
    file.blob == 0 || count == file.range.len
}

/// Whether the recorded text is as it was recorded.
fn is_whole<D: Store>(alloc: Global, store: &mut D, file: &FileRec) -> Result<bool, Fault>
    requires { IsReadable file.now }
    ensures whole { IfOk result (λ whole. IfSome (D.holds store.old)
        (λ content. MatchBool whole (IsWrongText content file.now → ⊥)
        (IsWrongText content file.now))) }
    ensures reads { OnlyReads D.Store store.old store.new result }
    ensures ranges { ReadsFront (text_ranges file.now) (D.reads store.old) (D.reads store.new) }
    ensures read { result ≡ Ok true
        → ReadsAll (text_ranges file.now) (D.reads store.old) (D.reads store.new) }
    ensures cause { HasFaultCause (D.faults store.old) (D.faults store.new) result }
{
    match text_of(alloc, store, file)? {
        Some(text) => Ok(has_tokens(file, token_count(&text))),
        None => Ok(false),
    }
}

/// The blob of the first of the texts that isn't as it was recorded. One text is held at a time.
pub(crate) fn first_broken<D: Store>(
    alloc: Global,
    store: &mut D,
    files: &[FileRec],
) -> Result<Option<u64>, Fault>
    requires { AllByRecursion IsReadable files.now }
    ensures found { IfOk result (λ found. IfSome (D.holds store.old)
        (λ content. FindsText content files.now found)) }
    ensures reads { OnlyReads D.Store store.old store.new result }
    ensures ranges { ReadsFront (texts_ranges files.now) (D.reads store.old) (D.reads store.new) }
    ensures whole { IfOk result (λ found. IfNone found
        (ReadsAll (texts_ranges files.now) (D.reads store.old) (D.reads store.new))) }
    ensures cause { HasFaultCause (D.faults store.old) (D.faults store.new) result }
{
    for file in files {
        if !is_whole(alloc, store, file)? {
            return Ok(Some(file.blob));
        }
    }
    Ok(None)
}

/// Whether the part that is indexed has the tokens of the recorded text, whose range begins at that
/// place among the index's numbers. None where the text isn't as it was recorded.
pub(crate) fn compare_file<D: Store>(
    alloc: Global,
    store: &mut D,
    index: &PartIndex,
    place: usize,
    file: &FileRec,
) -> Result<Option<bool>, Fault>
    requires { IsReadable file.now }
    ensures compared { IfOk result (λ found. (ranges : List Range) (lists : List TermList)
        → IsIndexFor ranges lists index.now → IsAtPlace ranges place file.now.range
        → IfSome (D.holds store.old) (λ content. IsCompared content lists file.now found)) }
    ensures reads { OnlyReads D.Store store.old store.new result }
    ensures ranges { ReadsFront (text_ranges file.now) (D.reads store.old) (D.reads store.new) }
    ensures whole { IfOk result (λ found. IfSome found (λ _.
        ReadsAll (text_ranges file.now) (D.reads store.old) (D.reads store.new))) }
    ensures cause { HasFaultCause (D.faults store.old) (D.faults store.new) result }
{
    match text_of(alloc, store, file)? {
        Some(text) => Ok(compare_with(index, place, file, &text)),
        None => Ok(None),
    }
}

/// The same of the text with these bytes, which are as many as were recorded. Takes no memory.
fn compare_with(index: &PartIndex, place: usize, file: &FileRec, text: &[u8]) -> Option<bool>
    requires file { IsReadable file.now }
    requires size { length text.now ≡ file.now.len }
    ensures none { IfNone result ((0 < file.now.blob)
        × (length (tokens_of text.now) ≢ file.now.range.len)) }
    ensures some { IfSome result (λ same. 0 < file.now.blob
        → length (tokens_of text.now) ≡ file.now.range.len) }
    ensures same { IfSome result (λ same. (ranges : List Range) (lists : List TermList)
        → IsIndexFor ranges lists index.now → IsAtPlace ranges place file.now.range
        → MatchBool same (HaveTermsFrom lists file.now.range.start (tokens_of text.now))
        (HaveTermsFrom lists file.now.range.start (tokens_of text.now) → ⊥)) }
{
    let compared = compare_text(index, place, text);
    if has_tokens(file, compared.count) {
        Some(compared.same)
    } else {
        None
    }
}
