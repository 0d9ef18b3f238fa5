//! Where an expression has its extents over a user's frames, and the lines that are shown of them.
ghost use Rattle.std.specs.Prelude.{◌≡◌, ◌<◌, ◌≤◌, ◌+◌, ◌++◌, ℕ, List, nat_lt, min, [], map, take, length, Some, slice_get, option_and_then, option_copied, option_map, All, if◌then◌else◌, IfOk, IfErr, IfSome, OnOk, ◌∷◌};
ghost use Rattle.std.specs.List.{AllByRecursion, flat_map};
ghost use Rattle.wu_ask.specs.Questions.{Finding as AskedFinding};
ghost use Rattle.wu_base.specs.declared.limits.TheConstants.{TEXT_MAX};
ghost use Rattle.wu_gcl.specs.Regions.{region_of};
ghost use Rattle.wu_outside.specs.Reading.{OnlyReads};
ghost use Rattle.wu_snip.specs.Snippets.{IsAscending, IsWithin, snippet_of};
ghost use Rattle.wu_space.specs.Addresses.{Ranges};
ghost use Rattle.wu_view.specs.declared.Seen.{Seen};
ghost use Rattle.wu_query.specs.Answer.{answer, found_line};
ghost use Rattle.wu_query.specs.Asked.{blocks_for, terms_of as named_in};
ghost use Rattle.wu_query.specs.Causes.{IsBrokenIn, IsDamagedOver};
ghost use Rattle.wu_query.specs.Finding.{AreFirstOf, AreTextsOf, AreWithin, CanBeRead, IsBelow, IsCause, IsQueryCause, KeepsTexts, counted_from, extents_of, files_at, hits_at, lines_at, lines_of_record, looked_through, text_at, IsBrokenShown};
ghost use Rattle.wu_query.specs.Near.{CanBeSolved, lists_found};
ghost use Rattle.wu_query.specs.Permitted.{AreReadForQuery, ReadsSuch};
ghost use Rattle.wu_query.specs.Reads.{HasWholeText, IsTextOf, ReadsInTurn, texts_shown, whole_text};
ghost use Rattle.wu_query.specs.Records.{record_at};
ghost use Rattle.wu_query.specs.States.{State};
ghost use Rattle.wu_query.specs.Searched.{Indexes, TellsPostings};
ghost use Rattle.wu_query.specs.Units.{CanBeSearched};
ghost use Rattle.wu_query.specs.View.{view_of};

use crate::listing::path_at;
use crate::looking::{Places, places_looked_through};
use crate::postings::{Postings, postings_near};
use crate::reading::read_text;
use std::alloc::Global;
use std::collections::BTreeMap;
use wu_ask::{Answered, Found};
use wu_base::{Bytes, Extent, Ino, NoMemory, Sequence, Trouble};
use wu_frames::Frames;
use wu_gcl::{Expr, terms_of};
use wu_image::FileRec;
use wu_outside::Store;
use wu_parts::Parts;
use wu_snip::{Snip, snippets};
use wu_view::View;

/// Up to so many extents the files that have one are sought by them. More of them are soon met file by file.
const FEW_HITS: u64 = 4_096;

/// How many extents the expression has over the user's view, in how many of its files, and the first `k` of
/// them with their lines. Of texts in the store only those of the files are read of which a line is shown.
pub fn find<D: Store>(
    alloc: Global,
    store: &mut D,
    frames: &Frames,
    parts: &mut Parts,
    files: &BTreeMap<Ino, FileRec>,
    k: u32,
    expr: &Expr,
) -> Result<Answered, Trouble>
    requires fit { CanBeSearched frames.now }
    requires records { AllByRecursion CanBeRead files.now.entries }
    ensures answer { IfOk result (λ answered. (live : Ranges) (s : State) (uid : ℕ) → Indexes frames.now live s uid
        → TellsPostings parts.old (D.holds store.old) s → KeepsTexts files.now.entries (D.holds store.old) s
        → answered ≡ answer (view_of s uid) (AskedFinding k (region_of expr.now))) }
    ensures reads { OnOk result (ReadsInTurn (blocks_for parts.old frames.now.ranges (named_in (region_of expr.now)))
        (AreTextsOf frames.now parts.old files.now.entries (D.holds store.old) (AskedFinding k (region_of expr.now)))
        (D.holds store.old) parts.old.kept parts.new.kept (D.reads store.old) (D.reads store.new)) }
    ensures permitted { (live : Ranges) (s : State) (uid : ℕ) → Indexes frames.now live s uid
        → TellsPostings parts.old (D.holds store.old) s → KeepsTexts files.now.entries (D.holds store.old) s
        → ReadsSuch (AreReadForQuery s uid (AskedFinding k (region_of expr.now))) (D.reads store.old) (D.reads store.new) }
    ensures others { parts.new ≡ record parts.old { kept = parts.new.kept } }
    ensures store { OnlyReads D.Store store.old store.new result }
    ensures cause { IfErr result (IsQueryCause (IsDamagedOver frames.now (AskedFinding k (region_of expr.now)) parts.old
        files.now.entries (D.holds store.old)) (D.faults store.old) (D.faults store.new) (D.reads store.old) (D.reads store.new)) }
{
    let terms = terms_of(alloc, expr)?;
    let postings = postings_near(alloc, store, expr, &terms, frames, parts)?;
    let counts = postings.count(alloc, expr, frames.ranges.as_slice())?;
    let shown = lines_shown(
        alloc,
        store,
        frames,
        files,
        expr,
        &postings,
        k as usize,
        counts.hits <= FEW_HITS,
    )?;
    Ok(Answered::Find {
        hits: counts.hits,
        files: counts.files,
        shown: Sequence::from(shown),
    })
}

/// The first `k` extents with their lines, file by file in the order of the view. Where there are `few` extents
/// only the files that have one are looked through, so that it takes no time for the others.
fn lines_shown<D: Store>(
    alloc: Global,
    store: &mut D,
    frames: &Frames,
    files: &BTreeMap<Ino, FileRec>,
    expr: &Expr,
    postings: &Postings,
    k: usize,
    few: bool,
) -> Result<Vec<Found>, Trouble>
    requires fit { CanBeSearched frames.now }
    requires records { AllByRecursion CanBeRead files.now.entries }
    requires solved { CanBeSolved postings.now }
    ensures lines { IfOk result (λ lines. IfSome (D.holds store.old) (λ content. lines.items
        ≡ take k (flat_map (lines_at content files.now.entries (region_of expr.now) (lists_found postings.now))
        (looked_through few (region_of expr.now) (lists_found postings.now) frames.now)))) }
    ensures sound { OnOk result (AllByRecursion (IsTextOf (D.holds store.old) files.now.entries)
        (texts_shown (hits_at files.now.entries (region_of expr.now) (lists_found postings.now))
        (text_at files.now.entries) k (looked_through few (region_of expr.now) (lists_found postings.now) frames.now))) }
    ensures store { OnlyReads D.Store store.old store.new result }
    ensures reads { OnOk result (D.reads store.new ≡ option_map (λ ranges. ranges
        ++ texts_shown (hits_at files.now.entries (region_of expr.now) (lists_found postings.now))
        (text_at files.now.entries) k (looked_through few (region_of expr.now) (lists_found postings.now) frames.now))
        (D.reads store.old)) }
    ensures only { ReadsSuch (AreFirstOf (texts_shown (hits_at files.now.entries (region_of expr.now) (lists_found postings.now))
        (text_at files.now.entries) k (looked_through few (region_of expr.now) (lists_found postings.now) frames.now)))
        (D.reads store.old) (D.reads store.new) }
    ensures cause { IfErr result (IsCause (IsBrokenShown files.now.entries (D.holds store.old) (region_of expr.now)
        (lists_found postings.now) k (looked_through few (region_of expr.now) (lists_found postings.now) frames.now))
        (D.faults store.old) (D.faults store.new) (D.reads store.old) (D.reads store.new)) }
{
    let places = places_looked_through(alloc, frames, expr, postings, few)?;
    first_lines(
        alloc,
        store,
        &frames.seen,
        &places,
        files,
        expr,
        postings,
        k,
    )
}

/// The first `k` extents with their lines, file by file, of the files at these places of the view. Hits beyond
/// these are not looked for.
fn first_lines<D: Store>(
    alloc: Global,
    store: &mut D,
    view: &View,
    places: &Places,
    files: &BTreeMap<Ino, FileRec>,
    expr: &Expr,
    postings: &Postings,
    k: usize,
) -> Result<Vec<Found>, Trouble>
    requires records { AllByRecursion CanBeRead files.now.entries }
    requires solved { CanBeSolved postings.now }
    requires within { AreWithin places.now view.now }
    ensures lines { IfOk result (λ lines. IfSome (D.holds store.old) (λ content. lines.items
        ≡ take k (flat_map (lines_at content files.now.entries (region_of expr.now) (lists_found postings.now))
        (files_at places.now view.now)))) }
    ensures sound { OnOk result (AllByRecursion (IsTextOf (D.holds store.old) files.now.entries)
        (texts_shown (hits_at files.now.entries (region_of expr.now) (lists_found postings.now))
        (text_at files.now.entries) k (files_at places.now view.now))) }
    ensures store { OnlyReads D.Store store.old store.new result }
    ensures reads { OnOk result (D.reads store.new ≡ option_map (λ ranges. ranges
        ++ texts_shown (hits_at files.now.entries (region_of expr.now) (lists_found postings.now))
        (text_at files.now.entries) k (files_at places.now view.now)) (D.reads store.old)) }
    ensures only { ReadsSuch (AreFirstOf (texts_shown (hits_at files.now.entries (region_of expr.now) (lists_found postings.now))
        (text_at files.now.entries) k (files_at places.now view.now))) (D.reads store.old) (D.reads store.new) }
    ensures none { k ≡ 0 → store.new ≡ store.old }
    ensures cause { IfErr result (IsCause (IsBrokenShown files.now.entries (D.holds store.old) (region_of expr.now)
        (lists_found postings.now) k (files_at places.now view.now))
        (D.faults store.old) (D.faults store.new) (D.reads store.old) (D.reads store.new)) }
{
    let mut shown = Vec::new(alloc);
    for turn in 0..places.len(view) {
        if shown.len() >= k {
            return Ok(shown);
        }
        let left = k - shown.len();
        let place = places.nth(turn);
        put_file(
            alloc, store, &mut shown, view, place, files, expr, postings, left,
        )?;
    }
    Ok(shown)
}

/// Puts the first `left` extents of the file at that place of the view at the end, with their lines.
fn put_file<D: Store>(
    alloc: Global,
    store: &mut D,
    shown: &mut Vec<Found>,
    view: &View,
    place: usize,
    files: &BTreeMap<Ino, FileRec>,
    expr: &Expr,
    postings: &Postings,
    left: usize,
) -> Result<(), Trouble>
    requires records { AllByRecursion CanBeRead files.now.entries }
    requires solved { CanBeSolved postings.now }
    ensures lines { (seen : Seen) → slice_get view.now place ≡ Some seen
        → OnOk result (IfSome (D.holds store.old) (λ content. shown.new.items
        ≡ shown.old.items ++ take left (lines_at content files.now.entries (region_of expr.now) (lists_found postings.now) seen))) }
    ensures count { (seen : Seen) → slice_get view.now place ≡ Some seen
        → OnOk result (length shown.new.items
        ≡ length shown.old.items + min left (hits_at files.now.entries (region_of expr.now) (lists_found postings.now) seen)) }
    ensures sound { (seen : Seen) → slice_get view.now place ≡ Some seen
        → OnOk result (AllByRecursion (IsTextOf (D.holds store.old) files.now.entries)
        (if nat_lt 0 (min left (hits_at files.now.entries (region_of expr.now) (lists_found postings.now) seen))
        then text_at files.now.entries seen else [])) }
    ensures store { OnlyReads D.Store store.old store.new result }
    ensures reads { (seen : Seen) → slice_get view.now place ≡ Some seen
        → OnOk result (D.reads store.new ≡ option_map (λ ranges. ranges
        ++ (if nat_lt 0 (min left (hits_at files.now.entries (region_of expr.now) (lists_found postings.now) seen))
        then text_at files.now.entries seen else []))
        (D.reads store.old)) }
    ensures only { (seen : Seen) → slice_get view.now place ≡ Some seen
        → ReadsSuch (AreFirstOf (if nat_lt 0 (min left (hits_at files.now.entries (region_of expr.now) (lists_found postings.now) seen))
        then text_at files.now.entries seen else [])) (D.reads store.old) (D.reads store.new) }
    ensures cause { (seen : Seen) → slice_get view.now place ≡ Some seen
        → IfErr result (IsCause (IsBrokenShown files.now.entries (D.holds store.old) (region_of expr.now) (lists_found postings.now)
        left (seen ∷ []))
        (D.faults store.old) (D.faults store.new) (D.reads store.old) (D.reads store.new)) }
{
    match recorded_at(view, place, files) {
        Some(file) => {
            let extents = first_extents(alloc, expr, postings, file, left)?;
            put_lines(alloc, store, shown, view, place, file, &extents)
        }
        None => Ok(()),
    }
}

/// What is recorded of the file at that place of the view.
fn recorded_at<'a>(
    view: &View,
    place: usize,
    files: &'a BTreeMap<Ino, FileRec>,
) -> Option<&'a FileRec>
    ensures { option_copied result
        ≡ option_and_then (λ seen. record_at files.now.entries seen.ino) (slice_get view.now place) }
{
    files.get(&view.ino_at(place)?)
}

/// The first `left` extents in the file's range, counted from its first address.
fn first_extents(
    alloc: Global,
    expr: &Expr,
    postings: &Postings,
    file: &FileRec,
    left: usize,
) -> Result<Vec<Extent>, NoMemory>
    requires solved { CanBeSolved postings.now }
    requires record { CanBeRead (file.now.ino, file.now) }
    ensures extents { IfOk result (λ v. v.items ≡ take left (extents_of (region_of expr.now) (lists_found postings.now) file.now)) }
    ensures within { IfOk result (λ v. All (IsBelow file.now.range.len) v.items) }
    ensures ascending { IfOk result (λ v. IsAscending v.items) }
{
    let extents = postings.solve(alloc, expr, &[file.range])?;
    let count = extents.len().min(left);
    counted_from(alloc, file.range.start, &extents[..count])
}

/// The extents, counted from an address.
fn counted_from(alloc: Global, start: u64, extents: &[Extent]) -> Result<Vec<Extent>, NoMemory>
    ensures { IfOk result (λ v. v.items ≡ map (counted_from start) extents.now) }
{
    let mut counted = Vec::with_capacity(alloc, extents.len())?;
    for extent in extents {
        counted.push(Extent {
            start: extent.start.saturating_sub(start),
            end: extent.end.saturating_sub(start),
        })?;
    }
    Ok(counted)
}

/// Puts extents of the file at that place of the view at the end, with their lines. Its text is read, and its path
/// is made, where there is one to show.
fn put_lines<D: Store>(
    alloc: Global,
    store: &mut D,
    shown: &mut Vec<Found>,
    view: &View,
    place: usize,
    file: &FileRec,
    extents: &[Extent],
) -> Result<(), Trouble>
    requires record { CanBeRead (file.now.ino, file.now) }
    requires within { All (IsBelow file.now.range.len) extents.now }
    requires ascending { IsAscending extents.now }
    ensures lines { (seen : Seen) → slice_get view.now place ≡ Some seen
        → OnOk result (IfSome (D.holds store.old) (λ content.
        shown.new.items ≡ shown.old.items ++ lines_of_record content seen.paths extents.now file.now)) }
    ensures unasked { length extents.now ≡ 0 → store.new ≡ store.old }
    ensures count { OnOk result (length shown.new.items ≡ length shown.old.items + length extents.now) }
    ensures sound { OnOk result (0 < length extents.now → 0 < file.now.blob → HasWholeText (D.holds store.old) file.now) }
    ensures store { OnlyReads D.Store store.old store.new result }
    ensures reads { OnOk result (D.reads store.new ≡ option_map (λ ranges. ranges
        ++ (if nat_lt 0 (length extents.now) then whole_text file.now.blob file.now.len else [])) (D.reads store.old)) }
    ensures only { ReadsSuch (AreFirstOf (if nat_lt 0 (length extents.now) then whole_text file.now.blob file.now.len else []))
        (D.reads store.old) (D.reads store.new) }
    ensures cause { IfErr result (IsCause (λ blob. (0 < length extents.now) × IsBrokenIn (D.holds store.old) file.now blob)
        (D.faults store.old) (D.faults store.new) (D.reads store.old) (D.reads store.new)) }
{
    if extents.is_empty() {
        return Ok(());
    }
    let text = read_text(alloc, store, file)?;
    let path = path_at(alloc, view, place)?;
    Ok(put_snippets(alloc, shown, &path, &text, extents)?)
}

/// Puts extents of a text with that path at the end, with their lines.
fn put_snippets(
    alloc: Global,
    shown: &mut Vec<Found>,
    path: &Bytes,
    text: &[u8],
    extents: &[Extent],
) -> Result<(), NoMemory>
    requires short { length text.now ≤ TEXT_MAX }
    requires within { All (IsWithin text.now) extents.now }
    requires ascending { IsAscending extents.now }
    ensures { OnOk result (shown.new.items
        ≡ shown.old.items ++ map (found_line (record { paths = path.now ∷ []; text = text.now })) extents.now) }
{
    let snips = snippets(alloc, text, extents)?;
    for i in 0..extents.len() {
        shown.push(found_line(path, extents[i], &snips[i])?)?;
    }
    Ok(())
}

/// An extent of a text with that path as it is shown, with its snippet.
fn found_line(path: &Bytes, extent: Extent, snip: &Snip) -> Result<Found, NoMemory>
    ensures { IfOk result (λ line. (text : List ℕ) → snip.now ≡ snippet_of text extent
        → line ≡ found_line (record { paths = path.now ∷ []; text = text }) extent) }
{
    Ok(Found {
        path: path.clone()?,
        start: extent.start,
        end: extent.end,
        line: snip.line,
        snippet: snip.bytes.clone()?,
    })
}
