//! How many extents an expression has.
ghost use Rattle.std.specs.Prelude.{◌≡◌, ℕ, ◌≤◌, ◌^◌, Bool, List, [], ◌∷◌, All, length, filter, map, count_by, nat_lt, IfOk, IfSome};
ghost use Rattle.std.specs.List.Sorted.{IsStrictlyIncreasing};
ghost use Rattle.wu_base.specs.declared.addresses.TermList.{TermList};
ghost use Rattle.wu_gcl.specs.Extents.{hits};
ghost use Rattle.wu_gcl.specs.Regions.{Region, region_of, Phrase};
ghost use Rattle.wu_gcl.specs.Terms.{terms_in};
ghost use Rattle.wu_solve.specs.Addresses.{AreLists};
ghost use Rattle.wu_solve.specs.Frames.{lies_in_one, has_one_of};
ghost use Rattle.wu_solve.specs.Operands.{run_around};
ghost use Rattle.wu_solve.specs.Solving.{frame_hits, frames_hits, IsFrame};
ghost use Rattle.wu_base.specs.Ranges.{AreApart};

use crate::first_extents::starting_from;
use crate::framing::{are_apart, end_of, frame_at};
use crate::lookup::{addresses_from, addresses_of};
use crate::meeting::frames_with_needed;
use crate::solving::{frames_at_once, solve_at_once};
use std::alloc::Global;
use wu_base::{Extent, NoMemory, Range, TermList};
use wu_gcl::{Expr, tag_bytes};

/// How many extents an expression has in all frames together, and in how many of the frames it has
/// any.
#[derive(Clone, Copy, Debug, PartialEq, Eq)]
pub struct Counts {
    pub hits: u64,
    pub files: u64,
}

/// How many extents the expression has in the frames, and in how many of them. The frames and lists
/// are as `solve` takes them. No more than the extents of a bounded number of frames are held at a
/// time, and of a single word or tag none. The one error is out of memory.
pub fn count(
    alloc: Global,
    expr: &Expr,
    frames: &[Range],
    lists: &[TermList],
) -> Result<Counts, NoMemory>
    requires lists { AreLists lists.now }
    requires frames { All IsFrame frames.now }
    requires few { length (frames_hits (region_of expr.now) lists.now frames.now) ≤ 2 ^ 47 }
    ensures hits { IfOk result (λ counts. counts.hits ≡ length (frames_hits (region_of expr.now) lists.now frames.now)) }
    ensures files { IfOk result (λ counts. counts.files ≡ count_by (λ frame. nat_lt 0 (length (frame_hits (region_of expr.now) lists.now frame))) frames.now) }
{
    if are_apart(frames) {
        return count_apart(alloc, expr, frames, lists);
    }
    let mut hits = 0;
    let mut files = 0;
    for frame in frames {
        let counts = count_apart(alloc, expr, &[*frame], lists)?;
        hits += counts.hits;
        files += counts.files;
    }
    Ok(Counts { hits, files })
}

/// The same for callers who know that each frame ends before the next one starts, so that no walk over
/// the frames has to find it out.
pub fn count_apart(
    alloc: Global,
    expr: &Expr,
    frames: &[Range],
    lists: &[TermList],
) -> Result<Counts, NoMemory>
    requires lists { AreLists lists.now }
    requires frames { All IsFrame frames.now }
    requires apart { AreApart frames.now }
    requires few { length (frames_hits (region_of expr.now) lists.now frames.now) ≤ 2 ^ 47 }
    ensures hits { IfOk result (λ counts. counts.hits ≡ length (frames_hits (region_of expr.now) lists.now frames.now)) }
    ensures files { IfOk result (λ counts. counts.files ≡ count_by (λ frame. nat_lt 0 (length (frame_hits (region_of expr.now) lists.now frame))) frames.now) }
{
    if let Some(term) = only_term(expr) {
        return Ok(count_term(addresses_of(lists, term), frames));
    }
    let some = frames_with_needed(alloc, expr, frames, lists)?;
    match some {
        Some(met) => count_parts(alloc, expr, &met, lists),
        None => count_parts(alloc, expr, frames, lists),
    }
}

/// The same, so many frames at a time.
fn count_parts(
    alloc: Global,
    expr: &Expr,
    frames: &[Range],
    lists: &[TermList],
) -> Result<Counts, NoMemory>
    requires lists { AreLists lists.now }
    requires frames { All IsFrame frames.now }
    requires apart { AreApart frames.now }
    requires few { length (frames_hits (region_of expr.now) lists.now frames.now) ≤ 2 ^ 47 }
    ensures hits { IfOk result (λ counts. counts.hits ≡ length (frames_hits (region_of expr.now) lists.now frames.now)) }
    ensures files { IfOk result (λ counts. counts.files ≡ count_by (λ frame. nat_lt 0 (length (frame_hits (region_of expr.now) lists.now frame))) frames.now) }
{
    let mut hits = 0;
    let mut files = 0;
    let mut from = 0;
    while from < frames.len() {
        let some = frames_at_once(&frames[from..]);
        let part = &frames[from..from + some];
        let extents = solve_at_once(alloc, expr, part, lists)?;
        hits += extents.len() as u64;
        files += frames_of(&extents, part);
        from += some;
    }
    Ok(Counts { hits, files })
}

/// In how many of the frames the extents lie that an expression has there.
fn frames_of(extents: &[Extent], frames: &[Range]) -> u64
    requires frames { All IsFrame frames.now }
    requires apart { AreApart frames.now }
    ensures few { result ≤ length extents.now }
    ensures files { (region : Region) → (lists : List TermList) → extents.now ≡ frames_hits region lists frames.now
        → result ≡ count_by (λ frame. nat_lt 0 (length (frame_hits region lists frame))) frames.now }
{
    let mut files = 0;
    let mut rest = extents;
    for frame in frames {
        let behind = starting_from(rest, end_of(frame));
        files += u64::from(behind.len() < rest.len());
        rest = behind;
    }
    files
}

/// The term, if the expression is one word or one tag alone: its extents are those of the word.
pub fn only_term(expr: &Expr) -> Option<&[u8]>
    ensures named { IfSome result (λ term. terms_in (region_of expr.now) ≡ term.now ∷ []) }
    ensures same { IfSome result (λ term. (stands : List ℕ → ℕ → Bool) (n : ℕ) → hits (Phrase (term.now ∷ [])) stands n ≡ hits (region_of expr.now) stands n) }
{
    match expr {
        Expr::Phrase(words) => match words.as_slice() {
            [word] => Some(word.as_slice()),
            _ => None,
        },
        Expr::Tag(tag) => Some(tag_bytes(*tag)),
        _ => None,
    }
}

/// How many of the addresses lie in the frames, and in how many of these one does, by walking both
/// side by side. Takes no memory.
fn count_term(addresses: &[u64], frames: &[Range]) -> Counts
    requires ascending { IsStrictlyIncreasing addresses.now }
    requires frames { All IsFrame frames.now }
    requires apart { AreApart frames.now }
    ensures hits { result.hits ≡ length (filter (lies_in_one frames.now) (map (run_around 0 0) addresses.now)) }
    ensures files { result.files ≡ length (filter (has_one_of addresses.now) frames.now) }
{
    let mut hits = 0;
    let mut files = 0;
    let mut rest = addresses;
    let mut place = 0;
    while let Some(address) = rest.first() {
        place = frame_at(frames, place, *address);
        if place == frames.len() {
            return Counts { hits, files };
        }
        let frame = frames[place];
        if *address < frame.start {
            rest = addresses_from(rest, frame.start);
        } else {
            let behind = addresses_from(rest, end_of(&frame));
            hits += (rest.len() - behind.len()) as u64;
            files += 1;
            rest = behind;
        }
    }
    Counts { hits, files }
}
