//! Where the terms of an expression stand in a user's frames, and the extents that it has by them.
ghost use Rattle.std.specs.Prelude.{◌≡◌, ◌+◌, ◌≤◌, ◌^◌, All, length, map, count_by, nat_lt, IfOk, IfErr, OnOk};
ghost use Rattle.std.specs.Ordering.{nat_cmp};
ghost use Rattle.std.specs.Cmp.Lexicographic.{slice_cmp};
ghost use Rattle.std.specs.List.Sorted.{IsStrictlySortedBy};
ghost use Rattle.wu_base.specs.Ranges.{AreApart};
ghost use Rattle.wu_gcl.specs.Regions.{region_of};
ghost use Rattle.wu_lists.specs.Keeping.{Asks};
ghost use Rattle.wu_outside.specs.Reading.{OnlyReads};
ghost use Rattle.wu_solve.specs.Solving.{frame_hits, frames_hits};
ghost use Rattle.wu_query.specs.Asked.{blocks_for};
ghost use Rattle.wu_query.specs.Near.{CanBeSolved, HaveSameExtents, lists_found};
ghost use Rattle.wu_query.specs.States.{State};
ghost use Rattle.wu_query.specs.Searched.{TellsPostings};
ghost use Rattle.wu_query.specs.Units.{CanBeSearched, IsCauseFor, found_in, list_at};

use crate::groups::{count_gathered, solve_gathered};
use crate::near::{GatheredTerm, gathered_of, lists_near};
use std::alloc::Global;
use wu_base::{ADDRESSES_MAX, Bytes, Extent, NoMemory, Range, Sequence, TermList, Trouble};
use wu_frames::Frames;
use wu_gcl::Expr;
use wu_outside::Store;
use wu_parts::Parts;
use wu_solve::{Counts, count_apart, frames_within, solve_apart};

/// Up to so many postings are decoded at once, each to an address of eight bytes.
const FEW: u64 = 1 << 22;

/// Where terms stand in a user's frames.
#[derive(Drop)]
pub(crate) enum Postings {
    /// Their addresses, decoded once.
    Listed { lists: Sequence<TermList> },
    /// Their addresses as they were gathered, to be decoded for some of the frames at a time.
    Gathered { terms: Sequence<GatheredTerm> },
}

/// Where the terms stand in the frames, as far as the expression has extents by it. The terms are
/// asked for in turn. Many postings are kept as they were read.
pub(crate) fn postings_near<D: Store>(
    alloc: Global,
    store: &mut D,
    expr: &Expr,
    terms: &[Bytes],
    frames: &Frames,
    parts: &mut Parts,
) -> Result<Postings, Trouble>
    requires fit { CanBeSearched frames.now }
    requires ascending { IsStrictlySortedBy (slice_cmp nat_cmp) terms.now }
    ensures lists { IfOk result (λ postings. (s : State) → TellsPostings parts.old (D.holds store.old) s
        → HaveSameExtents (region_of expr.now) frames.now.ranges (lists_found postings)
        (map (list_at (found_in frames.now.ranges s)) terms.now)) }
    ensures solved { IfOk result CanBeSolved }
    ensures blocks { OnOk result (Asks (blocks_for parts.old frames.now.ranges terms.now) (D.holds store.old)
        parts.old.kept parts.new.kept (D.reads store.old) (D.reads store.new)) }
    ensures others { parts.new ≡ record parts.old { kept = parts.new.kept } }
    ensures store { OnlyReads D.Store store.old store.new result }
    ensures cause { IfErr result (IsCauseFor parts.old frames.now.ranges terms.now (D.holds store.old)
        (D.faults store.old) (D.faults store.new) (D.reads store.old) (D.reads store.new)) }
{
    if are_few(parts, terms, frames.ranges.as_slice()) {
        let lists = lists_near(alloc, store, expr, terms, frames, parts)?;
        return Ok(Postings::Listed {
            lists: Sequence::from(lists),
        });
    }
    let gathered = gathered_of(alloc, store, terms, frames, parts)?;
    Ok(Postings::Gathered {
        terms: Sequence::from(gathered),
    })
}

/// Whether the terms have few postings in the frames, as far as the parts and the frames' lengths
/// tell. One frame is decoded at once in any case. Only time and memory depend on the answer.
fn are_few(parts: &Parts, terms: &[Bytes], frames: &[Range]) -> bool {
    let mut total: u64 = 0;
    for term in terms {
        total = total.saturating_add(parts.count_of(term.as_slice()));
    }
    total <= FEW || frames.is_empty() || frames_within(frames, FEW) == frames.len()
}

impl Postings {
    /// How many extents the expression has in the frames, and in how many of them.
    pub(crate) fn count(
        &self,
        alloc: Global,
        expr: &Expr,
        frames: &[Range],
    ) -> Result<Counts, NoMemory>
        requires solved { CanBeSolved self.now }
        requires apart { AreApart frames.now }
        requires bounded { All (λ frame. frame.start + frame.len ≤ ADDRESSES_MAX) frames.now }
        requires few { length (frames_hits (region_of expr.now) (lists_found self.now) frames.now) ≤ 2 ^ 47 }
        ensures hits { IfOk result (λ counts. counts.hits ≡ length (frames_hits (region_of expr.now) (lists_found self.now) frames.now)) }
        ensures files { IfOk result (λ counts. counts.files
            ≡ count_by (λ frame. nat_lt 0 (length (frame_hits (region_of expr.now) (lists_found self.now) frame))) frames.now) }
    {
        match self {
            Postings::Listed { lists } => count_apart(alloc, expr, frames, lists.as_slice()),
            Postings::Gathered { terms } => count_gathered(alloc, expr, frames, terms.as_slice()),
        }
    }

    /// The extents of the expression, by address.
    pub(crate) fn solve(
        &self,
        alloc: Global,
        expr: &Expr,
        frames: &[Range],
    ) -> Result<Vec<Extent>, NoMemory>
        requires solved { CanBeSolved self.now }
        requires apart { AreApart frames.now }
        requires bounded { All (λ frame. frame.start + frame.len ≤ ADDRESSES_MAX) frames.now }
        ensures { IfOk result (λ v. v.items ≡ frames_hits (region_of expr.now) (lists_found self.now) frames.now) }
    {
        match self {
            Postings::Listed { lists } => solve_apart(alloc, expr, frames, lists.as_slice()),
            Postings::Gathered { terms } => solve_gathered(alloc, expr, frames, terms.as_slice()),
        }
    }
}
