//! Where terms stand in those of a user's frames in which an expression may have an extent.
ghost use Rattle.std.specs.Prelude.{◌≡◌, ◌+◌, ◌≤◌, ℕ, List, [], ◌∷◌, All, Contains, map, nat_eq, IfOk, IfErr, IfSome, OnOk};
ghost use Rattle.std.specs.List.{list_any};
ghost use Rattle.std.specs.Ordering.{nat_cmp};
ghost use Rattle.std.specs.Cmp.Lexicographic.{pointwise, slice_cmp};
ghost use Rattle.std.specs.List.Sorted.{IsStrictlyIncreasing, IsStrictlySortedBy};
ghost use Rattle.wu_base.specs.Ranges.{AreApart};
ghost use Rattle.wu_gcl.specs.Regions.{Region, region_of};
ghost use Rattle.wu_lists.specs.Keeping.{Asks};
ghost use Rattle.wu_outside.specs.Reading.{OnlyReads};
ghost use Rattle.wu_solve.specs.Needed.{Needs};
ghost use Rattle.wu_query.specs.Asked.{blocks_for};
ghost use Rattle.wu_query.specs.Near.{HaveSameExtents, IsNeededAt, cut_to};
ghost use Rattle.wu_query.specs.States.{State};
ghost use Rattle.wu_query.specs.Searched.{TellsPostings};
ghost use Rattle.wu_query.specs.Units.{CanBeSearched, IsCauseFor, found_in, list_at};

use crate::fetching::lists_of;
use std::alloc::Global;
use wu_base::{ADDRESSES_MAX, Bytes, NoMemory, Range, TermList, Trouble, is_among};
use wu_frames::Frames;
use wu_gcl::Expr;
use wu_outside::Store;
use wu_parts::{Gathered, Parts};
use wu_solve::{frames_met, needed_terms};

/// Where all terms together have at least so many times the addresses of a needed one, the frames
/// in which that one stands are sought first. Else these are likely to be most frames.
const RARE: u64 = 8;

/// A term, with its addresses as they were gathered.
#[derive(Drop)]
pub struct GatheredTerm {
    pub term: Bytes,
    pub at: Gathered,
}

/// For each of the terms addresses in the frames, by which the expression has the same extents in
/// each frame as by all that the terms have there. The terms are asked for in turn. Where the
/// expression needs a term that is rare in the parts, of the others only addresses in frames with
/// that term are decoded.
pub fn lists_near<D: Store>(
    alloc: Global,
    store: &mut D,
    expr: &Expr,
    terms: &[Bytes],
    frames: &Frames,
    parts: &mut Parts,
) -> Result<Vec<TermList>, Trouble>
    requires { CanBeSearched frames.now }
    ensures lists { IfOk result (λ lists. (s : State) → TellsPostings parts.old (D.holds store.old) s
        → HaveSameExtents (region_of expr.now) frames.now.ranges lists.items
        (map (list_at (found_in frames.now.ranges s)) terms.now)) }
    ensures named { IfOk result (λ lists. map (λ list. list.term) lists.items ≡ terms.now) }
    ensures ascending { IfOk result (λ lists. All (λ list. IsStrictlyIncreasing list.at) lists.items) }
    ensures blocks { OnOk result (Asks (blocks_for parts.old frames.now.ranges terms.now) (D.holds store.old)
        parts.old.kept parts.new.kept (D.reads store.old) (D.reads store.new)) }
    ensures others { parts.new ≡ record parts.old { kept = parts.new.kept } }
    ensures store { OnlyReads D.Store store.old store.new result }
    ensures cause { IfErr result (IsCauseFor parts.old frames.now.ranges terms.now (D.holds store.old)
        (D.faults store.old) (D.faults store.new) (D.reads store.old) (D.reads store.new)) }
{
    let needed = needed_terms(alloc, expr)?;
    if !is_one_rare(parts, &needed, terms) {
        return lists_of(alloc, store, terms, frames, parts);
    }
    let gathered = gathered_of(alloc, store, terms, frames, parts)?;
    Ok(lists_for(alloc, &needed, &gathered, frames.ranges.as_slice())?)
}

/// Whether a needed term is rare, by how many addresses of each the parts have. Else each block is
/// better decoded once, when it is read. Only time depends on the answer.
fn is_one_rare(parts: &Parts, needed: &[Bytes], terms: &[Bytes]) -> bool
    requires { IsStrictlySortedBy (slice_cmp nat_cmp) needed.now }
{
    if needed.is_empty() || terms.len() < 2 {
        return false;
    }
    let mut fewest = u64::MAX;
    let mut total: u64 = 0;
    for term in terms {
        let count = parts.count_of(term.as_slice());
        total = total.saturating_add(count);
        if count < fewest && is_needed(needed, term) {
            fewest = count;
        }
    }
    total > 0 && fewest <= total / RARE
}

/// Whether the term is one of the needed ones, which ascend.
fn is_needed(needed: &[Bytes], term: &Bytes) -> bool
    requires { IsStrictlySortedBy (slice_cmp nat_cmp) needed.now }
    ensures { result ≡ list_any (pointwise nat_eq term.now) needed.now }
{
    is_among(term, needed)
}

/// Each of the terms, with its addresses. The terms are asked for in turn.
pub fn gathered_of<D: Store>(
    alloc: Global,
    store: &mut D,
    terms: &[Bytes],
    frames: &Frames,
    parts: &mut Parts,
) -> Result<Vec<GatheredTerm>, Trouble>
    requires { CanBeSearched frames.now }
    ensures lists { IfOk result (λ gathered. (s : State) → TellsPostings parts.old (D.holds store.old) s
        → map (cut_to frames.now.ranges) gathered.items ≡ map (list_at (found_in frames.now.ranges s)) terms.now) }
    ensures named { IfOk result (λ gathered. map (λ one. one.term) gathered.items ≡ terms.now) }
    ensures blocks { OnOk result (Asks (blocks_for parts.old frames.now.ranges terms.now) (D.holds store.old)
        parts.old.kept parts.new.kept (D.reads store.old) (D.reads store.new)) }
    ensures others { parts.new ≡ record parts.old { kept = parts.new.kept } }
    ensures store { OnlyReads D.Store store.old store.new result }
    ensures cause { IfErr result (IsCauseFor parts.old frames.now.ranges terms.now (D.holds store.old)
        (D.faults store.old) (D.faults store.new) (D.reads store.old) (D.reads store.new)) }
{
    let mut gathered = Vec::with_capacity(alloc, terms.len())?;
    for term in terms {
        gathered.push(gather(store, term, frames, parts)?)?;
    }
    Ok(gathered)
}

fn gather<D: Store>(
    store: &mut D,
    term: &Bytes,
    frames: &Frames,
    parts: &mut Parts,
) -> Result<GatheredTerm, Trouble>
    requires { CanBeSearched frames.now }
    ensures list { IfOk result (λ gathered. (s : State) → TellsPostings parts.old (D.holds store.old) s
        → cut_to frames.now.ranges gathered ≡ list_at (found_in frames.now.ranges s) term.now) }
    ensures named { IfOk result (λ gathered. gathered.term ≡ term.now) }
    ensures blocks { OnOk result (Asks (blocks_for parts.old frames.now.ranges (term.now ∷ [])) (D.holds store.old)
        parts.old.kept parts.new.kept (D.reads store.old) (D.reads store.new)) }
    ensures others { parts.new ≡ record parts.old { kept = parts.new.kept } }
    ensures store { OnlyReads D.Store store.old store.new result }
    ensures cause { IfErr result (IsCauseFor parts.old frames.now.ranges (term.now ∷ []) (D.holds store.old)
        (D.faults store.old) (D.faults store.new) (D.reads store.old) (D.reads store.new)) }
{
    let at = parts.gather(store, term.as_slice(), frames.ranges.as_slice())?;
    Ok(GatheredTerm {
        term: term.clone()?,
        at,
    })
}

/// The lists of the terms with their addresses in the frames, or, where a needed term is rare, only
/// with those in frames that have it: an expression that needs it has no extent in the others.
fn lists_for(
    alloc: Global,
    needed: &[Bytes],
    gathered: &[GatheredTerm],
    frames: &[Range],
) -> Result<Vec<TermList>, NoMemory>
    requires ascending { IsStrictlySortedBy (slice_cmp nat_cmp) needed.now }
    requires apart { AreApart frames.now }
    requires bounded { All (λ frame. frame.start + frame.len ≤ ADDRESSES_MAX) frames.now }
    ensures lists { IfOk result (λ lists. (region : Region) (found : List ℕ → List ℕ) (terms : List (List ℕ))
        → ((term : List ℕ) → Contains needed.now term → Needs region term)
        → map (cut_to frames.now) gathered.now ≡ map (list_at found) terms
        → HaveSameExtents region frames.now lists.items (map (list_at found) terms)) }
    ensures named { IfOk result (λ lists. map (λ list. list.term) lists.items ≡ map (λ one. one.term) gathered.now) }
    ensures ascending { IfOk result (λ lists. All (λ list. IsStrictlyIncreasing list.at) lists.items) }
{
    match rare_place(needed, gathered) {
        Some(place) => {
            let addresses = gathered[place].at.within(alloc, frames)?;
            let near = frames_met(alloc, addresses.as_slice(), frames)?;
            lists_within(alloc, gathered, &near)
        }
        None => lists_within(alloc, gathered, frames),
    }
}

/// The place of a needed term with the fewest addresses, if they are few beside those of all terms. The clause says no
/// more than that the term is needed, since only time depends on which one it is, and on whether there is one.
pub fn rare_place(needed: &[Bytes], gathered: &[GatheredTerm]) -> Option<usize>
    requires { IsStrictlySortedBy (slice_cmp nat_cmp) needed.now }
    ensures { IfSome result (IsNeededAt needed.now gathered.now) }
{
    let mut rarest = None;
    let mut fewest = u64::MAX;
    let mut total: u64 = 0;
    for i in 0..gathered.len() {
        let count = gathered[i].at.count();
        total = total.saturating_add(count);
        if count < fewest && is_needed(needed, &gathered[i].term) {
            rarest = Some(i);
            fewest = count;
        }
    }
    if fewest > total / RARE {
        return None;
    }
    rarest
}

/// The lists of the terms with their addresses in the frames.
pub fn lists_within(
    alloc: Global,
    gathered: &[GatheredTerm],
    frames: &[Range],
) -> Result<Vec<TermList>, NoMemory>
    requires apart { AreApart frames.now }
    requires bounded { All (λ frame. frame.start + frame.len ≤ ADDRESSES_MAX) frames.now }
    ensures lists { IfOk result (λ lists. lists.items ≡ map (cut_to frames.now) gathered.now) }
    ensures ascending { IfOk result (λ lists. All (λ list. IsStrictlyIncreasing list.at) lists.items) }
{
    let mut lists = Vec::with_capacity(alloc, gathered.len())?;
    for one in gathered {
        lists.push(list_within(alloc, one, frames)?)?;
    }
    Ok(lists)
}

fn list_within(
    alloc: Global,
    gathered: &GatheredTerm,
    frames: &[Range],
) -> Result<TermList, NoMemory>
    requires apart { AreApart frames.now }
    requires bounded { All (λ frame. frame.start + frame.len ≤ ADDRESSES_MAX) frames.now }
    ensures list { IfOk result (λ list. list ≡ cut_to frames.now gathered.now) }
    ensures ascending { IfOk result (λ list. IsStrictlyIncreasing list.at) }
{
    let at = gathered.at.within(alloc, frames)?;
    Ok(TermList {
        term: gathered.term.clone()?,
        at,
    })
}
