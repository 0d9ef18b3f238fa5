//! The extents of an expression by terms whose addresses are gathered: decoded, solved and counted for
//! some frames at a time, so that no more memory is taken than these need.
ghost use Rattle.std.specs.Prelude.{◌≡◌, ◌+◌, ◌≤◌, ◌^◌, All, length, map, count_by, nat_lt, IfOk, IfSome};
ghost use Rattle.wu_base.specs.Ranges.{AreApart};
ghost use Rattle.wu_gcl.specs.Regions.{region_of};
ghost use Rattle.wu_solve.specs.Solving.{frame_hits, frames_hits};
ghost use Rattle.wu_query.specs.Near.{AscendByTerm, whole};

use crate::near::{GatheredTerm, lists_within, rare_place};
use std::alloc::Global;
use wu_base::{ADDRESSES_MAX, Extent, NoMemory, Range};
use wu_gcl::Expr;
use wu_solve::{Counts, count_apart, frames_met, frames_within, needed_terms, solve_apart};

/// So many addresses are decoded at a time, but for a frame that has more by itself: then the lists
/// stay in a cache.
const ADDRESSES_AT_ONCE: u64 = 1 << 20;

/// How many extents the expression has in the frames, and in how many of them.
pub(crate) fn count_gathered(
    alloc: Global,
    expr: &Expr,
    frames: &[Range],
    gathered: &[GatheredTerm],
) -> Result<Counts, NoMemory>
    requires terms { AscendByTerm gathered.now }
    requires apart { AreApart frames.now }
    requires bounded { All (λ frame. frame.start + frame.len ≤ ADDRESSES_MAX) frames.now }
    requires few { length (frames_hits (region_of expr.now) (map whole gathered.now) frames.now) ≤ 2 ^ 47 }
    ensures hits { IfOk result (λ counts. counts.hits ≡ length (frames_hits (region_of expr.now) (map whole gathered.now) frames.now)) }
    ensures files { IfOk result (λ counts. counts.files
        ≡ count_by (λ frame. nat_lt 0 (length (frame_hits (region_of expr.now) (map whole gathered.now) frame))) frames.now) }
{
    let some = frames_near(alloc, expr, frames, gathered)?;
    match some {
        Some(near) => count_groups(alloc, expr, &near, gathered),
        None => count_groups(alloc, expr, frames, gathered),
    }
}

/// The extents of the expression, by address.
pub(crate) fn solve_gathered(
    alloc: Global,
    expr: &Expr,
    frames: &[Range],
    gathered: &[GatheredTerm],
) -> Result<Vec<Extent>, NoMemory>
    requires terms { AscendByTerm gathered.now }
    requires apart { AreApart frames.now }
    requires bounded { All (λ frame. frame.start + frame.len ≤ ADDRESSES_MAX) frames.now }
    ensures { IfOk result (λ v. v.items ≡ frames_hits (region_of expr.now) (map whole gathered.now) frames.now) }
{
    let some = frames_near(alloc, expr, frames, gathered)?;
    match some {
        Some(near) => solve_groups(alloc, expr, &near, gathered),
        None => solve_groups(alloc, expr, frames, gathered),
    }
}

/// Frames that serve as well as these: where a needed term is rare, those that have it. None, if all do.
fn frames_near(
    alloc: Global,
    expr: &Expr,
    frames: &[Range],
    gathered: &[GatheredTerm],
) -> Result<Option<Vec<Range>>, NoMemory>
    requires terms { AscendByTerm gathered.now }
    requires apart { AreApart frames.now }
    requires bounded { All (λ frame. frame.start + frame.len ≤ ADDRESSES_MAX) frames.now }
    ensures hits { IfOk result (λ some. IfSome some (λ near. frames_hits (region_of expr.now) (map whole gathered.now) near.items
        ≡ frames_hits (region_of expr.now) (map whole gathered.now) frames.now)) }
    ensures files { IfOk result (λ some. IfSome some (λ near.
        count_by (λ frame. nat_lt 0 (length (frame_hits (region_of expr.now) (map whole gathered.now) frame))) near.items
        ≡ count_by (λ frame. nat_lt 0 (length (frame_hits (region_of expr.now) (map whole gathered.now) frame))) frames.now)) }
    ensures apart { IfOk result (λ some. IfSome some (λ near. AreApart near.items)) }
    ensures bounded { IfOk result (λ some. IfSome some (λ near. All (λ frame. frame.start + frame.len ≤ ADDRESSES_MAX) near.items)) }
{
    let needed = needed_terms(alloc, expr)?;
    match rare_place(&needed, gathered) {
        Some(place) => {
            let addresses = gathered[place].at.within(alloc, frames)?;
            let near = frames_met(alloc, addresses.as_slice(), frames)?;
            Ok(Some(near))
        }
        None => Ok(None),
    }
}

/// The counts, group by group.
fn count_groups(
    alloc: Global,
    expr: &Expr,
    frames: &[Range],
    gathered: &[GatheredTerm],
) -> Result<Counts, NoMemory>
    requires terms { AscendByTerm gathered.now }
    requires apart { AreApart frames.now }
    requires bounded { All (λ frame. frame.start + frame.len ≤ ADDRESSES_MAX) frames.now }
    requires few { length (frames_hits (region_of expr.now) (map whole gathered.now) frames.now) ≤ 2 ^ 47 }
    ensures hits { IfOk result (λ counts. counts.hits ≡ length (frames_hits (region_of expr.now) (map whole gathered.now) frames.now)) }
    ensures files { IfOk result (λ counts. counts.files
        ≡ count_by (λ frame. nat_lt 0 (length (frame_hits (region_of expr.now) (map whole gathered.now) frame))) frames.now) }
{
    let mut hits = 0;
    let mut files = 0;
    let mut from = 0;
    while from < frames.len() {
        let some = frames_within(&frames[from..], ADDRESSES_AT_ONCE);
        let counts = count_group(alloc, expr, &frames[from..from + some], gathered)?;
        hits += counts.hits;
        files += counts.files;
        from += some;
    }
    Ok(Counts { hits, files })
}

/// The counts over one group, for whose frames alone addresses are decoded.
fn count_group(
    alloc: Global,
    expr: &Expr,
    frames: &[Range],
    gathered: &[GatheredTerm],
) -> Result<Counts, NoMemory>
    requires terms { AscendByTerm gathered.now }
    requires apart { AreApart frames.now }
    requires bounded { All (λ frame. frame.start + frame.len ≤ ADDRESSES_MAX) frames.now }
    requires few { length (frames_hits (region_of expr.now) (map whole gathered.now) frames.now) ≤ 2 ^ 47 }
    ensures hits { IfOk result (λ counts. counts.hits ≡ length (frames_hits (region_of expr.now) (map whole gathered.now) frames.now)) }
    ensures files { IfOk result (λ counts. counts.files
        ≡ count_by (λ frame. nat_lt 0 (length (frame_hits (region_of expr.now) (map whole gathered.now) frame))) frames.now) }
{
    let lists = lists_within(alloc, gathered, frames)?;
    count_apart(alloc, expr, frames, &lists)
}

/// The extents, group by group.
fn solve_groups(
    alloc: Global,
    expr: &Expr,
    frames: &[Range],
    gathered: &[GatheredTerm],
) -> Result<Vec<Extent>, NoMemory>
    requires terms { AscendByTerm gathered.now }
    requires apart { AreApart frames.now }
    requires bounded { All (λ frame. frame.start + frame.len ≤ ADDRESSES_MAX) frames.now }
    ensures { IfOk result (λ v. v.items ≡ frames_hits (region_of expr.now) (map whole gathered.now) frames.now) }
{
    let mut found = Vec::new(alloc);
    let mut from = 0;
    while from < frames.len() {
        let some = frames_within(&frames[from..], ADDRESSES_AT_ONCE);
        let extents = solve_group(alloc, expr, &frames[from..from + some], gathered)?;
        found.extend_from_slice(&extents)?;
        from += some;
    }
    Ok(found)
}

/// The extents over one group, for whose frames alone addresses are decoded.
fn solve_group(
    alloc: Global,
    expr: &Expr,
    frames: &[Range],
    gathered: &[GatheredTerm],
) -> Result<Vec<Extent>, NoMemory>
    requires terms { AscendByTerm gathered.now }
    requires apart { AreApart frames.now }
    requires bounded { All (λ frame. frame.start + frame.len ≤ ADDRESSES_MAX) frames.now }
    ensures { IfOk result (λ v. v.items ≡ frames_hits (region_of expr.now) (map whole gathered.now) frames.now) }
{
    let lists = lists_within(alloc, gathered, frames)?;
    solve_apart(alloc, expr, frames, &lists)
}
