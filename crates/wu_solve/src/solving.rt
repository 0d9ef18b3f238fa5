//! The extents of a whole expression.
ghost use Rattle.std.specs.Prelude.{◌≡◌, ◌+◌, ◌^◌, ◌<◌, ◌≤◌, List, [], ◌∷◌, All, length, IfOk, IfSome};
ghost use Rattle.wu_base.specs.declared.addresses.TermList.{TermList};
ghost use Rattle.wu_gcl.specs.declared.expressions.Op.TheVariants.{FollowedBy};
ghost use Rattle.wu_gcl.specs.Regions.{Region, region_of, Mark, Window, Both};
ghost use Rattle.wu_solve.specs.Addresses.{AreLists};
ghost use Rattle.wu_solve.specs.Listing.{IsAscending};
ghost use Rattle.wu_solve.specs.Merging.{tested};
ghost use Rattle.wu_solve.specs.Solving.{frames_hits, IsFrame};
ghost use Rattle.wu_base.specs.Ranges.{AreApart};

use crate::containment::{held, holding};
use crate::framing::{are_apart, frames_within, lying_in};
use crate::meeting::frames_with_needed;
use crate::merging::{both_of, followed_by, one_of};
use crate::nearby::near;
use crate::operands::{phrase, term, windows};
use crate::ways::{Way, way_of};
use crate::windows::{held_by_windows, holding_windows};
use std::alloc::Global;
use wu_base::{Extent, NoMemory, Range, TermList};
use wu_gcl::{Expr, Op, Tag, tag_bytes};

/// At most so many frames are solved at a time.
const FRAMES_AT_ONCE: usize = 256;

/// And at most so many addresses, but for a frame that has more by itself: then the lists of operands
/// stay in a cache.
const ADDRESSES_AT_ONCE: u64 = 1 << 20;

/// How many of the first frames are solved at a time.
pub fn frames_at_once(frames: &[Range]) -> usize
    requires { 0 < length frames.now }
    ensures some { 0 < result }
    ensures within { result ≤ length frames.now }
{
    let most = FRAMES_AT_ONCE.min(frames.len());
    frames_within(&frames[..most], ADDRESSES_AT_ONCE)
}

/// What the operator makes of the extents of its operands.
fn combine(
    alloc: Global,
    op: Op,
    left: &[Extent],
    right: &[Extent],
    frames: &[Range],
) -> Result<Vec<Extent>, NoMemory>
    requires frames { All IsFrame frames.now }
    requires apart { AreApart frames.now }
    requires left_ascends { IsAscending left.now }
    requires right_ascends { IsAscending right.now }
    ensures hits { (one other : Region) → (lists : List TermList) → left.now ≡ frames_hits one lists frames.now
        → right.now ≡ frames_hits other lists frames.now → IfOk result (λ v. v.items ≡ frames_hits (Both op one other) lists frames.now) }
    ensures tested { IfOk result (λ v. IfSome (tested op left.now right.now) (λ kept. v.items ≡ kept)) }
{
    match op {
        Op::Containing => holding(alloc, true, left, right),
        Op::ContainedIn => held(alloc, true, left, right),
        Op::NotContaining => holding(alloc, false, left, right),
        Op::NotContainedIn => held(alloc, false, left, right),
        Op::OneOf => one_of(alloc, left, right),
        Op::BothOf => Ok(lying_in(both_of(alloc, left, right)?, frames)),
        Op::FollowedBy => Ok(lying_in(followed_by(alloc, left, right)?, frames)),
    }
}

/// What the operator makes of extents and the windows of that size.
fn combine_with_windows(
    alloc: Global,
    op: Op,
    left: &[Extent],
    size: u16,
    frames: &[Range],
) -> Result<Vec<Extent>, NoMemory>
    requires frames { All IsFrame frames.now }
    requires apart { AreApart frames.now }
    requires ascend { IsAscending left.now }
    ensures { (one : Region) → (lists : List TermList) → left.now ≡ frames_hits one lists frames.now
        → IfOk result (λ v. v.items ≡ frames_hits (Both op one (Window size)) lists frames.now) }
{
    match op {
        Op::Containing => holding_windows(alloc, true, left, size),
        Op::ContainedIn => held_by_windows(alloc, true, left, size, frames),
        Op::NotContaining => holding_windows(alloc, false, left, size),
        Op::NotContainedIn => held_by_windows(alloc, false, left, size, frames),
        Op::OneOf | Op::BothOf | Op::FollowedBy => {
            let right = windows(alloc, size, frames)?;
            combine(alloc, op, left, &right, frames)
        }
    }
}

/// The places of the tag.
fn tags(
    alloc: Global,
    tag: Tag,
    frames: &[Range],
    lists: &[TermList],
) -> Result<Vec<Extent>, NoMemory>
    requires lists { AreLists lists.now }
    requires frames { All IsFrame frames.now }
    requires apart { AreApart frames.now }
    ensures { IfOk result (λ v. v.items ≡ frames_hits (Mark tag) lists.now frames.now) }
{
    term(alloc, tag_bytes(tag), frames, lists)
}

/// The innermost extents from the one tag to the other.
fn between(
    alloc: Global,
    first: Tag,
    last: Tag,
    frames: &[Range],
    lists: &[TermList],
) -> Result<Vec<Extent>, NoMemory>
    requires lists { AreLists lists.now }
    requires frames { All IsFrame frames.now }
    requires apart { AreApart frames.now }
    ensures { IfOk result (λ v. v.items ≡ frames_hits (Both FollowedBy (Mark first) (Mark last)) lists.now frames.now) }
{
    let left = tags(alloc, first, frames, lists)?;
    let right = tags(alloc, last, frames, lists)?;
    combine(alloc, Op::FollowedBy, &left, &right, frames)
}

/// The extents of the expression in frames that lie apart, in one walk over all of them: of each
/// operand and operator one list, whatever the number of frames. Where an operator only tests,
/// windows aren't listed, and of lines, files, tags and single words no more than stands near the
/// other operand.
pub fn solve_at_once(
    alloc: Global,
    expr: &Expr,
    frames: &[Range],
    lists: &[TermList],
) -> Result<Vec<Extent>, NoMemory>
    requires lists { AreLists lists.now }
    requires frames { All IsFrame frames.now }
    requires apart { AreApart frames.now }
    ensures { IfOk result (λ v. v.items ≡ frames_hits (region_of expr.now) lists.now frames.now) }
{
    match expr {
        Expr::Phrase(words) => phrase(alloc, words.as_slice(), frames, lists),
        Expr::Tag(tag) => tags(alloc, *tag, frames, lists),
        Expr::File => between(alloc, Tag::FileStart, Tag::FileEnd, frames, lists),
        Expr::Line => between(alloc, Tag::LineStart, Tag::LineEnd, frames, lists),
        Expr::Window(size) => windows(alloc, *size, frames),
        Expr::Both(op, left, right) => match way_of(*op, left, right) {
            Way::Windows(size) => {
                let left = solve_at_once(alloc, left, frames, lists)?;
                combine_with_windows(alloc, *op, &left, size, frames)
            }
            Way::LeftNear(simple) => {
                let right = solve_at_once(alloc, right, frames, lists)?;
                let left = near(alloc, simple, &right, frames, lists)?;
                combine(alloc, *op, &left, &right, frames)
            }
            Way::RightNear(simple) => {
                let left = solve_at_once(alloc, left, frames, lists)?;
                let right = near(alloc, simple, &left, frames, lists)?;
                combine(alloc, *op, &left, &right, frames)
            }
            Way::Lists => {
                let left = solve_at_once(alloc, left, frames, lists)?;
                let right = solve_at_once(alloc, right, frames, lists)?;
                combine(alloc, *op, &left, &right, frames)
            }
        },
    }
}

/// The same, so many frames at a time, so that the lists of operands stay small.
fn solve_parts(
    alloc: Global,
    expr: &Expr,
    frames: &[Range],
    lists: &[TermList],
) -> Result<Vec<Extent>, NoMemory>
    requires lists { AreLists lists.now }
    requires frames { All IsFrame frames.now }
    requires apart { AreApart frames.now }
    ensures { IfOk result (λ v. v.items ≡ frames_hits (region_of expr.now) lists.now frames.now) }
{
    if frames.len() < 2 || frames_at_once(frames) == frames.len() {
        return solve_at_once(alloc, expr, frames, lists);
    }
    let mut found = Vec::new(alloc);
    let mut from = 0;
    while from < frames.len() {
        let some = frames_at_once(&frames[from..]);
        let extents = solve_at_once(alloc, expr, &frames[from..from + some], lists)?;
        found.extend_from_slice(&extents)?;
        from += some;
    }
    Ok(found)
}

/// The extents that the expression means, frame by frame in the order of the frames, each from its
/// first address to its last. Every frame ends at or before address 2^47. The lists ascend by their
/// terms' bytes, and the addresses of each ascend. An address counts as a term where the term's list
/// has it: a term without a list stands nowhere, and two lists may share an address. The one error is
/// out of memory.
///
/// Each call asks whether the frames lie apart, by a walk over all of them: where the caller knows it,
/// `solve_apart` asks nothing.
pub fn solve(
    alloc: Global,
    expr: &Expr,
    frames: &[Range],
    lists: &[TermList],
) -> Result<Vec<Extent>, NoMemory>
    requires lists { AreLists lists.now }
    requires frames { All IsFrame frames.now }
    // Frame by frame the extents of a text.
    ensures extents { IfOk result (λ v. v.items ≡ frames_hits (region_of expr.now) lists.now frames.now) }
    // Over frames that lie apart, starts and ends both ascend strictly.
    ensures ascending { AreApart frames.now → IfOk result (λ v. IsAscending v.items) }
{
    if are_apart(frames) {
        return solve_apart(alloc, expr, frames, lists);
    }
    let mut found = Vec::new(alloc);
    for frame in frames {
        let extents = solve_at_once(alloc, expr, &[*frame], lists)?;
        found.extend_from_slice(&extents)?;
    }
    Ok(found)
}

/// The same for callers who know that each frame ends before the next one starts, so that no walk over
/// the frames has to find it out.
pub fn solve_apart(
    alloc: Global,
    expr: &Expr,
    frames: &[Range],
    lists: &[TermList],
) -> Result<Vec<Extent>, NoMemory>
    requires lists { AreLists lists.now }
    requires frames { All IsFrame frames.now }
    requires apart { AreApart frames.now }
    // Frame by frame the extents of a text.
    ensures extents { IfOk result (λ v. v.items ≡ frames_hits (region_of expr.now) lists.now frames.now) }
    // Starts and ends both ascend strictly.
    ensures ascending { IfOk result (λ v. IsAscending v.items) }
{
    if is_one_term(expr) {
        return solve_at_once(alloc, expr, frames, lists);
    }
    let some = frames_with_needed(alloc, expr, frames, lists)?;
    match some {
        Some(met) => solve_parts(alloc, expr, &met, lists),
        None => solve_parts(alloc, expr, frames, lists),
    }
}

/// Whether the expression is one word or one tag alone. Its addresses lead to the frames themselves,
/// and no other list than that of its extents is made. Only time and memory depend on it.
fn is_one_term(expr: &Expr) -> bool {
    match expr {
        Expr::Phrase(words) => words.len() <= 1,
        Expr::Tag(_) => true,
        _ => false,
    }
}
