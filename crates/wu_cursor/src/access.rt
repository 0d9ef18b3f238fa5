//! The access functions of an expression in one frame, with places counted from the frame's start.
ghost use Rattle.std.specs.Prelude.{◌≡◌, ◌&&◌, MatchOption};
ghost use Rattle.wu_cursor.specs.Memory.{AreRight, IsNearestOf, IsFarEndOf};
ghost use Rattle.wu_cursor.specs.Within.{set_in, keeps, IsFirstEnding, NoneEndsFrom, AreKept};
ghost use Rattle.wu_gcl.specs.Extents.{holds, some_extent};
ghost use Rattle.wu_gcl.specs.Regions.{region_of};
ghost use Rattle.wu_solve.specs.Addresses.{AreLists};
ghost use Rattle.wu_solve.specs.Listing.{IsExtentIn};
ghost use Rattle.wu_solve.specs.Solving.{IsFrame};

use crate::directions::{Direction, between, far, farther, near, nearer, next_place, opposite};
use crate::memory::{Slot, note, recall};
use crate::operands::operand;
use crate::slots::{NO_SLOT, asks_again, operators_in, right_at};
use wu_base::{Extent, OPERATORS_MAX, Range, TermList};
use wu_gcl::{Expr, Op};

/// The text in a frame: where its terms stand, and the frame's addresses.
#[derive(Clone, Copy)]
struct Text<'t> {
    lists: &'t [TermList],
    frame: Range,
}

/// As many slots as most expressions need: a slot costs some time in each frame, used or not.
const FEW_SLOTS: usize = 8;

/// The nearest extent of the expression in the frame from the place on: forward the first one that starts
/// there or after it, backward the last one that ends there or before it.
pub fn nearest_at(
    direction: Direction,
    expr: &Expr,
    lists: &[TermList],
    frame: Range,
    place: u64,
) -> Option<Extent>
    requires lists { AreLists lists.now }
    requires frame { IsFrame frame }
    ensures { IsNearestOf direction (region_of expr.now) lists.now frame place result }
{
    let text = &Text { lists, frame };
    if !asks_again(expr) {
        return nearest(direction, expr, text, place, &mut [], NO_SLOT);
    }
    if operators_in(expr) <= FEW_SLOTS {
        return nearest(direction, expr, text, place, &mut [None; FEW_SLOTS], 0);
    }
    nearest(direction, expr, text, place, &mut [None; OPERATORS_MAX], 0)
}

/// The same, with what was remembered in the frame. The expression's slot is `at`, if
/// there are so many.
#[cycle(access)]
fn nearest<'a>(
    direction: Direction,
    expr: &'a Expr,
    text: &Text<'_>,
    place: u64,
    memory: &mut [Option<Slot<'a>>],
    at: usize,
) -> Option<Extent>
    requires lists { AreLists text.now.lists.now }
    requires frame { IsFrame text.now.frame }
    requires memory { AreRight text.now.lists.now text.now.frame memory.old }
    ensures memory { AreRight text.now.lists.now text.now.frame memory.new }
    ensures found { IsNearestOf direction (region_of expr.now) text.now.lists.now text.now.frame place result }
{
    match expr {
        Expr::Both(op, ..) => match op {
            Op::Containing | Op::ContainedIn | Op::NotContaining | Op::NotContainedIn => {
                kept(direction, expr, text, place, memory, at)
            }
            Op::OneOf | Op::BothOf | Op::FollowedBy => {
                let last = far_end(direction, expr, text, place, memory, at)?;
                let first = far_end(opposite(direction), expr, text, last, memory, at)?;
                Some(between(direction, first, last))
            }
        },
        _ => operand(direction, expr, text.lists, text.frame, place),
    }
}

/// The far end of the nearest extent: forward where it ends, backward where it starts. Each operand of
/// `+`, `^` and `..` is asked once: which of the extents that these make hold others doesn't matter here.
#[cycle(access)]
fn far_end<'a>(
    direction: Direction,
    expr: &'a Expr,
    text: &Text<'_>,
    place: u64,
    memory: &mut [Option<Slot<'a>>],
    at: usize,
) -> Option<u64>
    requires lists { AreLists text.now.lists.now }
    requires frame { IsFrame text.now.frame }
    requires memory { AreRight text.now.lists.now text.now.frame memory.old }
    ensures memory { AreRight text.now.lists.now text.now.frame memory.new }
    ensures found { IsFarEndOf direction (region_of expr.now) text.now.lists.now text.now.frame place result }
{
    match expr {
        Expr::Both(op, left, right) => match op {
            Op::OneOf => {
                let one = far_end(direction, left, text, place, memory, at.saturating_add(1));
                let other = far_end(direction, right, text, place, memory, right_at(at, left));
                nearer(direction, one, other)
            }
            Op::BothOf => {
                let one = far_end(direction, left, text, place, memory, at.saturating_add(1))?;
                let other = far_end(direction, right, text, place, memory, right_at(at, left))?;
                Some(farther(direction, one, other))
            }
            Op::FollowedBy => match direction {
                Direction::Forward => {
                    let end = far_end(direction, left, text, place, memory, at.saturating_add(1))?;
                    let next = next_place(direction, end)?;
                    far_end(direction, right, text, next, memory, right_at(at, left))
                }
                Direction::Backward => {
                    let start = far_end(direction, right, text, place, memory, right_at(at, left))?;
                    let next = next_place(direction, start)?;
                    far_end(direction, left, text, next, memory, at.saturating_add(1))
                }
            },
            Op::Containing | Op::ContainedIn | Op::NotContaining | Op::NotContainedIn => {
                Some(far(direction, kept(direction, expr, text, place, memory, at)?))
            }
        },
        _ => Some(far(
            direction,
            operand(direction, expr, text.lists, text.frame, place)?,
        )),
    }
}

/// The nearest extent that the containment keeps: what is remembered, or is sought and then remembered.
#[cycle(access)]
fn kept<'a>(
    direction: Direction,
    expr: &'a Expr,
    text: &Text<'_>,
    place: u64,
    memory: &mut [Option<Slot<'a>>],
    at: usize,
) -> Option<Extent>
    requires containment { AreKept (region_of expr.now) }
    requires lists { AreLists text.now.lists.now }
    requires frame { IsFrame text.now.frame }
    requires memory { AreRight text.now.lists.now text.now.frame memory.old }
    ensures memory { AreRight text.now.lists.now text.now.frame memory.new }
    ensures found { IsNearestOf direction (region_of expr.now) text.now.lists.now text.now.frame place result }
{
    if let Some(known) = recall(direction, memory, at, expr, place) {
        return known;
    }
    let found = sought(direction, expr, text, place, memory, at);
    note(direction, memory, at, expr, place, found);
    found
}

/// The same, sought by a loop over the extents of the left operand, up to where it is remembered.
#[cycle(access)]
fn sought<'a>(
    direction: Direction,
    expr: &'a Expr,
    text: &Text<'_>,
    place: u64,
    memory: &mut [Option<Slot<'a>>],
    at: usize,
) -> Option<Extent>
    requires containment { AreKept (region_of expr.now) }
    requires lists { AreLists text.now.lists.now }
    requires frame { IsFrame text.now.frame }
    requires memory { AreRight text.now.lists.now text.now.frame memory.old }
    ensures memory { AreRight text.now.lists.now text.now.frame memory.new }
    ensures found { IsNearestOf direction (region_of expr.now) text.now.lists.now text.now.frame place result }
{
    let Expr::Both(op, left, right) = expr else {
        return None;
    };
    let right_at = right_at(at, left);
    let mut from = place;
    loop {
        if let Some(known) = recall(direction, memory, at, expr, from) {
            return known;
        }
        let extent = nearest(direction, left, text, from, memory, at.saturating_add(1))?;
        if is_kept(*op, right, text, extent, memory, right_at) {
            return Some(extent);
        }
        from = next_place(direction, near(direction, extent))?;
    }
}

/// Whether the containment keeps the extent of its left operand.
#[cycle(access)]
fn is_kept<'a>(
    op: Op,
    right: &'a Expr,
    text: &Text<'_>,
    extent: Extent,
    memory: &mut [Option<Slot<'a>>],
    at: usize,
) -> bool
    requires extent { IsExtentIn text.now.frame.len extent }
    requires lists { AreLists text.now.lists.now }
    requires frame { IsFrame text.now.frame }
    requires memory { AreRight text.now.lists.now text.now.frame memory.old }
    ensures memory { AreRight text.now.lists.now text.now.frame memory.new }
    ensures found { result ≡ keeps op text.now.frame.len (set_in (region_of right.now) text.now.lists.now text.now.frame) extent }
{
    match op {
        Op::Containing => holds_one(right, text, extent, memory, at),
        Op::ContainedIn => is_held(right, text, extent, memory, at),
        Op::NotContaining => !holds_one(right, text, extent, memory, at),
        Op::NotContainedIn => !is_held(right, text, extent, memory, at),
        Op::OneOf | Op::BothOf | Op::FollowedBy => false,
    }
}

/// Whether the extent holds one of the expression.
#[cycle(access)]
fn holds_one<'a>(
    expr: &'a Expr,
    text: &Text<'_>,
    extent: Extent,
    memory: &mut [Option<Slot<'a>>],
    at: usize,
) -> bool
    requires extent { IsExtentIn text.now.frame.len extent }
    requires lists { AreLists text.now.lists.now }
    requires frame { IsFrame text.now.frame }
    requires memory { AreRight text.now.lists.now text.now.frame memory.old }
    ensures memory { AreRight text.now.lists.now text.now.frame memory.new }
    ensures found { result ≡ some_extent text.now.frame.len
        (λ y. holds extent y && set_in (region_of expr.now) text.now.lists.now text.now.frame y) }
{
    match far_end(Direction::Forward, expr, text, extent.start, memory, at) {
        Some(end) => end <= extent.end,
        None => false,
    }
}

/// Whether an extent of the expression holds it: the first one that ends where it does or after it.
#[cycle(access)]
fn is_held<'a>(
    expr: &'a Expr,
    text: &Text<'_>,
    extent: Extent,
    memory: &mut [Option<Slot<'a>>],
    at: usize,
) -> bool
    requires extent { IsExtentIn text.now.frame.len extent }
    requires lists { AreLists text.now.lists.now }
    requires frame { IsFrame text.now.frame }
    requires memory { AreRight text.now.lists.now text.now.frame memory.old }
    ensures memory { AreRight text.now.lists.now text.now.frame memory.new }
    ensures found { result ≡ some_extent text.now.frame.len
        (λ y. holds y extent && set_in (region_of expr.now) text.now.lists.now text.now.frame y) }
{
    match first_ending(expr, text, extent.end, memory, at) {
        Some(holder) => holder.start <= extent.start,
        None => false,
    }
}

/// The first extent of the expression in the frame that ends at the place `from` or after it.
#[cycle(access)]
fn first_ending<'a>(
    expr: &'a Expr,
    text: &Text<'_>,
    from: u64,
    memory: &mut [Option<Slot<'a>>],
    at: usize,
) -> Option<Extent>
    requires lists { AreLists text.now.lists.now }
    requires frame { IsFrame text.now.frame }
    requires memory { AreRight text.now.lists.now text.now.frame memory.old }
    ensures memory { AreRight text.now.lists.now text.now.frame memory.new }
    ensures found { MatchOption result
        (NoneEndsFrom text.now.frame.len (set_in (region_of expr.now) text.now.lists.now text.now.frame) from)
        (IsFirstEnding text.now.frame.len (set_in (region_of expr.now) text.now.lists.now text.now.frame) from) }
{
    if from == 0 {
        return nearest(Direction::Forward, expr, text, 0, memory, at);
    }
    match far_end(Direction::Backward, expr, text, from - 1, memory, at) {
        Some(start) => nearest(Direction::Forward, expr, text, start + 1, memory, at),
        None => nearest(Direction::Forward, expr, text, 0, memory, at),
    }
}
