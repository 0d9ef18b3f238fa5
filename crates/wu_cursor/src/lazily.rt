//! All extents of an expression, asked for one after the other.
ghost use Rattle.std.specs.Prelude.{◌≡◌, ◌++◌, All, IfOk, OnOk, IsTrue, ◌↔◌};
ghost use Rattle.wu_gcl.specs.Regions.{region_of};
ghost use Rattle.wu_solve.specs.Addresses.{AreLists};
ghost use Rattle.wu_solve.specs.Listing.{IsAscending};
ghost use Rattle.wu_solve.specs.Solving.{frames_hits, IsFrame};
ghost use Rattle.wu_base.specs.Ranges.{AreApart};

use crate::cursors::Cursor;
use std::alloc::Global;
use wu_base::{Extent, NoMemory, Range, TermList};
use wu_gcl::{Expr, Op};
use wu_solve::solve;

/// Whether each frame ends before the next one starts.
fn are_apart(frames: &[Range]) -> bool
    requires { All IsFrame frames.now }
    ensures { IsTrue result ↔ AreApart frames.now }
{
    for i in 1..frames.len() {
        let last = frames[i - 1];
        if frames[i].start < last.start + last.len {
            return false;
        }
    }
    true
}

/// Appends the extents in frames that lie apart: the first, and the first behind each start found.
fn put_extents(
    found: &mut Vec<Extent>,
    expr: &Expr,
    frames: &[Range],
    lists: &[TermList],
) -> Result<(), NoMemory>
    requires lists { AreLists lists.now }
    requires frames { All IsFrame frames.now }
    requires apart { AreApart frames.now }
    ensures { OnOk result (found.new.items ≡ found.old.items ++ frames_hits (region_of expr.now) lists.now frames.now) }
{
    let cursor = Cursor::new(expr, frames, lists);
    let mut place = 0;
    loop {
        match cursor.tau(place) {
            Some(extent) => {
                found.push(extent)?;
                place = extent.start + 1;
            }
            None => return Ok(()),
        }
    }
}

/// Whether each call of a cursor costs a bounded number of look-ups in a frame: no containment and no
/// phrase of several words is asked. What is found doesn't depend on it.
fn is_plain(expr: &Expr) -> bool {
    match expr {
        Expr::Phrase(words) => words.as_slice().len() < 2,
        Expr::Tag(_) | Expr::File | Expr::Line | Expr::Window(_) => true,
        Expr::Both(op, left, right) => match op {
            Op::OneOf | Op::BothOf | Op::FollowedBy => is_plain(left) && is_plain(right),
            Op::Containing | Op::ContainedIn | Op::NotContaining | Op::NotContainedIn => false,
        },
    }
}

/// Whether no call of a cursor goes over what an earlier one went over, if each asks from behind the
/// last: the expression is plain, or one phrase, or one containment of plain expressions.
fn is_steady(expr: &Expr) -> bool {
    match expr {
        Expr::Both(op, left, right) => match op {
            Op::OneOf | Op::BothOf | Op::FollowedBy => is_plain(expr),
            Op::Containing | Op::ContainedIn | Op::NotContaining | Op::NotContainedIn => {
                is_plain(left) && is_plain(right)
            }
        },
        _ => true,
    }
}

/// What `solve` gives, under its conditions, found by asking a cursor for one extent after the other.
/// Where its calls could go over the same extents again and again, as those of containments in one
/// another, `solve` is called. The one error is out of memory.
pub fn solve_lazily(
    alloc: Global,
    expr: &Expr,
    frames: &[Range],
    lists: &[TermList],
) -> Result<Vec<Extent>, NoMemory>
    requires lists { AreLists lists.now }
    requires frames { All IsFrame frames.now }
    // Frame by frame the extents of a text.
    ensures extents { IfOk result (λ v. v.items ≡ frames_hits (region_of expr.now) lists.now frames.now) }
    // Over frames that lie apart, starts and ends both ascend strictly.
    ensures ascending { AreApart frames.now → IfOk result (λ v. IsAscending v.items) }
{
    if !is_steady(expr) {
        return solve(alloc, expr, frames, lists);
    }
    let mut found = Vec::new(alloc);
    if are_apart(frames) {
        put_extents(&mut found, expr, frames, lists)?;
        return Ok(found);
    }
    for frame in frames {
        put_extents(&mut found, expr, &[*frame], lists)?;
    }
    Ok(found)
}
