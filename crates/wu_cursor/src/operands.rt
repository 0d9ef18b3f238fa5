//! The access functions of an expression that has no operator, in one frame.
ghost use Rattle.std.specs.Prelude.{◌∷◌, [], ◌<◌, ◌≤◌, MatchOption};
ghost use Rattle.wu_cursor.specs.Memory.{IsNearestOf};
ghost use Rattle.wu_cursor.specs.Within.{set_in, IsFirst, NoneStarts, IsLast, NoneEnds, IsFirstEnd, IsLastStart, IsOperand};
ghost use Rattle.wu_gcl.specs.declared.expressions.Op.TheVariants.{FollowedBy};
ghost use Rattle.wu_gcl.specs.Regions.{region_of, Phrase, Mark, Window, Both};
ghost use Rattle.wu_solve.specs.Addresses.{AreLists};
ghost use Rattle.wu_solve.specs.Solving.{IsFrame};

use crate::directions::Direction;
use crate::phrases::{first_standing, last_standing};
use crate::places::{first_place, last_place};
use wu_base::{Bytes, Extent, Range, TermList};
use wu_gcl::{Expr, Tag, tag_bytes};

/// The nearest extent of an expression that has no operator.
pub fn operand(
    direction: Direction,
    expr: &Expr,
    lists: &[TermList],
    frame: Range,
    place: u64,
) -> Option<Extent>
    requires operand { IsOperand (region_of expr.now) }
    requires lists { AreLists lists.now }
    requires frame { IsFrame frame }
    ensures { IsNearestOf direction (region_of expr.now) lists.now frame place result }
{
    match direction {
        Direction::Forward => first_operand(expr, lists, frame, place),
        Direction::Backward => last_operand(expr, lists, frame, place),
    }
}

/// The first extent of the expression in the frame that starts at the place `from` or after it.
fn first_operand(expr: &Expr, lists: &[TermList], frame: Range, from: u64) -> Option<Extent>
    requires operand { IsOperand (region_of expr.now) }
    requires lists { AreLists lists.now }
    requires frame { IsFrame frame }
    ensures { MatchOption result (NoneStarts frame.len (set_in (region_of expr.now) lists.now frame) from)
        (IsFirst frame.len (set_in (region_of expr.now) lists.now frame) from) }
{
    match expr {
        Expr::Phrase(words) => first_phrase(words.as_slice(), lists, frame, from),
        Expr::Tag(tag) => first_tag(*tag, lists, frame, from),
        Expr::File => first_between(Tag::FileStart, Tag::FileEnd, lists, frame, from),
        Expr::Line => first_between(Tag::LineStart, Tag::LineEnd, lists, frame, from),
        Expr::Window(size) => first_window(*size, lists, frame, from),
        Expr::Both(..) => None,
    }
}

/// The last extent of the expression in the frame that ends at the place `to` or before it.
fn last_operand(expr: &Expr, lists: &[TermList], frame: Range, to: u64) -> Option<Extent>
    requires operand { IsOperand (region_of expr.now) }
    requires lists { AreLists lists.now }
    requires frame { IsFrame frame }
    ensures { MatchOption result (NoneEnds frame.len (set_in (region_of expr.now) lists.now frame) to)
        (IsLast frame.len (set_in (region_of expr.now) lists.now frame) to) }
{
    match expr {
        Expr::Phrase(words) => last_phrase(words.as_slice(), lists, frame, to),
        Expr::Tag(tag) => last_tag(*tag, lists, frame, to),
        Expr::File => last_between(Tag::FileStart, Tag::FileEnd, lists, frame, to),
        Expr::Line => last_between(Tag::LineStart, Tag::LineEnd, lists, frame, to),
        Expr::Window(size) => last_window(*size, lists, frame, to),
        Expr::Both(..) => None,
    }
}

/// The first extent of a phrase.
fn first_phrase(words: &[Bytes], lists: &[TermList], frame: Range, from: u64) -> Option<Extent>
    requires lists { AreLists lists.now }
    requires frame { IsFrame frame }
    ensures { MatchOption result (NoneStarts frame.len (set_in (Phrase words.now) lists.now frame) from)
        (IsFirst frame.len (set_in (Phrase words.now) lists.now frame) from) }
{
    if words.is_empty() {
        return None;
    }
    let start = first_standing(words, lists, frame, from)?;
    let end = start + (words.len() as u64 - 1);
    Some(Extent { start, end })
}

/// The last extent of a phrase.
fn last_phrase(words: &[Bytes], lists: &[TermList], frame: Range, to: u64) -> Option<Extent>
    requires lists { AreLists lists.now }
    requires frame { IsFrame frame }
    ensures { MatchOption result (NoneEnds frame.len (set_in (Phrase words.now) lists.now frame) to)
        (IsLast frame.len (set_in (Phrase words.now) lists.now frame) to) }
{
    if words.is_empty() {
        return None;
    }
    let after = words.len() as u64 - 1;
    if to < after {
        return None;
    }
    let start = last_standing(words, lists, frame, to - after)?;
    let end = start + after;
    Some(Extent { start, end })
}

/// The first place of a tag, as an extent.
fn first_tag(tag: Tag, lists: &[TermList], frame: Range, from: u64) -> Option<Extent>
    requires lists { AreLists lists.now }
    requires frame { IsFrame frame }
    ensures { MatchOption result (NoneStarts frame.len (set_in (Mark tag) lists.now frame) from)
        (IsFirst frame.len (set_in (Mark tag) lists.now frame) from) }
{
    let place = first_place(lists, tag_bytes(tag), frame, from)?;
    Some(Extent {
        start: place,
        end: place,
    })
}

/// The last place of a tag, as an extent.
fn last_tag(tag: Tag, lists: &[TermList], frame: Range, to: u64) -> Option<Extent>
    requires lists { AreLists lists.now }
    requires frame { IsFrame frame }
    ensures { MatchOption result (NoneEnds frame.len (set_in (Mark tag) lists.now frame) to)
        (IsLast frame.len (set_in (Mark tag) lists.now frame) to) }
{
    let place = last_place(lists, tag_bytes(tag), frame, to)?;
    Some(Extent {
        start: place,
        end: place,
    })
}

/// The first window of that size.
fn first_window(size: u16, lists: &[TermList], frame: Range, from: u64) -> Option<Extent>
    requires { IsFrame frame }
    ensures { MatchOption result (NoneStarts frame.len (set_in (Window size) lists.now frame) from)
        (IsFirst frame.len (set_in (Window size) lists.now frame) from) }
{
    let size = u64::from(size);
    if size == 0 || frame.len < size {
        return None;
    }
    if frame.len - size < from {
        return None;
    }
    Some(Extent {
        start: from,
        end: from + (size - 1),
    })
}

/// The last window of that size.
fn last_window(size: u16, lists: &[TermList], frame: Range, to: u64) -> Option<Extent>
    requires { IsFrame frame }
    ensures { MatchOption result (NoneEnds frame.len (set_in (Window size) lists.now frame) to)
        (IsLast frame.len (set_in (Window size) lists.now frame) to) }
{
    let size = u64::from(size);
    if size == 0 || frame.len == 0 {
        return None;
    }
    let end = to.min(frame.len - 1);
    if end < size - 1 {
        return None;
    }
    Some(Extent {
        start: end - (size - 1),
        end,
    })
}

/// Where the first extent ends from the one tag to the other.
fn end_between(first: Tag, last: Tag, lists: &[TermList], frame: Range, from: u64) -> Option<u64>
    requires lists { AreLists lists.now }
    requires frame { IsFrame frame }
    ensures { MatchOption result (NoneStarts frame.len (set_in (Both FollowedBy (Mark first) (Mark last)) lists.now frame) from)
        (IsFirstEnd frame.len (set_in (Both FollowedBy (Mark first) (Mark last)) lists.now frame) from) }
{
    let place = first_place(lists, tag_bytes(first), frame, from)?;
    first_place(lists, tag_bytes(last), frame, place + 1)
}

/// Where the last extent starts from the one tag to the other.
fn start_between(first: Tag, last: Tag, lists: &[TermList], frame: Range, to: u64) -> Option<u64>
    requires lists { AreLists lists.now }
    requires frame { IsFrame frame }
    ensures { MatchOption result (NoneEnds frame.len (set_in (Both FollowedBy (Mark first) (Mark last)) lists.now frame) to)
        (IsLastStart frame.len (set_in (Both FollowedBy (Mark first) (Mark last)) lists.now frame) to) }
{
    let place = last_place(lists, tag_bytes(last), frame, to)?;
    if place == 0 {
        return None;
    }
    last_place(lists, tag_bytes(first), frame, place - 1)
}

/// The first extent from the one tag to the other.
fn first_between(
    first: Tag,
    last: Tag,
    lists: &[TermList],
    frame: Range,
    from: u64,
) -> Option<Extent>
    requires lists { AreLists lists.now }
    requires frame { IsFrame frame }
    ensures { MatchOption result (NoneStarts frame.len (set_in (Both FollowedBy (Mark first) (Mark last)) lists.now frame) from)
        (IsFirst frame.len (set_in (Both FollowedBy (Mark first) (Mark last)) lists.now frame) from) }
{
    let end = end_between(first, last, lists, frame, from)?;
    let start = start_between(first, last, lists, frame, end)?;
    Some(Extent { start, end })
}

/// The last extent from the one tag to the other.
fn last_between(first: Tag, last: Tag, lists: &[TermList], frame: Range, to: u64) -> Option<Extent>
    requires lists { AreLists lists.now }
    requires frame { IsFrame frame }
    ensures { MatchOption result (NoneEnds frame.len (set_in (Both FollowedBy (Mark first) (Mark last)) lists.now frame) to)
        (IsLast frame.len (set_in (Both FollowedBy (Mark first) (Mark last)) lists.now frame) to) }
{
    let start = start_between(first, last, lists, frame, to)?;
    let end = end_between(first, last, lists, frame, start)?;
    Some(Extent { start, end })
}
