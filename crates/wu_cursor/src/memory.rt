//! What the calls in one frame remember of containments, so that none goes twice over the same extents.
ghost use Rattle.std.specs.Prelude.{◌≡◌, ℕ, Bool, List, IsTrue, MatchOption, ⊤};
ghost use Rattle.wu_base.specs.declared.addresses.Extent.{Extent};
ghost use Rattle.wu_base.specs.declared.addresses.Range.{Range};
ghost use Rattle.wu_base.specs.declared.addresses.TermList.{TermList};
ghost use Rattle.wu_cursor.specs.declared.directions.Direction.{Direction};
ghost use Rattle.wu_cursor.specs.Memory.{AreAnswers, AreRight, IsKnown, IsNearestIn, IsNearestOf, IsRight, answers_in};
ghost use Rattle.wu_gcl.specs.Regions.{region_of};

use crate::directions::{Direction, near, precedes};
use wu_base::Extent;
use wu_gcl::Expr;

/// The nearest extent from a place on.
#[derive(Clone, Copy)]
pub struct Found {
    place: u64,
    extent: Option<Extent>,
}

/// What was found in one direction: the last two answers that differ. One alone wouldn't do, as a holder
/// is sought from near what it holds, and its start then from its own end.
#[derive(Clone, Copy)]
pub struct Answers {
    last: Option<Found>,
    before: Option<Found>,
}

/// What was found of one expression.
#[derive(Clone, Copy)]
pub struct Slot<'a> {
    expr: &'a Expr,
    forward: Answers,
    backward: Answers,
}

/// Whether both expressions say the same.
fn is_same(one: &Expr, other: &Expr) -> bool
    ensures { IsTrue result → region_of one.now ≡ region_of other.now }
{
    match (one, other) {
        (Expr::Phrase(words), Expr::Phrase(others)) => words == others,
        (Expr::Tag(tag), Expr::Tag(other)) => tag == other,
        (Expr::File, Expr::File) => true,
        (Expr::Line, Expr::Line) => true,
        (Expr::Window(size), Expr::Window(other)) => size == other,
        (Expr::Both(op, left, right), Expr::Both(other, other_left, other_right)) => {
            op == other && is_same(left, other_left) && is_same(right, other_right)
        }
        _ => false,
    }
}

/// The nearest extent from the place on, if the answer that is remembered tells it.
fn known(direction: Direction, found: Option<Found>, place: u64) -> Option<Option<Extent>>
    ensures { IsKnown direction found place result }
{
    let found = found?;
    if precedes(direction, place, found.place) {
        return None;
    }
    match found.extent {
        Some(extent) => {
            if precedes(direction, near(direction, extent), place) {
                return None;
            }
            Some(Some(extent))
        }
        None => Some(None),
    }
}

/// The same, if one of both answers tells it.
fn known_of(direction: Direction, answers: Answers, place: u64) -> Option<Option<Extent>>
    ensures { (n : ℕ) (set : Extent → Bool) → AreAnswers direction n set answers
        → MatchOption result ⊤ (IsNearestIn direction n set place) }
{
    match known(direction, answers.last, place) {
        Some(known) => Some(known),
        None => known(direction, answers.before, place),
    }
}

/// What is remembered in the direction.
fn answers_in(direction: Direction, slot: &Slot<'_>) -> Answers
    ensures { result ≡ answers_in direction slot.now }
{
    match direction {
        Direction::Forward => slot.forward,
        Direction::Backward => slot.backward,
    }
}

/// The nearest extent of the expression from the place on, if its slot tells it.
#[inline]
pub fn recall(
    direction: Direction,
    memory: &[Option<Slot<'_>>],
    at: usize,
    expr: &Expr,
    place: u64,
) -> Option<Option<Extent>>
    ensures { (lists : List TermList) (frame : Range) → AreRight lists frame memory.now → MatchOption result ⊤
        (IsNearestOf direction (region_of expr.now) lists frame place) }
{
    if at >= memory.len() {
        return None;
    }
    let slot = memory[at]?;
    let known = known_of(direction, answers_in(direction, &slot), place)?;
    if !is_same(slot.expr, expr) {
        return None;
    }
    Some(known)
}

/// Whether the answer named the same extent, or none as well.
fn names(known: Option<Found>, extent: Option<Extent>) -> bool {
    match known {
        Some(found) => match (found.extent, extent) {
            (Some(one), Some(other)) => one.start == other.start,
            (None, None) => true,
            _ => false,
        },
        None => false,
    }
}

/// The answers with a new one, in place of the last one where that named the same extent.
fn with_answer(answers: Answers, found: Found) -> Answers
    ensures { (direction : Direction) (n : ℕ) (set : Extent → Bool) → AreAnswers direction n set answers
        → IsNearestIn direction n set found.place found.extent → AreAnswers direction n set result }
{
    if names(answers.last, found.extent) {
        return Answers {
            last: Some(found),
            before: answers.before,
        };
    }
    Answers {
        last: Some(found),
        before: answers.last,
    }
}

/// The slot, if it is the expression's; else a new one that has no answers.
fn slot_of<'a>(slot: Option<Slot<'a>>, expr: &'a Expr) -> Slot<'a>
    ensures expr { region_of result.expr.now ≡ region_of expr.now }
    ensures right { (lists : List TermList) (frame : Range) → MatchOption slot.entry ⊤ (IsRight lists frame)
        → IsRight lists frame result }
{
    let none = Answers {
        last: None,
        before: None,
    };
    let fresh = Slot {
        expr,
        forward: none,
        backward: none,
    };
    match slot {
        Some(slot) => {
            if is_same(slot.expr, expr) {
                return slot;
            }
            fresh
        }
        None => fresh,
    }
}

/// The slot with a new answer; a new one, if the slot is another expression's.
fn with_found<'a>(
    direction: Direction,
    slot: Option<Slot<'a>>,
    expr: &'a Expr,
    found: Found,
) -> Slot<'a>
    ensures { (lists : List TermList) (frame : Range) → MatchOption slot.entry ⊤ (IsRight lists frame)
        → IsNearestOf direction (region_of expr.now) lists frame found.place found.extent → IsRight lists frame result }
{
    let slot = slot_of(slot, expr);
    match direction {
        Direction::Forward => Slot {
            expr: slot.expr,
            forward: with_answer(slot.forward, found),
            backward: slot.backward,
        },
        Direction::Backward => Slot {
            expr: slot.expr,
            forward: slot.forward,
            backward: with_answer(slot.backward, found),
        },
    }
}

/// Remembers the nearest extent of the expression from the place on, if there is a slot for it.
pub fn note<'a>(
    direction: Direction,
    memory: &mut [Option<Slot<'a>>],
    at: usize,
    expr: &'a Expr,
    place: u64,
    extent: Option<Extent>,
)
    ensures { (lists : List TermList) (frame : Range) → AreRight lists frame memory.old
        → IsNearestOf direction (region_of expr.now) lists frame place extent → AreRight lists frame memory.new }
{
    if at < memory.len() {
        let slot = with_found(direction, memory[at], expr, Found { place, extent });
        memory[at] = Some(slot);
    }
}
