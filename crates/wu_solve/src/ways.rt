//! Which of an operator's operands are listed. Only time and memory depend on it.
ghost use Rattle.std.specs.Prelude.{◌≡◌, ℕ, IfSome, IsTrue};
ghost use Rattle.wu_gcl.specs.Regions.{region_of, Window};
ghost use Rattle.wu_solve.specs.Merging.{IsTest, KeepsByOne};
ghost use Rattle.wu_solve.specs.Simple.{Means};
ghost use Rattle.wu_solve.specs.declared.nearby.Simple.{Simple as SimpleExpr};
ghost use Rattle.wu_solve.specs.declared.ways.Way.TheVariants.{Windows, LeftNear, RightNear};

use crate::nearby::{Simple, as_simple};
use wu_gcl::{Expr, Op};

/// How an operator comes to its extents.
#[derive(Clone, Copy)]
pub enum Way<'a> {
    /// From the left operand's extents, each measured by windows of that size.
    Windows(u16),
    /// From the right operand's extents, and what of the left one stands near them.
    LeftNear(Simple<'a>),
    /// From the left operand's extents, and what of the right one stands near them.
    RightNear(Simple<'a>),
    /// From the extents of both.
    Lists,
}

/// The way that is taken. Of lines and files, of which there are many, no more are listed than have to
/// be, before the places of a word.
pub fn way_of<'a>(op: Op, left: &'a Expr, right: &'a Expr) -> Way<'a>
    ensures windows { (size : ℕ) → result ≡ Windows size → region_of right.now ≡ Window size }
    ensures left { (simple : SimpleExpr) → result ≡ LeftNear simple → KeepsByOne op × Means simple (region_of left.now) }
    ensures right { (simple : SimpleExpr) → result ≡ RightNear simple → IsTest op × Means simple (region_of right.now) }
{
    if let Expr::Window(size) = right {
        return Way::Windows(*size);
    }
    match (left_near(op, left), right_near(op, right)) {
        (Some(Simple::Spans(first, last)), Some(Simple::Term(_))) => {
            Way::LeftNear(Simple::Spans(first, last))
        }
        (_, Some(simple)) => Way::RightNear(simple),
        (Some(simple), None) => Way::LeftNear(simple),
        (None, None) => Way::Lists,
    }
}

/// The left operand, if it is simple, and what the operator keeps of it stands near the right one.
fn left_near(op: Op, left: &Expr) -> Option<Simple<'_>>
    ensures { IfSome result (λ simple. KeepsByOne op × Means simple (region_of left.now)) }
{
    match op {
        Op::Containing | Op::ContainedIn => as_simple(left),
        Op::NotContaining | Op::NotContainedIn | Op::OneOf | Op::BothOf | Op::FollowedBy => None,
    }
}

/// The right operand, if it is simple, and the operator only tests the left one's extents by it.
fn right_near(op: Op, right: &Expr) -> Option<Simple<'_>>
    ensures { IfSome result (λ simple. IsTest op × Means simple (region_of right.now)) }
{
    match op {
        Op::Containing | Op::ContainedIn | Op::NotContaining | Op::NotContainedIn => as_simple(
            right,
        ),
        Op::OneOf | Op::BothOf | Op::FollowedBy => None,
    }
}
