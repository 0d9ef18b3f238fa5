//! Which slots of the memory an expression and its operands take. Only time depends on it: a slot that is
//! taken wrongly remembers less, and every answer is the same. So nothing here has a contract.
use wu_gcl::{Expr, Op};

/// The place of a slot where there are none: nothing is counted then.
pub const NO_SLOT: usize = usize::MAX;

/// Whether the expression has a containment.
fn has_containment(expr: &Expr) -> bool {
    match expr {
        Expr::Both(op, left, right) => match op {
            Op::Containing | Op::ContainedIn | Op::NotContaining | Op::NotContainedIn => true,
            Op::OneOf | Op::BothOf | Op::FollowedBy => has_containment(left)
                || has_containment(right),
        },
        _ => false,
    }
}

/// Whether one call may ask a containment again and again: one among the operands.
pub fn asks_again(expr: &Expr) -> bool {
    match expr {
        Expr::Both(_, left, right) => has_containment(left) || has_containment(right),
        _ => false,
    }
}

/// How many operators the expression has: so many slots it may take.
pub fn operators_in(expr: &Expr) -> usize {
    match expr {
        Expr::Both(_, left, right) => {
            let operands = operators_in(left).saturating_add(operators_in(right));
            operands.saturating_add(1)
        }
        _ => 0,
    }
}

/// The slot of an operator's right operand, behind its own and those of its left operand.
pub fn right_at(at: usize, left: &Expr) -> usize {
    if at == NO_SLOT {
        return NO_SLOT;
    }
    at.saturating_add(1).saturating_add(operators_in(left))
}
