//! From tokens to an expression, from the left, with a stack of what is open.
ghost use Rattle.std.specs.Prelude.{◌≡◌, List, ℕ, ◌∷◌, [], Some, None, IfOk, map};
ghost use Rattle.wu_gcl.specs.Grammar.{precedence};
ghost use Rattle.wu_gcl.specs.Reading.{join, first_fault, seen};
ghost use Rattle.wu_gcl.specs.Pending.{reduced, closed_at, stepped, evaluated};
ghost use Rattle.wu_gcl.specs.Views.{token_of};
ghost use Rattle.wu_gcl.specs.Stacks.{stack_of, state_of, advanced, ended_in, seen_end};

use crate::expressions::{Expr, ExprFault, Op};
use crate::lexing::Token;
use crate::operands::operand_of;
use std::alloc::Global;
use wu_base::NoMemory;

/// An expression, or the first fault of its operands.
pub type Operand = Result<Expr, ExprFault>;

/// What waits for a closing parenthesis, or for its right operand.
#[derive(Debug, Drop)]
enum Waiting {
    Paren,
    Left(Operand, Op),
}

/// What the tokens so far lead to.
#[derive(Debug, Drop)]
enum State {
    /// An operand has to follow.
    Wanted,
    /// An operand stands before the next token.
    Held(Operand),
    /// No expression begins so.
    Refused,
}

/// What the tokens say as an expression; None exactly where they are none.
pub fn evaluated(alloc: Global, tokens: &[Token<'_>]) -> Result<Option<Operand>, NoMemory>
    ensures { IfOk result (λ r. seen_end r ≡ evaluated (map token_of tokens.now)) }
{
    let mut waiting = Vec::new(alloc);
    let mut state = State::Wanted;
    for token in tokens {
        state = advanced(alloc, &mut waiting, state, token)?;
    }
    ended_in(alloc, &mut waiting, state)
}

/// After one more token.
fn advanced(
    alloc: Global,
    waiting: &mut Vec<Waiting>,
    state: State,
    token: &Token<'_>,
) -> Result<State, NoMemory>
    ensures { IfOk result (λ s. state_of (stack_of waiting.new.items) s ≡ advanced (token_of token.now) (state_of (stack_of waiting.old.items) state)) }
{
    match state {
        State::Wanted => wanted(alloc, waiting, token),
        State::Held(operand) => held(alloc, waiting, operand, token),
        State::Refused => Ok(State::Refused),
    }
}

/// After a token where an operand has to follow.
fn wanted(alloc: Global, waiting: &mut Vec<Waiting>, token: &Token<'_>) -> Result<State, NoMemory>
    ensures { IfOk result (λ s. state_of (stack_of waiting.new.items) s ≡ stepped (token_of token.now) (stack_of waiting.old.items) None) }
{
    match token {
        Token::Operand(atom) => Ok(State::Held(operand_of(alloc, atom)?)),
        Token::Open => {
            waiting.push(Waiting::Paren)?;
            Ok(State::Wanted)
        }
        Token::Operator(_) | Token::Close => Ok(State::Refused),
    }
}

/// After a token that follows an operand.
fn held(
    alloc: Global,
    waiting: &mut Vec<Waiting>,
    operand: Operand,
    token: &Token<'_>,
) -> Result<State, NoMemory>
    ensures { IfOk result (λ s. state_of (stack_of waiting.new.items) s ≡ stepped (token_of token.now) (stack_of waiting.old.items) (Some (seen operand))) }
{
    match token {
        Token::Operator(op) => {
            let left = reduced(alloc, waiting, precedence(*op), operand)?;
            waiting.push(Waiting::Left(left, *op))?;
            Ok(State::Wanted)
        }
        Token::Close => {
            let inner = reduced(alloc, waiting, 0, operand)?;
            Ok(closed_at(waiting, inner))
        }
        Token::Operand(_) | Token::Open => Ok(State::Refused),
    }
}

/// After a closing parenthesis, where all that waits inside it is joined.
fn closed_at(waiting: &mut Vec<Waiting>, inner: Operand) -> State
    ensures { state_of (stack_of waiting.new.items) result ≡ closed_at (stack_of waiting.old.items) (seen inner) }
{
    match waiting.pop() {
        Some(Waiting::Paren) => State::Held(inner),
        Some(Waiting::Left(..)) | None => State::Refused,
    }
}

/// After the last token.
fn ended_in(
    alloc: Global,
    waiting: &mut Vec<Waiting>,
    state: State,
) -> Result<Option<Operand>, NoMemory>
    ensures { IfOk result (λ r. seen_end r ≡ ended_in (state_of (stack_of waiting.old.items) state)) }
{
    match state {
        State::Held(operand) => {
            let whole = reduced(alloc, waiting, 0, operand)?;
            if waiting.is_empty() {
                Ok(Some(whole))
            } else {
                Ok(None)
            }
        }
        State::Wanted | State::Refused => Ok(None),
    }
}

/// The operand, joined with what waits for it and binds at least so tightly.
fn reduced(
    alloc: Global,
    waiting: &mut Vec<Waiting>,
    level: u8,
    mut operand: Operand,
) -> Result<Operand, NoMemory>
    ensures { IfOk result (λ r. reduced level (stack_of waiting.old.items) (seen operand) ≡ (stack_of waiting.new.items, seen r)) }
{
    loop {
        match waiting.pop() {
            Some(Waiting::Left(left, op)) => {
                if level > precedence(op) {
                    waiting.push(Waiting::Left(left, op))?;
                    return Ok(operand);
                }
                operand = joined(alloc, op, left, operand)?;
            }
            Some(Waiting::Paren) => {
                waiting.push(Waiting::Paren)?;
                return Ok(operand);
            }
            None => return Ok(operand),
        }
    }
}

/// What the operator makes of two operands.
fn joined(alloc: Global, op: Op, left: Operand, right: Operand) -> Result<Operand, NoMemory>
    ensures { IfOk result (λ r. seen r ≡ join op (seen left) (seen right)) }
{
    match (left, right) {
        (Ok(left), Ok(right)) => {
            let left = Box::new(alloc, left)?;
            let right = Box::new(alloc, right)?;
            Ok(Ok(Expr::Both(op, left, right)))
        }
        (Ok(_), Err(fault)) | (Err(fault), Ok(_)) => Ok(Err(fault)),
        (Err(fault), Err(other)) => Ok(Err(first_fault(fault, other))),
    }
}

/// Of two operands' faults the one that counts: a missing word comes before a bad window.
fn first_fault(fault: ExprFault, other: ExprFault) -> ExprFault
    ensures { result ≡ first_fault fault other }
{
    match fault {
        ExprFault::BadWindow => other,
        _ => fault,
    }
}

/// How tightly an operator binds: the four on containment least.
fn precedence(op: Op) -> u8
    ensures { result ≡ precedence op }
{
    match op {
        Op::Containing | Op::ContainedIn | Op::NotContaining | Op::NotContainedIn => 0,
        Op::OneOf => 1,
        Op::BothOf => 2,
        Op::FollowedBy => 3,
    }
}
