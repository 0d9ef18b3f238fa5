//! Reading a region expression.
ghost use Rattle.std.specs.Prelude.{List, ℕ, ◌≡◌, IfOk, map};
ghost use Rattle.wu_gcl.specs.Grammar.{operator_count, open_count};
ghost use Rattle.wu_gcl.specs.Reading.{Reads, Value, seen};
ghost use Rattle.wu_gcl.specs.Pending.{is_large, outcome};
ghost use Rattle.wu_gcl.specs.Regions.{IsProper, region_of};
ghost use Rattle.wu_gcl.specs.Views.{token_of};

use crate::expressions::{Expr, ExprFault};
use crate::grammar::evaluated;
use crate::lexing::{Token, tokens};
use std::alloc::Global;
use wu_base::{NoMemory, OPERATORS_MAX, PARENS_MAX};

/// The region expression that the text spells, or the first of its faults: the text isn't a list of
/// tokens; it has more than OPERATORS_MAX operators or more than PARENS_MAX opening parentheses; the
/// tokens don't fit the grammar; a quoted text that is no tag has no word; a window's length isn't a
/// decimal number from 1 to WINDOW_MAX without a leading zero. The one error is out of memory.
pub fn parse(alloc: Global, text: &[u8]) -> Result<Result<Expr, ExprFault>, NoMemory>
    ensures reads { IfOk result (λ r. Reads text.now (seen r)) }
    // Each phrase has a word, and each window an address.
    ensures proper { IfOk result (λ r. IfOk r (λ expr. IsProper (region_of expr))) }
{
    match tokens(alloc, text)? {
        Some(tokens) => said(alloc, &tokens),
        None => Ok(Err(ExprFault::NotAnExpression)),
    }
}

/// What the tokens say: their limits come first, then the grammar, then the operands.
fn said(alloc: Global, tokens: &[Token<'_>]) -> Result<Result<Expr, ExprFault>, NoMemory>
    ensures { IfOk result (λ r. seen r ≡ outcome (map token_of tokens.now)) }
{
    if is_large(tokens) {
        return Ok(Err(ExprFault::TooLarge));
    }
    Ok(evaluated(alloc, tokens)?.unwrap_or(Err(ExprFault::NotAnExpression)))
}

/// Whether there are too many operators or opening parentheses.
fn is_large(tokens: &[Token<'_>]) -> bool
    ensures { result ≡ is_large (map token_of tokens.now) }
{
    operator_count(tokens) > OPERATORS_MAX || open_count(tokens) > PARENS_MAX
}

/// How many operators there are.
fn operator_count(tokens: &[Token<'_>]) -> usize
    ensures { result ≡ operator_count (map token_of tokens.now) }
{
    let mut count = 0;
    for token in tokens {
        if matches!(token, Token::Operator(_)) {
            count += 1;
        }
    }
    count
}

/// How many opening parentheses there are.
fn open_count(tokens: &[Token<'_>]) -> usize
    ensures { result ≡ open_count (map token_of tokens.now) }
{
    let mut count = 0;
    for token in tokens {
        if matches!(token, Token::Open) {
            count += 1;
        }
    }
    count
}

/// No text has two readings: it spells one expression, or has one fault.
pub fn one_reading()
    ensures { (text : List ℕ) (first second : Value) → Reads text first → Reads text second → first ≡ second }
{}

/// Every text spells an expression or has a fault.
pub fn each_text_is_read()
    ensures { (text : List ℕ) → (value : Value) × Reads text value }
{}
