//! The tokens of a region expression.
ghost use Rattle.std.specs.Prelude.{◌≡◌, List, ℕ, ◌<◌, ◌≤◌, Some, None, MatchOption, IfSome, IfOk, length, map, take, drop};
ghost use Rattle.std.specs.List.{prefix_len};
ghost use Rattle.std.specs.Char.{is_ascii_digit, is_ascii_alphabetic};
ghost use Rattle.wu_gcl.specs.Lexical.{AreTokens, HasNoTokens};
ghost use Rattle.wu_gcl.specs.Scanning.{first_token, quoted_at, bracketed_at, closed_by, word_at, negation_at, dots_at, seen_token, after_blanks, is_blank, is_unquote};
ghost use Rattle.wu_gcl.specs.Views.{token_of};

use crate::expressions::Op;
use std::alloc::Global;
use wu_base::NoMemory;

/// An operand, as it is written.
#[derive(Clone, Copy, Debug)]
pub enum Atom<'a> {
    /// What stands between two quotes.
    Quoted(&'a [u8]),
    /// The digits between two brackets.
    Bracketed(&'a [u8]),
    /// The word `file`.
    File,
    /// The word `line`.
    Line,
}

/// A token of a region expression.
#[derive(Clone, Copy, Debug)]
pub enum Token<'a> {
    Operand(Atom<'a>),
    Operator(Op),
    Open,
    Close,
}

/// The tokens of the text; None exactly where it isn't a list of tokens.
pub fn tokens(alloc: Global, text: &[u8]) -> Result<Option<Vec<Token<'_>>>, NoMemory>
    ensures { IfOk result (λ r. MatchOption r (HasNoTokens text.now) (λ v. AreTokens (map token_of v.items) text.now)) }
{
    let mut tokens = Vec::new(alloc);
    let mut rest = after_blanks(text);
    'texts: while !rest.is_empty() {
        let Some((token, after)) = first_token(rest) else {
            return Ok(None);
        };
        tokens.push(token)?;
        rest = after_blanks(after);
    }
    Ok(Some(tokens))
}

/// The text without the spaces and TABs at its start.
fn after_blanks(text: &[u8]) -> &[u8]
    ensures { result.now ≡ after_blanks text.now }
{
    &text[blanks_len(text)..]
}

/// How many spaces and TABs stand at the start.
fn blanks_len(text: &[u8]) -> usize
    ensures value { result ≡ prefix_len is_blank text.now }
    ensures within { result ≤ length text.now }
{
    text.iter()
        .take_while(|b| **b == b' ' || **b == b'\t')
        .count()
}

/// How many bytes stand before the first quote.
fn unquoted_len(text: &[u8]) -> usize
    ensures value { result ≡ prefix_len is_unquote text.now }
    ensures within { result ≤ length text.now }
{
    text.iter().take_while(|b| **b != b'"').count()
}

/// How many ASCII digits stand at the start.
fn digits_len(text: &[u8]) -> usize
    ensures value { result ≡ prefix_len is_ascii_digit text.now }
    ensures within { result ≤ length text.now }
{
    text.iter().take_while(|b| b.is_ascii_digit()).count()
}

/// How many ASCII letters stand at the start.
fn letters_len(text: &[u8]) -> usize
    ensures value { result ≡ prefix_len is_ascii_alphabetic text.now }
    ensures within { result ≤ length text.now }
{
    text.iter().take_while(|b| b.is_ascii_alphabetic()).count()
}

/// The token at the start of the text, and what stands after it.
fn first_token(text: &[u8]) -> Option<(Token<'_>, &[u8])>
    ensures { seen_token result ≡ first_token text.now }
{
    let (first, rest) = text.split_first()?;
    match *first {
        b'"' => quoted_at(rest),
        b'[' => bracketed_at(rest),
        b'(' => Some((Token::Open, rest)),
        b')' => Some((Token::Close, rest)),
        b'>' => Some((Token::Operator(Op::Containing), rest)),
        b'<' => Some((Token::Operator(Op::ContainedIn), rest)),
        b'+' => Some((Token::Operator(Op::OneOf), rest)),
        b'^' => Some((Token::Operator(Op::BothOf), rest)),
        b'/' => negation_at(rest),
        b'.' => dots_at(rest),
        _ => word_at(text),
    }
}

/// The rest of a quoted text whose first quote is read.
fn quoted_at(text: &[u8]) -> Option<(Token<'_>, &[u8])>
    ensures { seen_token result ≡ quoted_at text.now }
{
    let end = unquoted_len(text);
    if end < text.len() {
        Some((Token::Operand(Atom::Quoted(&text[..end])), &text[end + 1..]))
    } else {
        None
    }
}

/// The rest of a window whose opening bracket is read.
fn bracketed_at(text: &[u8]) -> Option<(Token<'_>, &[u8])>
    ensures { seen_token result ≡ bracketed_at text.now }
{
    let end = digits_len(text);
    if end == 0 {
        return None;
    }
    closed_by(&text[..end], &text[end..])
}

/// A window of these digits, where the text begins with a closing bracket.
fn closed_by<'a>(digits: &'a [u8], text: &'a [u8]) -> Option<(Token<'a>, &'a [u8])>
    ensures { seen_token result ≡ closed_by digits.now text.now }
{
    let (first, rest) = text.split_first()?;
    match *first {
        b']' => Some((Token::Operand(Atom::Bracketed(digits)), rest)),
        _ => None,
    }
}

/// The word `file` or `line`, where all the letters at the start of the text are it.
fn word_at(text: &[u8]) -> Option<(Token<'_>, &[u8])>
    ensures { seen_token result ≡ word_at text.now }
{
    let end = letters_len(text);
    let letters = &text[..end];
    let rest = &text[end..];
    if letters == b"file".as_slice() {
        Some((Token::Operand(Atom::File), rest))
    } else if letters == b"line".as_slice() {
        Some((Token::Operand(Atom::Line), rest))
    } else {
        None
    }
}

/// The rest of an operator whose slash is read.
fn negation_at(text: &[u8]) -> Option<(Token<'_>, &[u8])>
    ensures { seen_token result ≡ negation_at text.now }
{
    let (first, rest) = text.split_first()?;
    match *first {
        b'>' => Some((Token::Operator(Op::NotContaining), rest)),
        b'<' => Some((Token::Operator(Op::NotContainedIn), rest)),
        _ => None,
    }
}

/// The rest of an operator whose first dot is read.
fn dots_at(text: &[u8]) -> Option<(Token<'_>, &[u8])>
    ensures { seen_token result ≡ dots_at text.now }
{
    let (first, rest) = text.split_first()?;
    match *first {
        b'.' => Some((Token::Operator(Op::FollowedBy), rest)),
        _ => None,
    }
}
