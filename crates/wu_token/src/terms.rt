//! The words of a byte string, and the tokens of a text.
ghost use Rattle.std.specs.Prelude.{◌≡◌, ◌+◌, ◌*◌, ◌^◌, ◌<◌, ◌≤◌, ◌++◌, IfOk, OnOk, All, map, length, vec_len};
ghost use Rattle.wu_token.specs.Words.{EachWordIsItsOwn, IsTerm, words_of};
ghost use Rattle.wu_token.specs.Tokens.{tokens_of};
ghost use Rattle.wu_token.specs.Places.{line_tokens_at, placed_tokens_of};
ghost use Rattle.wu_token.specs.Pieces.{GiveTheTerms, end_of, piece_of};

use crate::lowered::Word;
use crate::pieces::{Lines, Piece};
use crate::spans::{FILE_END, FILE_START, LINE_END, LINE_START, Token};
use std::alloc::Global;
use wu_base::{Bytes, NoMemory, TEXT_MAX};

/// The words of these bytes, in order: the maximal runs of ASCII letters, ASCII digits and bytes of
/// 0x80 and above, each folded and then cut to its first [`WORD_MAX`](wu_base::WORD_MAX) bytes. What is
/// folded is the longest front of a run that is UTF-8, by Unicode's full default case folding; in the
/// rest ASCII letters come in lower case. So each word has from 1 to
/// [`WORD_MAX`](wu_base::WORD_MAX) bytes. The one error is out of memory.
pub fn words(alloc: Global, bytes: &[u8]) -> Result<Vec<Bytes>, NoMemory>
    ensures words { IfOk result (λ v. v.items ≡ words_of bytes.now) }
    ensures lengths { IfOk result (λ v. All IsTerm v.items) }
{
    let mut words = Vec::new(alloc);
    for run in (Piece { start: 0, bytes }).runs() {
        words.push(Bytes::from_slice(alloc, Word::of_run(run.bytes).as_slice())?)?;
    }
    Ok(words)
}

/// Puts the tokens of a line at the end.
fn push_line(alloc: Global, tokens: &mut Vec<Token>, line: Piece) -> Result<(), NoMemory>
    requires { end_of line < 2 ^ 32 }
    ensures { OnOk result (tokens.new.items ≡ tokens.old.items ++ line_tokens_at (piece_of line.entry)) }
{
    tokens.push(Token::tag(alloc, LINE_START, line.start)?)?;
    for run in line.runs() {
        tokens.push(Token::word(alloc, run)?)?;
    }
    tokens.push(Token::tag(alloc, LINE_END, line.end())?)?;
    Ok(())
}

/// The tokens of a text of at most [`TEXT_MAX`] bytes, in order, with their places: `<file>`, then
/// for each line `<line>`, its words and `</line>`, last `</file>`. Lines end at LF. What follows
/// the last LF is a line only if it has bytes, so the empty text has no line. A text of n bytes has
/// at most 3n + 2 tokens, each with a term of 1 to [`WORD_MAX`](wu_base::WORD_MAX) bytes. The one
/// error is out of memory.
pub fn tokens(alloc: Global, text: &[u8]) -> Result<Vec<Token>, NoMemory>
    requires { length text.now ≤ TEXT_MAX }
    ensures tokens { IfOk result (λ v. v.items ≡ placed_tokens_of text.now) }
    ensures terms { IfOk result (λ v. map (λ token. token.term) v.items ≡ tokens_of text.now) }
    ensures lengths { IfOk result (λ v. All (λ token. IsTerm token.term) v.items) }
    ensures bound { IfOk result (λ v. vec_len v ≤ 3 * length text.now + 2) }
{
    let mut tokens = Vec::new(alloc);
    tokens.push(Token::tag(alloc, FILE_START, 0)?)?;
    for line in Lines::of_text(text) {
        push_line(alloc, &mut tokens, line)?;
    }
    tokens.push(Token::tag(alloc, FILE_END, text.len())?)?;
    Ok(tokens)
}

/// How many tokens a line has.
fn line_token_count(line: Piece) -> u64
    requires { end_of line < 2 ^ 32 }
    ensures { result ≡ length (line_tokens_at (piece_of line.entry)) }
{
    2 + line.runs().count() as u64
}

/// How many tokens a text of at most [`TEXT_MAX`] bytes has, which [`tokens`] would give. Takes no
/// memory.
pub fn token_count(text: &[u8]) -> u64
    requires { length text.now ≤ TEXT_MAX }
    ensures count { result ≡ length (tokens_of text.now) }
    ensures bound { result ≤ 3 * length text.now + 2 }
{
    let mut count = 2;
    for line in Lines::of_text(text) {
        count += line_token_count(line);
    }
    count
}

/// A law: the lines of a text, the runs of each and their words, with the tags around them, are the terms
/// of the text's tokens, in order.
pub fn pieces_give_the_terms()
    ensures { GiveTheTerms }
{}

/// A law: a word of some bytes, taken as bytes, has one word, which is itself.
pub fn each_word_is_its_own()
    ensures { EachWordIsItsOwn }
{}
