//! A text's tokens, compared with what a part of the index has at their addresses.
ghost use Rattle.std.specs.Prelude.{◌≡◌, ◌+◌, ◌<◌, ◌≤◌, ◌^◌, List, [], ◌∷◌, MatchBool, eqb, get_or, length};
ghost use Rattle.std.specs.List.{IsDistinct, flat_map};
ghost use Rattle.wu_base.specs.Ranges.{AreApart};
ghost use Rattle.wu_base.specs.declared.addresses.Range.{Range};
ghost use Rattle.wu_base.specs.declared.addresses.TermList.{TermList};
ghost use Rattle.wu_check.specs.Indexing.{AreIndexed};
ghost use Rattle.wu_check.specs.Places.{IsAtPlace};
ghost use Rattle.wu_check.specs.Terms.{HaveTermsFrom};
ghost use Rattle.wu_base.specs.declared.limits.TheConstants.{TEXT_MAX};
ghost use Rattle.wu_token.specs.Pieces.{line_terms, piece_of};
ghost use Rattle.wu_token.specs.Tokens.{tokens_of};
ghost use Rattle.wu_check.specs.Comparing.{are_numbers_of, compared_with, is_number_of};

use crate::indexing::PartIndex;
use wu_base::Bytes;
use wu_token::{FILE_END, FILE_START, LINE_END, LINE_START, Lines, Piece, Word};

/// How many tokens were compared, and whether each stands at its place.
#[derive(Clone, Copy)]
pub struct Compared {
    /// The number of tokens.
    pub count: u64,
    /// Whether the number at each of their places is that of its term.
    pub same: bool,
}

/// Whether the lists of a part that are indexed have the tokens of a text, of at most `TEXT_MAX`
/// bytes, at the addresses of a range, one each. The place is that of the range's first address,
/// and the text has no more tokens than the range has addresses. Takes no memory.
pub fn compare_text(index: &PartIndex, place: usize, text: &[u8]) -> Compared
    requires { length text.now ≤ TEXT_MAX }
    ensures count { result.count ≡ length (tokens_of text.now) }
    ensures same { (ranges : List Range) (lists : List TermList) (range : Range) → AreIndexed ranges lists index.now
        → IsDistinct eqb (flat_map (λ list. list.at) lists) → AreApart ranges → IsAtPlace ranges place range
        → length (tokens_of text.now) ≤ range.len
        → MatchBool result.same (HaveTermsFrom lists range.start (tokens_of text.now))
        (HaveTermsFrom lists range.start (tokens_of text.now) → ⊥) }
{
    let numbers = index.numbers.as_slice();
    let from = place.min(numbers.len());
    compare(index.terms.as_slice(), &numbers[from..], text)
}

/// Compares the tokens of a text of at most `TEXT_MAX` bytes, in one walk over them, with the terms
/// that have the numbers from the first place on. A number is that of a term's place, counted
/// from 1, or 0 for none. Takes no memory.
pub fn compare(terms: &[Bytes], numbers: &[u32], text: &[u8]) -> Compared
    requires { length text.now ≤ TEXT_MAX }
    ensures count { result.count ≡ length (tokens_of text.now) }
    ensures same { result.same ≡ are_numbers_of terms.now numbers.now 0 (tokens_of text.now) }
{
    let mut compared = Compared {
        count: 0,
        same: true,
    };
    compared.add(terms, numbers, FILE_START);
    for line in Lines::of_text(text) {
        compared.add_line(terms, numbers, line);
    }
    compared.add(terms, numbers, FILE_END);
    compared
}

impl Compared {
    /// Compares one more token.
    fn add(&mut self, terms: &[Bytes], numbers: &[u32], token: &[u8])
        requires { self.old.count < 2 ^ 32 }
        ensures { self.new ≡ compared_with terms.now numbers.now self.old (token.now ∷ []) }
    {
        if self.same {
            self.same = is_at(terms, numbers, self.count as usize, token);
        }
        self.count += 1;
    }

    /// Compares the tokens of one more line.
    fn add_line(&mut self, terms: &[Bytes], numbers: &[u32], line: Piece)
        requires { self.old.count + length (line_terms (piece_of line)) < 2 ^ 32 }
        ensures { self.new ≡ compared_with terms.now numbers.now self.old (line_terms (piece_of line.entry)) }
    {
        self.add(terms, numbers, LINE_START);
        for run in line.runs() {
            self.add(terms, numbers, Word::of_run(run.bytes).as_slice());
        }
        self.add(terms, numbers, LINE_END);
    }
}

/// Whether the number at the place is the token's.
fn is_at(terms: &[Bytes], numbers: &[u32], place: usize, token: &[u8]) -> bool
    ensures { result ≡ is_number_of terms.now (get_or numbers.now place 0) token.now }
{
    match numbers.get(place) {
        Some(number) => is_of(terms, *number, token),
        None => false,
    }
}

/// Whether the number is the token's.
fn is_of(terms: &[Bytes], number: u32, token: &[u8]) -> bool
    ensures { result ≡ is_number_of terms.now number token.now }
{
    if number == 0 {
        return false;
    }
    match terms.get(number as usize - 1) {
        Some(term) => term.as_slice() == token,
        None => token.is_empty(),
    }
}
