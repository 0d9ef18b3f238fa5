//! The lines of a text with their numbers and addresses.
ghost use Rattle.std.specs.Prelude.{◌≡◌, ◌+◌, ◌^◌, ◌<◌, ◌≤◌, ◌∷◌, [], length, IfSome, IfNone};
ghost use Rattle.wu_base.specs.declared.limits.TheConstants.{TEXT_MAX};
ghost use Rattle.wu_token.specs.Tokens.{line_tokens_of};
ghost use Rattle.wu_snip.specs.Snippets.{numbered_lines_of};
ghost use Rattle.wu_snip.specs.Walks.{AgreeFrom, Reaches, held, line_of, lines_left};

use std::marker::Model;
use wu_token::{Lines, Piece};

/// A line with its number, counted from 1, and the addresses of its `<line>` and its `</line>`,
/// counted from 0 at the file's `<file>`.
#[derive(Clone, Copy)]
pub(crate) struct NumberedLine<'a> {
    pub number: u64,
    pub first: u64,
    pub last: u64,
    pub bytes: &'a [u8],
}

/// The lines that are left of a text, and the number and the first address of the next of them.
#[derive(Drop)]
pub(crate) struct NumberedLines<'a> {
    number: u64,
    first: u64,
    rest: Lines<'a>,
}

impl<'a> Model for NumberedLines<'a> {
    ghost use Rattle.wu_snip.specs.Walks.{Left, Fits, bytes_of};

    ghost Value = { Left };

    ghost view = { λ s. record { number = s.number; first = s.first; lines = bytes_of s.rest } };

    ghost invariant = { λ s. Fits s.number s.first (bytes_of s.rest) };
}

impl<'a> NumberedLines<'a> {
    /// The lines of a text, in order. Takes no memory.
    pub(crate) fn of_text(text: &'a [u8]) -> NumberedLines<'a>
        requires { length text.now ≤ TEXT_MAX }
        ensures { lines_left result ≡ numbered_lines_of text.now }
    {
        NumberedLines {
            number: 1,
            first: 1,
            rest: Lines::of_text(text),
        }
    }

    /// The next line.
    fn next_line(&mut self) -> Option<NumberedLine<'a>>
        ensures line { IfSome result (λ line. lines_left self.old ≡ line_of line ∷ lines_left self.new) }
        ensures later { IfSome result (λ line. line.first ≤ self.new.first) }
        ensures goes { IfSome result (λ line. length self.new.lines < length self.old.lines) }
        ensures none { IfNone result (lines_left self.old ≡ []) }
    {
        let line = self.rest.next()?;
        let (number, first) = (self.number, self.first);
        self.number += 1;
        self.first += token_count(line);
        Some(NumberedLine {
            number,
            first,
            last: self.first - 1,
            bytes: line.bytes,
        })
    }

    /// The next line that ends at this address or after. The lines before it are passed over.
    pub(crate) fn next_reaching(&mut self, address: u64) -> Option<NumberedLine<'a>>
        ensures lines { AgreeFrom address (lines_left self.old) (held result self.new) }
        ensures reaches { Reaches address result self.new }
    {
        while let Some(line) = self.next_line() {
            if line.last >= address {
                return Some(line);
            }
        }
        None
    }

    /// The line, if it ends at this address or after, else the next one that does; none where none is given.
    pub(crate) fn reaching(
        &mut self,
        line: Option<NumberedLine<'a>>,
        address: u64,
    ) -> Option<NumberedLine<'a>>
        requires { Reaches 0 line self.old }
        ensures lines { AgreeFrom address (held line.entry self.old) (held result self.new) }
        ensures reaches { Reaches address result self.new }
    {
        match line {
            Some(line) if line.last >= address => Some(line),
            Some(_) => self.next_reaching(address),
            None => None,
        }
    }
}

/// How many tokens a line has.
fn token_count(line: Piece) -> u64
    requires { length (line_tokens_of line.bytes.now) < 2 ^ 64 }
    ensures { result ≡ length (line_tokens_of line.entry.bytes.now) }
{
    2 + line.runs().count() as u64
}
