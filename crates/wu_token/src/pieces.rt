//! A text in pieces: its lines, and the runs of a line.
ghost use Rattle.std.specs.Prelude.{◌≡◌, ◌+◌, ◌^◌, ◌<◌, ◌≤◌, All, length, take, drop};
ghost use Rattle.wu_token.specs.Tokens.{lines_of};
ghost use Rattle.wu_token.specs.Places.{placed, runs_at};

use crate::bytes::{separator_at, without_line_feed, word_byte_at};
use bstr::{ByteSlice, LinesWithTerminator};
use std::marker::Model;

/// Some bytes of a text, and the place of the first of them in the text, counted in bytes from 0.
#[derive(Clone, Copy)]
pub struct Piece<'a> {
    pub start: usize,
    pub bytes: &'a [u8],
    ghost fits: { start + length bytes.now < 2 ^ 64 },
}

impl<'a> Piece<'a> {
    ghost use Rattle.wu_token.specs.Pieces.{EndsBy, end_of, piece_of};

    /// The first `len` bytes, and the rest.
    fn split_at(self, len: usize) -> (Piece<'a>, Piece<'a>)
        requires { len ≤ length self.bytes.now }
        ensures front_start { result.0.start ≡ self.entry.start }
        ensures front { result.0.bytes.now ≡ take len self.entry.bytes.now }
        ensures front_len { length result.0.bytes.now ≡ len }
        ensures back_start { result.1.start ≡ self.entry.start + len }
        ensures back { result.1.bytes.now ≡ drop len self.entry.bytes.now }
        ensures back_len { len + length result.1.bytes.now ≡ length self.entry.bytes.now }
    {
        let (front, back) = self.bytes.split_at(len);
        let front = Piece {
            start: self.start,
            bytes: front,
        };
        let back = Piece {
            start: self.start + len,
            bytes: back,
        };
        (front, back)
    }

    /// The place after the last byte.
    pub fn end(&self) -> usize
        ensures { result ≡ end_of self.now }
    {
        self.start + self.bytes.len()
    }

    /// The maximal runs of word bytes, in order. Takes no memory.
    pub fn runs(self) -> Runs<'a>
        ensures runs { result ≡ runs_at (piece_of self.entry) }
        ensures within { All (EndsBy (end_of self.entry)) result }
    {
        Runs { rest: self }
    }
}

/// The lines that are left of a text. Contracts see the list of them.
#[derive(Drop)]
pub struct Lines<'a> {
    start: usize,
    rest: LinesWithTerminator<'a>,
}

impl<'a> Model for Lines<'a> {
    ghost use Rattle.std.specs.Prelude.{◌+◌, ◌^◌, ◌<◌, List, length};
    ghost use Rattle.std.specs.List.{concat};
    ghost use Rattle.wu_token.specs.Places.{Piece as PlacedPiece};
    ghost use Rattle.wu_token.specs.Pieces.{stripped};

    ghost Value = { List PlacedPiece };

    ghost view = { λ s. stripped s.start s.rest };

    ghost invariant = { λ s. s.start + length (concat s.rest) < 2 ^ 64 };
}

impl<'a> Lines<'a> {
    ghost use Rattle.wu_token.specs.Pieces.{EndsBy};

    /// The lines of a text, in order, without their line feeds. What follows the last line feed is a line
    /// only if it has bytes. Takes no memory.
    pub fn of_text(text: &'a [u8]) -> Lines<'a>
        ensures lines { result ≡ placed 0 (lines_of text.now) }
        ensures within { All (EndsBy (length text.now)) result }
    {
        Lines {
            start: 0,
            rest: text.lines_with_terminator(),
        }
    }
}

impl<'a> Iterator for Lines<'a> {
    ghost use Rattle.std.specs.Iterator.{item_count};
    ghost use Rattle.wu_token.specs.Pieces.{YieldsPiece};

    type Item = Piece<'a>;

    ghost next_gives = { YieldsPiece };

    ghost remaining = { item_count (λ left. left) };

    fn next(&mut self) -> Option<Piece<'a>> {
        let line = self.rest.next()?;
        let start = self.start;
        self.start += line.len();
        Some(Piece {
            start,
            bytes: without_line_feed(line),
        })
    }
}

/// The runs that are left of a line. Contracts see the list of them.
#[derive(Drop)]
pub struct Runs<'a> {
    rest: Piece<'a>,
}

impl<'a> Model for Runs<'a> {
    ghost use Rattle.std.specs.Prelude.{List};
    ghost use Rattle.wu_token.specs.Places.{Piece as PlacedPiece, runs_at};
    ghost use Rattle.wu_token.specs.Pieces.{piece_of};

    ghost Value = { List PlacedPiece };

    ghost view = { λ s. runs_at (piece_of s.rest) };
}

impl<'a> Iterator for Runs<'a> {
    ghost use Rattle.std.specs.Iterator.{item_count};
    ghost use Rattle.wu_token.specs.Pieces.{YieldsPiece};

    type Item = Piece<'a>;

    ghost next_gives = { YieldsPiece };

    ghost remaining = { item_count (λ left. left) };

    fn next(&mut self) -> Option<Piece<'a>> {
        let (_, rest) = self.rest.split_at(word_byte_at(self.rest.bytes)?);
        let bytes = rest.bytes;
        let (run, rest) = rest.split_at(separator_at(bytes).unwrap_or(bytes.len()));
        self.rest = rest;
        Some(run)
    }
}
