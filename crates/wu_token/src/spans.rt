//! A token and its place.
ghost use Rattle.std.specs.Prelude.{◌≡◌, ◌^◌, ◌<◌, IfOk};

use crate::lowered::Word;
use crate::pieces::Piece;
use std::alloc::Global;
use wu_base::{Bytes, NoMemory};

/// The term of the place where a file starts.
pub const FILE_START: &[u8] = b"<file>";

/// The term of the place where a file ends.
pub const FILE_END: &[u8] = b"</file>";

/// The term of a place where a line starts.
pub const LINE_START: &[u8] = b"<line>";

/// The term of a place where a line ends.
pub const LINE_END: &[u8] = b"</line>";

/// A term of a text of at most [`TEXT_MAX`](wu_base::TEXT_MAX) bytes, and the place of its bytes
/// there: from `start` on, up to but without `end`, both counted in bytes from the text's first, which
/// is 0. A tag takes no byte, so its `end` is its `start`. A word takes the bytes of its whole run,
/// also those that its term has no room for.
#[derive(Clone, Debug, PartialEq, Eq, Drop)]
pub struct Token {
    /// From 1 to [`WORD_MAX`](wu_base::WORD_MAX) bytes.
    pub term: Bytes,
    /// From 0 to the text's length in bytes.
    pub start: u32,
    /// From `start` to the text's length in bytes.
    pub end: u32,
}

impl Token {
    ghost use Rattle.wu_token.specs.Places.{tag_at, word_at};
    ghost use Rattle.wu_token.specs.Pieces.{piece_of, end_of};

    /// The token of a tag at a place.
    pub(crate) fn tag(alloc: Global, tag: &[u8], place: usize) -> Result<Token, NoMemory>
        requires { place < 2 ^ 32 }
        ensures { IfOk result (λ token. token ≡ tag_at tag.now place) }
    {
        Ok(Token {
            term: Bytes::from_slice(alloc, tag)?,
            start: place as u32,
            end: place as u32,
        })
    }

    /// The token of a run.
    pub(crate) fn word(alloc: Global, run: Piece) -> Result<Token, NoMemory>
        requires { end_of run < 2 ^ 32 }
        ensures { IfOk result (λ token. token ≡ word_at (piece_of run.entry)) }
    {
        Ok(Token {
            term: Bytes::from_slice(alloc, Word::of_run(run.bytes).as_slice())?,
            start: run.start as u32,
            end: run.end() as u32,
        })
    }
}
