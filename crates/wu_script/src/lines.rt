//! Lines, as they are taken from a source in whatever pieces it gives them.
ghost use Rattle.std.specs.Prelude.{◌≡◌, ◌++◌, ◌∷◌, ◌<◌, ◌≤◌, ◌==◌, max, List, ℕ, [], false, true, length, Ok, Err, OnOk, IfErr, IfOk, MatchOption};
ghost use Rattle.std.specs.List.{list_any};
ghost use Rattle.wu_base.specs.declared.limits.TheConstants.{READ_MAX as MostAtOnce};
ghost use Rattle.wu_script.specs.Holding.{Held, Uses, Follows, EndsEarly, HasReadCause, GivesAtMost, asked_at_once};
ghost use Rattle.wu_script.specs.Taking.{TakesLine, TakesPiece, Kept, IsOneLine, IsFirstFeed};

use crate::ends::ReadEnd;
use crate::input::Input;
use bstr::ByteSlice;
use wu_base::NoMemory;
use wu_outside::Source;

/// What became of a line.
#[derive(Clone, Copy)]
pub struct Cut {
    /// Whether an LF closed it; otherwise the input ended there.
    pub closed: bool,
    /// Whether it had no more bytes than the limit, and so was kept.
    pub whole: bool,
}

/// Takes a line, which ends at the next LF or at the end of the input. It is kept where it has no
/// more bytes than the limit, its LF not counted.
pub fn take_line<I: Source>(
    input: &mut Input,
    source: &mut I,
    line: &mut Vec<u8>,
    limit: usize,
) -> Result<Cut, ReadEnd>
    requires { Follows (I.ended source.old) (I.last_read source.old) input.old }
    ensures taken { IfOk result (λ cut. (text : List ℕ)
        × TakesLine (I.left source.old) (I.left source.new) (I.last_read source.new) input.old input.new cut.closed text
        × Kept limit text cut.whole line.new.items) }
    ensures follows { OnOk result (Follows (I.ended source.new) (I.last_read source.new) input.new) }
    ensures few { OnOk result (length input.new.bytes < MostAtOnce) }
    ensures still { list_any (λ byte. byte == 10) input.old.bytes ≡ true → source.new ≡ source.old }
    ensures early { IfErr result (EndsEarly IsOneLine (I.left source.old) (I.left source.new) (I.last_read source.new) input.old) }
    ensures brief { GivesAtMost (asked_at_once input.old.spare) (I.left source.old) (I.left source.new) (I.last_read source.old) (I.last_read source.new) }
    ensures asked { I.most_asked source.new ≤ max (I.most_asked source.old) (asked_at_once input.old.spare) }
    ensures cause { HasReadCause (I.faults source.old) (I.faults source.new) result }
{
    line.clear();
    let mut whole = true;
    'pieces: loop {
        match input.fill(source) {
            Ok(true) => {}
            Ok(false) => return Ok(Cut {
                closed: false,
                whole,
            }),
            Err(end) => return Err(end),
        }
        let piece = take_piece(input, line, limit, whole)?;
        if piece.closed {
            return Ok(piece);
        }
        whole = piece.whole;
    }
}

/// Takes the bytes that are held up to the next LF, and the LF, or all where there is none. They
/// are kept after the line where that was whole before and is within the limit with them.
fn take_piece(
    input: &mut Input,
    line: &mut Vec<u8>,
    limit: usize,
    whole: bool,
) -> Result<Cut, NoMemory>
    ensures taken { IfOk result (λ cut. (piece : List ℕ) × TakesPiece input.old input.new cut.closed piece
        × ((text : List ℕ) → Kept limit text whole line.old.items → Kept limit (text ++ piece) cut.whole line.new.items)) }
    ensures few { IfOk result (λ cut. cut.closed ≡ true → length input.new.bytes < MostAtOnce) }
{
    let bytes = input.bytes();
    let length = bytes.len();
    match feed_position(bytes) {
        Some(at) => {
            let whole = keep(line, &bytes[..at], limit, whole)?;
            input.use_first(at + 1);
            Ok(Cut {
                closed: true,
                whole,
            })
        }
        None => {
            let whole = keep(line, bytes, limit, whole)?;
            input.use_first(length);
            Ok(Cut {
                closed: false,
                whole,
            })
        }
    }
}

/// Where the first LF stands.
fn feed_position(bytes: &[u8]) -> Option<usize>
    ensures { MatchOption result (IsOneLine bytes.now) (IsFirstFeed bytes.now) }
{
    bytes.find_byte(b'\n')
}

/// Appends the piece where that leaves the line within the limit, and says whether it does.
fn keep(line: &mut Vec<u8>, piece: &[u8], limit: usize, whole: bool) -> Result<bool, NoMemory>
    ensures { IfOk result (λ kept. (text : List ℕ) → Kept limit text whole line.old.items → Kept limit (text ++ piece.now) kept line.new.items) }
{
    if whole && piece.len() <= limit.saturating_sub(line.len()) {
        line.extend_from_slice(piece)?;
        Ok(true)
    } else {
        Ok(false)
    }
}
