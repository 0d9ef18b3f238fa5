//! What operands say.
ghost use Rattle.std.specs.Prelude.{◌≡◌, IfOk};
ghost use Rattle.wu_gcl.specs.Reading.{value_of, quoted_value, tag_at, is_tag_text, window_of, seen};
ghost use Rattle.wu_gcl.specs.Views.{atom_of};

use crate::expressions::{Expr, ExprFault, Tag, WINDOW_MAX};
use crate::lexing::Atom;
use crate::naming::tag_bytes;
use std::alloc::Global;
use wu_base::{NoMemory, Sequence};
use wu_fields::read_decimal;
use wu_token::words;

/// What an operand says, or its fault.
pub fn operand_of(alloc: Global, atom: &Atom<'_>) -> Result<Result<Expr, ExprFault>, NoMemory>
    ensures { IfOk result (λ r. seen r ≡ value_of (atom_of atom.now)) }
{
    match atom {
        Atom::Quoted(bytes) => quoted(alloc, bytes),
        Atom::Bracketed(digits) => Ok(window_of(digits)),
        Atom::File => Ok(Ok(Expr::File)),
        Atom::Line => Ok(Ok(Expr::Line)),
    }
}

/// A tag, or the phrase of the words.
fn quoted(alloc: Global, bytes: &[u8]) -> Result<Result<Expr, ExprFault>, NoMemory>
    ensures { IfOk result (λ r. seen r ≡ quoted_value (tag_at bytes.now) bytes.now) }
{
    match tag_at(bytes) {
        Some(tag) => Ok(Ok(Expr::Tag(tag))),
        None => {
            let words = words(alloc, bytes)?;
            if words.is_empty() {
                Ok(Err(ExprFault::NoWord))
            } else {
                Ok(Ok(Expr::Phrase(Sequence::from(words))))
            }
        }
    }
}

/// The tag that the bytes are exactly, if they are one.
fn tag_at(bytes: &[u8]) -> Option<Tag>
    ensures { result ≡ tag_at bytes.now }
{
    if is_tag(Tag::FileStart, bytes) {
        Some(Tag::FileStart)
    } else if is_tag(Tag::FileEnd, bytes) {
        Some(Tag::FileEnd)
    } else if is_tag(Tag::LineStart, bytes) {
        Some(Tag::LineStart)
    } else if is_tag(Tag::LineEnd, bytes) {
        Some(Tag::LineEnd)
    } else {
        None
    }
}

/// Whether the bytes are exactly the tag.
fn is_tag(tag: Tag, bytes: &[u8]) -> bool
    ensures { result ≡ is_tag_text tag bytes.now }
{
    bytes == tag_bytes(tag)
}

/// The window of that length, where the digits are a decimal number from 1 to WINDOW_MAX without a
/// leading zero.
fn window_of(digits: &[u8]) -> Result<Expr, ExprFault>
    ensures { seen result ≡ window_of digits.now }
{
    match read_decimal(digits, WINDOW_MAX) {
        Some(length) if length > 0 => Ok(Expr::Window(length as u16)),
        _ => Err(ExprFault::BadWindow),
    }
}
