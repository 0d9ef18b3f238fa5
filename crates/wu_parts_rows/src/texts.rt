//! Texts whose postings are put into memory one after the other, with the space of their files.
ghost use Rattle.std.specs.Prelude.{◌≡◌, ◌+◌, ◌≤◌, length, IfOk, OnOk};
ghost use Rattle.wu_base.specs.declared.limits.TheConstants.{ADDRESSES_MAX, TEXT_MAX};
ghost use Rattle.wu_token.specs.Tokens.{tokens_of};

use std::alloc::Global;
use wu_base::{Ino, Range, TEXT_MAX};
use wu_parts::Parts;
use wu_rows::{NoAnswer, bytes, pieces, small_numbers};
use wu_space::Space;
use wu_space_rows::place;
use wu_token::{token_count, tokens};

/// How the postings of a text are put into memory, if at all.
#[derive(Clone, Copy, Debug, PartialEq, Eq)]
pub enum By {
    Text,
    Tokens,
    Nothing,
}

/// Gives the file as many addresses as its text has tokens.
fn place_text(space: &mut Space, ino: Ino, text: &[u8]) -> Result<Range, NoAnswer>
    requires { length text.now ≤ TEXT_MAX }
    ensures start { IfOk result (λ range. range.start ≡ space.old.next) }
    ensures len { IfOk result (λ range. range.len ≡ length (tokens_of text.now)) }
    ensures bounded { IfOk result (λ range. range.start + range.len ≤ ADDRESSES_MAX) }
    ensures next { IfOk result (λ range. space.new.next ≡ range.start + range.len) }
{
    place(space, ino, token_count(text))
}

/// Puts the postings of the file's text into memory.
pub fn put_text(
    alloc: Global,
    by: By,
    parts: &mut Parts,
    space: &mut Space,
    ino: Ino,
    text: &[u8],
) -> Result<(), NoAnswer>
    requires { parts.old.memory.end ≤ space.old.next }
    ensures { OnOk result (parts.new.memory.end ≤ space.new.next) }
{
    if text.len() > TEXT_MAX {
        return Err(NoAnswer::BadRow);
    }
    let range = place_text(space, ino, text)?;
    match by {
        By::Text => {
            parts.add_text(text, range.start)?;
        }
        By::Tokens => put_tokens(alloc, parts, range, text)?,
        By::Nothing => {}
    }
    Ok(())
}

/// Puts the tokens of the text into memory, at the addresses of the range.
fn put_tokens(alloc: Global, parts: &mut Parts, range: Range, text: &[u8]) -> Result<(), NoAnswer>
    requires short { length text.now ≤ TEXT_MAX }
    requires count { range.len ≡ length (tokens_of text.now) }
    requires bounded { range.start + range.len ≤ ADDRESSES_MAX }
    requires after { parts.old.memory.end ≤ range.start }
    ensures { OnOk result (parts.new.memory.end ≤ range.start + range.len) }
{
    let tokens = tokens(alloc, text)?;
    parts.add(&tokens, range)?;
    Ok(())
}

/// Puts the postings of the texts into memory, which have a bar between each two and whose files
/// are numbered from 1 on. Those of the skipped files are left out, so that their addresses have
/// none.
pub fn put_texts(
    alloc: Global,
    by: By,
    parts: &mut Parts,
    space: &mut Space,
    texts: &str,
    skipped: &str,
) -> Result<(), NoAnswer>
    requires { parts.old.memory.end ≤ space.old.next }
    ensures { OnOk result (parts.new.memory.end ≤ space.new.next) }
{
    let skipped = small_numbers(alloc, skipped)?;
    let mut ino = 0;
    for text in &pieces(alloc, texts)? {
        ino = next_number(ino)?;
        let by = if skipped.contains(&ino) {
            By::Nothing
        } else {
            by
        };
        put_field(alloc, by, parts, space, ino, text)?;
    }
    Ok(())
}

/// Puts the postings of the text into memory that the field is written for.
pub fn put_field(
    alloc: Global,
    by: By,
    parts: &mut Parts,
    space: &mut Space,
    ino: Ino,
    field: &str,
) -> Result<(), NoAnswer>
    requires { parts.old.memory.end ≤ space.old.next }
    ensures { OnOk result (parts.new.memory.end ≤ space.new.next) }
{
    let text = bytes(alloc, field)?;
    put_text(alloc, by, parts, space, ino, &text)
}

/// The number after that one.
pub fn next_number(ino: Ino) -> Result<Ino, NoAnswer> {
    match ino.checked_add(1) {
        Some(next) => Ok(next),
        None => Err(NoAnswer::BadRow),
    }
}
