//! Items, as they are taken from a source in whatever pieces it gives them.
ghost use Rattle.std.specs.Prelude.{◌≡◌, ◌≤◌, ◌<◌, max, [], false, true, length, vec_capacity, OnOk, IfErr, IfOk, MatchBool};
ghost use Rattle.wu_base.specs.declared.limits.TheConstants.{READ_MAX as MostAtOnce, TEXT_MAX as MostOfText};
ghost use Rattle.wu_script.specs.Commands.{line_says};
ghost use Rattle.wu_script.specs.Holding.{Follows, EndsEarly, HasReadCause, GivesAtMost, asked_at_once};
ghost use Rattle.wu_script.specs.Items.{IsBeforeEnd, TakesItem, TakesBody, first_of, text_at};
ghost use Rattle.wu_script.specs.Said.{IsSoundItem, IsSoundLine, said_by_line};
ghost use Rattle.wu_script.specs.Taken.{IsParsed, IsSoundParsed, parsed_said};
ghost use Rattle.wu_script.specs.declared.types.Item.TheVariants.{Refused, Text};
ghost use Rattle.wu_script.specs.declared.types.Why.TheVariants.{TooLong, BadBody};

use crate::bodies::take_bytes;
use crate::commands::read_command;
use crate::ends::ReadEnd;
use crate::input::Input;
use crate::lines::{Cut, take_line};
use crate::types::{Item, Line, Why};
use std::alloc::Global;
use wu_base::{Bytes, Ino, LINE_MAX, NoMemory, TEXT_MAX};
use wu_outside::Source;

/// What a line that was read is.
#[derive(Drop)]
pub enum ParsedLine {
    /// A whole item, and not the end.
    Item(Item),
    /// The first line of a text.
    TextHead { ino: Ino, len: u64 },
}

/// Takes the bytes of the next item.
#[tactic(auto, using(crate::proofs::UnclosedLemmas::closed_feed))]
pub fn take_item<I: Source>(
    input: &mut Input,
    source: &mut I,
    line: &mut Vec<u8>,
) -> Result<Item, ReadEnd>
    requires { Follows (I.ended source.old) (I.last_read source.old) input.old }
    ensures follows { OnOk result (Follows (I.ended source.new) (I.last_read source.new) input.new) }
    ensures few { OnOk result (length input.new.bytes < MostAtOnce) }
    ensures taken { IfOk result (TakesItem (I.left source.old) (I.left source.new) (I.last_read source.new) input.old input.new) }
    ensures sound { IfOk result IsSoundItem }
    ensures idle { (first_of input.old.bytes).closed ≡ true → source.new ≡ source.old }
    ensures early { IfErr result (EndsEarly (λ bytes. (first_of bytes).closed ≡ false) (I.left source.old) (I.left source.new) (I.last_read source.new) input.old) }
    ensures brief { GivesAtMost (asked_at_once input.old.spare) (I.left source.old) (I.left source.new) (I.last_read source.old) (I.last_read source.new) }
    ensures asked { I.most_asked source.new ≤ max (I.most_asked source.old) (asked_at_once input.old.spare) }
    ensures cause { HasReadCause (I.faults source.old) (I.faults source.new) result }
{
    let alloc = *line.allocator();
    let cut = take_line(input, source, line, LINE_MAX)?;
    if !cut.whole {
        return Ok(Item::Refused(Why::LongLine));
    }
    if is_end(cut, line) {
        return Ok(Item::End);
    }
    match parse_line(alloc, line)? {
        ParsedLine::Item(item) => Ok(item),
        ParsedLine::TextHead { ino, len } => match take_text(input, source, line, ino, len) {
            Ok(item) => Ok(item),
            Err(end) => Err(end),
        },
    }
}

/// Whether the input ended before a byte of the line.
fn is_end(cut: Cut, line: &Vec<u8>) -> bool
    ensures { MatchBool result ((cut.closed ≡ false) × (line.now.items ≡ [])) (cut.closed ≡ false → 0 < length line.now.items) }
{
    !cut.closed && line.is_empty()
}

/// What the line is.
fn parse_line(alloc: Global, line: &Vec<u8>) -> Result<ParsedLine, NoMemory>
    ensures says { IfOk result (IsParsed (line_says line.now.items)) }
    ensures sound { IfOk result IsSoundParsed }
{
    let line = read_command(alloc, line.as_slice())?;
    Ok(item_or_head(line))
}

/// The item that the line is, if it is one.
fn item_or_head(line: Line) -> ParsedLine
    requires { IsSoundLine line }
    ensures says { parsed_said result ≡ said_by_line line }
    ensures sound { IsSoundParsed result }
{
    match line {
        Line::Command(command) => ParsedLine::Item(Item::Command(command)),
        Line::TextHead { ino, len } => ParsedLine::TextHead { ino, len },
        Line::Refused(why) => ParsedLine::Item(Item::Refused(why)),
        Line::Blank => ParsedLine::Item(Item::Blank),
    }
}

/// Takes the body of a text whose line was taken, and the rest of the line after it.
fn take_text<I: Source>(
    input: &mut Input,
    source: &mut I,
    line: &mut Vec<u8>,
    ino: Ino,
    len: u64,
) -> Result<Item, ReadEnd>
    requires node { 1 ≤ ino }
    requires follows { Follows (I.ended source.old) (I.last_read source.old) input.old }
    ensures follows { OnOk result (Follows (I.ended source.new) (I.last_read source.new) input.new) }
    ensures few { OnOk result (length input.new.bytes < MostAtOnce) }
    ensures taken { IfOk result (TakesBody (I.left source.old) (I.left source.new) (I.last_read source.new) input.old input.new ino len) }
    ensures sound { IfOk result IsSoundItem }
    ensures more { IfOk result IsBeforeEnd }
    ensures idle { (text_at ino len input.old.bytes).closed ≡ true → source.new ≡ source.old }
    ensures early { IfErr result (EndsEarly (λ bytes. (text_at ino len bytes).closed ≡ false) (I.left source.old) (I.left source.new) (I.last_read source.new) input.old) }
    ensures brief { GivesAtMost (asked_at_once input.old.spare) (I.left source.old) (I.left source.new) (I.last_read source.old) (I.last_read source.new) }
    ensures asked { I.most_asked source.new ≤ max (I.most_asked source.old) (asked_at_once input.old.spare) }
    ensures cause { HasReadCause (I.faults source.old) (I.faults source.new) result }
{
    let kept = is_kept(len);
    let mut body = body_buffer(*line.allocator(), len, kept)?;
    let all = take_bytes(input, source, len, &mut body, kept)?;
    if !all {
        return Ok(Item::Refused(Why::Truncated));
    }
    let tail = match take_line(input, source, line, 0) {
        Ok(tail) => tail,
        Err(end) => return Err(end),
    };
    Ok(text_item(ino, body, kept, tail.whole))
}

/// Whether a body of this length is kept.
fn is_kept(len: u64) -> bool
    ensures { MatchBool result (len ≤ MostOfText) (MostOfText < len) }
{
    len <= TEXT_MAX as u64
}

/// Room for a body of this length, if it is to be kept.
fn body_buffer(alloc: Global, len: u64, kept: bool) -> Result<Vec<u8>, NoMemory>
    requires { kept ≡ true → len ≤ MostOfText }
    ensures none { IfOk result (λ body. body.items ≡ []) }
    ensures unkept { IfOk result (λ body. kept ≡ false → vec_capacity body ≡ 0) }
{
    if kept {
        Ok(Vec::with_capacity(alloc, len as usize)?)
    } else {
        Ok(Vec::new(alloc))
    }
}

/// A text whose body was given: it was kept where it isn't too long, and then is refused where other
/// bytes stand after it.
fn text_item(ino: Ino, body: Vec<u8>, kept: bool, alone: bool) -> Item
    ensures long { kept ≡ false → result ≡ Refused TooLong }
    ensures bad { kept ≡ true → alone ≡ false → result ≡ Refused BadBody }
    ensures sound { 1 ≤ ino → (kept ≡ true → length body.items ≤ MostOfText) → IsSoundItem result }
    ensures more { IsBeforeEnd result }
    ensures text { kept ≡ true → alone ≡ true → result ≡ Text ino body.items }
{
    if !kept {
        return Item::Refused(Why::TooLong);
    }
    if !alone {
        return Item::Refused(Why::BadBody);
    }
    Item::Text {
        ino,
        body: Bytes::from(body),
    }
}
