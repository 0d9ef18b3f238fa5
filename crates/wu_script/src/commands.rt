//! What the lines of a script say.
ghost use Rattle.std.specs.Prelude.{◌≡◌, ◌≤◌, IfOk, IfSome};
ghost use Rattle.wu_tree.specs.Steps.{IsEvent};
ghost use Rattle.wu_base.specs.declared.limits.TheConstants.{WORK_MAX as MostUnits};
ghost use Rattle.wu_script.specs.Commands.{command_of, event_line, fields_say, is_blank, line_says, operation_line, text_line};
ghost use Rattle.wu_script.specs.Commands.{flush_of, units_of, work_of, stat_of, save_of, text_head_of};
ghost use Rattle.wu_script.specs.Said.{IsLine, IsSoundLine};

use crate::acls::acl;
use crate::events::{chmod, chown, create, link, mkdir, node_of, rename, rmdir, unlink, user};
use crate::queries::{Wanted, count, export, find, paths, rank, terms};
use crate::types::{Command, Line, Why};
use crate::words::{Word, word_of};
use std::alloc::Global;
use wu_base::{Bytes, INPUT_MAX, LINE_MAX, NoMemory, WORK_MAX};
use wu_fields::{read_decimal, split_fields};
use wu_tree::Event;

/// What the line says, without its LF. The first rule that applies decides: `LongLine`, more than
/// LINE_MAX bytes; blank, no byte or `#` at its front; `Syntax` for an escape fault, an unknown
/// command, a wrong number of fields or a field out of form or range; the faults of the expression of
/// a `count` or a `find`, or of the unit of a `rank` or a `weighed`; `NoWord` and `ManyWords` for one of
/// these two by no word, or by more than RANK_WORDS_MAX; `BadPrefix` for the prefix of a `terms` or a
/// `top`. The one error is `NoMemory`: out of memory.
#[tactic(auto, unfolding(crate::specs::Commands::line_says, crate::specs::Commands::fields_say))]
pub fn read_command(alloc: Global, line: &[u8]) -> Result<Line, NoMemory>
    ensures says { IfOk result (IsLine (line_says line.now)) }
    ensures sound { IfOk result IsSoundLine }
{
    if line.len() > LINE_MAX {
        return Ok(Line::Refused(Why::LongLine));
    }
    if is_blank(line) {
        return Ok(Line::Blank);
    }
    match split_fields(alloc, line)? {
        Some(fields) => read_fields(alloc, fields.as_slice()),
        None => Ok(Line::Refused(Why::Syntax)),
    }
}

/// Whether the line has no byte or is a comment.
fn is_blank(line: &[u8]) -> bool
    ensures { result ≡ is_blank line.now }
{
    match line {
        [] => true,
        [first, ..] => *first == b'#',
    }
}

/// What the fields of a line say.
#[tactic(auto, unfolding(crate::specs::Commands::fields_say))]
fn read_fields(alloc: Global, fields: &[Bytes]) -> Result<Line, NoMemory>
    ensures says { IfOk result (IsLine (fields_say (Some fields.now))) }
    ensures sound { IfOk result IsSoundLine }
{
    match fields {
        [] => Ok(Line::Refused(Why::Syntax)),
        [word, rest @ ..] => read_by_word(alloc, word_of(word.as_slice()), rest),
    }
}

/// What a command with these fields says.
#[tactic(auto, unfolding(crate::specs::Commands::command_of))]
fn read_by_word(alloc: Global, word: Word, fields: &[Bytes]) -> Result<Line, NoMemory>
    ensures says { IfOk result (IsLine (command_of word fields.now)) }
    ensures sound { IfOk result IsSoundLine }
{
    match word {
        Word::User => Ok(update(user(alloc, fields)?)),
        Word::Mkdir => Ok(update(mkdir(alloc, fields)?)),
        Word::Create => Ok(update(create(alloc, fields)?)),
        Word::Text => Ok(text_head(fields)),
        Word::Link => Ok(update(link(alloc, fields)?)),
        Word::Unlink => Ok(update(unlink(alloc, fields)?)),
        Word::Rmdir => Ok(update(rmdir(alloc, fields)?)),
        Word::Rename => Ok(update(rename(alloc, fields)?)),
        Word::Chmod => Ok(update(chmod(fields))),
        Word::Chown => Ok(update(chown(fields))),
        Word::Acl => Ok(update(acl(alloc, fields)?)),
        Word::Count => count(alloc, fields),
        Word::Find => find(alloc, fields),
        Word::Rank => rank(alloc, Wanted::Best, fields),
        Word::Paths => Ok(paths(fields)),
        Word::Terms => terms(alloc, false, fields),
        Word::Top => terms(alloc, true, fields),
        Word::Export => Ok(export(fields)),
        Word::Weighed => rank(alloc, Wanted::Weighed, fields),
        Word::Flush => Ok(flush(fields)),
        Word::Work => Ok(work(fields)),
        Word::Stat => Ok(stat(fields)),
        Word::Save => Ok(save(fields)),
        Word::Unknown => Ok(Line::Refused(Why::Syntax)),
    }
}

/// An event, where the fields are those of one.
fn update(event: Option<Event>) -> Line
    requires { IfSome event IsEvent }
    ensures says { IsLine (event_line event) result }
    ensures sound { IsSoundLine result }
{
    match event {
        Some(event) => Line::Command(Command::Update(event)),
        None => Line::Refused(Why::Syntax),
    }
}

/// `text`, a node and the length of the text, at most INPUT_MAX.
#[tactic(auto, unfolding(crate::specs::Commands::text_head_of))]
fn text_head(fields: &[Bytes]) -> Line
    ensures says { IsLine (text_line (text_head_of fields.now)) result }
    ensures sound { IsSoundLine result }
{
    match fields {
        [ino, len] => {
            let Some(ino) = node_of(ino) else {
                return Line::Refused(Why::Syntax);
            };
            match read_decimal(len.as_slice(), INPUT_MAX) {
                Some(len) => Line::TextHead { ino, len },
                None => Line::Refused(Why::Syntax),
            }
        }
        _ => Line::Refused(Why::Syntax),
    }
}

/// `flush`, without a further field.
#[tactic(auto, unfolding(crate::specs::Commands::flush_of))]
fn flush(fields: &[Bytes]) -> Line
    ensures says { IsLine (operation_line (flush_of fields.now)) result }
    ensures sound { IsSoundLine result }
{
    match fields {
        [] => Line::Command(Command::Flush),
        _ => Line::Refused(Why::Syntax),
    }
}

/// `work`, and how many units of it.
#[tactic(auto, unfolding(crate::specs::Commands::work_of))]
fn work(fields: &[Bytes]) -> Line
    ensures says { IsLine (operation_line (work_of fields.now)) result }
    ensures sound { IsSoundLine result }
{
    match fields {
        [units] => match units_of(units) {
            Some(units) => Line::Command(Command::Work(units)),
            None => Line::Refused(Why::Syntax),
        },
        _ => Line::Refused(Why::Syntax),
    }
}

/// How many units of work the field asks for, from 1 to WORK_MAX.
#[tactic(auto, unfolding(crate::specs::Commands::units_of))]
fn units_of(field: &Bytes) -> Option<u32>
    ensures value { result ≡ units_of field.now }
    ensures some { IfSome result (λ units. 1 ≤ units) }
    ensures within { IfSome result (λ units. units ≤ MostUnits) }
{
    match read_decimal(field.as_slice(), WORK_MAX as u64) {
        Some(0) => None,
        Some(units) => Some(units as u32),
        None => None,
    }
}

/// `stat`, without a further field.
#[tactic(auto, unfolding(crate::specs::Commands::stat_of))]
fn stat(fields: &[Bytes]) -> Line
    ensures says { IsLine (operation_line (stat_of fields.now)) result }
    ensures sound { IsSoundLine result }
{
    match fields {
        [] => Line::Command(Command::Stat),
        _ => Line::Refused(Why::Syntax),
    }
}

/// `save`, without a further field.
#[tactic(auto, unfolding(crate::specs::Commands::save_of))]
fn save(fields: &[Bytes]) -> Line
    ensures says { IsLine (operation_line (save_of fields.now)) result }
    ensures sound { IsSoundLine result }
{
    match fields {
        [] => Line::Command(Command::Save),
        _ => Line::Refused(Why::Syntax),
    }
}
