//! What lines say.
use crate::reasons::name_of;
use std::alloc::Global;
use wu_ask::{Ask, Query};
use wu_base::Bytes;
use wu_gcl::Expr;
use wu_rows::{NoAnswer, bytes_text, list_text, plain_text, script};
use wu_script::{Command, Line, read_command};
use wu_tree::Event;

/// What the line says: why it is refused, the name of the file that it makes, what it finds, how it
/// ranks, which terms it lists, whose files it exports, or the operation that it is.
pub fn said(alloc: Global, fields: &[&str]) -> Result<String, NoAnswer> {
    let [field] = fields else {
        return Err(NoAnswer::BadRow);
    };
    let line = script(alloc, field)?;
    let line = read_command(alloc, line.as_slice())?;
    line_text(alloc, &line)
}

fn line_text(alloc: Global, line: &Line) -> Result<String, NoAnswer> {
    match line {
        Line::Refused(why) => {
            let name = name_of(*why);
            Ok(format!(in alloc; "refused {name}")?)
        }
        Line::Command(command) => command_text(alloc, command),
        Line::TextHead { ino, len } => Ok(format!(in alloc; "text {ino} {len}")?),
        Line::Blank => plain_text(alloc, "blank"),
    }
}

fn command_text(alloc: Global, command: &Command) -> Result<String, NoAnswer> {
    match command {
        Command::Update(event) => event_text(alloc, event),
        Command::Ask(query) => query_text(alloc, query),
        Command::Flush => plain_text(alloc, "flush"),
        Command::Work(units) => Ok(format!(in alloc; "work {units}")?),
        Command::Stat => plain_text(alloc, "stat"),
        Command::Save => plain_text(alloc, "save"),
    }
}

fn event_text(alloc: Global, event: &Event) -> Result<String, NoAnswer> {
    match event {
        Event::Create { name, .. } => {
            let name = bytes_text(alloc, name.as_slice())?;
            Ok(format!(in alloc; "create {name}")?)
        }
        _ => plain_text(alloc, "update"),
    }
}

fn query_text(alloc: Global, query: &Query) -> Result<String, NoAnswer> {
    match &query.ask {
        Ask::Find { k, expr } => finding_text(alloc, query.uid, *k, expr),
        Ask::Rank { k, unit, words } => {
            ranking_text(alloc, "rank", query.uid, *k, unit, words.as_slice())
        }
        Ask::Weighed { k, unit, words } => {
            ranking_text(alloc, "weighed", query.uid, *k, unit, words.as_slice())
        }
        Ask::Terms { k, prefix, top } => listing_text(alloc, query.uid, *k, prefix, *top),
        Ask::Export => export_text(alloc, query.uid),
        _ => plain_text(alloc, "ask"),
    }
}

fn finding_text(alloc: Global, uid: u32, k: u32, expr: &Expr) -> Result<String, NoAnswer> {
    let expr = expr_name(expr);
    Ok(format!(in alloc; "find {uid} {k} {expr}")?)
}

fn ranking_text(
    alloc: Global,
    word: &str,
    uid: u32,
    k: u32,
    unit: &Expr,
    words: &[Bytes],
) -> Result<String, NoAnswer> {
    let unit = expr_name(unit);
    let words = list_text(alloc, words)?;
    Ok(format!(in alloc; "{word} {uid} {k} {unit} {words}")?)
}

fn listing_text(
    alloc: Global,
    uid: u32,
    k: u32,
    prefix: &Bytes,
    top: bool,
) -> Result<String, NoAnswer> {
    let word = if top { "top" } else { "terms" };
    let prefix = bytes_text(alloc, prefix.as_slice())?;
    Ok(format!(in alloc; "{word} {uid} {k} {prefix}")?)
}

fn export_text(alloc: Global, uid: u32) -> Result<String, NoAnswer> {
    Ok(format!(in alloc; "export {uid}")?)
}

/// A name for the expression.
fn expr_name(expr: &Expr) -> &'static str {
    match expr {
        Expr::Line => "line",
        _ => "other",
    }
}
