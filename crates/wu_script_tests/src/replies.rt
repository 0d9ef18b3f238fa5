//! The bytes of replies.
use crate::reasons::named;
use std::alloc::Global;
use wu_ask::{Answered, Found, RankLine, TermLine};
use wu_base::{Bytes, Sequence, Stat, Worked};
use wu_rows::{NoAnswer, bytes, number, shown};
use wu_script::{Reply, put_reply};

/// The bytes of the reply of these fields.
pub fn written(alloc: Global, fields: &[&str]) -> Result<String, NoAnswer> {
    let reply = reply(alloc, fields)?;
    reply_text(alloc, &reply)
}

fn reply_text(alloc: Global, reply: &Reply) -> Result<String, NoAnswer> {
    let mut out = Vec::new(alloc);
    put_reply(&mut out, reply)?;
    shown(alloc, out.as_slice())
}

fn reply(alloc: Global, fields: &[&str]) -> Result<Reply, NoAnswer> {
    match fields {
        ["ok"] => Ok(Reply::Ok),
        ["refused", name] => match named(name) {
            Some(why) => Ok(Reply::Refused(why)),
            None => Err(NoAnswer::BadRow),
        },
        ["idle"] => Ok(Reply::Worked(Worked::Idle)),
        ["busy"] => Ok(Reply::Worked(Worked::Busy)),
        ["stat", files, live, stored, parts] => Ok(Reply::Stat(Stat {
            files: number(files)?,
            live: number(live)?,
            stored: number(stored)?,
            parts: number(parts)?,
        })),
        ["count", hits, files] => count(hits, files),
        ["paths", path] => one_path(alloc, path),
        ["find", hits, files, lines @ ..] => found(alloc, hits, files, lines),
        ["rank", fields @ ..] => one_region(alloc, fields),
        ["terms", total, lines @ ..] => listed(alloc, total, false, lines),
        ["top", total, lines @ ..] => listed(alloc, total, true, lines),
        ["export", script] => export(alloc, script),
        ["weighed", listed, weighed] => weighed_of(listed, weighed),
        _ => Err(NoAnswer::BadRow),
    }
}

fn count(hits: &str, files: &str) -> Result<Reply, NoAnswer> {
    Ok(Reply::Answered(Answered::Count {
        hits: number(hits)?,
        files: number(files)?,
    }))
}

/// The reply that lists one path.
fn one_path(alloc: Global, path: &str) -> Result<Reply, NoAnswer> {
    let mut paths = Sequence::new(alloc);
    paths.push(Bytes::from(bytes(alloc, path)?))?;
    Ok(Reply::Answered(Answered::Paths { paths }))
}

/// The reply that finds so many regions in so many files. Five fields tell a region that it shows:
/// its path, its start and its end, and the number and the bytes of a line.
fn found(alloc: Global, hits: &str, files: &str, lines: &[&str]) -> Result<Reply, NoAnswer> {
    let hits = number(hits)?;
    let files = number(files)?;
    let mut shown = Sequence::new(alloc);
    for line in lines.chunks(5) {
        shown.push(find_line(alloc, line)?)?;
    }
    Ok(Reply::Answered(Answered::Find { hits, files, shown }))
}

fn find_line(alloc: Global, fields: &[&str]) -> Result<Found, NoAnswer> {
    let [path, start, end, line, text] = fields else {
        return Err(NoAnswer::BadRow);
    };
    Ok(Found {
        path: Bytes::from(bytes(alloc, path)?),
        start: number(start)?,
        end: number(end)?,
        line: number(line)?,
        snippet: Bytes::from(bytes(alloc, text)?),
    })
}

/// The reply that shows one region: how many are listed, its score, its path, its start and its
/// end.
fn one_region(alloc: Global, fields: &[&str]) -> Result<Reply, NoAnswer> {
    let [listed, score, path, start, end] = fields else {
        return Err(NoAnswer::BadRow);
    };
    let listed = number(listed)?;
    let score = number(score)?;
    let start = number(start)?;
    let end = number(end)?;
    let path = Bytes::from(bytes(alloc, path)?);
    let mut shown = Sequence::new(alloc);
    shown.push(RankLine {
        score,
        path,
        start,
        end,
    })?;
    Ok(Reply::Answered(Answered::Rank { listed, shown }))
}

/// The reply that has so many words. Two fields tell a word that it shows: its bytes, and how many
/// files have it.
fn listed(alloc: Global, total: &str, top: bool, lines: &[&str]) -> Result<Reply, NoAnswer> {
    let total = number(total)?;
    let mut shown = Sequence::new(alloc);
    for line in lines.chunks(2) {
        shown.push(term_line(alloc, line)?)?;
    }
    Ok(Reply::Answered(Answered::Terms { total, top, shown }))
}

fn term_line(alloc: Global, fields: &[&str]) -> Result<TermLine, NoAnswer> {
    let [word, files] = fields else {
        return Err(NoAnswer::BadRow);
    };
    let files = number(files)?;
    Ok(TermLine {
        word: Bytes::from(bytes(alloc, word)?),
        files,
    })
}

/// The reply that has this script.
fn export(alloc: Global, script: &str) -> Result<Reply, NoAnswer> {
    Ok(Reply::Answered(Answered::Export {
        script: Bytes::from(bytes(alloc, script)?),
    }))
}

fn weighed_of(listed: &str, weighed: &str) -> Result<Reply, NoAnswer> {
    Ok(Reply::Answered(Answered::Weighed {
        listed: number(listed)?,
        weighed: number(weighed)?,
    }))
}
