//! Which questions and answers are equal.
use std::alloc::Global;
use wu_ask::{Answered, Ask, Query, RankLine, TermLine};
use wu_base::{Bytes, NoMemory, Sequence};
use wu_gcl::{Expr, parse};
use wu_rows::{NoAnswer, flag_text};

/// The answer of the call to the arguments.
pub fn answer(alloc: Global, call: &str, arguments: &[&str]) -> Result<String, NoAnswer> {
    match (call, arguments) {
        ("Query::eq", [left, right]) => {
            let equal = query_named(alloc, left)? == query_named(alloc, right)?;
            flag_text(alloc, equal)
        }
        ("Answered::eq", [left, right]) => {
            let equal = answered_named(alloc, left)? == answered_named(alloc, right)?;
            flag_text(alloc, equal)
        }
        _ => Err(NoAnswer::BadRow),
    }
}

/// A question of user 5.
fn query_named(alloc: Global, name: &str) -> Result<Query, NoAnswer> {
    let ask = match name {
        "count, read" => Ask::Count {
            expr: every_file(alloc)?,
        },
        "count" => Ask::Count { expr: Expr::File },
        "paths" => Ask::Paths,
        "rank 8" => ranking(alloc, 8),
        "rank 9" => ranking(alloc, 9),
        "terms" => listing(alloc, false)?,
        "top" => listing(alloc, true)?,
        "export" => Ask::Export,
        "weighed 8" => weighing(alloc, 8),
        "weighed 9" => weighing(alloc, 9),
        _ => return Err(NoAnswer::BadRow),
    };
    Ok(Query { uid: 5, ask })
}

/// The expression of files, as it is read.
fn every_file(alloc: Global) -> Result<Expr, NoAnswer> {
    match parse(alloc, b"file")? {
        Ok(expr) => Ok(expr),
        Err(_) => Err(NoAnswer::BadRow),
    }
}

fn ranking(alloc: Global, k: u32) -> Ask {
    Ask::Rank {
        k,
        unit: Expr::Line,
        words: Sequence::new(alloc),
    }
}

fn listing(alloc: Global, top: bool) -> Result<Ask, NoMemory> {
    Ok(Ask::Terms {
        k: 9,
        prefix: Bytes::from_slice(alloc, b"a")?,
        top,
    })
}

fn weighing(alloc: Global, k: u32) -> Ask {
    Ask::Weighed {
        k,
        unit: Expr::Line,
        words: Sequence::new(alloc),
    }
}

fn answered_named(alloc: Global, name: &str) -> Result<Answered, NoAnswer> {
    match name {
        "count 1" => Ok(Answered::Count { hits: 1, files: 1 }),
        "count 2" => Ok(Answered::Count { hits: 2, files: 1 }),
        "paths" => Ok(one_path(alloc)?),
        "rank" => Ok(one_line(alloc)?),
        "terms" => Ok(one_word(alloc, false)?),
        "top" => Ok(one_word(alloc, true)?),
        "export" => Ok(script(alloc, b"text\t2\t1\na\n")?),
        "empty export" => Ok(script(alloc, b"")?),
        "weighed 1" => Ok(weighed(1)),
        "weighed 2" => Ok(weighed(2)),
        _ => Err(NoAnswer::BadRow),
    }
}

fn one_path(alloc: Global) -> Result<Answered, NoMemory> {
    let mut paths = Sequence::new(alloc);
    paths.push(Bytes::from_slice(alloc, b"/a")?)?;
    Ok(Answered::Paths { paths })
}

fn one_line(alloc: Global) -> Result<Answered, NoMemory> {
    let mut shown = Sequence::new(alloc);
    shown.push(RankLine {
        score: 3,
        path: Bytes::from_slice(alloc, b"/a")?,
        start: 0,
        end: 4,
    })?;
    Ok(Answered::Rank { listed: 1, shown })
}

fn one_word(alloc: Global, top: bool) -> Result<Answered, NoMemory> {
    let mut shown = Sequence::new(alloc);
    shown.push(TermLine {
        word: Bytes::from_slice(alloc, b"apple")?,
        files: 2,
    })?;
    Ok(Answered::Terms {
        total: 1,
        top,
        shown,
    })
}

fn script(alloc: Global, bytes: &[u8]) -> Result<Answered, NoMemory> {
    Ok(Answered::Export {
        script: Bytes::from_slice(alloc, bytes)?,
    })
}

fn weighed(weighed: u64) -> Answered {
    Answered::Weighed { listed: 3, weighed }
}
