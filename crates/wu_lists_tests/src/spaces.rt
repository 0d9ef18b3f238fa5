//! What spaces of addresses tell, and what they tell after random changes beside a plain list.
use crate::plain;
use std::alloc::Global;
use wu_base::{Ino, Range};
use wu_rows::{NoAnswer, number, number_text, plain_text, small_number};
use wu_space::Space;
use wu_space_rows::place;

/// What the space answers to the row.
pub fn answer(alloc: Global, space: &mut Space, fields: &[&str]) -> Result<String, NoAnswer> {
    let [call, arguments @ ..] = fields else {
        return Err(NoAnswer::BadRow);
    };
    match *call {
        "place" => placed(alloc, space, arguments),
        "release" => released(alloc, space, arguments),
        "rebuild" => rebuilt(alloc, space, arguments),
        "random" => agreement(alloc, arguments),
        _ => told(alloc, space, call, arguments),
    }
}

/// After how many of so many random changes the space tells what a plain list does.
fn agreement(alloc: Global, arguments: &[&str]) -> Result<String, NoAnswer> {
    let [seed, steps] = arguments else {
        return Err(NoAnswer::BadRow);
    };
    let seed = number(seed)?;
    let steps = number(steps)?;
    number_text(alloc, plain::agreed(alloc, seed, steps)?)
}

/// Goes on with the space that is rebuilt from the ranges, if there is one.
fn rebuilt(alloc: Global, space: &mut Space, arguments: &[&str]) -> Result<String, NoAnswer> {
    let [next, ranges] = arguments else {
        return Err(NoAnswer::BadRow);
    };
    let next = number(next)?;
    let files = files_of(alloc, ranges)?;
    match Space::rebuild(alloc, next, files.as_slice())? {
        Some(rebuilt) => {
            *space = rebuilt;
            plain_text(alloc, "some")
        }
        None => plain_text(alloc, "none"),
    }
}

/// What the space tells, unchanged.
fn told(alloc: Global, space: &Space, call: &str, arguments: &[&str]) -> Result<String, NoAnswer> {
    match arguments {
        [] => of_all(alloc, space, call),
        [place] => of_place(alloc, space, call, place),
        [low, high] => of_span(alloc, space, call, number(low)?, number(high)?),
        _ => Err(NoAnswer::BadRow),
    }
}

fn of_all(alloc: Global, space: &Space, call: &str) -> Result<String, NoAnswer> {
    match call {
        "total" => number_text(alloc, space.live_total()),
        "next" => number_text(alloc, space.next()),
        _ => Err(NoAnswer::BadRow),
    }
}

fn of_place(alloc: Global, space: &Space, call: &str, place: &str) -> Result<String, NoAnswer> {
    match call {
        "range" => range_text(alloc, space.range_of(small_number(place)?)),
        "owner" => owner_text(alloc, space.owner_at(number(place)?)),
        _ => Err(NoAnswer::BadRow),
    }
}

fn of_span(
    alloc: Global,
    space: &Space,
    call: &str,
    low: u64,
    high: u64,
) -> Result<String, NoAnswer> {
    match call {
        "in" => number_text(alloc, space.live_in(low, high)),
        "ranges" => ranges_text(alloc, &space.live_ranges(low, high)?),
        _ => Err(NoAnswer::BadRow),
    }
}

fn placed(alloc: Global, space: &mut Space, arguments: &[&str]) -> Result<String, NoAnswer> {
    let [ino, len] = arguments else {
        return Err(NoAnswer::BadRow);
    };
    let range = place(space, small_number(ino)?, number(len)?)?;
    range_text(alloc, Some(range))
}

fn released(alloc: Global, space: &mut Space, arguments: &[&str]) -> Result<String, NoAnswer> {
    let [ino] = arguments else {
        return Err(NoAnswer::BadRow);
    };
    let ino = small_number(ino)?;
    if space.range_of(ino).is_none() {
        return Err(NoAnswer::BadRow);
    }
    space.release(ino);
    plain_text(alloc, "done")
}

/// The numbers and ranges of a field like `1:0+2 2:5+1`; `-` is none.
fn files_of(alloc: Global, field: &str) -> Result<Vec<(Ino, Range)>, NoAnswer> {
    let mut files = Vec::new(alloc);
    for word in field.split_whitespace() {
        if word != "-" {
            files.push(file_of(word)?)?;
        }
    }
    Ok(files)
}

fn file_of(word: &str) -> Result<(Ino, Range), NoAnswer> {
    let Some((ino, range)) = word.split_once(':') else {
        return Err(NoAnswer::BadRow);
    };
    let Some((start, len)) = range.split_once('+') else {
        return Err(NoAnswer::BadRow);
    };
    let range = Range {
        start: number(start)?,
        len: number(len)?,
    };
    Ok((small_number(ino)?, range))
}

/// A range as `START+LENGTH`.
fn range_text(alloc: Global, range: Option<Range>) -> Result<String, NoAnswer> {
    match range {
        Some(range) => {
            let start = range.start;
            let len = range.len;
            Ok(format!(in alloc; "{start}+{len}")?)
        }
        None => plain_text(alloc, "none"),
    }
}

/// Ranges with a space between each two.
fn ranges_text(alloc: Global, ranges: &[Range]) -> Result<String, NoAnswer> {
    let mut text = String::new(alloc);
    for range in ranges {
        let start = range.start;
        let len = range.len;
        if !text.is_empty() {
            text.push(' ')?;
        }
        write!(text, "{start}+{len}")?;
    }
    Ok(text)
}

/// A file and which address of its range it is, as `NUMBER at OFFSET`.
fn owner_text(alloc: Global, owner: Option<(Ino, u64)>) -> Result<String, NoAnswer> {
    match owner {
        Some((ino, offset)) => Ok(format!(in alloc; "{ino} at {offset}")?),
        None => plain_text(alloc, "none"),
    }
}
