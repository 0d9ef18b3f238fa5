//! How a reader asks its source, and how reading ends.
use crate::sources::{Noting, words_of_items};
use std::alloc::Global;
use wu_outside::{MemSource, PlainSource};
use wu_rows::{NoAnswer, number, numbers, numbers_text, script};
use wu_script::ReadEnd;

/// The words for the items of a script of at most so many bytes, where the named reads fail, and
/// how many reads there are.
pub fn ended(alloc: Global, fields: &[&str]) -> Result<String, NoAnswer> {
    let [max_input, failing, field] = fields else {
        return Err(NoAnswer::BadRow);
    };
    let mut source = MemSource::new(script(alloc, field)?, numbers(alloc, failing)?);
    let words = words_of_items(alloc, &mut source, number(max_input)?)?;
    let reads = source.calls();
    Ok(format!(in alloc; "{words}, {reads} reads")?)
}

/// How many bytes each of the first reads asks for, where at most so many may be given.
pub fn asked(alloc: Global, fields: &[&str]) -> Result<String, NoAnswer> {
    let [max_input, field] = fields else {
        return Err(NoAnswer::BadRow);
    };
    let mut source = Noting {
        plain: PlainSource::new(script(alloc, field)?),
        asked: [0; 4],
        reads: 0,
    };
    words_of_items(alloc, &mut source, number(max_input)?)?;
    numbers_text(alloc, &source.asked[..source.reads.min(4)])
}

/// The text of the end of this name.
pub fn end_text(alloc: Global, fields: &[&str]) -> Result<String, NoAnswer> {
    let [name] = fields else {
        return Err(NoAnswer::BadRow);
    };
    let end = match *name {
        "read fault" => ReadEnd::ReadFault,
        "input too long" => ReadEnd::InputTooLong,
        "no memory" => ReadEnd::NoMemory,
        _ => return Err(NoAnswer::BadRow),
    };
    Ok(format!(in alloc; "{end}")?)
}
