//! Calls on parts and what they have.
use crate::lists::lists_of;
use std::alloc::Global;
use wu_base::GENERATION_MAX;
use wu_part::{
    BlockEntry, Directory, Entry, encode, keep_directory, read_block, read_directory, read_header,
};
use wu_rows::{
    NoAnswer, bytes, bytes_text, number, numbers_text, optional_text, plain_text, small_number,
};

/// The answer of the call to the arguments.
pub fn answer(alloc: Global, call: &str, arguments: &[&str]) -> Result<String, NoAnswer> {
    match call {
        "encode" => encoded(alloc, arguments),
        "read_header" => header_read(alloc, arguments),
        "read_directory" => directory_read(alloc, arguments),
        "keep_directory" => directory_kept(alloc, arguments),
        "Directory::copy" => directory_copied(alloc, arguments),
        "Directory::entry_of" => entry_found(alloc, arguments),
        "read_block" => block_read(alloc, arguments),
        _ => Err(NoAnswer::BadRow),
    }
}

fn encoded(alloc: Global, arguments: &[&str]) -> Result<String, NoAnswer> {
    let [generation, terms, addresses] = arguments else {
        return Err(NoAnswer::BadRow);
    };
    let generation = small_number(generation)?;
    if generation > GENERATION_MAX {
        return Err(NoAnswer::BadRow);
    }
    let lists = lists_of(alloc, terms, addresses)?;
    bytes_text(alloc, &encode(alloc, &lists, generation)?)
}

fn header_read(alloc: Global, arguments: &[&str]) -> Result<String, NoAnswer> {
    let [field] = arguments else {
        return Err(NoAnswer::BadRow);
    };
    optional_text(alloc, read_header(&bytes(alloc, field)?))
}

fn directory_read(alloc: Global, arguments: &[&str]) -> Result<String, NoAnswer> {
    let [field, size] = arguments else {
        return Err(NoAnswer::BadRow);
    };
    match read_directory(alloc, &bytes(alloc, field)?, number(size)?)? {
        Some(directory) => directory_text(alloc, &directory),
        None => plain_text(alloc, "none"),
    }
}

/// What a directory that keeps the bytes tells, or what it tells of a term.
fn directory_kept(alloc: Global, arguments: &[&str]) -> Result<String, NoAnswer> {
    match arguments {
        [field, size] => all_kept(alloc, field, number(size)?),
        [field, size, term] => entry_kept(alloc, field, number(size)?, term),
        _ => Err(NoAnswer::BadRow),
    }
}

fn all_kept(alloc: Global, field: &str, size: u64) -> Result<String, NoAnswer> {
    match keep_directory(alloc, bytes(alloc, field)?, size)? {
        Some(directory) => directory_text(alloc, &directory),
        None => plain_text(alloc, "none"),
    }
}

/// What a copy of the directory that keeps the bytes tells.
fn directory_copied(alloc: Global, arguments: &[&str]) -> Result<String, NoAnswer> {
    let [field, size] = arguments else {
        return Err(NoAnswer::BadRow);
    };
    match keep_directory(alloc, bytes(alloc, field)?, number(size)?)? {
        Some(directory) => copy_text(alloc, &directory),
        None => Err(NoAnswer::BadRow),
    }
}

fn copy_text(alloc: Global, directory: &Directory) -> Result<String, NoAnswer> {
    directory_text(alloc, &directory.copy(alloc)?)
}

fn directory_text(alloc: Global, directory: &Directory) -> Result<String, NoAnswer> {
    let numbers = [
        u64::from(directory.generation()),
        directory.low(),
        directory.high(),
        directory.stored(),
        directory.size(),
    ];
    let mut text = numbers_text(alloc, &numbers)?;
    for place in 0..directory.term_count() {
        if let Some(entry) = directory.term_at(place) {
            text.push_str(entry_text(alloc, entry)?.as_str())?;
        }
    }
    Ok(text)
}

/// The term, and its count and blocks.
fn entry_text(alloc: Global, mut entry: Entry) -> Result<String, NoAnswer> {
    let mut text = bytes_text(alloc, entry.term())?;
    let mut numbers = Vec::new(alloc);
    numbers.push(entry.count())?;
    while let Some((block, count)) = entry.next_block() {
        for number in [block.first, block.last, block.at, block.len, count as u64] {
            numbers.push(number)?;
        }
    }
    text.push_str(numbers_text(alloc, &numbers)?.as_str())?;
    Ok(text)
}

fn entry_found(alloc: Global, arguments: &[&str]) -> Result<String, NoAnswer> {
    let [field, size, term] = arguments else {
        return Err(NoAnswer::BadRow);
    };
    let term = bytes(alloc, term)?;
    match read_directory(alloc, &bytes(alloc, field)?, number(size)?)? {
        Some(directory) => entry_text_of(alloc, &directory, &term),
        None => Err(NoAnswer::BadRow),
    }
}

/// What the directory that keeps the bytes tells of the term.
fn entry_kept(alloc: Global, field: &str, size: u64, term: &str) -> Result<String, NoAnswer> {
    let term = bytes(alloc, term)?;
    match keep_directory(alloc, bytes(alloc, field)?, size)? {
        Some(directory) => entry_text_of(alloc, &directory, &term),
        None => Err(NoAnswer::BadRow),
    }
}

fn entry_text_of(alloc: Global, directory: &Directory, term: &[u8]) -> Result<String, NoAnswer> {
    match directory.entry_of(term) {
        Some(entry) => entry_text(alloc, entry),
        None => plain_text(alloc, "none"),
    }
}

fn block_read(alloc: Global, arguments: &[&str]) -> Result<String, NoAnswer> {
    let [field, low, first, last, count] = arguments else {
        return Err(NoAnswer::BadRow);
    };
    let bytes = bytes(alloc, field)?;
    let entry = BlockEntry {
        first: number(first)?,
        last: number(last)?,
        at: 0,
        len: bytes.len() as u64,
    };
    match read_block(alloc, &bytes, number(low)?, &entry, number(count)? as usize)? {
        Some(addresses) => numbers_text(alloc, &addresses),
        None => plain_text(alloc, "none"),
    }
}
