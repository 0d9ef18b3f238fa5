//! Reading of whole parts.
use std::alloc::Global;
use wu_part::{Directory, Entry, read_block};
use wu_part_rows::{bytes_at, directory_of, header_of};
use wu_rows::NoAnswer;

/// How far the bytes of a part are read.
#[derive(Clone, Copy)]
pub enum Reached {
    Nothing,
    Header,
    Directory,
    Blocks,
}

/// Reads a part, with all its blocks.
pub fn reached_in(alloc: Global, blob: &[u8]) -> Result<Reached, NoAnswer> {
    let Some(length) = header_of(blob) else {
        return Ok(Reached::Nothing);
    };
    match directory_of(alloc, blob, length)? {
        Some(directory) => reached_by(alloc, blob, &directory),
        None => Ok(Reached::Header),
    }
}

fn reached_by(alloc: Global, blob: &[u8], directory: &Directory) -> Result<Reached, NoAnswer> {
    if are_blocks_read(alloc, blob, directory)? {
        Ok(Reached::Blocks)
    } else {
        Ok(Reached::Directory)
    }
}

fn are_blocks_read(alloc: Global, blob: &[u8], directory: &Directory) -> Result<bool, NoAnswer> {
    for place in 0..directory.term_count() {
        if let Some(entry) = directory.term_at(place) {
            if addresses_in(alloc, blob, directory.low(), entry)?.is_none() {
                return Ok(false);
            }
        }
    }
    Ok(true)
}

/// The addresses of an entry, where its blocks are spelled.
pub fn addresses_in(
    alloc: Global,
    blob: &[u8],
    low: u64,
    mut entry: Entry,
) -> Result<Option<Vec<u64>>, NoAnswer> {
    let mut addresses = Vec::new(alloc);
    while let Some((block, count)) = entry.next_block() {
        let Some(bytes) = bytes_at(blob, block.at, block.len) else {
            return Ok(None);
        };
        match read_block(alloc, bytes, low, &block, count)? {
            Some(found) => addresses.extend_from_slice(&found)?,
            None => return Ok(None),
        }
    }
    Ok(Some(addresses))
}
