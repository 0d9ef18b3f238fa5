//! Parts of which rows give the bytes.
#![tactic(auto)]

use std::alloc::Global;
use wu_part::{Directory, HEADER_LEN, read_directory, read_header};
use wu_rows::NoAnswer;

/// The length of the directory of a part, where it has a header.
pub fn header_of(blob: &[u8]) -> Option<u64> {
    match bytes_at(blob, 0, HEADER_LEN as u64) {
        Some(header) => read_header(header),
        None => None,
    }
}

/// The directory of a part.
pub fn directory_in(alloc: Global, blob: &[u8]) -> Result<Option<Directory>, NoAnswer> {
    match header_of(blob) {
        Some(length) => directory_of(alloc, blob, length),
        None => Ok(None),
    }
}

/// The directory of so many bytes that follows the header.
pub fn directory_of(
    alloc: Global,
    blob: &[u8],
    length: u64,
) -> Result<Option<Directory>, NoAnswer> {
    match bytes_at(blob, HEADER_LEN as u64, length) {
        Some(code) => Ok(read_directory(alloc, code, blob.len() as u64)?),
        None => Ok(None),
    }
}

/// So many bytes from the place on, where the blob has them.
pub fn bytes_at(blob: &[u8], place: u64, len: u64) -> Option<&[u8]> {
    let size = blob.len() as u64;
    if place > size || len > size - place {
        return None;
    }
    Some(&blob[place as usize..(place + len) as usize])
}
