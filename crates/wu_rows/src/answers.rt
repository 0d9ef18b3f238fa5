//! Answers as they are written in a row.
use crate::comparing::NoAnswer;
use std::alloc::{AllocError, Global};
use std::cmp::Ordering;
use wu_base::{Bytes, Extent};

/// `true` or `false`.
pub fn flag_text(alloc: Global, flag: bool) -> Result<String, NoAnswer> {
    plain_text(alloc, if flag { "true" } else { "false" })
}

/// `less`, `equal` or `greater`.
pub fn order_text(alloc: Global, order: Ordering) -> Result<String, NoAnswer> {
    match order {
        Ordering::Less => plain_text(alloc, "less"),
        Ordering::Equal => plain_text(alloc, "equal"),
        Ordering::Greater => plain_text(alloc, "greater"),
    }
}

/// A word.
pub fn plain_text(alloc: Global, word: &str) -> Result<String, NoAnswer> {
    Ok(String::from_str(alloc, word)?)
}

/// A number in decimal.
pub fn number_text(alloc: Global, number: u64) -> Result<String, NoAnswer> {
    Ok(format!(in alloc; "{number}")?)
}

/// A number in decimal, or `none`.
pub fn optional_text(alloc: Global, number: Option<u64>) -> Result<String, NoAnswer> {
    match number {
        Some(number) => number_text(alloc, number),
        None => plain_text(alloc, "none"),
    }
}

/// Numbers in decimal, in brackets, with a comma between each two.
pub fn numbers_text(alloc: Global, numbers: &[u64]) -> Result<String, NoAnswer> {
    Ok(format!(in alloc; "{numbers:?}")?)
}

/// Bytes in brackets, written as in a row; what is no ASCII text is `\xFF` and the like.
pub fn bytes_text(alloc: Global, bytes: &[u8]) -> Result<String, NoAnswer> {
    let mut text = String::from_str(alloc, "[")?;
    for byte in bytes {
        put_byte(&mut text, *byte)?;
    }
    text.push(']')?;
    Ok(text)
}

/// Appends a byte as it is written in a row.
pub fn put_byte(text: &mut String, byte: u8) -> Result<(), AllocError> {
    match byte {
        b'\\' => text.push_str("\\\\"),
        b'\t' => text.push_str("\\t"),
        b'\n' => text.push_str("\\n"),
        b'\r' => text.push_str("\\r"),
        b' '..=b'~' => text.push(char::from(byte)),
        _ => write!(text, "\\x{byte:02X}"),
    }
}

/// Byte strings, each in brackets; `none` where there are none.
pub fn list_text(alloc: Global, items: &[Bytes]) -> Result<String, NoAnswer> {
    if items.is_empty() {
        return plain_text(alloc, "none");
    }
    let mut text = String::new(alloc);
    for item in items {
        text.push_str(bytes_text(alloc, item.as_slice())?.as_str())?;
    }
    Ok(text)
}

/// Extents, as `3-5`, with a space between each two; `none` where there are none.
pub fn extents_text(alloc: Global, extents: &[Extent]) -> Result<String, NoAnswer> {
    if extents.is_empty() {
        return plain_text(alloc, "none");
    }
    let mut text = String::new(alloc);
    for extent in extents {
        if !text.is_empty() {
            text.push(' ')?;
        }
        put_extent(&mut text, extent.start, extent.end)?;
    }
    Ok(text)
}

/// Appends a start and an end, as `3-5`.
pub fn put_extent(text: &mut String, start: u64, end: u64) -> Result<(), AllocError> {
    write!(text, "{start}-{end}")
}
