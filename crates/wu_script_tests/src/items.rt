//! The items of scripts.
use crate::sources::{Trickle, words_of_items};
use std::alloc::Global;
use wu_base::INPUT_MAX;
use wu_outside::PlainSource;
use wu_rows::{NoAnswer, numbers, script};

/// The words for the items of the script. They are the same where it comes in pieces of so many
/// bytes each.
pub fn read(alloc: Global, fields: &[&str]) -> Result<String, NoAnswer> {
    let [pieces, field] = fields else {
        return Err(NoAnswer::BadRow);
    };
    let script = script(alloc, field)?;
    let whole = read_whole(alloc, script.as_slice())?;
    for most in &numbers(alloc, pieces)? {
        let other = read_in_pieces(alloc, script.as_slice(), *most)?;
        if other.as_str() != whole.as_str() {
            return Ok(format!(in alloc; "in pieces of {most}: {other}")?);
        }
    }
    Ok(whole)
}

fn read_whole(alloc: Global, script: &[u8]) -> Result<String, NoAnswer> {
    let mut source = PlainSource::new(Vec::from_slice(alloc, script)?);
    words_of_items(alloc, &mut source, INPUT_MAX)
}

fn read_in_pieces(alloc: Global, script: &[u8], most: u64) -> Result<String, NoAnswer> {
    let plain = PlainSource::new(Vec::from_slice(alloc, script)?);
    let mut source = Trickle {
        plain,
        most: most as usize,
        most_asked: 0,
    };
    words_of_items(alloc, &mut source, INPUT_MAX)
}
