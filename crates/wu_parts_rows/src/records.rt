//! What is recorded of parts, as rows write it.
use std::alloc::{AllocError, Global};
use wu_base::PartRec;
use wu_parts::Parts;
use wu_rows::NoAnswer;

/// How many postings there are, how many parts, how many flushes made a part, the number of the
/// next blob, and what is recorded of each part.
pub fn records_text(alloc: Global, parts: &Parts) -> Result<String, NoAnswer> {
    let stored = parts.stored();
    let count = parts.count();
    let flushes = parts.flushes();
    let next_blob = parts.next_blob();
    let mut text = format!(in alloc; "{stored} {count} {flushes} {next_blob}")?;
    for place in 0..100usize {
        if let Some(part) = parts.part(place) {
            put_record(&mut text, part)?;
        }
    }
    Ok(text)
}

/// Appends what is recorded of a part.
fn put_record(text: &mut String, part: PartRec) -> Result<(), AllocError> {
    let blob = part.blob;
    let size = part.size;
    let generation = part.generation;
    let low = part.low;
    let high = part.high;
    let stored = part.stored;
    write!(text, "; {blob} {size} {generation} {low} {high} {stored}")
}
