//! What memory has of a term, in the files that have addresses.
use std::alloc::Global;
use wu_base::{ADDRESSES_MAX, Range, Sequence};
use wu_parts::Parts;
use wu_rows::{NoAnswer, small_numbers};
use wu_space::Space;
use wu_space_rows::{are_bounded, release};

/// Gives up the files up to that number that aren't among the seen ones.
pub fn release_others(
    alloc: Global,
    space: &mut Space,
    last: u32,
    seen: &str,
) -> Result<(), NoAnswer> {
    let seen = small_numbers(alloc, seen)?;
    for ino in 0..last {
        if !seen.contains(&ino) {
            release(space, ino);
        }
    }
    Ok(())
}

/// The term's addresses in the files that have some.
pub fn fetch_live(parts: &Parts, space: &Space, term: &[u8]) -> Result<Sequence<u64>, NoAnswer> {
    let frames = space.live_ranges(0, ADDRESSES_MAX)?;
    if !are_bounded(&frames) {
        return Err(NoAnswer::BadRow);
    }
    Ok(parts.fetch_memory(term, &frames)?)
}

/// All of the term's addresses.
pub fn fetch_all(parts: &Parts, term: &[u8]) -> Result<Sequence<u64>, NoAnswer> {
    let all = Range {
        start: 0,
        len: ADDRESSES_MAX,
    };
    Ok(parts.fetch_memory(term, &[all])?)
}
