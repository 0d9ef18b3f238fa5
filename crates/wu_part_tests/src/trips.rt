//! Lists that are written and read back.
use crate::blobs::addresses_in;
use crate::lists::lists_of;
use std::alloc::Global;
use std::io;
use wu_base::TermList;
use wu_part::{Directory, encode};
use wu_part_rows::directory_in;
use wu_rows::NoAnswer;

/// Writes two lists of each of these lengths as a part and reads them back, and prints how many are
/// the same.
pub fn compare_trips(rt: &(impl Print + AllocGlobal)) -> io::Result<()> {
    let mut same = 0u64;
    let mut all = 0u64;
    for count in [1u32, 127, 128, 129, 1000] {
        all = all.saturating_add(2);
        same = same.saturating_add(read_back(rt.alloc(), count)?);
    }
    println!(rt; "lists of 1, 127, 128, 129 and 1000 addresses: {same} of {all} are read back")
}

/// How many of the two lists are read back.
fn read_back(alloc: Global, count: u32) -> Result<u64, NoAnswer> {
    let lists = lists_of(alloc, "a|b", drawn(alloc, count)?.as_str())?;
    let blob = encode(alloc, &lists, 3)?;
    match directory_in(alloc, &blob)? {
        Some(directory) => same_lists(alloc, &blob, &directory, &lists),
        None => Ok(0),
    }
}

fn same_lists(
    alloc: Global,
    blob: &[u8],
    directory: &Directory,
    lists: &[TermList],
) -> Result<u64, NoAnswer> {
    let mut same = 0u64;
    for list in lists {
        if is_same(alloc, blob, directory, list)? {
            same = same.saturating_add(1);
        }
    }
    Ok(same)
}

fn is_same(
    alloc: Global,
    blob: &[u8],
    directory: &Directory,
    list: &TermList,
) -> Result<bool, NoAnswer> {
    let Some(entry) = directory.entry_of(list.term.as_slice()) else {
        return Ok(false);
    };
    match addresses_in(alloc, blob, directory.low(), entry)? {
        Some(addresses) => Ok(addresses.as_slice() == list.at.as_slice()),
        None => Ok(false),
    }
}

/// The addresses of two lists of so many, drawn in turn with gaps of one to three bytes.
fn drawn(alloc: Global, count: u32) -> Result<String, NoAnswer> {
    let mut first = String::new(alloc);
    let mut second = String::new(alloc);
    let mut draw = u64::from(count);
    let mut address = 5u64;
    for _ in 0..count {
        draw = next_draw(draw);
        address = address.wrapping_add(gap_of(draw));
        write!(first, "{address} ")?;
        draw = next_draw(draw);
        address = address.wrapping_add(gap_of(draw));
        write!(second, "{address} ")?;
    }
    first.push('|')?;
    first.push_str(second.as_str())?;
    Ok(first)
}

fn next_draw(draw: u64) -> u64 {
    draw.wrapping_mul(6_364_136_223_846_793_005)
        .wrapping_add(1_442_695_040_888_963_407)
}

/// A gap below 2, below 2^8, or below 2^20, by the draw.
fn gap_of(draw: u64) -> u64 {
    let bits = draw >> 40;
    match draw >> 62 {
        0 | 1 => 1,
        2 => 1 + bits % 256,
        _ => 1 + bits % 1_048_576,
    }
}
