//! Calls on numbers and blocks in bytes.
use std::alloc::Global;
use std::io;
use wu_rows::{
    NoAnswer, ascending_numbers, bytes, bytes_text, flag_text, number, numbers_text, plain_text,
};
use wu_vbyte::{
    BLOCK_LEN, is_block, next_large, next_number, put_block, put_number, take_block, take_number,
};

/// The answer of the call to the arguments.
pub fn answer(alloc: Global, call: &str, arguments: &[&str]) -> Result<String, NoAnswer> {
    match call {
        "put_number" => written_number(alloc, arguments),
        "take_number" => number_read(alloc, arguments),
        "put_block" => written_block(alloc, arguments),
        "take_block" => block_read(alloc, arguments),
        "is_block" => block_checked(alloc, arguments),
        _ => Err(NoAnswer::BadRow),
    }
}

fn written_number(alloc: Global, arguments: &[&str]) -> Result<String, NoAnswer> {
    let [field] = arguments else {
        return Err(NoAnswer::BadRow);
    };
    let mut out = Vec::new(alloc);
    put_number(&mut out, number(field)?)?;
    bytes_text(alloc, &out)
}

fn number_read(alloc: Global, arguments: &[&str]) -> Result<String, NoAnswer> {
    let [field, place] = arguments else {
        return Err(NoAnswer::BadRow);
    };
    let place = number(place)? as usize;
    let bytes = bytes(alloc, field)?;
    if place > bytes.len() {
        return Err(NoAnswer::BadRow);
    }
    match take_number(&bytes, place) {
        Some((number, after)) => numbers_text(alloc, &[number, after as u64]),
        None => plain_text(alloc, "none"),
    }
}

fn written_block(alloc: Global, arguments: &[&str]) -> Result<String, NoAnswer> {
    let [low, addresses] = arguments else {
        return Err(NoAnswer::BadRow);
    };
    let low = number(low)?;
    let addresses = ascending_numbers(alloc, addresses)?;
    if addresses.is_empty() || addresses.len() > BLOCK_LEN || low > addresses[0] {
        return Err(NoAnswer::BadRow);
    }
    let mut out = Vec::new(alloc);
    put_block(&mut out, low, &addresses)?;
    bytes_text(alloc, &out)
}

/// The block that is read, where low, count, first and last are given.
fn block_read(alloc: Global, arguments: &[&str]) -> Result<String, NoAnswer> {
    let [field, given @ ..] = arguments else {
        return Err(NoAnswer::BadRow);
    };
    let [low, count, first, last] = numbers_given(given)?;
    let bytes = bytes(alloc, field)?;
    match take_block(alloc, &bytes, low, count as usize, first, last)? {
        Some(addresses) => numbers_text(alloc, &addresses),
        None => plain_text(alloc, "none"),
    }
}

/// Whether there is such a block, by the same arguments.
fn block_checked(alloc: Global, arguments: &[&str]) -> Result<String, NoAnswer> {
    let [field, given @ ..] = arguments else {
        return Err(NoAnswer::BadRow);
    };
    let [low, count, first, last] = numbers_given(given)?;
    let bytes = bytes(alloc, field)?;
    flag_text(alloc, is_block(&bytes, low, count as usize, first, last))
}

/// Low, count, first and last.
fn numbers_given(given: &[&str]) -> Result<[u64; 4], NoAnswer> {
    let [low, count, first, last] = given else {
        return Err(NoAnswer::BadRow);
    };
    Ok([number(low)?, number(count)?, number(first)?, number(last)?])
}

/// Writes numbers beside each power of two and reads them back, and prints how many are the same.
pub fn compare_powers(rt: &(impl Print + AllocGlobal)) -> io::Result<()> {
    let mut numbers = 0u64;
    let mut same = 0u64;
    for place in 0..64u32 {
        let power = 1u64 << place;
        for number in [power - 1, power, power | 1] {
            numbers = numbers.saturating_add(1);
            same = same.saturating_add(u64::from(is_read_back(rt.alloc(), number)?));
        }
    }
    println!(rt; "numbers beside powers of two: {same} of {numbers} are read back")
}

fn is_read_back(alloc: Global, number: u64) -> Result<bool, NoAnswer> {
    let mut out = Vec::new(alloc);
    put_number(&mut out, number)?;
    let alone = is_read(next_number(&out), number, 0) && is_read(next_large(&out), number, 0);
    put_number(&mut out, 0)?;
    Ok(alone && is_read(next_number(&out), number, 1) && is_read(next_large(&out), number, 1))
}

/// Whether this number was read, and so many bytes are left.
fn is_read(next: Option<(u64, &[u8])>, number: u64, left: usize) -> bool {
    match next {
        Some((found, rest)) => found == number && rest.len() == left,
        None => false,
    }
}
