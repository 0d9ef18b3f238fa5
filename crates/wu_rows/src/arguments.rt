//! The arguments of a row.
ghost use Rattle.std.specs.Prelude.{IfOk};
ghost use Rattle.std.specs.Ordering.{nat_cmp};
ghost use Rattle.std.specs.List.Sorted.{IsStrictlyIncreasing, IsStrictlySortedBy};

use crate::comparing::NoAnswer;
use bstr::ByteVec;
use std::alloc::Global;
use wu_base::{Bytes, sorted_once};

/// The bytes that the field is written for.
pub fn bytes(alloc: Global, field: &str) -> Result<Vec<u8>, NoAnswer> {
    Ok(Vec::unescape_bytes(alloc, field)?)
}

/// The number that the field spells in decimal.
pub fn number(field: &str) -> Result<u64, NoAnswer> {
    match field.parse::<u64>() {
        Ok(number) => Ok(number),
        Err(_) => Err(NoAnswer::BadRow),
    }
}

/// The number of 32 bits that the field spells in decimal.
pub fn small_number(field: &str) -> Result<u32, NoAnswer> {
    match u32::try_from(number(field)?) {
        Ok(number) => Ok(number),
        Err(_) => Err(NoAnswer::BadRow),
    }
}

/// The numbers that the field spells, with a space between each two.
pub fn numbers(alloc: Global, field: &str) -> Result<Vec<u64>, NoAnswer> {
    let mut numbers = Vec::new(alloc);
    for word in field.split_whitespace() {
        numbers.push(number(word)?)?;
    }
    Ok(numbers)
}

/// The numbers of 32 bits that the field spells, with a space between each two.
pub fn small_numbers(alloc: Global, field: &str) -> Result<Vec<u32>, NoAnswer> {
    let mut numbers = Vec::new(alloc);
    for word in field.split_whitespace() {
        numbers.push(small_number(word)?)?;
    }
    Ok(numbers)
}

/// The numbers that the field spells, ascending and each of them once.
#[tactic(auto, using(std::proofs::lemmas::Map::Lookups::exact_unsigned))]
pub fn ascending_numbers(alloc: Global, field: &str) -> Result<Vec<u64>, NoAnswer>
    ensures sorted { IfOk result (λ numbers. IsStrictlySortedBy nat_cmp numbers.items) }
    ensures increasing { IfOk result (λ numbers. IsStrictlyIncreasing numbers.items) }
{
    Ok(sorted_once(numbers(alloc, field)?))
}

/// The pieces of the field, with `|` between each two; none where it is `-`.
pub fn pieces(alloc: Global, field: &str) -> Result<Vec<&str>, NoAnswer> {
    let mut pieces = Vec::new(alloc);
    if field == "-" {
        return Ok(pieces);
    }
    for piece in field.split('|') {
        pieces.push(piece)?;
    }
    Ok(pieces)
}

/// The byte strings that the pieces of the field are written for.
pub fn byte_strings(alloc: Global, field: &str) -> Result<Vec<Bytes>, NoAnswer> {
    let mut strings = Vec::new(alloc);
    for piece in &pieces(alloc, field)? {
        strings.push(Bytes::from(bytes(alloc, piece)?))?;
    }
    Ok(strings)
}

/// The text up to its first space, and what follows the space.
pub fn first_word(text: &str) -> (&str, &str) {
    match text.split_once(' ') {
        Some((word, rest)) => (word, rest),
        None => (text, ""),
    }
}

/// The numbers of 32 bits of the field, with a space between each two and `-` where there is none.
pub fn optional_numbers(alloc: Global, field: &str) -> Result<Vec<Option<u32>>, NoAnswer> {
    let mut numbers = Vec::new(alloc);
    for word in field.split_whitespace() {
        if word == "-" {
            numbers.push(None)?;
        } else {
            numbers.push(Some(small_number(word)?))?;
        }
    }
    Ok(numbers)
}
