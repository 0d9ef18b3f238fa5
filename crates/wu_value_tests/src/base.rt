//! Calls on byte strings and lists.
use std::alloc::Global;
use wu_base::{Bytes, NoMemory, Sequence, Trouble, is_among};
use wu_rows::{
    NoAnswer, ascending_numbers, bytes, bytes_text, flag_text, number_text, numbers, numbers_text,
    order_text, plain_text,
};

/// The answer of the call to the arguments.
pub fn answer(alloc: Global, call: &str, arguments: &[&str]) -> Result<String, NoAnswer> {
    match call {
        "Bytes::cmp" => order_of_bytes(alloc, arguments),
        "Bytes::eq" => equality_of_bytes(alloc, arguments),
        "Bytes::as_slice" => bytes_seen(alloc, arguments),
        "Bytes::into_vec" => bytes_given_back(alloc, arguments),
        "Sequence::is_empty" => emptiness(alloc, arguments),
        "Sequence::len" => length(alloc, arguments),
        "Sequence::push" => items_pushed(alloc, arguments),
        "Sequence::cmp" => order_of_sequences(alloc, arguments),
        "sorted_once" => ascending(alloc, arguments),
        "is_among" => digits_among(alloc, arguments),
        "NoMemory" => text_of_error(alloc),
        "Trouble" => text_of_trouble(alloc, arguments),
        _ => Err(NoAnswer::BadRow),
    }
}

fn text_of_error(alloc: Global) -> Result<String, NoAnswer> {
    Ok(format!(in alloc; "{NoMemory}")?)
}

fn text_of_trouble(alloc: Global, arguments: &[&str]) -> Result<String, NoAnswer> {
    let [name] = arguments else {
        return Err(NoAnswer::BadRow);
    };
    let trouble = match *name {
        "NoMemory" => Trouble::NoMemory,
        "StoreFault" => Trouble::StoreFault,
        "Damaged 7" => Trouble::Damaged { blob: 7 },
        _ => return Err(NoAnswer::BadRow),
    };
    Ok(format!(in alloc; "{trouble}")?)
}

fn order_of_bytes(alloc: Global, arguments: &[&str]) -> Result<String, NoAnswer> {
    let [left, right] = arguments else {
        return Err(NoAnswer::BadRow);
    };
    let left = Bytes::from(bytes(alloc, left)?);
    let right = Bytes::from(bytes(alloc, right)?);
    order_text(alloc, left.cmp(&right))
}

fn equality_of_bytes(alloc: Global, arguments: &[&str]) -> Result<String, NoAnswer> {
    let [left, right] = arguments else {
        return Err(NoAnswer::BadRow);
    };
    let left = Bytes::from(bytes(alloc, left)?);
    let right = Bytes::from(bytes(alloc, right)?);
    flag_text(alloc, left == right)
}

/// A clone of a copy of the bytes.
fn copy_of(alloc: Global, field: &str) -> Result<Bytes, NoAnswer> {
    let bytes = bytes(alloc, field)?;
    Ok(Bytes::from_slice(alloc, &bytes)?.clone()?)
}

fn bytes_seen(alloc: Global, arguments: &[&str]) -> Result<String, NoAnswer> {
    let [field] = arguments else {
        return Err(NoAnswer::BadRow);
    };
    bytes_text(alloc, copy_of(alloc, field)?.as_slice())
}

fn bytes_given_back(alloc: Global, arguments: &[&str]) -> Result<String, NoAnswer> {
    let [field] = arguments else {
        return Err(NoAnswer::BadRow);
    };
    bytes_text(alloc, &copy_of(alloc, field)?.into_vec())
}

/// A sequence of the items, pushed one by one.
fn pushed(alloc: Global, items: &str) -> Result<Sequence<u64>, NoAnswer> {
    let mut sequence = Sequence::new(alloc);
    for item in numbers(alloc, items)? {
        sequence.push(item)?;
    }
    Ok(sequence)
}

fn emptiness(alloc: Global, arguments: &[&str]) -> Result<String, NoAnswer> {
    let [items] = arguments else {
        return Err(NoAnswer::BadRow);
    };
    flag_text(alloc, pushed(alloc, items)?.is_empty())
}

fn length(alloc: Global, arguments: &[&str]) -> Result<String, NoAnswer> {
    let [items] = arguments else {
        return Err(NoAnswer::BadRow);
    };
    number_text(alloc, pushed(alloc, items)?.len() as u64)
}

fn items_pushed(alloc: Global, arguments: &[&str]) -> Result<String, NoAnswer> {
    let [items] = arguments else {
        return Err(NoAnswer::BadRow);
    };
    let copy = pushed(alloc, items)?.clone()?;
    numbers_text(alloc, &copy.into_vec())
}

fn order_of_sequences(alloc: Global, arguments: &[&str]) -> Result<String, NoAnswer> {
    let [left, right] = arguments else {
        return Err(NoAnswer::BadRow);
    };
    let left = pushed(alloc, left)?;
    let right = Sequence::from(numbers(alloc, right)?);
    order_text(alloc, left.cmp(&right))
}

fn ascending(alloc: Global, arguments: &[&str]) -> Result<String, NoAnswer> {
    let [items] = arguments else {
        return Err(NoAnswer::BadRow);
    };
    numbers_text(alloc, &ascending_numbers(alloc, items)?)
}

fn digits_among(alloc: Global, arguments: &[&str]) -> Result<String, NoAnswer> {
    let [items] = arguments else {
        return Err(NoAnswer::BadRow);
    };
    let items = ascending_numbers(alloc, items)?;
    let mut found = Vec::new(alloc);
    for digit in 0..10u64 {
        if is_among(&digit, &items) {
            found.push(digit)?;
        }
    }
    numbers_text(alloc, &found)
}
