//! Calls on the fields of a line.
use std::alloc::Global;
use wu_fields::{put_decimal, put_field, read_decimal, read_octal_mode, split_fields};
use wu_rows::{
    NoAnswer, bytes, bytes_text, list_text, number, number_text, optional_text, plain_text,
};

/// The answer of the call to the arguments.
pub fn answer(alloc: Global, call: &str, arguments: &[&str]) -> Result<String, NoAnswer> {
    match (call, arguments) {
        ("split_fields", [line]) => split(alloc, line),
        ("put_field", [field]) => written_field(alloc, field),
        ("put_decimal", [number]) => written_number(alloc, number),
        ("read_decimal", [field, max]) => number_read(alloc, field, max),
        ("read_octal_mode", [field]) => mode_read(alloc, field),
        _ => Err(NoAnswer::BadRow),
    }
}

fn split(alloc: Global, line: &str) -> Result<String, NoAnswer> {
    let line = bytes(alloc, line)?;
    match split_fields(alloc, &line)? {
        Some(fields) => list_text(alloc, &fields),
        None => plain_text(alloc, "none"),
    }
}

fn written_field(alloc: Global, field: &str) -> Result<String, NoAnswer> {
    let field = bytes(alloc, field)?;
    let mut out = Vec::new(alloc);
    put_field(&mut out, &field)?;
    bytes_text(alloc, &out)
}

fn written_number(alloc: Global, field: &str) -> Result<String, NoAnswer> {
    let mut out = Vec::new(alloc);
    put_decimal(&mut out, number(field)?)?;
    bytes_text(alloc, &out)
}

fn number_read(alloc: Global, field: &str, max: &str) -> Result<String, NoAnswer> {
    let max = number(max)?;
    let field = bytes(alloc, field)?;
    optional_text(alloc, read_decimal(&field, max))
}

fn mode_read(alloc: Global, field: &str) -> Result<String, NoAnswer> {
    let field = bytes(alloc, field)?;
    match read_octal_mode(&field) {
        Some(mode) => number_text(alloc, u64::from(mode)),
        None => plain_text(alloc, "none"),
    }
}
