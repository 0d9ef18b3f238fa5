//! What is told of the scripts of numbers.
use std::alloc::Global;
use wu_demo::make_script;
use wu_rows::{NoAnswer, bytes_text, flag_text, number, number_text};

/// The answer of the call to the arguments.
pub fn answer(alloc: Global, call: &str, arguments: &[&str]) -> Result<String, NoAnswer> {
    match (call, arguments) {
        ("make_script", [of, asked]) => told(alloc, of, asked),
        _ => Err(NoAnswer::BadRow),
    }
}

/// What is asked of the script of the number.
fn told(alloc: Global, of: &str, asked: &str) -> Result<String, NoAnswer> {
    let of = number(of)?;
    let script = make_script(alloc, of)?;
    match asked {
        "bytes" => number_text(alloc, script.len() as u64),
        "lines" => number_text(alloc, line_count(&script)),
        "checksum" => number_text(alloc, checksum(&script)),
        "same again" => flag_text(alloc, script == make_script(alloc, of)?),
        "first bytes" => bytes_text(alloc, script.get(..300).unwrap_or(&[])),
        "last bytes" => bytes_text(alloc, last_bytes(&script)),
        _ => Err(NoAnswer::BadRow),
    }
}

fn line_count(script: &[u8]) -> u64 {
    script.iter().filter(|byte| **byte == b'\n').count() as u64
}

/// Each byte added to 31 times the checksum of those before it, modulo 2^64.
fn checksum(script: &[u8]) -> u64 {
    let mut sum = 0u64;
    for byte in script {
        sum = sum.wrapping_mul(31).wrapping_add(u64::from(*byte));
    }
    sum
}

/// The last 100 bytes.
fn last_bytes(script: &[u8]) -> &[u8] {
    let start = script.len().saturating_sub(100);
    &script[start..]
}
