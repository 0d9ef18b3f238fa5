//! Logarithms.
use std::alloc::Global;
use wu_log2::lg;
use wu_rows::{NoAnswer, number, number_text};

/// The answer of the call to the arguments.
pub fn answer(alloc: Global, call: &str, arguments: &[&str]) -> Result<String, NoAnswer> {
    match (call, arguments) {
        ("lg", [n]) => logarithm(alloc, number(n)?),
        _ => Err(NoAnswer::BadRow),
    }
}

fn logarithm(alloc: Global, n: u64) -> Result<String, NoAnswer> {
    if n < 1 {
        return Err(NoAnswer::BadRow);
    }
    number_text(alloc, u64::from(lg(n)))
}
