//! Expressions as rows write them.
use std::alloc::Global;
use wu_gcl::{Expr, parse};
use wu_rows::{NoAnswer, bytes};

/// The expression that the field spells.
pub fn expression(alloc: Global, field: &str) -> Result<Expr, NoAnswer> {
    match parse(alloc, &bytes(alloc, field)?)? {
        Ok(expr) => Ok(expr),
        Err(_) => Err(NoAnswer::BadRow),
    }
}
