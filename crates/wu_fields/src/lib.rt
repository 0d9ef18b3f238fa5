//! The fields of a script's lines: how byte strings, numbers and modes are spelled in them.
#![tactic(auto)]

mod escaping;
mod numbers;
mod splitting;

pub use escaping::{put_field, read_fields_are_written_back, written_fields_are_read_back};
pub use numbers::{put_decimal, read_decimal, read_octal_mode, written_numbers_are_read_back};
pub use splitting::split_fields;
