//! Tests as tables: reads rows from standard input, calls what they name, and compares each answer with the expected one. A row is a line
//! with TAB between its fields: the path of a call, its arguments, and the answer. Empty lines and those that begin with `#` are comments.
//! Bytes are written as text, with `\xFF` for a byte that is none, and the escapes `\0`, `\t`, `\n`, `\r` and `\\`.
#![tactic(auto)]

mod answers;
mod arguments;
mod comparing;
mod tables;
mod texts;

pub use answers::{
    bytes_text, extents_text, flag_text, list_text, number_text, numbers_text, optional_text,
    order_text, plain_text, put_extent,
};
pub use arguments::{
    ascending_numbers, byte_strings, bytes, first_word, number, numbers, optional_numbers, pieces,
    small_number, small_numbers,
};
pub use comparing::{NoAnswer, compare};
pub use tables::{Subject, compare_tables};
pub use texts::{script, shown, words};
