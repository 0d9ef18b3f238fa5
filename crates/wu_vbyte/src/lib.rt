//! The variable-byte code: how numbers, and blocks of ascending addresses, are spelled in bytes of seven bits.
//! The code, also known as unsigned LEB128, and the gaps of a block are as Büttcher, Clarke and Cormack give
//! them in "Information Retrieval", chapter 6.
#![tactic(auto)]

mod blocks;
mod numbers;
mod short;

pub use blocks::{
    BLOCK_LEN, decode_block, each_block_has_one_spelling, is_block, no_block_begins_another,
    put_block, take_block,
};
pub use numbers::{
    each_number_has_one_spelling, next_large, next_number, no_number_begins_another, put_number,
    take_number,
};
