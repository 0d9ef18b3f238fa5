//! The words of a byte string, and the tokens of a text with their places.
//!
//! Tags take places among the words, as in Clarke, Cormack and Burkowski, "An Algebra for Structured Text
//! Search and a Framework for its Implementation", The Computer Journal 38(1), 1995; lines are those of
//! POSIX.1, with an incomplete line at the end; words have no case, by the default case folding of The
//! Unicode Standard, section 3.13; which bytes make words is this project's own choice.
#![tactic(auto)]

mod bytes;
mod lowered;
mod pieces;
mod spans;
mod terms;

pub use bytes::is_word_byte;
pub use lowered::Word;
pub use pieces::{Lines, Piece, Runs};
pub use spans::{FILE_END, FILE_START, LINE_END, LINE_START, Token};
pub use terms::{each_word_is_its_own, pieces_give_the_terms, token_count, tokens, words};
