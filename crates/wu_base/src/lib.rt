//! What every crate of Wumpus depends on: byte strings, lists, addresses and the limits.
#![tactic(auto)]

mod addresses;
mod ascending;
mod byte_strings;
mod limits;
mod memory;
mod reports;
mod sequences;
mod troubles;

pub use addresses::{Extent, Gid, Ino, PartRec, ROOT, Range, TermList, Uid};
pub use ascending::{is_among, sorted_once};
pub use byte_strings::Bytes;
pub use limits::{
    ADDRESSES_MAX, BLOBS_SPENT_AT, DEPTH_MAX, FLUSH_DEFAULT, GENERATION_MAX, INPUT_MAX, K_MAX,
    LINE_MAX, NAME_MAX, OPERATORS_MAX, PARENS_MAX, RANK_WORDS_MAX, READ_MAX, SNIPPET_MAX, SPENT_AT,
    TEXT_MAX, WORD_MAX, WORK_MAX,
};
pub use memory::NoMemory;
pub use reports::{Stat, Worked};
pub use sequences::Sequence;
pub use troubles::Trouble;
