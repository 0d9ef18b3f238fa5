//! The addresses of a term in a part that the store holds, cut to frames. Of the part's blocks only those are
//! read that the frames need, and the ones that were asked for last are kept. A list is compressed in blocks, which
//! are decoded one by one (Büttcher, Clarke and Cormack, Information Retrieval, chapter 6).
#![tactic(auto)]

mod blocks;
mod counts;
mod frames;
mod gathering;
mod keeping;
mod lists;
mod sinks;
mod tallies;
mod walking;

pub use blocks::Block;
pub use counts::count_of;
pub use frames::{put_within, tally_within};
pub use gathering::GatheredBlocks;
pub use lists::Lists;
pub use sinks::{AddressSink, Discard};
pub use tallies::Tally;
