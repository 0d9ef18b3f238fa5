//! The postings of the index: those in memory, and those of the parts in the store. A flush makes a part of those in
//! memory; parts are merged in the background, and rid of dead postings: the index partitions, their merging and the
//! garbage collection of dynamic indices in Büttcher, Clarke and Cormack, Information Retrieval, chapter 7.
#![tactic(auto)]

mod addressing;
mod background;
mod candidates;
mod chains;
mod fetching;
mod flushing;
mod frames;
mod gathered;
mod loading;
mod memory;
mod parts;
mod reading;
mod working;
mod writing;

pub use gathered::Gathered;
pub use parts::{BLOCKS_KEPT, Parts};
