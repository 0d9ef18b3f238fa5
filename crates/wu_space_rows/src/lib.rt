//! Ranges of addresses, and files that get and lose them, as rows write them.
#![tactic(auto)]

mod ranges;

pub use ranges::{are_bounded, place, ranges_of, release};
