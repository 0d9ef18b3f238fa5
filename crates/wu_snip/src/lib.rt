//! Snippets: of an extent of a file's addresses, the first line that shares an address with it.
#![tactic(auto)]

mod numbered;
mod snips;

pub use snips::{Snip, snippet, snippets};
