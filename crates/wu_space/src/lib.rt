//! The space of addresses: which file's token stands at an address.
#![tactic(auto)]

mod rebuilding;
mod slots;
mod spaces;

pub use spaces::Space;
