//! Calls of a store as rows write them, and their answers.
#![tactic(auto)]

mod calls;

pub use calls::{Call, answer, answers_of, of_bytes, of_nothing, of_size};
