//! Texts, expressions and the lists of their terms, as rows write them.
#![tactic(auto)]

mod corpus;
mod expressions;

pub use corpus::{
    Corpus, are_apart, corpus_of, frame_of, frames_of, joined_frame, lists_of, places_of, solved,
    word_lists,
};
pub use expressions::expression;
