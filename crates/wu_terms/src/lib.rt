//! A user's terms: the words of her files that begin with a prefix, each with the number of her files that
//! have it.
//!
//! Other engines complete a prefix from the dictionary of the whole index (Büttcher, Clarke and Cormack,
//! Information Retrieval, chapter 4), which tells words of files that the asker may not read. Here the
//! dictionary gives candidates alone: of these, those words are listed that a file of hers has.
#![tactic(auto)]

mod candidates;
mod counting;
mod laws;
mod listing;
mod prefixes;
mod words;

pub use candidates::Candidates;
pub use counting::files_with;
pub use laws::candidates_give_the_terms;
pub use listing::{Listing, TermFiles, list_terms};
pub use prefixes::prefix_of;
