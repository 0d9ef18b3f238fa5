//! The answer to a query: the lists of its terms are fetched, cut to the frames of the user who asks, and counted, shown or ranked.
#![tactic(auto)]

mod counting;
mod exporting;
mod fetching;
mod finding;
mod groups;
mod listing;
mod looking;
mod near;
mod postings;
mod querying;
mod ranking;
mod reading;
mod terms;
mod units;

pub use querying::answered;
pub use reading::read_text;
