//! Background jobs on parts of the index: one part is written anew without its dead postings, or two
//! neighbours are merged into one, one term a step. So a log-structured index is kept: Büttcher, Clarke and Cormack,
//! Information Retrieval, chapter 7.
#![tactic(auto)]

mod jobs;
mod laws;
mod lists;
mod live;
mod marks;
mod sources;

pub use jobs::{Job, Progress};
pub use laws::a_job_makes_the_live_postings;
