//! The engine: the file tree and one index of all files, from which each user is answered as if there were her files alone.
#![tactic(auto)]

mod answering;
mod changing;
mod engines;
mod faults;
mod laws;
mod listing;
mod opening;
mod reindexing;
mod renewing;
mod saving;
mod updating;
mod verdicts;

pub use engines::Engine;
pub use faults::BeginFault;
pub use laws::{each_event_keeps_a_state, strays_make_no_difference};
pub use verdicts::Verdict;
