//! An index over a store in memory, and the steps that are done to it, as rows write them.
#![tactic(auto)]

mod indexes;
mod records;
mod steps;
mod texts;

pub use indexes::{Index, Stop, empty_index, fetch, flush, live_frames, stopped_text, work};
pub use records::records_text;
pub use steps::go_on;
pub use texts::{By, put_text, put_texts};
