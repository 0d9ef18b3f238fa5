//! The layout of the index: which addresses are live, where their postings stand, and how each step
//! changes it. Definitions and laws only, for the crates that keep the layout.
#![tactic(auto)]

mod laws;

pub use laws::{
    background_work_ends_with_few_parts, each_step_keeps_the_layout, live_postings_stay,
};
