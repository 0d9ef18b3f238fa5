//! The order in which the program is told what a batch of the mirror changes, so that at no moment anybody
//! but user 0 may search more than before the batch or after it.
#![tactic(auto)]

mod batches;
mod checks;
mod laws;
mod names;
mod plans;
mod rights;

pub use batches::{Batch, CLOSED, Change, Fate, ListChange, Owners, Place, Plan, RightsChange};
pub use checks::{Fault, Misfit, find_misfit};
pub use laws::{
    a_batch_is_carried_out, a_batch_leaves_what_it_tells, a_shut_root_shows_nothing,
    a_view_grows_with_names_and_rights, each_event_is_accepted, nobody_finds_more,
};
pub use plans::plan;
