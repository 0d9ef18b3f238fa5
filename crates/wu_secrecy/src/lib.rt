//! What a user is told over whole histories of sessions depends on what she may search at each of
//! her queries, and on nothing else: noninterference for the output that is hers (Goguen and
//! Meseguer, "Security Policies and Security Models", 1982).
#![tactic(auto)]

mod events;
mod laws;
mod lives;
mod runs;

pub use events::{
    events_below_a_closed_directory, events_that_change_no_links,
    her_view_is_moved_by_what_she_may_see, what_is_unseen_can_be_left_out,
};
pub use laws::{
    a_reply_is_over_her_view, a_session_tells_her_alike, turns_are_the_output,
    two_histories_that_she_cannot_tell_apart, two_machines_tell_her_alike,
};
pub use lives::{a_life_is_a_history, a_restart_changes_no_reply};
pub use runs::{run_in_turns, two_runs_tell_her_alike};
