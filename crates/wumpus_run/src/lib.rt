//! The top call of Wumpus: a script comes in from a source, and the replies go to a sink.
#![tactic(auto)]

mod answering;
mod checking;
mod demo;
mod items;
mod laws;
mod sending;
mod session;
mod statuses;
mod tallies;

pub use laws::{
    a_copy_is_answered_alike, a_saved_store_is_sound, a_script_keeps_a_state,
    a_sound_store_is_of_one_state, an_export_makes_the_view_again, equal_views_are_answered_alike,
    no_view_depends_on_flushes_work_or_saves, numbers_stay_within_32_bits,
};
pub use session::run;
pub use statuses::Status;
pub use wu_demo::make_script;
