//! The script: its lines, the items that they and their bodies make, and the replies.
#![tactic(auto)]

mod acls;
mod bodies;
mod commands;
mod ends;
mod events;
mod input;
mod items;
mod laws;
mod lines;
mod moves;
mod queries;
mod reader;
mod replies;
mod types;
mod words;

pub use commands::read_command;
pub use ends::ReadEnd;
pub use laws::{
    a_closed_item_stays, a_script_gives_few_tokens, an_item_gives_few_tokens,
    items_are_the_first_and_the_rest, whole_items_are_a_prefix,
    whole_items_are_the_first_and_the_rest,
};
pub use moves::move_reply;
pub use reader::Reader;
pub use replies::put_reply;
pub use types::{Command, Item, Line, Reply, Why};
