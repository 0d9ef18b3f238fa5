//! The command line of Wumpus: what its arguments ask for.
#![tactic(auto)]

mod command_lines;
mod reading;

pub use command_lines::{CommandLine, FLUSH_MAX, Settings};
pub use reading::read_command_line;
