//! The script of the demonstration: a large valid input, made from a number. Its fields are drawn by the
//! linear congruential generator of Knuth's MMIX.
#![tactic(auto)]

mod commands;
mod generator;
mod script;
mod texts;

pub use script::make_script;
