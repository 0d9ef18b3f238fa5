//! The extents that a region expression means, one at a time, from a place on; the program doesn't use
//! this crate yet. They are found by the four access functions of Clarke, Cormack and Burkowski, "An Algebra for
//! Structured Text Search and a Framework for its Implementation", The Computer Journal 38(1), 1995.
//!
//! Within a frame an expression answers its calls from those of its operands. `+`, `^` and `..` ask
//! each operand once for where an extent ends, and once for where one starts. A containment goes over
//! the extents of its left operand, from one to the next, and asks the right one at each; what it
//! answers is remembered until the call leaves the frame.
#![tactic(auto)]

mod access;
mod cursors;
mod directions;
mod frames;
mod lazily;
mod memory;
mod operands;
mod phrases;
mod places;
mod slots;

pub use cursors::Cursor;
pub use lazily::solve_lazily;
